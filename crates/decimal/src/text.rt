// Bytes compared with a text at a place.
ghost use Rattle.std.specs.Prelude.{◌≡◌, ◌≤◌, ◌<◌, eqb, length, get_or, drop};
ghost use Rattle.decimal.specs.Decimal.{starts_with};

// The byte stands at a place of a text.
pub fn has(text: &[u8], at: usize, b: u8) -> bool
    requires { 0 < b }
    ensures { result ≡ eqb (get_or text.now at 0) b }
{
    at < text.len() && text[at] == b
}

// The bytes stand at a place of a text. They are compared without a way out, so that many go at once.
pub fn stands(text: &[u8], at: usize, bytes: &[u8]) -> bool
    requires { at ≤ length text.now }
    ensures { result ≡ starts_with bytes.now (drop at text.now) }
{
    if text.len() - at < bytes.len() {
        return false;
    }
    let mut same = true;
    for (i, b) in bytes.iter().enumerate() {
        same &= text[at + i] == *b;
    }
    same
}
