// Records of a file: body length and kind, two bytes each, and the body behind them. Kinds mean nothing here.
ghost use Rattle.std.specs.Prelude.{◌≡◌, ◌+◌, ◌*◌, ◌<◌};
ghost use Rattle.sheet.specs.Record.{byte, word, record_at, body_at};

// A whole record: its kind, where its body starts, and how long that is.
#[derive(Clone, Copy, PartialEq, Eq)]
pub struct Record {
    pub kind: u16,
    pub start: usize,
    pub len: usize,
}

// The byte at a place, 0 past the end.
pub fn byte_at(s: &[u8], i: usize) -> u8
    ensures { result ≡ byte s.now i }
{
    s.get(i).copied().unwrap_or(0)
}

// The two-byte number at a place.
pub fn word_at(s: &[u8], i: usize) -> usize
    ensures { (result ≡ word s.now i) × (result < 65536) }
{
    if s.len() <= i {
        return 0;
    }
    usize::from(two_bytes(s[i], byte_at(s, i + 1)))
}

// Two bytes as a number, the low one first.
fn two_bytes(low: u8, high: u8) -> u16
    ensures { result ≡ low + 256 * high }
{
    u16::from_le_bytes([low, high])
}

// The record that begins at a place, if the file has as many bytes as it says; called by the reader alone.
pub fn read(s: &[u8], at: usize) -> Option<Record>
    ensures { result ≡ record_at s.now at }
{
    if s.len() < 4 {
        return None;
    }
    // The last place where a header can stand.
    let last = s.len() - 4;
    if last < at {
        return None;
    }
    let len = usize::from(two_bytes(s[at], s[at + 1]));
    let kind = two_bytes(s[at + 2], s[at + 3]);
    if last - at < len {
        return None;
    }
    Some(Record {
        kind,
        start: at + 4,
        len,
    })
}

// The body of the record that begins at a place, as that part of the file; empty where no whole record begins there.
pub fn body(s: &[u8], at: usize) -> &[u8]
    ensures { result.now ≡ body_at s.now at }
{
    let Some(Record { start, len, .. }) = crate::reader::record_at(s, at) else {
        return &s[..0];
    };
    let end = start + len;
    &s[start..end]
}
