// Writing records and other bytes into a buffer that is lent for them.
ghost use Rattle.std.specs.Prelude.{◌≡◌, ◌++◌, ◌+◌, ◌≤◌, length};
ghost use Rattle.sheet.specs.Record.{two_bytes};
ghost use Rattle.sheet.specs.Kept.Written.{written};

// Writes a number at a place, two bytes.
pub fn put_two(buffer: &mut [u8], at: usize, n: usize)
    requires { at + 2 ≤ length buffer.old }
    ensures { buffer.new ≡ written at (two_bytes n) buffer.old }
{
    buffer[at] = (n % 256) as u8;
    buffer[at + 1] = (n / 256 % 256) as u8;
}

// Writes a record's header at a place: the length of its body and its kind.
pub fn put_header(buffer: &mut [u8], at: usize, len: usize, kind: u8)
    requires { at + 4 ≤ length buffer.old }
    ensures { buffer.new ≡ written at (two_bytes len ++ two_bytes kind) buffer.old }
{
    put_two(buffer, at, len);
    put_two(buffer, at + 2, usize::from(kind));
}

// Writes bytes at a place.
pub fn put_bytes(buffer: &mut [u8], at: usize, bytes: &[u8])
    requires { at + length bytes.now ≤ length buffer.old }
    ensures { buffer.new ≡ written at bytes.now buffer.old }
{
    // Not `copy_from_slice`: for a few bytes a loop is faster, and it needs no `memmove` of who links the library.
    for i in 0..bytes.len() {
        buffer[at + i] = bytes[i];
    }
}
