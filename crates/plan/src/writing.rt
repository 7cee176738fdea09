// Writing a plan's bytes into the buffer that is lent for them.
ghost use Rattle.std.specs.Prelude.{◌≡◌, [], ◌++◌, ◌+◌, ◌≤◌, length, replicate};
ghost use Rattle.sheet.specs.Record.{record_of};
ghost use Rattle.plan.specs.Bytes.{four_bytes};
ghost use Rattle.sheet.specs.Kept.Written.{written};

use sheet::kind::Kind;
use sheet::writing::{put_bytes, put_header, put_two};

// Writes the bound at a place, four bytes.
pub fn put_bound(plan: &mut [u8], at: usize, bound: u32)
    requires { at + 4 ≤ length plan.old }
    ensures { plan.new ≡ written at (four_bytes bound) plan.old }
{
    put_two(plan, at, (bound % 65536) as usize);
    put_two(plan, at + 2, (bound / 65536) as usize);
}

// Writes the record of the group numbers, the first of a plan.
pub fn put_start(plan: &mut [u8], numbers: &[u8])
    requires { 4 + length numbers.now ≤ length plan.old }
    ensures { plan.new ≡ written 0 (record_of 16 numbers.now) plan.old }
{
    put_header(plan, 0, numbers.len(), u8::from(Kind::Numbers));
    put_bytes(plan, 4, numbers);
}

// Writes the last two records of a plan, the bound and the end, at a place.
pub fn put_end(plan: &mut [u8], at: usize, bound: u32)
    requires { at + 12 ≤ length plan.old }
    ensures { plan.new
        ≡ written at (record_of 18 (four_bytes bound) ++ record_of 3 []) plan.old }
{
    put_header(plan, at, 4, u8::from(Kind::Bound));
    put_bound(plan, at + 4, bound);
    put_header(plan, at + 8, 0, u8::from(Kind::End));
}

// Writes zeros.
pub fn clear(bytes: &mut [u8])
    ensures { bytes.new ≡ replicate (length bytes.old) 0 }
{
    bytes.fill(0);
}
