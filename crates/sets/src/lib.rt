// Sets of numbers below 64, each a u64: number i is in the set s where bit i, worth 2 ^ i, is set.
#![tactic(auto)]

ghost use Rattle.std.specs.Prelude.{◌≡◌, true, false, ◌&&◌, ◌||◌, ℕ, ◌<◌, ◌≤◌, eqb, length};
ghost use Rattle.std.specs.Iterator.{at_most};
ghost use Rattle.common.specs.Bits.{bit};
ghost use Rattle.sets.specs.Kept.Sets.{alone, below, union, both, less, raised, lowered, least, elements};

// Numbers that a set can hold.
pub const NUMBERS: usize = 64;

// The set of one number.
pub fn one(i: usize) -> u64
    requires { i < 64 }
    ensures { result ≡ alone i }
{
    1u64 << i
}

// The set of the numbers below n.
pub fn first(n: usize) -> u64
    requires { n ≤ 64 }
    ensures { result ≡ below n }
{
    if n < 64 {
        return one(n) - 1;
    }
    u64::MAX
}

// Whether a number is in the set.
pub fn has(s: u64, i: usize) -> bool
    requires { i < 64 }
    ensures { result ≡ bit s i }
{
    (s >> i) % 2 == 1
}

// The numbers of either set.
pub fn join(a: u64, b: u64) -> u64
    ensures { result ≡ union a b }
{
    a | b
}

// The numbers of both sets.
pub fn meet(a: u64, b: u64) -> u64
    ensures { result ≡ both a b }
{
    a & b
}

// The numbers of a that are not in b.
pub fn minus(a: u64, b: u64) -> u64
    ensures { result ≡ less a b }
{
    a & !b
}

// The set and one number more.
pub fn with(s: u64, i: usize) -> u64
    requires { i < 64 }
    ensures { result ≡ union s (alone i) }
{
    join(s, one(i))
}

// The set with i where i is below 64.
pub fn put(s: u64, i: usize) -> u64
    ensures { (j : ℕ) → j < 64 → bit result j ≡ (bit s j || eqb i j) }
{
    if i < 64 {
        return with(s, i);
    }
    s
}

// The set, with i only if that is wanted.
pub fn put_if(s: u64, i: usize, wanted: bool) -> u64
    requires { i < 64 }
    ensures { (j : ℕ) → bit result j ≡ (bit s j || (wanted && eqb i j)) }
{
    if wanted {
        return with(s, i);
    }
    s
}

// The set but for one number.
pub fn without(s: u64, i: usize) -> u64
    requires { i < 64 }
    ensures { result ≡ less s (alone i) }
{
    minus(s, one(i))
}

// The least number of a set; 64 for none, not an Option: it is the one instruction, and who calls it has a set with a number.
pub fn lowest(s: u64) -> usize
    ensures { result ≡ least s }
{
    u64::trailing_zeros(s) as usize
}

// The set without its least member.
pub fn rest(s: u64) -> u64
    requires { 0 < s }
    ensures { result ≡ less s (alone (least s)) }
{
    s & (s - 1)
}

// The greatest number of a set.
pub fn highest(s: u64) -> usize
    requires { 0 < s }
    ensures { (result < 64) × (bit s result ≡ true) × ((j : ℕ) → result < j → bit s j ≡ false) }
{
    63 - u64::leading_zeros(s) as usize
}

// Each number raised by k; those that come to 64 or more are left out.
pub fn up(s: u64, k: usize) -> u64
    requires { k < 64 }
    ensures { result ≡ raised s k }
{
    s << k
}

// Each number lowered by k; those below k are left out.
pub fn down(s: u64, k: usize) -> u64
    requires { k < 64 }
    ensures { result ≡ lowered s k }
{
    s >> k
}

// The members of a set that are still to come, least first.
#[derive(Clone, Copy)]
pub struct Ascending {
    pub rest: u64,
}

// The members of a set, least first: what a loop over the set goes through.
pub fn each(s: u64) -> Ascending
    ensures { result.rest ≡ s }
{
    Ascending { rest: s }
}

impl Iterator for Ascending {
    ghost use Rattle.sets.specs.Kept.Members.{GivesLeast};

    type Item = usize;

    ghost next_gives = { GivesLeast };

    ghost remaining = { λ m. at_most (length (elements m.rest)) };

    fn next(&mut self) -> Option<usize> {
        if self.rest == 0 {
            return None;
        }
        let i = lowest(self.rest);
        self.rest = rest(self.rest);
        Some(i)
    }
}

// From the other end: the greatest first.
impl DoubleEndedIterator for Ascending {
    ghost use Rattle.sets.specs.Kept.Members.{GivesGreatest};

    ghost next_back_gives = { GivesGreatest };

    fn next_back(&mut self) -> Option<usize> {
        if self.rest == 0 {
            return None;
        }
        let i = highest(self.rest);
        self.rest = without(self.rest, i);
        Some(i)
    }
}
