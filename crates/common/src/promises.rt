// What the words of this crate mean, as theorems. A function here does nothing: its contract is the theorem.
ghost use Rattle.std.specs.Prelude.{ℕ};
ghost use Rattle.common.specs.Meaning.{BitsRight, DistancesRight, ListsRight, RepliesRight};

// Each function on lists is what its name says.
pub fn lists_are_right()
    ensures { ListsRight ℕ }
{}

// A number is the sum of its bits' worths, and a set has no mode at or past n exactly if it is below 2 ^ n.
pub fn bits_are_right()
    ensures { BitsRight }
{}

// Nodes are connected exactly if a chain leads from one to the other, and their distance is that of a shortest.
pub fn distances_are_right()
    ensures { DistancesRight }
{}

// The first cause that applies refuses; what is given goes on, and a refusal stays.
pub fn replies_are_right()
    ensures { RepliesRight ℕ ℕ }
{}
