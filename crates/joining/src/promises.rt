// What the definitions of joining promise, as theorems. A function here does nothing: its contract is the theorem.
ghost use Rattle.std.specs.Prelude.{ℕ, List};
ghost use Rattle.joining.specs.Cooks.{EachJoins, cooks};
ghost use Rattle.joining.specs.Joined.{JoinsRight, JoinLeft};

// The rows of cooks at the stove hold of the definitions.
pub fn cooks_join()
    ensures { EachJoins cooks }
{}

// A state meets the joined goal exactly if it meets each; and which goals are not joined, for which first cause.
pub fn joins_are_right()
    ensures { JoinsRight }
{}

// Joining leaves the joined goal and what stood behind it, or all as it was.
pub fn outputs_are_left_right()
    ensures { (sheet lent before : List ℕ) → JoinLeft sheet lent before }
{}
