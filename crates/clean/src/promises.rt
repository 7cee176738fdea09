// What the clean sheet promises, as theorems. A function here does nothing: its contract is the theorem.
ghost use Rattle.clean.specs.Cleaned.{CleansRight};

// The clean sheet passes and says the same, has no amendment, and is its own clean sheet; 12 is last, and bytes past it stay.
pub fn clean_is_right()
    ensures { CleansRight }
{}
