// What the definitions of decimal promise, as a theorem. The function here does nothing: its contract is the theorem.
ghost use Rattle.decimal.specs.Meaning.{DecimalRight};

// What is written is read back, and has no leading zero.
pub fn decimals_are_right()
    ensures { DecimalRight }
{}
