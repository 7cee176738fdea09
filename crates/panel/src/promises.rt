// What the calls of panel promise together, as theorems. A function here does nothing: its contract is the theorem.
ghost use Rattle.panel.specs.Alike.{AmendedSame};
ghost use Rattle.panel.specs.Apart.{AllApart};

// Every call's word can be taken apart again: into a refusal's number and place, or into what the call gives.
pub fn words_come_apart()
    ensures { AllApart }
{}

// Every call that takes a sheet replies the same of an amended sheet as of its clean one, and so does the walk.
pub fn amended_is_clean()
    ensures { AmendedSame }
{}
