// What reading a sheet promises, as theorems. A function here does nothing: its contract is the theorem.
ghost use Rattle.sheet.specs.Faulty.{RefusedExactly};
ghost use Rattle.sheet.specs.Meaning.{AcceptedValid, AcceptedWhole, ValidAccepted, RefusedListed, IndexAnswers};

// A sheet that passes 1 to 8 and 21 is valid, and has a machine.
pub fn accepted_is_valid()
    ensures { AcceptedValid }
{}

// A file of bytes that passes is exactly machines, moves, amendments and the end, written out, and its model is what the
// amendments make of the moves: nothing in it is passed over.
pub fn accepted_is_whole()
    ensures { AcceptedWhole }
{}

// Nothing that is right is refused: every such file passes, and is read as that model.
pub fn valid_is_accepted()
    ensures { ValidAccepted }
{}

// A refusal has one of the numbers 1 to 8, or 21, and a place in the file or just behind it.
pub fn refused_is_listed()
    ensures { RefusedListed }
{}

// A file is refused with a number and a place exactly if its first faulty record has that as its lowest number.
pub fn refused_is_exact()
    ensures { RefusedExactly }
{}

// Each answer of the index is the model's field.
pub fn index_answers()
    ensures { IndexAnswers }
{}
