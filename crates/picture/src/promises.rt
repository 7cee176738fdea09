// What the definitions of picture promise, as theorems. A function here does nothing: its contract is the theorem.
ghost use Rattle.std.specs.Prelude.{ℕ, List};
ghost use Rattle.picture.specs.Drawn.{PicturesRight, LongestRight, OutputsLeft};
ghost use Rattle.picture.specs.Examples.{ExamplesDraw};

// The rows of sheets that are drawn, texts that are read and pictures that are written hold of the definitions.
pub fn examples_draw()
    ensures { ExamplesDraw }
{}

// A sheet's picture has the sheet's groups and needs; a text is read exactly if it is that of some sheet's picture.
pub fn pictures_are_right()
    ensures { PicturesRight }
{}

// No sheet's text is longer than 7,273 bytes, and some sheet's is that long.
pub fn longest_is_right()
    ensures { LongestRight }
{}

// Drawing and reading leave what they give and what stood behind it, or all as it was.
pub fn outputs_are_left_right()
    ensures { (before : List ℕ) → OutputsLeft before }
{}
