// What the definitions of a plan mean, as theorems. A function here does nothing: its contract is the theorem.
ghost use Rattle.std.specs.Prelude.{ℕ, List};
ghost use Rattle.sheet.specs.Model.{Model};
ghost use Rattle.sheet.specs.Valid.{Valid};
ghost use Rattle.plan.specs.Groups.{groups_of};
ghost use Rattle.plan.specs.Laws.{Lawful};
ghost use Rattle.plan.specs.Meaning.{GroupsRight, ModesRight};
ghost use Rattle.plan.specs.Promised.{BoundsRight, LeftRight, OwnUsable, Planned, PlannedStill, Replied, ScratchRight, SheetFirst, UsableRight};
ghost use Rattle.plan.specs.Shape.{ShapesRight};
ghost use Rattle.plan.specs.Shown.{ShownRight};

// The groups of a sheet are its sets of mutual need, and the needed ones have lower numbers.
pub fn groups_are_right()
    ensures { (m : Model) → Valid m → GroupsRight m (groups_of m) }
{}

// A group mode's number and its machines' modes translate both ways.
pub fn modes_are_right()
    ensures { (m : Model) → Valid m → (k : ℕ) → ModesRight m (groups_of m) k }
{}

// A move is computed as usable exactly if it is usable by its meaning.
pub fn usable_is_right()
    ensures { (m : Model) → Valid m → UsableRight m (groups_of m) }
{}

// The bound of every sheet that passes 1 to 8 and 21 is the sum of the costs.
pub fn bounds_are_right()
    ensures { BoundsRight }
{}

// No bound is larger than it would be if every move counted; what would be accepted then is accepted, and but for the bound the plan is the
// same.
pub fn planned_is_planned_still()
    ensures { PlannedStill }
{}

// The replies of planning and of the plan's length: 9 to 12, the first that applies.
pub fn replies_are_right()
    ensures { Replied }
{}

// A sheet that is refused is refused alike by planning and by the plan's length.
pub fn sheet_comes_first()
    ensures { SheetFirst }
{}

// From 512 bytes up the length of the scratch changes no reply, and so no plan; below 512 no plan is given.
pub fn scratches_are_right()
    ensures { (sheet : List ℕ) (buffer : ℕ) → ScratchRight sheet buffer }
{}

// What planning leaves in the lent plan buffer and scratch: the plan and zeros, or all as it was.
pub fn buffers_are_left_right()
    ensures { (sheet buffer scratch : List ℕ) → LeftRight sheet buffer scratch }
{}

// A plan of bytes passes the test of its shape exactly if it has it, and what is read in it stands in its records.
pub fn shapes_are_right()
    ensures { ShapesRight }
{}

// Which moves are usable by the routes that a plan shows, under any plan in shape; these count for upstream.
pub fn shown_is_right()
    ensures { ShownRight }
{}

// Under the plan that planning wrote these are the usable moves.
pub fn own_usable_is_right()
    ensures { OwnUsable }
{}

// Demand 2: the plan that planning wrote is right, entry by entry, with its bound and its bytes.
pub fn plan_is_right()
    ensures { Planned }
{}

// The plan that planning wrote has the laws that arrival rests on.
pub fn plan_is_lawful()
    ensures { Lawful }
{}
