// What the definitions of commands and runs promise, as theorems. A function here does nothing: its contract is the theorem.
ghost use Rattle.std.specs.Prelude.{ℕ, List};
ghost use Rattle.command.specs.Ancestors.{UpstreamRight};
ghost use Rattle.command.specs.Applying.{AppliesRight, StateLeft};
ghost use Rattle.command.specs.Arrival.{Arrival, ArrivalOfLaws};
ghost use Rattle.command.specs.Before.{CoveredStill, FewerUpstream};
ghost use Rattle.command.specs.Cases.{AllHold, cases};
ghost use Rattle.command.specs.Covered.{CoveredExactly};
ghost use Rattle.command.specs.Meaning.{GoalsRight, MovesRight, StatesRight};
ghost use Rattle.command.specs.Method.{MethodFollowed};
ghost use Rattle.command.specs.Tagless.{TaglessSame};
ghost use Rattle.command.specs.Tags.{LaidOut, NeverTagged, TagsAside};
ghost use Rattle.command.specs.TurnedDown.{FirstFound, GoalPasses, SheetBefore, StatePasses, TurnedDown};
ghost use Rattle.command.specs.Uncovered.{UncoveredRefused};
ghost use Rattle.command.specs.Walked.{WalksRight};
ghost use Rattle.command.specs.Walking.{TurnsRight};

// Cases 1 to 8 of document 01 hold of the definitions, and so do the rows for what they leave out.
pub fn cases_hold()
    ensures { AllHold cases }
{}

// A sheet that is refused is refused alike by next command and by applying, before all else.
pub fn sheet_comes_first()
    ensures { SheetBefore }
{}

// A state passes 13 exactly if it has a mode and a tag for each machine, the machine has the mode, and the tag is 0 or 1.
pub fn states_pass()
    ensures { StatePasses }
{}

// A goal passes 14 exactly if each of its bytes holds a mode of its machine and none beyond.
pub fn goals_pass()
    ensures { GoalPasses }
{}

// A state or a goal that is long enough and does not pass has a first machine at which it does not.
pub fn first_wrong_is_found()
    ensures { FirstFound }
{}

// A plan out of shape, a faulty state and a faulty goal are refused by 15, 13 and 14, in this order, each at its place.
pub fn faulty_bytes_are_turned_down()
    ensures { TurnedDown }
{}

// The group modes of a state are its machines' modes; a group is live if each of its machines is in a live mode and has no
// tag, and met if each is in a mode that is allowed.
pub fn states_are_right()
    ensures { StatesRight }
{}

// A goal allows a machine what its byte or the move's need says, and any mode where there is none.
pub fn goals_are_right()
    ensures { GoalsRight }
{}

// The mode of a machine is byte 2 i of a state, its tag byte 2 i + 1.
pub fn states_are_laid_out()
    ensures { LaidOut }
{}

// A move leads to the group mode in which its machine alone has changed.
pub fn moves_are_right()
    ensures { MovesRight }
{}

// A command acts by the move that answers it: that one machine takes the to mode, and else nothing changes.
pub fn applying_is_right()
    ensures { AppliesRight }
{}

// Applying leaves the state that it replied, or all as it was.
pub fn states_are_left_right()
    ensures { (sheet state : List ℕ) (machine command : ℕ) → StateLeft sheet state machine command }
{}

// Upstream is need, directly or through others.
pub fn upstream_is_right()
    ensures { UpstreamRight }
{}

// Upstream is never more than it would be if every move counted.
pub fn upstream_is_fewer()
    ensures { FewerUpstream }
{}

// Under the sheet's own plan, a goal that would be covered if every move counted is covered, and gets the reply that it would get then.
pub fn covered_is_covered_still()
    ensures { CoveredStill }
{}

// A goal is covered exactly if none of 16, 17 and 18 applies.
pub fn covered_is_exact()
    ensures { CoveredExactly }
{}

// A goal that is not covered is refused by the highest-numbered unmet group that has a cause, by its first of 16 to 18.
pub fn uncovered_is_refused()
    ensures { UncoveredRefused }
{}

// Demand 2, on commands: under any plan in shape, the reply for a covered goal is what the method picks, and that alone.
pub fn method_is_followed()
    ensures { MethodFollowed }
{}

// No command is sent to a tagged machine, under any plan.
pub fn tagged_machines_stay()
    ensures { NeverTagged }
{}

// A tag on a machine that no unmet group needs, and that is of none, hinders nothing.
pub fn tags_aside_hinder_nothing()
    ensures { TagsAside }
{}

// A state with no tags gets the replies that its modes alone would get.
pub fn tagless_is_the_same()
    ensures { TaglessSame }
{}

// Any plan that has the laws of a plan earns arrival.
pub fn lawful_plans_arrive()
    ensures { ArrivalOfLaws }
{}

// Demand 3: from any sheet that planning accepts, its own plan, any state and any covered goal, every run keeps its promise.
pub fn every_run_arrives()
    ensures { Arrival }
{}

// The walk prints the lines of obeying its own commands, to the end.
pub fn walks_are_right()
    ensures { WalksRight }
{}

// Planning into a buffer that is long enough begins the walk, and each turn gives its next line.
pub fn turns_are_right()
    ensures { (sheet state goal : List ℕ) → TurnsRight sheet state goal }
{}
