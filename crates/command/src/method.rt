// The method: fulfilling a goal and preparing a move lead to each other, in ever lower groups.
ghost use Rattle.std.specs.Prelude.{◌≡◌, List, ℕ, ◌<◌, length};
ghost use Rattle.sheet.specs.Model.{Model, move_count, move_at, move_of};
ghost use Rattle.plan.specs.Groups.{group_of, group_count};
ghost use Rattle.plan.specs.Reading.{groups_in};
ghost use Rattle.command.specs.Goal.{Masks};
ghost use Rattle.command.specs.Next.{fulfil, follow_by, prepare_by};
ghost use Rattle.command.specs.Kept.Question.{Kept, Listed, AllowedSet, OnlyOutside};
ghost use Rattle.command.specs.Says.{advice_says};

use crate::fitting::{from_now, held_up};
use crate::query::Question;
use plan::sizing::Group;
use sheet::index::Machine;
use sheet::refusal::{Cause, Refusal};

// A command: the machine, and the byte that is sent to it.
#[derive(Clone, Copy)]
pub struct Command {
    pub machine: Machine,
    pub byte: u8,
}

// What is to be done next: a command, or nothing where all is done; or the refusal.
pub type Advice = Result<Option<Command>, Refusal>;

// Prepares a move, by its body, by the groups on which a need of it fails, all of them outside its own: sends it if there is
// none, else fulfils what it needs, on the highest of them.
#[cycle(fulfil_prepare)]
pub fn prepare(question: &Question, b: &[u8], waits: u64) -> Advice
    requires { ((m : Model)
        × Kept m question.now.plan.now question.now.state.now question.now.facts.now question.now.zeros.now question.now.starts.now
        × Listed m question.now.moves.file.now question.now.moves.places.now × (v : ℕ) × (v < move_count m) × (move_of b.now ≡ move_at m v)
        × OnlyOutside (groups_in m question.now.plan.now) question.now.state.now (move_at m v) waits) × (3 < length b.now) }
    ensures { (m : Model) (v : ℕ)
        → Kept m question.now.plan.now question.now.state.now question.now.facts.now question.now.zeros.now question.now.starts.now
        → Listed m question.now.moves.file.now question.now.moves.places.now → v < move_count m → move_of b.now ≡ move_at m v
        → OnlyOutside (groups_in m question.now.plan.now) question.now.state.now (move_at m v) waits
        → advice_says result ≡ prepare_by m question.now.plan.now question.now.state.now
        (λ needs. fulfil m question.now.plan.now question.now.state.now needs
        (group_of (groups_in m question.now.plan.now) (move_at m v).machine))
        (group_of (groups_in m question.now.plan.now) (move_at m v).machine) (move_at m v) }
{
    if waits == 0 {
        return Ok(Some(Command {
            machine: Machine(b[0]),
            byte: b[3],
        }));
    }
    let k = sets::highest(waits);
    let group = Group(k as u8);
    let modes = sets::first(question.size_of(group));
    let wanted = question.digits().meeting(b, group, modes);
    fulfil(question, group, wanted)
}

// Fulfils a goal on its highest unmet group, by the modes of it that are allowed: follows its entry toward the nearest.
#[cycle(fulfil_prepare)]
pub fn fulfil(question: &Question, group: Group, allowed: u64) -> Advice
    requires { (m : Model) × (goal : Masks)
        × Kept m question.now.plan.now question.now.state.now question.now.facts.now question.now.zeros.now question.now.starts.now
        × Listed m question.now.moves.file.now question.now.moves.places.now
        × (group.0 < group_count (groups_in m question.now.plan.now)) × AllowedSet m question.now.plan.now goal group.0 allowed }
    ensures { (m : Model) (goal : Masks)
        → Kept m question.now.plan.now question.now.state.now question.now.facts.now question.now.zeros.now question.now.starts.now
        → Listed m question.now.moves.file.now question.now.moves.places.now → group.0 < group_count (groups_in m question.now.plan.now)
        → AllowedSet m question.now.plan.now goal group.0 allowed
        → advice_says result ≡ follow_by m question.now.plan.now question.now.state.now
        (λ needs. fulfil m question.now.plan.now question.now.state.now needs group.0) goal group.0 }
{
    let cell = question.toward(group, allowed);
    let v = usize::from(cell.first);
    if cell.distance == 255 || question.moves.len() <= v {
        return Err(Cause::BadPlan.at(0));
    }
    let b = question.moves.body(v);
    let own = question.numbers();
    let held = held_up(b, question.state, own);
    if !from_now(b, question.state, own, group) || sets::has(held, usize::from(group.0)) {
        return Err(Cause::BadPlan.at(0));
    }
    if !question.usable(b) {
        return Err(Cause::BadPlan.at(0));
    }
    prepare(question, b, held)
}
