// The caller's goal ("wish"): its test (14), what it allows each machine, the groups that it leaves unmet, and the modes of a
// group that it allows.
ghost use Rattle.std.specs.Prelude.{◌≡◌, List, true, cond, ℕ, ◌≤◌, length, get_or, ltb, ◌<◌, IfSome};
ghost use Rattle.std.specs.Option.{unwrap_or};
ghost use Rattle.common.specs.Lists.{up_to, find};
ghost use Rattle.common.specs.Reply.{given, unless, clear};
ghost use Rattle.sets.specs.Kept.Sets.{below};
ghost use Rattle.sheet.specs.Record.{byte};
ghost use Rattle.sheet.specs.Model.{Model, machine_count};
ghost use Rattle.sheet.specs.Valid.{Valid};
ghost use Rattle.plan.specs.Kept.Sizes.{CountsOf};
ghost use Rattle.plan.specs.Kept.Partition.{MemberSets};
ghost use Rattle.plan.specs.Reading.{groups_in};
ghost use Rattle.sheet.specs.Refusal.{verdict_says};
ghost use Rattle.command.specs.Goal.{bad_byte, goal_faults};
ghost use Rattle.command.specs.Goal.{Masks, goal_masks};
ghost use Rattle.command.specs.Kept.Question.{Allows, Placed, Kept, GroupsOnly, UnmetSet, AllowedSets};

use crate::query::Question;
use crate::state::{LENGTH, mode_at};
use plan::sizing::{Group, group_of};
use plan::standing::within;
use sheet::bits::{has_beyond, has_mode};
use sheet::index::{Machine, Sheet};
use sheet::refusal::{Cause, Refusal};

// The first byte that is empty or beyond its machine's modes.
fn first_bad(goal: &[u8], modes: &[u8]) -> Option<usize>
    requires { (length goal.now ≤ 32) × (length modes.now ≡ 32) }
    ensures first { (m : Model) → CountsOf m modes.now
        → unwrap_or result (length goal.now) ≡ find (bad_byte m goal.now) (up_to (length goal.now)) (length goal.now) }
    ensures inside { IfSome result (λ i. i < length goal.now) }
{
    for (i, &mask) in goal.iter().enumerate() {
        if mask == 0 || has_beyond(modes[i], mask) {
            return Some(i);
        }
    }
    None
}

// Tests a goal for n machines of these mode counts: 14.
pub fn check(goal: &[u8], modes: &[u8], n: usize) -> Result<(), Refusal>
    requires { (n ≤ 32) × (length modes.now ≡ 32) }
    ensures { (m : Model) → CountsOf m modes.now → n ≡ machine_count m
        → verdict_says result ≡ unless (goal_faults m goal.now) (given tt) }
{
    if n < goal.len() {
        return Err(Cause::BadGoal.at(LENGTH));
    }
    if let Some(bad) = first_bad(goal, modes) {
        return Err(Cause::BadGoal.at(bad));
    }
    Ok(())
}

// What a goal allows a machine of so many modes: any of them past the goal's end.
fn mask_of(goal: &[u8], m: Machine, modes: u8) -> u8
    requires { modes ≤ 8 }
    ensures { result ≡ cond (ltb m.0 (length goal.now)) (byte goal.now m.0)
        (below modes) }
{
    let i = usize::from(m.0);
    if i < goal.len() {
        return goal[i];
    }
    sets::first(usize::from(modes)) as u8
}

// What a goal allows each of n machines.
pub fn wished(goal: &[u8], modes: &[u8], n: usize) -> [u8; Sheet::MACHINES]
    requires { (n ≤ 32) × (length modes.now ≡ 32) × ((i : ℕ) → get_or modes.now i 0 ≤ 8) }
    ensures { (m : Model) → Valid m → CountsOf m modes.now → n ≡ machine_count m
        → clear (goal_faults m goal.now) ≡ true → Allows m (goal_masks m goal.now) result }
{
    let mut r = [0u8; Sheet::MACHINES];
    for i in 0..n {
        r[i] = mask_of(goal, Machine(i as u8), modes[i]);
    }
    r
}

// The groups that are left unmet, by what each machine is allowed.
pub fn unmet(masks: &[u8], state: &[u8], numbers: &[u8]) -> u64
    requires { ((m : Model) × (plan : List ℕ) × Placed m plan state.now numbers.now) × (length masks.now ≡ 32) }
    ensures { (m : Model) (plan : List ℕ) (goal : Masks) → Placed m plan state.now numbers.now
        → Allows m goal masks.now → UnmetSet m plan state.now goal result }
{
    let mut r: u64 = 0;
    for i in 0..numbers.len() {
        let m = Machine(i as u8);
        let k = usize::from(group_of(numbers, m).0);
        r = sets::put_if(r, k, !has_mode(masks[i], mode_at(state, m)));
    }
    r
}

// For each of some groups, its modes that are allowed.
pub fn allowed_sets(
    question: &Question,
    masks: &[u8],
    members: &[u64],
    among: u64,
) -> [u64; Sheet::MACHINES]
    requires { ((m : Model) × (plan : List ℕ) × (state : List ℕ) × (starts : List ℕ) × (goal : Masks)
        × Kept m plan state question.now.facts.now question.now.zeros.now starts
        × Allows m goal masks.now × GroupsOnly m plan among
        × MemberSets (groups_in m plan) members.now) × (length masks.now ≡ 32) × (length members.now ≡ 32) }
    ensures { (m : Model) (plan state starts : List ℕ) (goal : Masks)
        → Kept m plan state question.now.facts.now question.now.zeros.now starts
        → Allows m goal masks.now → GroupsOnly m plan among
        → MemberSets (groups_in m plan) members.now → AllowedSets m plan goal among result }
{
    let mut r = [0u64; Sheet::MACHINES];
    for k in sets::each(among) {
        let n = question.size_of(Group(k as u8));
        r[k] = within(masks, question.weights(), question.zeros, members[k], n);
    }
    r
}
