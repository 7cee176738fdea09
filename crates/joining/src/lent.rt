// The goals that are lent in one slice, each after a byte with its length: how many they may be, each of them tested (14), the
// longest, and what all of them allow.
ghost use Rattle.std.specs.Prelude.{◌≡◌, ℕ, ◌+◌, ◌≤◌, ◌<◌, length, get_or};
ghost use Rattle.std.specs.Iterator.{at_most};
ghost use Rattle.common.specs.Reply.{given, unless};
ghost use Rattle.sheet.specs.Record.{byte};
ghost use Rattle.sheet.specs.Model.{Model, machine_count};
ghost use Rattle.plan.specs.Kept.Sizes.{CountsOf};
ghost use Rattle.sheet.specs.Refusal.{verdict_says};
ghost use Rattle.joining.specs.Join.{Goals, most_goals, goals_in, shared_modes, longest_goal, each_faults};
ghost use Rattle.joining.specs.Kept.Lent.{is_given, Splits, SplitsShort, narrowed};

use command::goal::check;
use sheet::index::Sheet;
use sheet::refusal::Refusal;

// Goals that are joined.
#[derive(Clone, Copy)]
pub struct Joint;

impl Joint {
    // At most so many.
    pub const GOALS: usize = 8;
}

// The place behind the goal that begins at a place.
fn behind(goals: &[u8], at: usize) -> usize
    requires { at < length goals.now }
    ensures { result ≡ at + 1 + byte goals.now at }
{
    at + 1 + usize::from(goals[at])
}

// The goals of a slice that are still to come.
#[derive(Clone, Copy)]
struct Coming<'a> {
    rest: &'a [u8],
}

// The goals of a slice, one after the other: what a loop over them goes through.
fn each(goals: &[u8]) -> Coming<'_>
    ensures { result.rest.now ≡ goals.now }
{
    Coming { rest: goals }
}

impl<'a> Iterator for Coming<'a> {
    ghost use Rattle.joining.specs.Kept.Coming.{GivesGoal};

    type Item = &'a [u8];

    ghost next_gives = { GivesGoal };

    ghost remaining = { λ m. at_most (length m.rest.now) };

    // A goal that is cut short ends with the slice.
    fn next(&mut self) -> Option<&'a [u8]> {
        let (len, behind) = self.rest.split_first()?;
        let (goal, rest) = behind.split_at(usize::from(*len).min(behind.len()));
        self.rest = rest;
        Some(goal)
    }
}

// Whether there are at most eight goals, the last of them whole.
pub fn whole(goals: &[u8]) -> bool
    ensures { result ≡ is_given (goals_in most_goals goals.now) }
{
    let mut at: usize = 0;
    for _ in 0..Joint::GOALS {
        if goals.len() <= at {
            break;
        }
        at = behind(goals, at);
    }
    at == goals.len()
}

// Tests each goal in turn, for n machines of these mode counts: 14.
pub fn check_each(goals: &[u8], modes: &[u8], n: usize) -> Result<(), Refusal>
    requires { ((each : Goals) × Splits goals.now each) × (n ≤ 32) × (length modes.now ≡ 32) }
    ensures { (m : Model) (each : Goals) → CountsOf m modes.now → n ≡ machine_count m
        → Splits goals.now each → verdict_says result ≡ unless (each_faults m each) (given tt) }
{
    for goal in each(goals) {
        check(goal, modes, n)?;
    }
    Ok(())
}

// The length of the longest goal.
pub fn longest(goals: &[u8]) -> usize
    requires { (each : Goals) × Splits goals.now each }
    ensures { (each : Goals) → Splits goals.now each → result ≡ longest_goal each }
{
    let mut r: usize = 0;
    for goal in each(goals) {
        r = r.max(goal.len());
    }
    r
}

// Takes away what a goal does not allow.
fn narrow(masks: &mut [u8], goal: &[u8])
    requires { length goal.now ≤ length masks.old }
    ensures { masks.new ≡ narrowed masks.old goal.now }
{
    for i in 0..goal.len() {
        masks[i] &= goal[i];
    }
}

// What all goals allow each machine.
pub fn shared(goals: &[u8]) -> [u8; Sheet::MACHINES]
    requires { (each : Goals) × SplitsShort goals.now each }
    ensures { (each : Goals) → SplitsShort goals.now each → (i : ℕ) → i < 32
        → get_or result i 0 ≡ shared_modes each i }
{
    let mut r = [255u8; Sheet::MACHINES];
    for goal in each(goals) {
        narrow(&mut r[..], goal);
    }
    r
}
