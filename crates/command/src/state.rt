// The lent state: a mode and a tag for each machine (13), and the mode that each group is in.
ghost use Rattle.std.specs.Prelude.{◌≡◌, true, ℕ, ◌+◌, ◌*◌, ◌≤◌, ◌<◌, length, get_or, set, IfSome};
ghost use Rattle.std.specs.Option.{unwrap_or};
ghost use Rattle.common.specs.Lists.{up_to, find};
ghost use Rattle.common.specs.Reply.{given, unless, clear};
ghost use Rattle.sheet.specs.Model.{Model, machine_count};
ghost use Rattle.plan.specs.Kept.Sizes.{CountsOf};
ghost use Rattle.plan.specs.Groups.{group_count};
ghost use Rattle.plan.specs.Modes.{mode_number};
ghost use Rattle.plan.specs.Kept.ModeSets.{Weighed};
ghost use Rattle.sheet.specs.Refusal.{verdict_says};
ghost use Rattle.command.specs.Kept.Question.{machines_in};
ghost use Rattle.command.specs.State.{modes, mode_of, tag_of, with_mode, bad_pair, state_faults};

use plan::sizing::group_of;
use sheet::index::{Machine, Sheet};
use sheet::record::byte_at;
use sheet::refusal::{Cause, Refusal};

// The place of 13 and 14 where a length is wrong.
pub const LENGTH: usize = 255;

// How many machines a state is for.
pub fn machines_in(state: &[u8]) -> usize
    ensures { result ≡ machines_in state.now }
{
    state.len() / 2
}

// The mode of a machine, of those that a state is for. This function and the next three alone read a state's bytes.
pub fn mode_at(state: &[u8], m: Machine) -> u8
    requires { 2 * m.0 < length state.now }
    ensures { result ≡ mode_of state.now m.0 }
{
    state[2 * usize::from(m.0)]
}

// Its tag: 1 if nobody may move it, else 0.
pub fn tag_at(state: &[u8], m: Machine) -> u8
    requires { 2 * m.0 + 1 < length state.now }
    ensures { result ≡ tag_of state.now m.0 }
{
    state[2 * usize::from(m.0) + 1]
}

// The mode of any machine, 0 where the state is too short to have it.
pub fn mode_of(state: &[u8], m: Machine) -> u8
    ensures { result ≡ mode_of state.now m.0 }
{
    byte_at(state, 2 * usize::from(m.0))
}

// Its tag.
pub fn tag_of(state: &[u8], m: Machine) -> u8
    ensures { result ≡ tag_of state.now m.0 }
{
    byte_at(state, 2 * usize::from(m.0) + 1)
}

// Puts a machine into a mode: the only writer.
pub fn put_mode(state: &mut [u8], m: Machine, mode: u8)
    requires { 2 * m.0 < length state.old }
    ensures { state.new ≡ with_mode state.old m.0 mode }
{
    let i = 2 * usize::from(m.0);
    state[i] = mode;
}

// The first of n machines whose mode is absent or whose tag is neither 0 nor 1.
fn first_bad(state: &[u8], modes: &[u8], n: usize) -> Option<usize>
    requires { (n ≤ 32) × (length modes.now ≡ 32) × (length state.now ≡ 2 * n) }
    ensures first { (m : Model) → CountsOf m modes.now
        → unwrap_or result n ≡ find (bad_pair m state.now) (up_to n) n }
    ensures inside { IfSome result (λ i. i < n) }
{
    for i in 0..n {
        let m = Machine(i as u8);
        if modes[i] <= mode_at(state, m) || 2 <= tag_at(state, m) {
            return Some(i);
        }
    }
    None
}

// Tests a state for n machines of these mode counts: 13.
pub fn check(state: &[u8], modes: &[u8], n: usize) -> Result<(), Refusal>
    requires { (n ≤ 32) × (length modes.now ≡ 32) }
    ensures { (m : Model) → CountsOf m modes.now → n ≡ machine_count m
        → verdict_says result ≡ unless (state_faults m state.now) (given tt) }
{
    if state.len() != 2 * n {
        return Err(Cause::BadState.at(LENGTH));
    }
    if let Some(bad) = first_bad(state, modes, n) {
        return Err(Cause::BadState.at(bad));
    }
    Ok(())
}

// The mode that each group is in.
pub fn present(state: &[u8], numbers: &[u8], weights: &[u8]) -> [u8; Sheet::MACHINES]
    requires { (m : Model) × Weighed m numbers.now weights.now × (clear (state_faults m state.now) ≡ true)
        × ((i : ℕ) → i < length numbers.now → get_or numbers.now i 0 < 32) }
    ensures { (m : Model) → Weighed m numbers.now weights.now
        → clear (state_faults m state.now) ≡ true → (k : ℕ) → k < 32
        → get_or result k 0 ≡ mode_number m numbers.now k (modes state.now) }
{
    let mut r = [0u8; Sheet::MACHINES];
    for i in 0..numbers.len() {
        let m = Machine(i as u8);
        let k = usize::from(group_of(numbers, m).0);
        r[k] += mode_at(state, m) * weights[i];
    }
    r
}
