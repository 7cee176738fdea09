// Joining goals: tests 1 to 8 and 21, 14 of the slice and of each goal, 19 and 12, then writes the joined goal.
ghost use Rattle.std.specs.Prelude.{◌≡◌, ◌≤◌, length, get_or, eqb, ◌<◌, IfSome};
ghost use Rattle.std.specs.Option.{unwrap_or};
ghost use Rattle.common.specs.Lists.{up_to, find};
ghost use Rattle.common.specs.Reply.{given, unless, length_of, output_after};
ghost use Rattle.sheet.specs.Model.{Model, machine_count};
ghost use Rattle.plan.specs.Kept.Sizes.{CountsOf};
ghost use Rattle.sheet.specs.Refusal.{measured_of};
ghost use Rattle.joining.specs.Join.{Goals, joined, shared_faults, joined_reply, join_reply};
ghost use Rattle.joining.specs.Kept.Lent.{SplitsShort};

use crate::lent::{check_each, longest, shared, whole};
use command::state::LENGTH;
use sheet::refusal::{Cause, Refusal};
use sheet::writing::put_bytes;

// The first of n machines that is left without a mode.
fn first_without(masks: &[u8], n: usize) -> Option<usize>
    requires { n ≤ length masks.now }
    ensures first { unwrap_or result n ≡ find (λ i. eqb (get_or masks.now i 0) 0) (up_to n) n }
    ensures inside { IfSome result (λ i. i < n) }
{
    for i in 0..n {
        if masks[i] == 0 {
            return Some(i);
        }
    }
    None
}

// Writes the joined goal, for goals that pass 14: 19, 12.
fn write(goals: &[u8], out: &mut [u8]) -> Result<usize, Refusal>
    requires { (each : Goals) × SplitsShort goals.now each }
    ensures reply { (each : Goals) → SplitsShort goals.now each
        → measured_of result ≡ length_of (unless (shared_faults each (length out.old)) (given (joined each))) }
    ensures written { (each : Goals) → SplitsShort goals.now each
        → out.new ≡ output_after (unless (shared_faults each (length out.old)) (given (joined each)))
        out.old }
{
    let n = longest(goals);
    let masks = shared(goals);
    if let Some(without) = first_without(&masks[..], n) {
        return Err(Cause::NoSharedMode.at(without));
    }
    if out.len() < n {
        return Err(Cause::WrongBuffer.at(0));
    }
    put_bytes(out, 0, &masks[..n]);
    Ok(n)
}

// Joins goals for n machines of these mode counts: 14, then the rest.
fn join_goals(goals: &[u8], out: &mut [u8], modes: &[u8], n: usize) -> Result<usize, Refusal>
    requires { ((m : Model) × CountsOf m modes.now × (n ≡ machine_count m)) × (n ≤ 32) × (length modes.now ≡ 32) }
    ensures reply { (m : Model) → CountsOf m modes.now → n ≡ machine_count m
        → measured_of result ≡ length_of (joined_reply m goals.now (length out.old)) }
    ensures written { (m : Model) → CountsOf m modes.now → n ≡ machine_count m
        → out.new ≡ output_after (joined_reply m goals.now (length out.old)) out.old }
{
    if !whole(goals) {
        return Err(Cause::BadGoal.at(LENGTH));
    }
    check_each(goals, modes, n)?;
    write(goals, out)
}

// Joins the goals of a slice into one for a sheet, and replies its length.
pub fn join(file: &[u8], goals: &[u8], out: &mut [u8]) -> Result<usize, Refusal>
    ensures reply { measured_of result
        ≡ length_of (join_reply file.now goals.now (length out.old)) }
    ensures written { out.new
        ≡ output_after (join_reply file.now goals.now (length out.old)) out.old }
{
    let sheet = sheet::scan::read(file)?;
    let modes = sheet.modes;
    join_goals(goals, out, &modes[..], sheet.machines)
}
