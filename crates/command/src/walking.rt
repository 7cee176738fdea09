// The walk: planning into the front of a buffer, then turn after turn, each asking for the next command and obeying it.
ghost use Rattle.std.specs.Prelude.{◌≡◌, length, min};
ghost use Rattle.common.specs.Reply.{given, output_after};
ghost use Rattle.plan.specs.Planning.{length_reply, plan_reply, scratch_after};
ghost use Rattle.command.specs.Walk.{obey_reply, turn_reply};
ghost use Rattle.command.specs.Says.{move_made};
ghost use Rattle.command.specs.Walking.{plan_front, start_reply, start_says, turn_told, turn_leaves, turn_says};

use crate::acting::apply;
use crate::advising::next;
use crate::method::Command;
use plan::making::plan;
use plan::measure::plan_length;
use plan::reading::bound;
use sheet::index::Move;
use sheet::refusal::Refusal;

// How long the plan is, and its bound.
#[derive(Clone, Copy)]
pub struct Started {
    pub bytes: usize,
    pub bound: u64,
}

// A command that was obeyed, and the move that it was, if a machine changed.
#[derive(Clone, Copy)]
pub struct Obeyed {
    pub command: Command,
    pub made: Option<Move>,
}

impl Obeyed {
    // The number of the move that it was, 255 for none.
    pub fn number(self) -> u8
        ensures { result ≡ move_made self.made }
    {
        match self.made {
            Some(v) => v.0,
            None => 255,
        }
    }
}

// What a turn came to: a command that was obeyed, or nothing where all is done; or the refusal.
pub type Turned = Result<Option<Obeyed>, Refusal>;

// Plans into the front of a buffer, for a plan of so many bytes.
fn begin_with(
    file: &[u8],
    bytes: usize,
    buffer: &mut [u8],
    scratch: &mut [u8],
) -> Result<Started, Refusal>
    requires { length_reply file.now ≡ given bytes }
    ensures reply { start_says result ≡ start_reply file.now
        (plan_reply file.now (min bytes (length buffer.old)) (length scratch.old)) }
    ensures written { buffer.new ≡ output_after
        (plan_reply file.now (min bytes (length buffer.old)) (length scratch.old))
        buffer.old }
    ensures left { scratch.new ≡ scratch_after
        (plan_reply file.now (min bytes (length buffer.old)) (length scratch.old))
        scratch.old }
{
    let n = bytes.min(buffer.len());
    plan(file, &mut buffer[..n], scratch)?;
    Ok(Started {
        bytes: n,
        bound: bound(&buffer[..n], n - 12),
    })
}

// Plans a sheet into the front of a buffer.
pub fn begin(file: &[u8], buffer: &mut [u8], scratch: &mut [u8]) -> Result<Started, Refusal>
    ensures reply { start_says result ≡ start_reply file.now
        (plan_front file.now (length buffer.old) (length scratch.old)) }
    ensures written { buffer.new ≡ output_after
        (plan_front file.now (length buffer.old) (length scratch.old)) buffer.old }
    ensures left { scratch.new ≡ scratch_after
        (plan_front file.now (length buffer.old) (length scratch.old)) scratch.old }
{
    let bytes = plan_length(file)?;
    begin_with(file, bytes, buffer, scratch)
}

// Obeys a command.
fn obey(file: &[u8], state: &mut [u8], command: Command) -> Turned
    ensures reply { turn_says result ≡ turn_told (obey_reply file.now state.old command.machine.0 command.byte) }
    ensures left { state.new
        ≡ turn_leaves (obey_reply file.now state.old command.machine.0 command.byte) state.old }
{
    let made = apply(file, state, command.machine, command.byte)?;
    Ok(Some(Obeyed { command, made }))
}

// One turn: asks for the next command, and obeys it.
pub fn turn(file: &[u8], plan: &[u8], state: &mut [u8], goal: &[u8]) -> Turned
    ensures reply { turn_says result ≡ turn_told
        (turn_reply file.now plan.now state.old goal.now) }
    ensures left { state.new ≡ turn_leaves
        (turn_reply file.now plan.now state.old goal.now) state.old }
{
    let Some(command) = next(file, plan, &state[..], goal)? else {
        return Ok(None);
    };
    obey(file, state, command)
}
