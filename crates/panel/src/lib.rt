// The C interface: exported functions that put replies into 64 bits. Nothing is decided here. They are alike, since C calls each by its name.
#![tactic(auto)]

pub mod promises;

ghost use Rattle.std.specs.Prelude.{◌≡◌, ℕ, ◌+◌, ◌*◌, ◌≤◌, length, Ok};
ghost use Rattle.common.specs.Reply.{refused, length_of, output_after};
ghost use Rattle.sheet.specs.Refusal.{number_of, measured_of};
ghost use Rattle.sheet.specs.Parse.{parse};
ghost use Rattle.plan.specs.Planning.{length_reply, plan_reply, buffer_after, scratch_after};
ghost use Rattle.command.specs.Next.{next_reply};
ghost use Rattle.command.specs.Apply.{apply_reply, effect_reply, state_after};
ghost use Rattle.command.specs.Says.{advice_says, change_says};
ghost use Rattle.clean.specs.Clean.{clean_reply};
ghost use Rattle.joining.specs.Join.{join_reply};
ghost use Rattle.picture.specs.Graph.{graph_reply, read_reply};
ghost use Rattle.panel.specs.Words.{word_of, sheet_reply, done_reply, command_reply, move_reply};

use command::method::Command;
use sheet::index::{Machine, Move};
use sheet::refusal::Refusal;

// The word of a refusal.
fn refusal(why: Refusal) -> u64
    requires { why.place ≤ 65535 }
    ensures { result ≡ 4294967296 * number_of why.cause + why.place }
{
    4294967296 * u64::from(u8::from(why.cause)) + why.place as u64
}

// The word of a number of bytes, or of the refusal.
fn length_word(length: Result<usize, Refusal>) -> u64
    requires { (number place : ℕ) → measured_of length ≡ refused number place → place ≤ 65535 }
    ensures { result ≡ word_of (measured_of length) }
{
    match length {
        Ok(bytes) => bytes as u64,
        Err(why) => refusal(why),
    }
}

// The word of a command; 0 where all is done.
fn command_word(command: Option<Command>) -> u64
    ensures { result ≡ word_of (command_reply (advice_says (Ok command))) }
{
    let Some(command) = command else {
        return 0;
    };
    65536 + 256 * u64::from(command.machine.0) + u64::from(command.byte)
}

// The word of a move that was made; 255 for none.
fn move_word(made: Option<Move>) -> u64
    ensures { result ≡ word_of (move_reply (change_says (Ok made))) }
{
    let Some(v) = made else {
        return 255;
    };
    256 + u64::from(v.0)
}

// Checks a sheet: 256 × moves + machines, or the refusal.
#[unsafe(no_mangle)]
pub extern "C" fn duty_sheet(file: &[u8]) -> u64
    ensures { result ≡ word_of (sheet_reply (parse file.now)) }
{
    match sheet::scan::read(file) {
        Ok(sheet) => 256 * (sheet.moves as u64) + sheet.machines as u64,
        Err(why) => refusal(why),
    }
}

// The length of the plan of a sheet, in bytes, or the refusal.
#[unsafe(no_mangle)]
pub extern "C" fn duty_plan_length(file: &[u8]) -> u64
    ensures { result ≡ word_of (length_reply file.now) }
{
    length_word(plan::measure::plan_length(file))
}

// Writes the plan of a sheet into a buffer of its length, and zeros into the scratch: 0, or the refusal.
#[unsafe(no_mangle)]
pub extern "C" fn duty_plan(file: &[u8], buffer: &mut [u8], scratch: &mut [u8]) -> u64
    ensures reply { result ≡ word_of (done_reply
        (plan_reply file.now (length buffer.old) (length scratch.old))) }
    ensures written { buffer.new
        ≡ buffer_after (plan_reply file.now (length buffer.old) (length scratch.old))
        buffer.old }
    ensures left { scratch.new
        ≡ scratch_after (plan_reply file.now (length buffer.old) (length scratch.old))
        scratch.old }
{
    let Err(why) = plan::making::plan(file, buffer, scratch) else {
        return 0;
    };
    refusal(why)
}

// The next command for a sheet, a plan, a state and a goal: 0 for done, or 65536 + 256 × machine + command, or the refusal.
#[unsafe(no_mangle)]
pub extern "C" fn duty_next(file: &[u8], plan: &[u8], state: &[u8], goal: &[u8]) -> u64
    ensures { result ≡ word_of (command_reply
        (next_reply file.now plan.now state.now goal.now)) }
{
    match command::advising::next(file, plan, state, goal) {
        Ok(command) => command_word(command),
        Err(why) => refusal(why),
    }
}

// Applies a command to a state: 256 + the move if a machine changed, else 255, or the refusal.
#[unsafe(no_mangle)]
pub extern "C" fn duty_apply(file: &[u8], state: &mut [u8], machine: u8, byte: u8) -> u64
    ensures reply { result ≡ word_of (move_reply (effect_reply
        (apply_reply file.now state.old machine byte))) }
    ensures left { state.new
        ≡ state_after (apply_reply file.now state.old machine byte) state.old }
{
    match command::acting::apply(file, state, Machine(machine), byte) {
        Ok(made) => move_word(made),
        Err(why) => refusal(why),
    }
}

// Writes the clean sheet of a sheet, which has no amendments, into a buffer: its length, or the refusal.
#[unsafe(no_mangle)]
pub extern "C" fn duty_clean(file: &[u8], out: &mut [u8]) -> u64
    ensures reply { result ≡ word_of (length_of (clean_reply file.now (length out.old))) }
    ensures written { out.new
        ≡ output_after (clean_reply file.now (length out.old)) out.old }
{
    length_word(clean::cleaning::clean(file, out))
}

// Joins wishes, each after a byte with its length, and writes the joined one into a buffer: its length, or the refusal.
#[unsafe(no_mangle)]
pub extern "C" fn duty_join(file: &[u8], wishes: &[u8], out: &mut [u8]) -> u64
    ensures reply { result ≡ word_of (length_of
        (join_reply file.now wishes.now (length out.old))) }
    ensures written { out.new
        ≡ output_after (join_reply file.now wishes.now (length out.old)) out.old }
{
    length_word(joining::joining::join(file, wishes, out))
}

// Draws who needs whom, as a text for Graphviz, into a buffer: its length, or the refusal.
#[unsafe(no_mangle)]
pub extern "C" fn duty_graph(file: &[u8], out: &mut [u8]) -> u64
    ensures reply { result ≡ word_of (length_of (graph_reply file.now (length out.old))) }
    ensures written { out.new
        ≡ output_after (graph_reply file.now (length out.old)) out.old }
{
    length_word(picture::graph::draw(file, out))
}

// Reads such a text, and writes the machine count, each machine's group and the edges into a buffer: how many bytes, or the refusal.
#[unsafe(no_mangle)]
pub extern "C" fn duty_graph_read(text: &[u8], out: &mut [u8]) -> u64
    ensures reply { result ≡ word_of (length_of (read_reply text.now (length out.old))) }
    ensures written { out.new
        ≡ output_after (read_reply text.now (length out.old)) out.old }
{
    length_word(picture::graph::read(text, out))
}
