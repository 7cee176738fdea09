// The walk: reads a sheet, a state and a goal, plans, then asks and obeys, and prints a line for each command.
#![tactic(auto)]

use command::walking::{Obeyed, Started, Turned, begin, turn};
use plan::making::Scratch;
use printer::{Refused, load, within};
use std::io;
use std::rt::Files;

// A command that was sent, and the move that it was, 255 for none.
fn sent_line(rt: &impl Print, obeyed: Obeyed) -> io::Result<()> {
    let command = obeyed.command;
    let v = obeyed.number();
    println!(rt; "{} {} {v}", command.machine.0, command.byte)
}

// The last line: done with so many commands, or the refusal.
fn last_line(rt: &impl Print, turned: Turned, count: u64, bound: u64) -> io::Result<()> {
    let Err(refusal) = turned else {
        return println!(rt; "done {count} bound {bound}");
    };
    println!(rt; "{}", Refused(refusal))
}

// Asks and obeys until no command is replied, which is after as many as the bound at the latest.
fn obey(
    rt: &impl Print,
    file: &[u8],
    plan: &[u8],
    state: &mut [u8],
    goal: &[u8],
    bound: u64,
) -> io::Result<()> {
    for count in 0..=bound {
        let turned = turn(file, plan, state, goal);
        let Ok(Some(obeyed)) = turned else {
            return last_line(rt, turned, count, bound);
        };
        sent_line(rt, obeyed)?;
    }
    Ok(())
}

// Prints the walk of a sheet from a state to a goal. No plan is longer than the buffer.
pub fn print_walk(rt: &impl Print, file: &[u8], state: &mut [u8], goal: &[u8]) -> io::Result<()> {
    let mut buffer = [0u8; 32944];
    let mut scratch = [0u8; Scratch::LEAST];
    let Started { bytes, bound } = match begin(file, &mut buffer, &mut scratch) {
        Ok(started) => started,
        Err(refusal) => return println!(rt; "{}", Refused(refusal)),
    };
    let n = within(bytes, &buffer);
    obey(rt, file, &buffer[..n], state, goal, bound)
}

// Prints the walk of the files here. No longer file has another reply than the bytes that are read of it.
pub fn walk(rt: &(impl Files + Print)) -> io::Result<()> {
    let mut file = [0u8; 73728];
    let mut state = [0u8; 128];
    let mut goal = [0u8; 64];
    let file_n = load(rt, b"sheet.bin", &mut file);
    let state_n = load(rt, b"state.bin", &mut state);
    let goal_n = load(rt, b"wish.bin", &mut goal);
    print_walk(rt, &file[..file_n], &mut state[..state_n], &goal[..goal_n])
}
