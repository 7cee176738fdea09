// The causes 2 to 8 of one whole record, lowest number first; a command that an earlier move has (8) is found in `sent`,
// and what can't be amended (21) in `amending`.
ghost use Rattle.std.specs.Prelude.{◌≡◌, ℕ, ◌+◌, ◌*◌, ◌≤◌, ◌<◌, length, set, replicate, ltb, leb, ◌&&◌, OnOk, IfErr};
ghost use Rattle.sheet.specs.declared.refusal.Cause.TheVariants.{TrailingBytes};
ghost use Rattle.sheet.specs.Refusal.{refusal};
ghost use Rattle.common.specs.Reply.{unless};
ghost use Rattle.sheet.specs.Record.{byte};
ghost use Rattle.sheet.specs.Model.{Model, machine_count, move_of};
ghost use Rattle.sheet.specs.Parse.{nothing};
ghost use Rattle.sheet.specs.Index.{index_of};
ghost use Rattle.sheet.specs.Faults.{wrong_move_length, bad_machine, machine_faults, end_faults};
ghost use Rattle.sheet.specs.Kept.Held.{fine, judged_of, top_of, dead_move, wrong_guard, wrong_guards};
ghost use Rattle.sheet.specs.Kept.Held.{body_faults, own_move_faults, own_replace_faults, own_withdraw_faults, own_faults, counts_of, Counted, Held};
ghost use Rattle.sheet.specs.Kept.Kinds.{kind_number};

use crate::bits::{has_beyond, has_mode};
use crate::index::{Machine, Move, Sheet};
use crate::kind::Kind;
use crate::record::byte_at;
use crate::refusal::{Cause, Refusal};

// The machines read so far: their index, with the moves read so far, and all modes of each machine as bits; none for a byte that
// names no machine. An entry for every byte, since there is no heap.
#[derive(Drop)]
pub struct Machines {
    pub sheet: Sheet,
    pub tops: [u8; 256],
}

// 2 for a move.
fn wrong_move_length(n: usize) -> bool
    ensures { result ≡ wrong_move_length n }
{
    if n < Move::HEAD {
        return true;
    }
    if Move::LONGEST < n {
        return true;
    }
    n % 2 == 1
}

// 5.
fn bad_machine(modes: u8, live: u8) -> bool
    ensures { result ≡ bad_machine modes live }
{
    if modes == 0 {
        return true;
    }
    if Machine::MODES < modes {
        return true;
    }
    if live == 0 {
        return true;
    }
    has_beyond(modes, live)
}

// 6, by the live modes: no machine has one past its modes.
fn bad_move(body: &[u8], live: &[u8]) -> bool
    requires { 4 ≤ length body.now }
    ensures { result ≡ dead_move live.now (move_of body.now) }
{
    let from = body[1];
    let to = body[2];
    if from == to {
        return true;
    }
    let lit = byte_at(live, usize::from(body[0]));
    if has_mode(lit, from) {
        return !has_mode(lit, to);
    }
    true
}

// Whether a need's machine is not above that of the need before.
fn not_rising(body: &[u8], machine: u8, n: usize) -> bool
    requires { 2 * n + 5 < length body.now }
    ensures { result ≡ (ltb 0 n && leb machine (byte body.now (2 + 2 * n))) }
{
    if 0 < n {
        return machine <= body[2 + 2 * n];
    }
    false
}

// 7 for need n, of a body that has it. An absent machine has the top 0.
fn bad_guard(body: &[u8], tops: &[u8], n: usize) -> bool
    requires { 2 * n + 5 < length body.now }
    ensures { result ≡ wrong_guard tops.now (move_of body.now) n }
{
    let machine = body[4 + 2 * n];
    let mask = body[5 + 2 * n];
    let top = byte_at(tops, usize::from(machine));
    if machine == body[0] {
        return true;
    }
    if not_rising(body, machine, n) {
        return true;
    }
    if mask == 0 {
        return true;
    }
    top < mask
}

// 7.
fn bad_guards(body: &[u8], tops: &[u8]) -> bool
    requires { 4 ≤ length body.now }
    ensures { result ≡ wrong_guards tops.now (move_of body.now) }
{
    let count = (body.len() - Move::HEAD) / 2;
    for n in 0..count {
        if bad_guard(body, tops, n) {
            return true;
        }
    }
    false
}

// The set of the first n modes.
pub fn first_modes(n: u8) -> u8
    requires { n ≤ 8 }
    ensures { result ≡ top_of n }
{
    ((1usize << usize::from(n)) - 1) as u8
}

// A record that withdraws a move: machine, from mode and command.
fn judge_withdrawal(body: &[u8]) -> Result<(), Cause>
    ensures { (at : ℕ) → judged_of result at ≡ unless (own_withdraw_faults at body.now) fine }
{
    if body.len() != 3 {
        return Err(Cause::WrongKind);
    }
    Ok(())
}

// 3: no byte may stand behind the end record.
pub fn nothing_behind(s: &[u8], end: usize) -> Result<(), Refusal>
    ensures passed { OnOk result (length s.now ≤ end) }
    ensures refused { IfErr result (λ r. (end < length s.now) × (r ≡ refusal TrailingBytes end)) }
{
    if end < s.len() {
        return Err(Cause::TrailingBytes.at(end));
    }
    Ok(())
}

impl Machines {
    // No machine and no move.
    pub fn none() -> Self
        ensures { (result.sheet ≡ index_of nothing) × (result.tops ≡ replicate 256 0) }
    {
        Machines {
            sheet: Sheet::empty(),
            tops: [0u8; 256],
        }
    }

    // Adds the machine that a body writes.
    pub fn add(&mut self, body: &[u8])
        requires { (1 < length body.now) × (byte body.now 0 ≤ 8) × (self.old.sheet.machines < 32) }
        ensures { self.new ≡ record {
          sheet = record {
            machines = self.old.sheet.machines + 1;
            moves = self.old.sheet.moves;
            modes = set self.old.sheet.modes self.old.sheet.machines (byte body.now 0);
            live = set self.old.sheet.live self.old.sheet.machines (byte body.now 1);
            places = self.old.sheet.places;
          };
          tops = set self.old.tops self.old.sheet.machines (top_of (byte body.now 0));
        } }
    {
        let machine = self.sheet.machines;
        self.sheet.machines = machine + 1;
        self.sheet.modes[machine] = body[0];
        self.sheet.live[machine] = body[1];
        self.tops[machine] = first_modes(body[0]);
    }

    // A machine record.
    pub fn judge_machine(&self, body: &[u8]) -> Result<(), Cause>
        ensures { (m : Model) (at : ℕ) → Counted m (counts_of self.now.sheet)
            → judged_of result at ≡ unless (machine_faults m at body.now) fine }
    {
        if body.len() != 2 {
            return Err(Cause::WrongKind);
        }
        if 0 < self.sheet.moves {
            return Err(Cause::Misplaced);
        }
        if Sheet::MACHINES <= self.sheet.machines {
            return Err(Cause::Misplaced);
        }
        if bad_machine(body[0], body[1]) {
            return Err(Cause::BadMachine);
        }
        Ok(())
    }

    // A move's body by the machines so far: 6, 7, and 8 for no command.
    fn judge_body(&self, body: &[u8]) -> Result<(), Cause>
        requires { 4 ≤ length body.now }
        ensures { (m : Model) (at : ℕ) → Held m (counts_of self.now.sheet) self.now.tops self.now.sheet.live
            → judged_of result at ≡ unless (body_faults m at body.now) fine }
    {
        if bad_move(body, &self.sheet.live[..]) {
            return Err(Cause::BadMove);
        }
        if bad_guards(body, &self.tops[..]) {
            return Err(Cause::BadGuard);
        }
        if body[3] == 0 {
            return Err(Cause::BadCommand);
        }
        Ok(())
    }

    // A move record, by the machines so far; whether an earlier move has its command is not asked here.
    pub fn judge_move(&self, body: &[u8]) -> Result<(), Cause>
        ensures { (m : Model) (at : ℕ) → Held m (counts_of self.now.sheet) self.now.tops self.now.sheet.live
            → judged_of result at ≡ unless (own_move_faults m at body.now) fine }
    {
        if wrong_move_length(body.len()) {
            return Err(Cause::WrongKind);
        }
        if self.sheet.machines == 0 {
            return Err(Cause::Misplaced);
        }
        if Sheet::MOVES <= self.sheet.moves {
            return Err(Cause::Misplaced);
        }
        if bad_move(body, &self.sheet.live[..]) {
            return Err(Cause::BadMove);
        }
        if bad_guards(body, &self.tops[..]) {
            return Err(Cause::BadGuard);
        }
        if body[3] == 0 {
            return Err(Cause::BadCommand);
        }
        Ok(())
    }

    // A move record behind an amendment. Not by `judge_move`, which is called once, so that the compiler lays it into the loop over moves.
    fn judge_late(&self, body: &[u8]) -> Result<(), Cause>
        ensures { (m : Model) (at : ℕ) → Held m (counts_of self.now.sheet) self.now.tops self.now.sheet.live
            → judged_of result at ≡ unless (own_move_faults m at body.now) fine }
    {
        if wrong_move_length(body.len()) {
            return Err(Cause::WrongKind);
        }
        if self.sheet.machines == 0 {
            return Err(Cause::Misplaced);
        }
        if Sheet::MOVES <= self.sheet.moves {
            return Err(Cause::Misplaced);
        }
        self.judge_body(body)
    }

    // A record that replaces a move; whether such a move stands is not asked here.
    fn judge_replacement(&self, body: &[u8]) -> Result<(), Cause>
        ensures { (m : Model) (at : ℕ) → Held m (counts_of self.now.sheet) self.now.tops self.now.sheet.live
            → judged_of result at ≡ unless (own_replace_faults m at body.now) fine }
    {
        if wrong_move_length(body.len()) {
            return Err(Cause::WrongKind);
        }
        self.judge_body(body)
    }

    // An end record, after so many machines.
    pub fn judge_end(&self, body: &[u8]) -> Result<(), Cause>
        ensures { (m : Model) (at : ℕ) → machine_count m ≡ self.now.sheet.machines
            → judged_of result at ≡ unless (end_faults m at body.now) fine }
    {
        if body.len() != 0 {
            return Err(Cause::WrongKind);
        }
        if self.sheet.machines == 0 {
            return Err(Cause::Misplaced);
        }
        Ok(())
    }

    // A whole record behind moves, by its kind, the machines so far and the counts; the moves so far are not asked here.
    pub fn judge(&self, kind: Kind, body: &[u8]) -> Result<(), Cause>
        ensures { (m : Model) (at : ℕ) → Held m (counts_of self.now.sheet) self.now.tops self.now.sheet.live
            → judged_of result at ≡ unless (own_faults m at (kind_number kind) body.now) fine }
    {
        match kind {
            Kind::Machine => self.judge_machine(body),
            Kind::Move => self.judge_late(body),
            Kind::End => self.judge_end(body),
            Kind::Replacement => self.judge_replacement(body),
            Kind::Withdrawal => judge_withdrawal(body),
            _ => Err(Cause::WrongKind),
        }
    }
}
