// The tail of a sheet: amendments, which replace or withdraw standing moves, and the end.
ghost use Rattle.std.specs.Prelude.{◌≡◌, List, ℕ, ◌≤◌, ◌<◌, length, get_or, eqb, cond};
ghost use Rattle.common.specs.Lists.{any, filter, pad};
ghost use Rattle.common.specs.Reply.{refused};
ghost use Rattle.sheet.specs.declared.kind.Kind.TheVariants.{Replacement};
ghost use Rattle.sheet.specs.Refusal.{number_of};
ghost use Rattle.sheet.specs.Record.{byte};
ghost use Rattle.sheet.specs.Model.{Move, move_of};
ghost use Rattle.sheet.specs.Amend.{named as named_by, amendment_of};
ghost use Rattle.sheet.specs.Parse.{parse};
ghost use Rattle.sheet.specs.Index.{reading_of, index_reply};
ghost use Rattle.sheet.specs.Kept.Kinds.{kind_number};
ghost use Rattle.sheet.specs.Kept.Sent.{key_of, Sent, Keyed};
ghost use Rattle.sheet.specs.Kept.Held.{counts_of};
ghost use Rattle.sheet.specs.Kept.Scanned.{is_place, Named, Stood, Amending};

use crate::index::{Machine, Sheet};
use crate::judge::{Machines, nothing_behind};
use crate::kind::Kind;
use crate::record::Record;
use crate::refusal::{Cause, Refusal, placed};
use crate::sent::{Keys, pair_of};

// An amendment: the machine, from mode and command of the move that it names.
#[derive(Clone, Copy)]
pub struct Amendment {
    pub machine: u8,
    pub from: u8,
    pub command: u8,
}

impl Amendment {
    // Amendments of a sheet at most.
    pub const MOST: usize = 64;
}

// Places that have closed up, with their count beside them, since there is no heap.
#[derive(Clone, Copy)]
pub struct Left {
    pub moves: usize,
    pub places: [u16; Sheet::MOVES],
}

// The amendment that a body writes: a move's body, or machine, from mode and command.
fn named(kind: Kind, body: &[u8]) -> Amendment
    requires { (kind ≡ Replacement → 4 ≤ length body.now) × ((kind ≡ Replacement → ⊥) → 3 ≤ length body.now) }
    ensures { Named (named_by (amendment_of (kind_number kind) body.now)) result }
{
    let command = match kind {
        Kind::Replacement => body[3],
        _ => body[2],
    };
    Amendment {
        machine: body[0],
        from: body[1],
        command,
    }
}

// The standing move that an amendment names, by its number as it was sent. A withdrawn move has the place 0.
fn standing(places: &[u16], keys: &Keys, a: Amendment) -> Option<usize>
    requires { ((vs : List Move) × Keyed vs keys.now.pairs keys.now.commands keys.now.owners) × (length places.now ≡ 250) }
    ensures { (vs : List Move) (v : Move) → Keyed vs keys.now.pairs keys.now.commands keys.now.owners
        → Named v a → Stood vs places.now v result }
{
    let machine = a.machine;
    let from = a.from;
    // The key of a machine or mode that no sheet has would be cut off.
    if Sheet::MACHINES <= usize::from(machine) {
        return None;
    }
    if Machine::MODES <= from {
        return None;
    }
    let command = a.command;
    let at = keys.find(pair_of(machine, from), command);
    if keys.commands[at] == 0 {
        return None;
    }
    let v = usize::from(keys.owners[at]);
    if places[v] == 0 {
        return None;
    }
    Some(v)
}

// Why a move behind an amendment is turned down: an earlier move has its key, or else it comes too late.
fn late(keys: &Keys, body: &[u8]) -> Cause
    requires { ((sent : List ℕ) × Sent sent keys.now.pairs keys.now.commands keys.now.owners) × (4 ≤ length body.now) }
    ensures { (sent : List ℕ) → Sent sent keys.now.pairs keys.now.commands keys.now.owners
        → number_of result ≡ cond (any (eqb (key_of (move_of body.now))) sent) 8 21 }
{
    if keys.repeats(body) {
        return Cause::BadCommand;
    }
    Cause::Unamendable
}

// Where the record of an amended move begins: nowhere if it is withdrawn.
fn place_of(kind: Kind, at: u16) -> u16
    ensures { result ≡ cond (eqb (kind_number kind) 4) at 0 }
{
    match kind {
        Kind::Replacement => at,
        _ => 0,
    }
}

// The places of the moves that stand, in order.
fn closed(places: &[u16], moves: usize) -> Left
    requires { (length places.now ≡ 250) × (moves ≤ 250) × ((v : ℕ) → moves ≤ v → get_or places.now v 0 ≡ 0) }
    ensures { (result.moves ≡ length (filter is_place places.now)) × (result.places ≡ pad 250 (filter is_place places.now)) }
{
    let mut packed = [0u16; Sheet::MOVES];
    let mut n: usize = 0;
    for v in 0..moves {
        if places[v] != 0 {
            packed[n] = places[v];
            n += 1;
        }
    }
    Left {
        moves: n,
        places: packed,
    }
}

// Reads on from the first amendment, behind machines and moves.
pub fn read_tail(s: &[u8], from: usize, machines: &Machines, keys: &Keys) -> Result<Sheet, Refusal>
    requires { Amending s.now (counts_of machines.now.sheet) machines.now.sheet.modes machines.now.sheet.live machines.now.tops
        keys.now.pairs keys.now.commands keys.now.owners machines.now.sheet.places 0 from }
    ensures { reading_of result ≡ index_reply (parse s.now) }
{
    let mut places = machines.sheet.places;
    let mut amended: usize = 0;
    let mut at = from;
    // Not a `for`: what is cut short is refused at the place where the loop stands. Ends, since an amendment too many is faulty.
    loop {
        let Some(Record { kind, start, len }) = crate::reader::record_at(s, at) else {
            return Err(Cause::CutShort.at(at));
        };
        let end = start + len;
        let body = &s[start..end];
        let Ok(kind) = Kind::try_from(kind) else {
            return Err(Cause::WrongKind.at(at));
        };
        placed(machines.judge(kind, body), at)?;
        match kind {
            Kind::Move => return Err(late(keys, body).at(at)),
            Kind::End => {
                nothing_behind(s, end)?;
                let Left { moves, places } = closed(&places[..], machines.sheet.moves);
                return Ok(Sheet {
                    moves,
                    places,
                    ..machines.sheet
                });
            }
            _ => {
                let a = named(kind, body);
                let Some(v) = standing(&places[..], keys, a) else {
                    return Err(Cause::Unamendable.at(at));
                };
                if Amendment::MOST <= amended {
                    return Err(Cause::Unamendable.at(at));
                }
                places[v] = place_of(kind, at as u16);
                amended += 1;
                at = end;
            }
        }
    }
}
