// Reading a sheet front to back.
ghost use Rattle.std.specs.Prelude.{◌≡◌};
ghost use Rattle.sheet.specs.Parse.{parse};
ghost use Rattle.sheet.specs.Index.{reading_of, index_reply};

use crate::amending::read_tail;
use crate::index::Sheet;
use crate::judge::{Machines, nothing_behind};
use crate::kind::Kind;
use crate::record::Record;
use crate::refusal::{Cause, Refusal, placed};
use crate::sent::Keys;

// The index of the sheet that a file is, or the refusal.
pub fn read(s: &[u8]) -> Result<Sheet, Refusal>
    ensures { reading_of result ≡ index_reply (parse s.now) }
{
    let mut machines = Machines::none();
    let mut keys = Keys::none();
    let mut at: usize = 0;
    // Not a `for`: what is cut short is refused at the place where the loop stands. Ends, since a machine or a move too many is faulty.
    // What is neither of them nor the end begins the tail.
    loop {
        let Some(Record { kind, start, len }) = crate::reader::record_at(s, at) else {
            return Err(Cause::CutShort.at(at));
        };
        let end = start + len;
        let body = &s[start..end];
        let moves = machines.sheet.moves;
        match Kind::try_from(kind) {
            Ok(Kind::Machine) => {
                placed(machines.judge_machine(body), at)?;
                machines.add(body);
                at = end;
            }
            Ok(Kind::Move) => {
                placed(machines.judge_move(body), at)?;
                if !keys.add(body, moves) {
                    return Err(Cause::BadCommand.at(at));
                }
                machines.sheet.places[moves] = at as u16;
                machines.sheet.moves = moves + 1;
                at = end;
            }
            Ok(Kind::End) => {
                placed(machines.judge_end(body), at)?;
                nothing_behind(s, end)?;
                return Ok(machines.sheet);
            }
            _ => return read_tail(s, at, &machines, &keys),
        }
    }
}
