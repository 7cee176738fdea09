// Writing the clean sheet: its machines, its moves in the order of their numbers, and the end. Tests 1 to 8 and 21, then 12.
ghost use Rattle.std.specs.Prelude.{◌≡◌, ◌+◌, ◌≤◌, ◌<◌, length, get_or};
ghost use Rattle.common.specs.Reply.{fitted, length_of, output_after};
ghost use Rattle.sheet.specs.Refusal.{measured_of};
ghost use Rattle.sheet.specs.Record.{body_at, record_of};
ghost use Rattle.sheet.specs.Kept.Kinds.{kind_number};
ghost use Rattle.sheet.specs.Kept.Written.{written};
ghost use Rattle.clean.specs.Clean.{clean_reply};
ghost use Rattle.clean.specs.Kept.{machines_by, moves_by, clean_by, FewMoves, Lent};

use sheet::kind::Kind;
use sheet::refusal::{Cause, Refusal};
use sheet::writing::{put_bytes, put_header};

// Writes a record at a place, and gives the place behind it.
fn put_record(out: &mut [u8], at: usize, kind: Kind, body: &[u8]) -> usize
    requires { at + 4 + length body.now ≤ length out.old }
    ensures end { result ≡ at + length (record_of (kind_number kind) body.now) }
    ensures written { out.new ≡ written at (record_of (kind_number kind) body.now) out.old }
{
    put_header(out, at, body.len(), u8::from(kind));
    put_bytes(out, at + 4, body);
    at + 4 + body.len()
}

// The body of a move, which its record says the length of: the record is whole.
fn body_of<'a>(file: &'a [u8], places: &[u16], v: usize) -> &'a [u8]
    requires { FewMoves file.now places.now × (v < length places.now) }
    ensures { result.now ≡ body_at file.now (get_or places.now v 0) }
{
    let at = usize::from(places[v]);
    let start = at + 4;
    let end = start + (usize::from(file[at]) + 256 * usize::from(file[at + 1]));
    &file[start..end]
}

// The bytes that the records of the moves take.
fn moves_length(file: &[u8], places: &[u16]) -> usize
    requires { FewMoves file.now places.now }
    ensures short { result ≤ 6000 }
    ensures length { result ≡ length (moves_by file.now places.now) }
{
    let mut n: usize = 0;
    for v in 0..places.len() {
        n += 4 + body_of(file, places, v).len();
    }
    n
}

// Writes the records of the machines at the front, by their mode counts and live modes, and gives the place behind them.
fn put_machines(out: &mut [u8], modes: &[u8], live: &[u8]) -> usize
    requires { (length live.now ≡ length modes.now)
        × (length (machines_by modes.now live.now) ≤ length out.old) }
    ensures end { result ≡ length (machines_by modes.now live.now) }
    ensures written { out.new
        ≡ written 0 (machines_by modes.now live.now) out.old }
{
    let mut at: usize = 0;
    for i in 0..modes.len() {
        let mut body = [0u8; 2];
        body[0] = modes[i];
        body[1] = live[i];
        at = put_record(out, at, Kind::Machine, &body[..]);
    }
    at
}

// Writes the records of the moves from a place on, and gives the place behind them.
fn put_moves(out: &mut [u8], from: usize, file: &[u8], places: &[u16]) -> usize
    requires { FewMoves file.now places.now × (from + length (moves_by file.now places.now) ≤ length out.old) }
    ensures end { result ≡ from + length (moves_by file.now places.now) }
    ensures written { out.new
        ≡ written from (moves_by file.now places.now) out.old }
{
    let mut at = from;
    for v in 0..places.len() {
        at = put_record(out, at, Kind::Move, body_of(file, places, v));
    }
    at
}

// Writes the clean sheet, if it fits: 12.
fn write(
    out: &mut [u8],
    file: &[u8],
    modes: &[u8],
    live: &[u8],
    places: &[u16],
) -> Result<usize, Refusal>
    requires { Lent file.now modes.now live.now places.now }
    ensures reply { measured_of result ≡ length_of (fitted
        (clean_by file.now modes.now live.now places.now)
        (length out.old)) }
    ensures written { out.new ≡ output_after (fitted
        (clean_by file.now modes.now live.now places.now)
        (length out.old)) out.old }
{
    let length = 6 * modes.len() + moves_length(file, places) + 4;
    if out.len() < length {
        return Err(Cause::WrongBuffer.at(0));
    }
    let moves = put_machines(out, modes, live);
    let end = put_moves(out, moves, file, places);
    put_header(out, end, 0, u8::from(Kind::End));
    Ok(length)
}

// Writes the clean sheet of a sheet into a buffer, and replies its length.
pub fn clean(file: &[u8], out: &mut [u8]) -> Result<usize, Refusal>
    ensures reply { measured_of result ≡ length_of (clean_reply file.now (length out.old)) }
    ensures written { out.new
        ≡ output_after (clean_reply file.now (length out.old)) out.old }
{
    let sheet = sheet::scan::read(file)?;
    let modes = sheet.modes;
    let live = sheet.live;
    let places = sheet.places;
    let n = sheet.machines;
    let moves = sheet.moves;
    write(out, file, &modes[..n], &live[..n], &places[..moves])
}
