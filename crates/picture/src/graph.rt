// Drawing a sheet: 1 to 8 and 21, 12. Reading a picture: 20, 12.
ghost use Rattle.std.specs.Prelude.{◌≡◌, ◌≤◌, length};
ghost use Rattle.common.specs.Reply.{length_of, output_after, fitted};
ghost use Rattle.sheet.specs.Model.{Model};
ghost use Rattle.sheet.specs.Kept.Indexed.{Indexed, Indexes};
ghost use Rattle.sheet.specs.Refusal.{measured_of};
ghost use Rattle.picture.specs.Picture.{picture_of, picture_bytes};
ghost use Rattle.picture.specs.Text.{text_of};
ghost use Rattle.picture.specs.Graph.{graph_reply, read_reply};
ghost use Rattle.picture.specs.Kept.Rows.{text_rows};
ghost use Rattle.picture.specs.Kept.Shown.{Shows, shown, Shown};

use crate::lines::put;
use crate::matching::matched;
use crate::rows::{Edges, Node, Pairs, put_rows, rows_length};
use crate::turns::all_in_turn;
use plan::partition::members;
use plan::sizing::count;
use sheet::index::Sheet;
use sheet::refusal::{Cause, Refusal};

// Writes the text of a picture by the machines and the targets of each group, if it fits: 12.
fn write_rows(out: &mut [u8], members: &[u64], targets: &[u64]) -> Result<usize, Refusal>
    requires { (length members.now ≤ 32) × (length targets.now ≤ 32) }
    ensures reply { measured_of result ≡ length_of (fitted
        (text_rows members.now targets.now) (length out.old)) }
    ensures written { out.new
        ≡ output_after (fitted (text_rows members.now targets.now)
        (length out.old)) out.old }
{
    let length = 19 + rows_length::<Node>(members) + rows_length::<Edges>(targets);
    if out.len() < length {
        return Err(Cause::WrongBuffer.at(0));
    }
    let first = put(out, 0, b"digraph groups {\n");
    let nodes = put_rows::<Node>(out, first, members);
    let edges = put_rows::<Edges>(out, nodes, targets);
    put(out, edges, b"}\n");
    Ok(length)
}

// Writes the text of a picture, if it fits: 12.
fn write_text(out: &mut [u8], numbers: &[u8], targets: &[u64]) -> Result<usize, Refusal>
    requires { Shows numbers.now targets.now }
    ensures reply { measured_of result ≡ length_of (fitted
        (text_of (shown numbers.now targets.now)) (length out.old)) }
    ensures written { out.new
        ≡ output_after (fitted (text_of (shown numbers.now targets.now))
        (length out.old)) out.old }
{
    let machines = members(numbers);
    let n = targets.len();
    write_rows(out, &machines[..n], targets)
}

// Writes a picture in bytes, if they fit: 12.
fn write_bytes(out: &mut [u8], numbers: &[u8], targets: &[u64]) -> Result<usize, Refusal>
    requires { Shows numbers.now targets.now }
    ensures reply { measured_of result ≡ length_of (fitted
        (picture_bytes (shown numbers.now targets.now)) (length out.old)) }
    ensures written { out.new
        ≡ output_after (fitted (picture_bytes (shown numbers.now targets.now))
        (length out.old)) out.old }
{
    let n = numbers.len();
    let length = 1 + n + rows_length::<Pairs>(targets);
    if out.len() < length {
        return Err(Cause::WrongBuffer.at(0));
    }
    out[0] = n as u8;
    let at = put(out, 1, numbers);
    put_rows::<Pairs>(out, at, targets);
    Ok(length)
}

// Draws a sheet that was read.
fn draw_read(file: &[u8], sheet: Sheet, out: &mut [u8]) -> Result<usize, Refusal>
    requires { Indexed file.now sheet }
    ensures reply { (m : Model) → Indexes file.now sheet m
        → measured_of result ≡ length_of (fitted (text_of (picture_of m)) (length out.old)) }
    ensures written { (m : Model) → Indexes file.now sheet m
        → out.new
        ≡ output_after (fitted (text_of (picture_of m)) (length out.old)) out.old }
{
    let n = sheet.machines;
    let mut targets = [0u64; Sheet::MACHINES];
    let numbers = plan::grouping::ordered(file, sheet, &mut targets);
    let groups = count(&numbers[..n]);
    write_text(out, &numbers[..n], &targets[..groups])
}

// Draws a sheet: writes the text of its picture, and replies the length.
pub fn draw(file: &[u8], out: &mut [u8]) -> Result<usize, Refusal>
    ensures reply { measured_of result ≡ length_of (graph_reply file.now (length out.old)) }
    ensures written { out.new
        ≡ output_after (graph_reply file.now (length out.old)) out.old }
{
    let sheet = sheet::scan::read(file)?;
    draw_read(file, sheet, out)
}

// Reads a text that was matched: it is refused where a number is out of turn.
fn read_matched(
    text: &[u8],
    numbers: &[u8],
    targets: &[u64],
    out: &mut [u8],
) -> Result<usize, Refusal>
    requires { Shown text.now numbers.now targets.now }
    ensures reply { measured_of result ≡ length_of (read_reply text.now (length out.old)) }
    ensures written { out.new
        ≡ output_after (read_reply text.now (length out.old)) out.old }
{
    if !all_in_turn(numbers, targets) {
        return Err(Cause::NotAPicture.at(0));
    }
    write_bytes(out, numbers, targets)
}

// Reads a picture: writes its groups and edges in bytes, and replies how many.
pub fn read(text: &[u8], out: &mut [u8]) -> Result<usize, Refusal>
    ensures reply { measured_of result ≡ length_of (read_reply text.now (length out.old)) }
    ensures written { out.new
        ≡ output_after (read_reply text.now (length out.old)) out.old }
{
    let Some(found) = matched(text) else {
        return Err(Cause::NotAPicture.at(0));
    };
    read_matched(
        text,
        &found.numbers[..found.machines],
        &found.targets[..found.groups],
        out,
    )
}
