// Prints a sheet in plain words and numbers: a line for each machine and each move and one that counts them, or its refusal.
#![tactic(auto)]

ghost use Rattle.std.specs.Counts.{IsPrefixLen};

use sheet::bits::has_mode;
use sheet::index::{Machine, Move, Sheet};
use sheet::refusal::{Cause, Refusal};
use std::io::Read;
use std::rt::Files;
use std::{fmt, fs, io};

// The modes of a set, each behind a space.
#[derive(Clone, Copy)]
struct Modes(u8);

impl fmt::Display for Modes {
    fn fmt<W: fmt::Write>(&self, f: &mut fmt::Formatter<W>) -> fmt::Result {
        for m in 0..Machine::MODES {
            if has_mode(self.0, m) {
                write!(f, " {m}")?;
            }
        }
        Ok(())
    }
}

// A count that an index holds, as a byte.
fn byte(n: usize) -> u8 {
    (n % 256) as u8
}

// What a move of a sheet needs, by the index, each need behind a comma.
#[derive(Clone, Copy)]
struct Needs<'a> {
    file: &'a [u8],
    sheet: &'a Sheet,
    v: Move,
}

impl fmt::Display for Needs<'_> {
    fn fmt<W: fmt::Write>(&self, f: &mut fmt::Formatter<W>) -> fmt::Result {
        for n in 0..self.sheet.guard_count(self.file, self.v) {
            let machine = self.sheet.guard_machine(self.file, self.v, byte(n));
            let mask = self.sheet.guard_mask(self.file, self.v, byte(n));
            write!(f, ", needs machine {} in{}", machine.0, Modes(mask))?;
        }
        Ok(())
    }
}

// A count and its word, which has an s behind it but for one.
#[derive(Clone, Copy)]
struct Counted<'a> {
    n: u64,
    word: &'a str,
}

impl fmt::Display for Counted<'_> {
    fn fmt<W: fmt::Write>(&self, f: &mut fmt::Formatter<W>) -> fmt::Result {
        let s = if self.n == 1 { "" } else { "s" };
        write!(f, "{} {}{s}", self.n, self.word)
    }
}

// The product of the mode counts, which is how many states there are, tags aside; none where it is 2^64 or more.
fn product(sheet: &Sheet) -> Option<u64> {
    (0..sheet.machines).try_fold(1u64, |total, m| {
        total.checked_mul(u64::from(sheet.mode_count(Machine(byte(m)))))
    })
}

// The mode counts, as a product.
#[derive(Clone, Copy)]
struct Factors<'a>(&'a Sheet);

impl fmt::Display for Factors<'_> {
    fn fmt<W: fmt::Write>(&self, f: &mut fmt::Formatter<W>) -> fmt::Result {
        for m in 0..self.0.machines {
            if 0 < m {
                write!(f, " x ")?;
            }
            let n = self.0.mode_count(Machine(byte(m)));
            write!(f, "{n}")?;
        }
        Ok(())
    }
}

// How many states there are, by the mode counts; as a product where they are 2^64 or more.
#[derive(Clone, Copy)]
struct States<'a>(&'a Sheet);

impl fmt::Display for States<'_> {
    fn fmt<W: fmt::Write>(&self, f: &mut fmt::Formatter<W>) -> fmt::Result {
        let Some(n) = product(self.0) else {
            return write!(f, "{} states", Factors(self.0));
        };
        write!(f, "{}", Counted { n, word: "state" })
    }
}

// A refusal's number and place.
#[derive(Clone, Copy)]
pub struct Refused(pub Refusal);

impl fmt::Display for Refused {
    fn fmt<W: fmt::Write>(&self, f: &mut fmt::Formatter<W>) -> fmt::Result {
        let Refusal { cause, place } = self.0;
        write!(f, "refused {} {place}", u8::from(cause))
    }
}

// What a refusal of a sheet means, by its cause.
#[derive(Clone, Copy)]
struct InWords(Cause);

impl fmt::Display for InWords {
    fn fmt<W: fmt::Write>(&self, f: &mut fmt::Formatter<W>) -> fmt::Result {
        f.write_str(match self.0 {
            Cause::CutShort => "a record is cut short, or the end is missing",
            Cause::WrongKind => "a record of unknown kind or wrong length",
            Cause::TrailingBytes => "bytes after the end",
            Cause::Misplaced => "a record out of its place, or one too many",
            Cause::BadMachine => "a machine whose modes do not fit",
            Cause::BadMove => "a move of a machine or mode that cannot make it",
            Cause::BadGuard => "a move that needs what cannot be",
            Cause::BadCommand => "a move without a command, or with one used before",
            Cause::Unamendable =>
                "an amendment of no standing move or one too many, or a move behind one",
            _ => "not of a sheet",
        })
    }
}

// The line of a refusal of a sheet, and what it means.
pub fn refusal_in_words(rt: &impl Print, refusal: Refusal) -> io::Result<()> {
    println!(rt; "{}: {}", Refused(refusal), InWords(refusal.cause))
}

// A line for each machine: its number, modes and live modes.
fn machine_lines(rt: &impl Print, sheet: &Sheet) -> io::Result<()> {
    for m in 0..sheet.machines {
        let machine = Machine(byte(m));
        let n = sheet.mode_count(machine);
        println!(rt;
            "machine {m}: modes {n}, live{}",
            Modes(sheet.live_modes(machine))
        )?;
    }
    Ok(())
}

// The line of a move: its number, machine, modes, command and needs.
fn move_line(rt: &impl Print, file: &[u8], sheet: &Sheet, v: Move) -> io::Result<()> {
    println!(rt;
        "move {}: machine {} from {} to {}, command {}{}",
        v.0,
        sheet.move_machine(file, v).0,
        sheet.move_from(file, v),
        sheet.move_to(file, v),
        sheet.move_command(file, v),
        Needs { file, sheet, v }
    )
}

// A line for each move.
fn move_lines(rt: &impl Print, file: &[u8], sheet: &Sheet) -> io::Result<()> {
    for v in 0..sheet.moves {
        move_line(rt, file, sheet, Move(byte(v)))?;
    }
    Ok(())
}

// The lines of a sheet that was read, by the answers of its index; the last counts its machines, moves and states.
fn sheet_lines(rt: &impl Print, file: &[u8], sheet: &Sheet) -> io::Result<()> {
    machine_lines(rt, sheet)?;
    move_lines(rt, file, sheet)?;
    let machines = Counted {
        n: sheet.machines as u64,
        word: "machine",
    };
    let moves = Counted {
        n: sheet.moves as u64,
        word: "move",
    };
    println!(rt; "{machines}, {moves}, {}", States(sheet))
}

// The sheet that a file is.
pub fn print_sheet(rt: &impl Print, file: &[u8]) -> io::Result<()> {
    match sheet::scan::read(file) {
        Ok(sheet) => sheet_lines(rt, file, &sheet),
        Err(refusal) => refusal_in_words(rt, refusal),
    }
}

// A number of a buffer's bytes, all of them where it has no more.
pub fn within(bytes: usize, buffer: &[u8]) -> usize
    ensures { IsPrefixLen result buffer.now }
{
    bytes.min(buffer.len())
}

// Fills a buffer from a reader, until it is full, the input ends or a read fails; how many bytes there are.
// Not `read_exact`: that does not say how many there are where the input ends or a read fails.
fn filled(from: &mut impl Read, buffer: &mut [u8]) -> usize
    ensures { IsPrefixLen result buffer.new }
{
    let mut n = 0;
    // Not a `for`: each read says how far it goes.
    while n < buffer.len() {
        let Ok(more) = from.read(&mut buffer[n..]) else {
            break;
        };
        if more == 0 {
            break;
        }
        n += more;
    }
    n
}

// A file's bytes into a buffer, as many as it holds; 0 where there is no file.
pub fn load<R: Files>(rt: &R, path: &[u8], buffer: &mut [u8]) -> usize
    ensures { IsPrefixLen result buffer.new }
{
    let Ok(path) = std::str::from_utf8(path) else {
        return 0;
    };
    let Ok(mut file) = fs::open(rt, path) else {
        return 0;
    };
    filled(&mut file, buffer)
}

// Prints the sheet in sheet.bin. No longer file has another reply than its first 73,728 bytes.
pub fn show(rt: &(impl Files + Print)) -> io::Result<()> {
    let mut buffer = [0u8; 73728];
    let n = load(rt, b"sheet.bin", &mut buffer);
    print_sheet(rt, &buffer[..n])
}
