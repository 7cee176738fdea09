// The index of a sheet: how many machines and moves, each machine's modes, and where each move's record begins.
ghost use Rattle.std.specs.Prelude.{◌≡◌, ◌+◌, ◌-◌, ◌*◌, ◌<◌, length, get_or};
ghost use Rattle.sheet.specs.Record.{body_at};
ghost use Rattle.sheet.specs.Parse.{nothing};
ghost use Rattle.sheet.specs.Index.{index_of, modes_in, live_in, move_byte, guard_count_in};

use crate::record::{body, byte_at, word_at};

// The number of a machine.
#[derive(Clone, Copy, PartialEq, Eq)]
pub struct Machine(pub u8);

// The number of a move.
#[derive(Clone, Copy, PartialEq, Eq)]
pub struct Move(pub u8);

impl Machine {
    // Modes of a machine at most.
    pub const MODES: u8 = 8;
}

impl Move {
    // Bytes of a move's body before its needs.
    pub const HEAD: usize = 4;

    // Needs of a move at most, two bytes each.
    pub const GUARDS: usize = 8;

    // Bytes of a move's body at most.
    pub const LONGEST: usize = Move::HEAD + 2 * Move::GUARDS;
}

// What is kept of a sheet. Arrays with counts beside them, since there is no heap; a place of 0 is none, since 250 Options are above 512 bytes.
#[derive(Clone, Copy)]
pub struct Sheet {
    pub machines: usize,
    pub moves: usize,
    pub modes: [u8; Sheet::MACHINES],
    pub live: [u8; Sheet::MACHINES],
    pub places: [u16; Sheet::MOVES],
}

impl Sheet {
    // Machines at most.
    pub const MACHINES: usize = 32;

    // Moves at most.
    pub const MOVES: usize = 250;

    // The index of a sheet with nothing in it.
    pub fn empty() -> Self
        ensures { result ≡ index_of nothing }
    {
        Sheet {
            machines: 0,
            moves: 0,
            modes: [0u8; Sheet::MACHINES],
            live: [0u8; Sheet::MACHINES],
            places: [0u16; Sheet::MOVES],
        }
    }

    // How many modes a machine has: 0 for an absent one.
    pub fn mode_count(self, m: Machine) -> u8
        ensures { result ≡ modes_in self m.0 }
    {
        self.modes.get(usize::from(m.0)).copied().unwrap_or(0)
    }

    // The live modes of a machine, as bits.
    pub fn live_modes(self, m: Machine) -> u8
        ensures { result ≡ live_in self m.0 }
    {
        self.live.get(usize::from(m.0)).copied().unwrap_or(0)
    }

    // Where a move's record begins.
    fn place(self, v: Move) -> usize
        ensures { (result ≡ get_or self.places v.0 0) × (result < 65536) }
    {
        usize::from(self.places.get(usize::from(v.0)).copied().unwrap_or(0))
    }

    // Byte n of a move's body, in the file that was read.
    fn move_byte(self, s: &[u8], v: Move, n: usize) -> u8
        requires { n < 65536 }
        ensures { result ≡ move_byte s.now self v.0 n }
    {
        byte_at(s, self.place(v) + 4 + n)
    }

    // The machine of a move.
    pub fn move_machine(self, s: &[u8], v: Move) -> Machine
        ensures { result.0 ≡ move_byte s.now self v.0 0 }
    {
        Machine(self.move_byte(s, v, 0))
    }

    // The mode that a move leads from.
    pub fn move_from(self, s: &[u8], v: Move) -> u8
        ensures { result ≡ move_byte s.now self v.0 1 }
    {
        self.move_byte(s, v, 1)
    }

    // The mode that a move leads to.
    pub fn move_to(self, s: &[u8], v: Move) -> u8
        ensures { result ≡ move_byte s.now self v.0 2 }
    {
        self.move_byte(s, v, 2)
    }

    // The command byte of a move.
    pub fn move_command(self, s: &[u8], v: Move) -> u8
        ensures { result ≡ move_byte s.now self v.0 3 }
    {
        self.move_byte(s, v, 3)
    }

    // How many needs a move has.
    pub fn guard_count(self, s: &[u8], v: Move) -> usize
        ensures { result ≡ guard_count_in s.now self v.0 }
    {
        word_at(s, self.place(v)).saturating_sub(4) / 2
    }

    // The machine of a move's need n.
    pub fn guard_machine(self, s: &[u8], v: Move, n: u8) -> Machine
        ensures { result.0 ≡ move_byte s.now self v.0 (4 + 2 * n) }
    {
        Machine(self.move_byte(s, v, 4 + 2 * usize::from(n)))
    }

    // The modes that a move's need n allows, as bits.
    pub fn guard_mask(self, s: &[u8], v: Move, n: u8) -> u8
        ensures { result ≡ move_byte s.now self v.0 (5 + 2 * n) }
    {
        self.move_byte(s, v, 5 + 2 * usize::from(n))
    }
}

// The moves of a sheet that was read: its file, and where the record of each begins.
#[derive(Clone, Copy)]
pub struct Moves<'a> {
    pub file: &'a [u8],
    pub places: &'a [u16],
}

impl<'a> Moves<'a> {
    // How many there are.
    pub fn len(self) -> usize
        ensures { result ≡ length self.entry.places.now }
    {
        self.places.len()
    }

    // The body of a move.
    pub fn body(self, v: usize) -> &'a [u8]
        requires { v < length self.places.now }
        ensures { result.now ≡ body_at self.entry.file.now (get_or self.entry.places.now v 0) }
    {
        move_body(self.file, self.places, v)
    }
}

// The body of a move, by where the records of the moves begin.
pub fn move_body<'a>(file: &'a [u8], places: &[u16], v: usize) -> &'a [u8]
    requires { v < length places.now }
    ensures { result.now ≡ body_at file.now (get_or places.now v 0) }
{
    body(file, usize::from(places[v]))
}
