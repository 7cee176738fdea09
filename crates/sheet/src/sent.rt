// The commands of the moves so far. A move is told by its key of two bytes: machine and from mode, and the command. Keys stand in a
// table of 512 slots, never half full, each beside the number of its move; a slot without a command is free.
ghost use Rattle.std.specs.Prelude.{◌≡◌, List, [], ℕ, ◌+◌, ◌*◌, ◌≤◌, ◌<◌, length, eqb};
ghost use Rattle.common.specs.Lists.{any};
ghost use Rattle.sheet.specs.Record.{byte};
ghost use Rattle.sheet.specs.Model.{Move, move_of};
ghost use Rattle.sheet.specs.Kept.Sent.{key_of, slot_of, key_at, Sent, Sought, Added};

// Slots of the table.
pub const SLOTS: usize = 512;

// The table: the two bytes of each slot's key, and the number of its move. Three arrays, since one of Options or of structs is above
// 512 bytes.
#[derive(Drop)]
pub struct Keys {
    pub pairs: [u8; SLOTS],
    pub commands: [u8; SLOTS],
    pub owners: [u8; SLOTS],
}

// The upper byte of a key: machine and from mode. Nothing of it is cut off where both are of some sheet.
pub fn pair_of(machine: u8, from: u8) -> u8
    ensures { (v : Move) → v.machine ≡ machine → v.from ≡ from → v.command < 256
        → 256 * result + v.command ≡ key_of v }
{
    ((8 * usize::from(machine) + usize::from(from)) % 256) as u8
}

// A key's own slot: neighbouring keys have slots far apart.
fn slot_of(pair: u8, command: u8) -> usize
    ensures { (result ≡ slot_of (256 * pair + command)) × (result < 512) }
{
    (256 * usize::from(pair) + usize::from(command)) * 2654435761 / 8388608 % SLOTS
}

impl Keys {
    // A table of no keys.
    pub fn none() -> Self
        ensures { Sent [] result.pairs result.commands result.owners }
    {
        Keys {
            pairs: [0u8; SLOTS],
            commands: [0u8; SLOTS],
            owners: [0u8; SLOTS],
        }
    }

    // Whether a slot holds a key.
    fn holds(&self, at: usize, pair: u8, command: u8) -> bool
        requires { (at < length self.now.pairs) × (at < length self.now.commands) }
        ensures { result ≡ eqb (key_at self.now.pairs self.now.commands at) (256 * pair + command) }
    {
        if self.commands[at] == command {
            return self.pairs[at] == pair;
        }
        false
    }

    // The slot that holds a key or, if none does, the free one where it would be put.
    pub fn find(&self, pair: u8, command: u8) -> usize
        requires { (keys : List ℕ) × Sent keys self.now.pairs self.now.commands self.now.owners }
        ensures { (keys : List ℕ) → Sent keys self.now.pairs self.now.commands self.now.owners
            → Sought keys self.now.pairs self.now.commands (256 * pair + command) result }
    {
        let mut at = slot_of(pair, command);
        // Goes round the table until a free slot; it is no count, so it stays a `while`.
        while self.commands[at] != 0 {
            if self.holds(at, pair, command) {
                return at;
            }
            at = (at + 1) % SLOTS;
        }
        at
    }

    // Adds the key of a move with a command, and its number; false, and nothing is added, if an earlier move has the key.
    pub fn add(&mut self, body: &[u8], number: usize) -> bool
        requires { ((keys : List ℕ) × Sent keys self.old.pairs self.old.commands self.old.owners) × (4 ≤ length body.now) × (number < 250) }
        ensures { (keys : List ℕ) → Sent keys self.old.pairs self.old.commands self.old.owners
            → length keys ≡ number → (byte body.now 3 ≡ 0 → ⊥)
            → Added keys (key_of (move_of body.now)) result self.new.pairs self.new.commands self.new.owners }
    {
        let pair = pair_of(body[0], body[1]);
        let command = body[3];
        let at = self.find(pair, command);
        if self.commands[at] != 0 {
            return false;
        }
        self.pairs[at] = pair;
        self.commands[at] = command;
        self.owners[at] = number as u8;
        true
    }

    // Whether an earlier move has the key of a move.
    pub fn repeats(&self, body: &[u8]) -> bool
        requires { ((keys : List ℕ) × Sent keys self.now.pairs self.now.commands self.now.owners) × (4 ≤ length body.now) }
        ensures { (keys : List ℕ) → Sent keys self.now.pairs self.now.commands self.now.owners
            → result ≡ any (eqb (key_of (move_of body.now))) keys }
    {
        let pair = pair_of(body[0], body[1]);
        let command = body[3];
        self.commands[self.find(pair, command)] != 0
    }
}
