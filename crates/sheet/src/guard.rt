// The guards of a move, in its body: what it needs of other machines.
ghost use Rattle.std.specs.Prelude.{◌≡◌, ◌-◌, ◌^◌, ◌<◌, length};
ghost use Rattle.std.specs.Iterator.{at_most};

use crate::index::{Machine, Move};

// A guard: a machine, and the modes of it that are allowed, as bits.
#[derive(Clone, Copy)]
pub struct Guard {
    pub machine: Machine,
    pub mask: u8,
}

// The guards that are still to come: those from a place of the body on.
#[derive(Clone, Copy)]
pub struct Guards<'a> {
    pub body: &'a [u8],
    pub at: usize,
    ghost near: { at < 2 ^ 63 },
}

impl<'a> Guards<'a> {
    // All guards of a move.
    pub fn of(body: &'a [u8]) -> Guards<'a>
        ensures body { result.body ≡ body.entry }
        ensures at { result.at ≡ 4 }
    {
        Guards {
            body,
            at: Move::HEAD,
        }
    }
}

impl<'a> Iterator for Guards<'a> {
    ghost use Rattle.sheet.specs.Kept.Guards.{GivesGuard};

    type Item = Guard;

    ghost next_gives = { GivesGuard };

    ghost remaining = { λ g. at_most (length g.body.now - g.at) };

    fn next(&mut self) -> Option<Guard> {
        let body = self.body;
        let at = self.at;
        if body.len() <= at + 1 {
            return None;
        }
        self.at = at + 2;
        Some(Guard {
            machine: Machine(body[at]),
            mask: body[at + 1],
        })
    }
}
