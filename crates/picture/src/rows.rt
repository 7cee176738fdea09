// The rows of a picture, one for each group: how long they are together, and writing them.
ghost use Rattle.std.specs.Prelude.{◌≡◌, ℕ, List, ◌+◌, ◌≤◌, ◌<◌, length};
ghost use Rattle.sheet.specs.Kept.Written.{written};
ghost use Rattle.picture.specs.Kept.Rows.{node_row, edge_row, pair_row, rows_of};

use crate::lengths::{edges_length, node_length, pairs_length};
use crate::lines::{put_edges, put_node, put_pairs};

// What a picture has for each group, by a set: a row of bytes.
pub trait GroupRow {
    ghost row: { ℕ → ℕ → List ℕ };

    // The length of the row of a group.
    fn length(set: u64, a: usize) -> usize
        requires { a < 32 }
        ensures length { result ≡ length (row set a) }
        ensures short { result ≤ 1024 };

    // Writes the row of a group at a place, and gives the place behind it.
    fn put(out: &mut [u8], at: usize, set: u64, a: usize) -> usize
        requires { (a < 32) × (at + length (row set a) ≤ length out.old) }
        ensures end { result ≡ at + length (row set a) }
        ensures written { out.new ≡ written at (row set a) out.old };
}

// The line of the node, by the machines of the group.
pub struct Node;

// The lines of the edges, by their targets.
pub struct Edges;

// The edges in bytes.
pub struct Pairs;

impl GroupRow for Node {
    ghost row = { node_row };

    fn length(set: u64, a: usize) -> usize {
        node_length(set, a)
    }

    fn put(out: &mut [u8], at: usize, set: u64, a: usize) -> usize {
        put_node(out, at, set, a)
    }
}

impl GroupRow for Edges {
    ghost row = { edge_row };

    fn length(set: u64, a: usize) -> usize {
        edges_length(set, a)
    }

    fn put(out: &mut [u8], at: usize, set: u64, a: usize) -> usize {
        put_edges(out, at, set, a)
    }
}

impl GroupRow for Pairs {
    ghost row = { pair_row };

    fn length(set: u64, _a: usize) -> usize {
        pairs_length(set)
    }

    fn put(out: &mut [u8], at: usize, set: u64, a: usize) -> usize {
        put_pairs(out, at, set, a)
    }
}

// The length of the rows of all groups, by the set of each.
pub fn rows_length<R: GroupRow>(sets: &[u64]) -> usize
    requires { length sets.now ≤ 32 }
    ensures short { result ≤ 32768 }
    ensures length { result ≡ length (rows_of R.GroupRow.row sets.now) }
{
    let mut r: usize = 0;
    for (a, set) in sets.iter().enumerate() {
        r += R::length(*set, a);
    }
    r
}

// Writes the rows of all groups at a place, and gives the place behind them.
pub fn put_rows<R: GroupRow>(out: &mut [u8], at: usize, sets: &[u64]) -> usize
    requires { (length sets.now ≤ 32) × (at + length (rows_of R.GroupRow.row sets.now) ≤ length out.old) }
    ensures end { result ≡ at + length (rows_of R.GroupRow.row sets.now) }
    ensures written { out.new ≡ written at (rows_of R.GroupRow.row sets.now) out.old }
{
    let mut end = at;
    for (a, set) in sets.iter().enumerate() {
        end = R::put(out, end, *set, a);
    }
    end
}
