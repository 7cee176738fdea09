// How long the rows of a picture are, without writing them: by how many members a set has.
ghost use Rattle.std.specs.Prelude.{◌≡◌, map, ℕ, ◌≤◌, ◌<◌, length};
ghost use Rattle.common.specs.Lists.{sum};
ghost use Rattle.decimal.specs.Decimal.{decimal};
ghost use Rattle.sets.specs.Kept.Sets.{elements};
ghost use Rattle.picture.specs.Kept.Rows.{node_row, edge_row, pair_row};

// How many members a set has.
fn size(set: u64) -> usize
    ensures size { result ≡ length (elements set) }
    ensures short { result ≤ 64 }
{
    u64::count_ones(set) as usize
}

// How many digits the members of a set have together.
fn digits(set: u64) -> usize
    ensures digits { result ≡ sum (map (λ i. length (decimal i)) (elements set)) }
    ensures short { result ≤ 128 }
{
    size(set) + size(sets::down(set, 10))
}

// The length of the line of a node.
pub fn node_length(machines: u64, k: usize) -> usize
    requires { k < 32 }
    ensures length { result ≡ length (node_row machines k) }
    ensures short { result ≤ 1024 }
{
    15 + decimal::width(k) + size(machines) + digits(machines)
}

// The length of the lines of the edges from a group.
pub fn edges_length(targets: u64, a: usize) -> usize
    requires { a < 32 }
    ensures length { result ≡ length (edge_row targets a) }
    ensures short { result ≤ 1024 }
{
    let line = 10 + decimal::width(a);
    line * size(targets) + digits(targets)
}

// The length of the edges from a group in bytes.
pub fn pairs_length(targets: u64) -> usize
    ensures length { (a : ℕ) → result ≡ length (pair_row targets a) }
    ensures short { result ≤ 1024 }
{
    2 * size(targets)
}
