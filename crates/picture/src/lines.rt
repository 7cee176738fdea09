// The lines of a picture's text, and its edges in bytes, each written at a place of the lent buffer.
ghost use Rattle.std.specs.Prelude.{◌≡◌, ◌∷◌, [], ◌+◌, ◌≤◌, ◌<◌, length};
ghost use Rattle.decimal.specs.Decimal.{decimal};
ghost use Rattle.sets.specs.Kept.Sets.{elements};
ghost use Rattle.sheet.specs.Kept.Written.{written};
ghost use Rattle.picture.specs.Picture.{edge};
ghost use Rattle.picture.specs.Text.{line_start, labels, edge_line};
ghost use Rattle.picture.specs.Kept.Rows.{node_row, edge_row, pair_row};

use sheet::writing::put_bytes;

// Writes bytes at a place, and gives the place behind them.
pub fn put(out: &mut [u8], at: usize, bytes: &[u8]) -> usize
    requires { at + length bytes.now ≤ length out.old }
    ensures end { result ≡ at + length bytes.now }
    ensures written { out.new ≡ written at bytes.now out.old }
{
    put_bytes(out, at, bytes);
    at + bytes.len()
}

// Writes a byte and a number behind it.
fn put_number(out: &mut [u8], at: usize, before: u8, n: usize) -> usize
    requires { at + length (before ∷ decimal n) ≤ length out.old }
    ensures end { result ≡ at + length (before ∷ decimal n) }
    ensures written { out.new ≡ written at (before ∷ decimal n) out.old }
{
    out[at] = before;
    decimal::put(out, at + 1, n)
}

// Writes two spaces and a group's name.
fn put_name(out: &mut [u8], at: usize, k: usize) -> usize
    requires { at + length (line_start k) ≤ length out.old }
    ensures end { result ≡ at + length (line_start k) }
    ensures written { out.new ≡ written at (line_start k) out.old }
{
    let end = put(out, at, b"  ");
    put_number(out, end, b'g', k)
}

// Writes the machines of a set, the first behind a quote and each other behind a space.
fn put_labels(out: &mut [u8], at: usize, machines: u64) -> usize
    requires { at + length (labels 34 (elements machines)) ≤ length out.old }
    ensures end { result ≡ at + length (labels 34 (elements machines)) }
    ensures written { out.new ≡ written at (labels 34 (elements machines)) out.old }
{
    let mut end = at;
    let mut before: u8 = b'"';
    for i in sets::each(machines) {
        end = put_number(out, end, before, i);
        before = b' ';
    }
    end
}

// Writes the line of a node.
pub fn put_node(out: &mut [u8], at: usize, machines: u64, k: usize) -> usize
    requires { at + length (node_row machines k) ≤ length out.old }
    ensures end { result ≡ at + length (node_row machines k) }
    ensures written { out.new ≡ written at (node_row machines k) out.old }
{
    let name = put_name(out, at, k);
    let label = put(out, name, b" [label=");
    let end = put_labels(out, label, machines);
    put(out, end, b"\"];\n")
}

// Writes the line of an edge.
fn put_edge(out: &mut [u8], at: usize, a: usize, k: usize) -> usize
    requires { at + length (edge_line (edge a k)) ≤ length out.old }
    ensures end { result ≡ at + length (edge_line (edge a k)) }
    ensures written { out.new ≡ written at (edge_line (edge a k)) out.old }
{
    let name = put_name(out, at, a);
    let arrow = put(out, name, b" -> ");
    let end = put_number(out, arrow, b'g', k);
    put(out, end, b";\n")
}

// Writes the lines of the edges from a group.
pub fn put_edges(out: &mut [u8], at: usize, targets: u64, a: usize) -> usize
    requires { at + length (edge_row targets a) ≤ length out.old }
    ensures end { result ≡ at + length (edge_row targets a) }
    ensures written { out.new ≡ written at (edge_row targets a) out.old }
{
    let mut end = at;
    for k in sets::each(targets) {
        end = put_edge(out, end, a, k);
    }
    end
}

// Writes an edge in bytes.
fn put_pair(out: &mut [u8], at: usize, a: usize, k: usize) -> usize
    requires { (at + 2 ≤ length out.old) × (a < 64) × (k < 64) }
    ensures end { result ≡ at + 2 }
    ensures written { out.new ≡ written at (a ∷ k ∷ []) out.old }
{
    out[at] = a as u8;
    out[at + 1] = k as u8;
    at + 2
}

// Writes the edges from a group in bytes. Not one function with `put_edges`: a trait with two impls is more than the two loops.
pub fn put_pairs(out: &mut [u8], at: usize, targets: u64, a: usize) -> usize
    requires { (at + length (pair_row targets a) ≤ length out.old) × (a < 64) }
    ensures end { result ≡ at + length (pair_row targets a) }
    ensures written { out.new ≡ written at (pair_row targets a) out.old }
{
    let mut end = at;
    for k in sets::each(targets) {
        end = put_pair(out, end, a, k);
    }
    end
}
