// A picture's text matched byte by byte.
ghost use Rattle.std.specs.Prelude.{◌≡◌, [], ◌∷◌, ◌++◌, true, ◌&&◌, ◌+◌, ◌≤◌, ◌<◌, eqb, ltb};
ghost use Rattle.std.specs.Prelude.{length, get_or, take, drop, IfSome, IfNone};
ghost use Rattle.decimal.specs.Decimal.{starts_with};
ghost use Rattle.sets.specs.Kept.Sets.{lowered};
ghost use Rattle.picture.specs.Text.{last_line, line_start};
ghost use Rattle.picture.specs.Kept.Matched.{NoPicture, NumberFound, LabelFound, NodeFound, NodesFound};
ghost use Rattle.picture.specs.Kept.Rows.{label_start, arrow};
ghost use Rattle.picture.specs.Kept.Matched.{RowFound, EdgesFound, Gapless, TextFound};
ghost use Rattle.picture.specs.Kept.Shown.{Shown};

use decimal::text::{has, stands};
use search::mark;
use sheet::index::Sheet;

// A number and the place behind it.
#[derive(Clone, Copy)]
pub struct Number {
    pub value: usize,
    pub end: usize,
}

// The machines of a label, as a set, and the place behind it.
#[derive(Clone, Copy)]
pub struct Label {
    pub machines: u64,
    pub end: usize,
}

// The machines of the nodes, as a set, how many nodes, and the place behind them.
#[derive(Clone, Copy)]
pub struct Nodes {
    pub seen: u64,
    pub count: usize,
    pub end: usize,
}

// The targets of the edges from a group, as a set, and the place behind them.
#[derive(Clone, Copy)]
pub struct Row {
    pub targets: u64,
    pub end: usize,
}

// How many machines and how many groups.
#[derive(Clone, Copy)]
pub struct Counts {
    pub machines: usize,
    pub groups: usize,
}

// What a text says: how many machines and groups, each machine's group, and the groups that need each group. Arrays with counts beside them,
// since there is no heap.
#[derive(Clone, Copy)]
pub struct Found {
    pub machines: usize,
    pub groups: usize,
    pub numbers: [u8; sets::NUMBERS],
    pub targets: [u64; Sheet::MACHINES],
}

// The number is below n, and above all of a set.
fn rises(s: u64, i: usize, n: usize) -> bool
    requires { n ≤ 64 }
    ensures { result ≡ (ltb i n && eqb (lowered s i) 0) }
{
    i < n && sets::down(s, i) == 0
}

// The number at a place, if it is below n and above all of a set.
fn number_above(text: &[u8], at: usize, s: u64, n: usize) -> Option<Number>
    requires { (at ≤ length text.now) × (n ≤ 64) }
    ensures { NumberFound text.now at s n result }
{
    let i = decimal::read(text, at)?;
    if !rises(s, i, n) {
        return None;
    }
    Some(Number {
        value: i,
        end: at + decimal::width(i),
    })
}

// The label whose quote stands at a place, if it is one.
fn read_label(text: &[u8], at: usize) -> Option<Label>
    requires { get_or text.now at 0 ≡ 34 }
    ensures { LabelFound text.now at result }
{
    let mut machines: u64 = 0;
    let mut end = at;
    let mut more = true;
    // Not a `for`: the text says where the machines end.
    while more {
        let i = number_above(text, end + 1, machines, 32)?;
        machines = sets::with(machines, i.value);
        end = i.end;
        more = has(text, end, b' ');
    }
    if !stands(text, end, b"\"];\n") {
        return None;
    }
    Some(Label {
        machines,
        end: end + 4,
    })
}

// Two spaces and a group's name stand at a place.
fn names(text: &[u8], at: usize, k: usize) -> bool
    requires { (at ≤ length text.now) × (k < 100) }
    ensures { result ≡ starts_with (line_start k) (drop at text.now) }
{
    stands(text, at, b"  g") && decimal::stands(text, at + 3, k)
}

// The line of node k begins at a place, up to the quote.
fn opens_node(text: &[u8], at: usize, k: usize) -> bool
    requires { at ≤ length text.now }
    ensures { result
        ≡ (ltb k 32 && starts_with (line_start k ++ (label_start ++ (34 ∷ []))) (drop at text.now)) }
{
    if 32 <= k {
        return false;
    }
    if !names(text, at, k) {
        return false;
    }
    stands(text, at + 3 + decimal::width(k), b" [label=\"")
}

// The line of an edge from group a begins at a place, up to the target's number.
fn opens_edge(text: &[u8], at: usize, a: usize) -> bool
    requires { (at ≤ length text.now) × (a < 100) }
    ensures { result ≡ starts_with (line_start a ++ arrow) (drop at text.now) }
{
    if !names(text, at, a) {
        return false;
    }
    stands(text, at + 3 + decimal::width(a), b" -> g")
}

// The label of node k, whose line begins at a place, if it is one.
fn read_node(text: &[u8], at: usize, k: usize) -> Option<Label>
    requires { (at ≤ length text.now) × (k < 100)
        × (starts_with (line_start k ++ (label_start ++ (34 ∷ []))) (drop at text.now) ≡ true) }
    ensures { NodeFound text.now at k result }
{
    read_label(text, at + 11 + decimal::width(k))
}

// The nodes, from place 17 on, unless one is wrong. Writes each machine's group.
fn read_nodes(text: &[u8], numbers: &mut [u8]) -> Option<Nodes>
    requires { (17 ≤ length text.now) × (length numbers.old ≡ 64) }
    ensures { NodesFound text.now numbers.new result }
{
    let mut seen: u64 = 0;
    let mut k: usize = 0;
    let mut at: usize = 17;
    // Not a `for`: the text says where the nodes end.
    while opens_node(text, at, k) {
        let label = read_node(text, at, k)?;
        if sets::meet(label.machines, seen) != 0 {
            return None;
        }
        mark(numbers, label.machines, k as u8);
        seen = sets::join(seen, label.machines);
        at = label.end;
        k += 1;
    }
    Some(Nodes {
        seen,
        count: k,
        end: at,
    })
}

// The edges from group a to groups below count, at a place, unless one is wrong.
fn read_row(text: &[u8], at: usize, a: usize, count: usize) -> Option<Row>
    requires { (at ≤ length text.now) × (a < 100) × (count ≤ 64) }
    ensures { RowFound text.now at a count result }
{
    let head = 8 + decimal::width(a);
    let mut targets: u64 = 0;
    let mut end = at;
    // Not a `for`: the text says where the edges end.
    while opens_edge(text, end, a) {
        let k = number_above(text, end + head, targets, count)?;
        if !stands(text, k.end, b";\n") {
            return None;
        }
        targets = sets::with(targets, k.value);
        end = k.end + 2;
    }
    Some(Row { targets, end })
}

// The place behind the edges of all groups, which begin at a place, unless one is wrong. Writes the targets of each group.
fn read_edges(text: &[u8], at: usize, count: usize, targets: &mut [u64]) -> Option<usize>
    requires { (at ≤ length text.now) × (count ≤ 32) × (count ≤ length targets.old) }
    ensures { EdgesFound text.now at count targets.new result }
{
    let mut end = at;
    for a in 0..count {
        let row = read_row(text, end, a, count)?;
        targets[a] = row.targets;
        end = row.end;
    }
    Some(end)
}

// How many numbers there are in a set, if it has some, and all below the greatest.
fn machine_count(s: u64) -> Option<usize>
    ensures { Gapless s result }
{
    if s == 0 {
        return None;
    }
    let n = sets::highest(s) + 1;
    if s != sets::first(n) {
        return None;
    }
    Some(n)
}

// The last line stands at a place, and nothing behind it.
fn ends(text: &[u8], at: usize) -> bool
    requires { at ≤ length text.now }
    ensures { result
        ≡ (starts_with last_line (drop at text.now) && eqb (at + 2) (length text.now)) }
{
    stands(text, at, b"}\n") && at + 2 == text.len()
}

// Reads a text, if it is a picture's. Writes each machine's group and the targets of each group.
fn read_text(text: &[u8], numbers: &mut [u8], targets: &mut [u64]) -> Option<Counts>
    requires { (length numbers.old ≡ 64) × (length targets.old ≡ 32) }
    ensures { TextFound text.now numbers.new targets.new result }
{
    if !stands(text, 0, b"digraph groups {\n") {
        return None;
    }
    let nodes = read_nodes(text, numbers)?;
    let machines = machine_count(nodes.seen)?;
    if machines < nodes.count {
        return None;
    }
    let end = read_edges(text, nodes.end, nodes.count, targets)?;
    if !ends(text, end) {
        return None;
    }
    Some(Counts {
        machines,
        groups: nodes.count,
    })
}

// The picture that a text is of, with its edges between any two groups, if it is a picture's.
pub fn matched(text: &[u8]) -> Option<Found>
    ensures read { IfSome result
        (λ f. Shown text.now (take f.machines f.numbers) (take f.groups f.targets)) }
    ensures other { IfNone result (NoPicture text.now) }
    ensures small { IfSome result (λ f. (f.machines ≤ 32) × (f.groups ≤ 32)) }
{
    let mut numbers = [0u8; sets::NUMBERS];
    let mut targets = [0u64; Sheet::MACHINES];
    let counts = read_text(text, &mut numbers[..], &mut targets[..])?;
    Some(Found {
        machines: counts.machines,
        groups: counts.groups,
        numbers,
        targets,
    })
}
