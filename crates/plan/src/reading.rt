// Reading a plan back, whoever wrote it: whether its records fit, where its tables begin, the bound.
ghost use Rattle.std.specs.Prelude.{◌≡◌, ◌&&◌, ◌≤◌, ◌<◌, length, get_or};
ghost use Rattle.sheet.specs.Record.{part};
ghost use Rattle.sheet.specs.Kept.Kinds.{kind_number};
ghost use Rattle.plan.specs.Reading.{gapless, has_record};
ghost use Rattle.plan.specs.Kept.Outline.{Used, lower_named, table_bytes, StartsAt, tables_fit, ends_at, bound_at};

use crate::sizing::{count, group_at};
use sheet::index::{Machine, Sheet};
use sheet::kind::Kind;
use sheet::record::{body, word_at};

// An entry of a table: a distance and a first move, 255 and 255 where there is no route, as in the plan's bytes.
#[derive(Clone, Copy)]
pub struct Cell {
    pub distance: u8,
    pub first: u8,
}

// Whether a record of a kind with a body of some length begins at a place of a plan.
fn has_record(plan: &[u8], at: usize, kind: Kind, len: usize) -> bool
    ensures { result ≡ has_record plan.now at (kind_number kind) len }
{
    let Some(record) = sheet::reader::record_at(plan, at) else {
        return false;
    };
    if record.kind != u16::from(u8::from(kind)) {
        return false;
    }
    record.len == len
}

// The numbers that occur, below 64.
fn used(numbers: &[u8]) -> u64
    requires { length numbers.now ≤ 32 }
    ensures { Used numbers.now result }
{
    let mut r: u64 = 0;
    for i in 0..numbers.len() {
        let group = group_at(numbers, Machine(i as u8));
        r = sets::put(r, usize::from(group.0));
    }
    r
}

// Whether the numbers of at most 32 machines run from 0 without gaps.
fn without_gaps(numbers: &[u8]) -> bool
    requires { length numbers.now ≤ 32 }
    ensures { result ≡ gapless numbers.now }
{
    let n = count(numbers);
    if 32 < n {
        return false;
    }
    used(numbers) == sets::first(n)
}

// Whether a plan begins with the group numbers of n machines, at most 32, and they have no gaps.
pub fn numbers_fit(plan: &[u8], n: usize) -> bool
    requires { n ≤ 32 }
    ensures { result ≡ (has_record plan.now 0 16 n && gapless (part plan.now 4 n)) }
{
    if has_record(plan, 0, Kind::Numbers, n) {
        return without_gaps(body(plan, 0));
    }
    false
}

// Whether no group names one above it.
pub fn needs_come_first(named: &[u64], count: usize) -> bool
    requires { (count ≤ 32) × (count ≤ length named.now) }
    ensures { result ≡ lower_named named.now count }
{
    for k in 0..count {
        if sets::down(named[k], k) != 0 {
            return false;
        }
    }
    true
}

// The bytes of the table of a group of so many modes.
fn table_length(size: u8) -> usize
    ensures { (result ≡ table_bytes size) × (result ≤ 130050) }
{
    2 * (usize::from(size) * usize::from(size))
}

// Where each group's record begins, behind the numbers of n machines, and where the record behind the last.
pub fn starts(sizes: &[u8], count: usize, n: usize) -> [u32; Sheet::MACHINES + 1]
    requires { (count ≤ 32) × (count ≤ length sizes.now) × (n ≤ 32) }
    ensures { StartsAt sizes.now n count result }
{
    let mut r = [0u32; Sheet::MACHINES + 1];
    let mut at: usize = 4 + n;
    for k in 0..count {
        r[k] = at as u32;
        at += 4 + table_length(sizes[k]);
    }
    r[count] = at as u32;
    r
}

// Whether a record of the right length begins where each table should.
fn tables_fit(plan: &[u8], sizes: &[u8], starts: &[u32], count: usize) -> bool
    requires { (count ≤ length sizes.now) × (count ≤ length starts.now) }
    ensures { result ≡ tables_fit plan.now sizes.now starts.now count }
{
    for k in 0..count {
        let len = table_length(sizes[k]);
        if !has_record(plan, starts[k] as usize, Kind::Table, len) {
            return false;
        }
    }
    true
}

// Whether the bound and the end stand at a place, and nothing behind them.
fn ends(plan: &[u8], at: usize) -> bool
    requires { at < 4294967296 }
    ensures { result ≡ ends_at plan.now at }
{
    if !has_record(plan, at, Kind::Bound, 4) {
        return false;
    }
    if !has_record(plan, at + 8, Kind::End, 0) {
        return false;
    }
    plan.len() == at + 12
}

// Whether the tables, the bound and the end stand where they should.
pub fn records_fit(plan: &[u8], sizes: &[u8], starts: &[u32], count: usize) -> bool
    requires { (count ≤ length sizes.now) × (count < length starts.now) }
    ensures { result ≡ (tables_fit plan.now sizes.now starts.now count
        && ends_at plan.now (get_or starts.now count 0)) }
{
    if tables_fit(plan, sizes, starts, count) {
        return ends(plan, starts[count] as usize);
    }
    false
}

// The bound in the record that begins at a place.
pub fn bound(plan: &[u8], at: usize) -> u64
    requires { at < 4294967296 }
    ensures { result ≡ bound_at plan.now at }
{
    (word_at(plan, at + 4) + 65536 * word_at(plan, at + 6)) as u64
}
