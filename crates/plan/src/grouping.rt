// The groups of a sheet: sets of machines that need one another, numbered so that needs come first.
ghost use Rattle.std.specs.Prelude.{◌≡◌, ℕ, ◌<◌, ◌≤◌, length, take, replicate, get_or};
ghost use Rattle.sheet.specs.Model.{Model, machine_count, move_of};
ghost use Rattle.sheet.specs.Kept.Indexed.{Indexed, Indexes};
ghost use Rattle.common.specs.Graph.{Graph, distances};
ghost use Rattle.search.specs.Kept.Search.{Holds};
ghost use Rattle.plan.specs.Needs.{need_graph};
ghost use Rattle.plan.specs.Groups.{numbered_upto, groups_of};
ghost use Rattle.plan.specs.Kept.MachineSets.{NamedIn, Mutual, Outside};
ghost use Rattle.plan.specs.Kept.MachineSets.{Grouped, next_group, GroupsBelow, PutInto};
ghost use Rattle.plan.specs.Kept.MachineSets.{NumberedNeeds, TargetSets};
ghost use Rattle.plan.specs.Kept.Partition.{NeededBy};

use crate::sizing::{Group, group_of};
use sheet::guard::Guards;
use sheet::index::{Machine, Moves, Sheet};

// The machines that a move names, from its body.
fn named(body: &[u8]) -> u64
    ensures { NamedIn (move_of body.now) result }
{
    let mut r: u64 = 0;
    for guard in Guards::of(body) {
        r = sets::put(r, usize::from(guard.machine.0));
    }
    r
}

// For each machine, those that it needs.
fn needed(s: &[u8], sheet: Sheet) -> [u64; sets::NUMBERS]
    requires { Indexed s.now sheet }
    ensures { (m : Model) → Indexes s.now sheet m → Holds (need_graph m) result }
{
    let all = &sheet.places[..];
    let moves = Moves {
        file: s,
        places: &all[..sheet.moves],
    };
    let mut next = [0u64; sets::NUMBERS];
    for v in 0..moves.len() {
        let b = moves.body(v);
        let i = usize::from(b[0]);
        next[i] = sets::join(next[i], named(b));
    }
    next
}

// The machines that a machine reaches and that reach it.
fn mutual(reach: &[u64], m: Machine) -> u64
    requires { (length reach.now ≡ 64) × (m.0 < 64) }
    ensures { Mutual reach.now m.0 result }
{
    let i = usize::from(m.0);
    let mut r: u64 = 0;
    for j in sets::each(reach[i]) {
        r = sets::put_if(r, j, sets::has(reach[j], i));
    }
    r
}

// The machines outside a group that the group needs.
fn outside(next: &[u64], group: u64) -> u64
    requires { length next.now ≡ 64 }
    ensures { Outside next.now group result }
{
    sets::minus(search::union_of(next, group), group)
}

// Writes a set for each of n machines, by what gives it. Into a lent array, since one that is handed out is copied.
fn put_each<F: Fn(usize) -> u64>(n: usize, f: F, r: &mut [u64])
    requires { (n ≤ 64) × (length r.old ≡ 64) × ((i : ℕ) → i < n → F.pre f i) }
    ensures { (i : ℕ) → i < n → F.post f i (get_or r.new i 0) }
{
    for i in 0..n {
        r[i] = f(i);
    }
}

// Of the groups that are ready for a number, the one with the smallest machine; empty if there is none.
fn next_group(groups: &[u64], outside: &[u64], numbered: u64, n: usize) -> u64
    requires { (length groups.now ≡ 64) × (length outside.now ≡ 64) × (n ≤ 64) }
    ensures { result ≡ next_group groups.now outside.now numbered n }
{
    for i in sets::each(sets::minus(sets::first(n), numbered)) {
        if sets::minus(outside[i], numbered) == 0 {
            return groups[i];
        }
    }
    0
}

// Numbers the groups of n machines.
fn number(groups: &[u64], outside: &[u64], n: usize) -> [u8; sets::NUMBERS]
    requires { (length groups.now ≡ 64) × (length outside.now ≡ 64) × (n ≤ 64) }
    ensures { (g : Graph) → Grouped g n groups.now outside.now
        → take n result ≡ numbered_upto g (distances g) n }
{
    let mut numbers = [0u8; sets::NUMBERS];
    let mut numbered: u64 = 0;
    for k in 0..n {
        let group = next_group(groups, outside, numbered, n);
        if group == 0 {
            return numbers;
        }
        search::mark(&mut numbers, group, k as u8);
        numbered = sets::join(numbered, group);
    }
    numbers
}

// Numbers the groups of n machines by what each of them needs.
fn by_needs(next: &[u64], n: usize) -> [u8; sets::NUMBERS]
    requires { (length next.now ≡ 64) × (n ≤ 64) }
    ensures { (m : Model) → Holds (need_graph m) next.now → n ≡ machine_count m
        → take (machine_count m) result ≡ groups_of m }
{
    let mut reach = [0u64; sets::NUMBERS];
    let mut groups = [0u64; sets::NUMBERS];
    let mut waits = [0u64; sets::NUMBERS];
    put_each(n, |i| search::reach(next, i as u8), &mut reach);
    put_each(n, |i| mutual(&reach, Machine(i as u8)), &mut groups);
    put_each(n, |i| outside(next, groups[i]), &mut waits);
    number(&groups, &waits, n)
}

// Each machine's group number.
pub fn groups(s: &[u8], sheet: Sheet) -> [u8; sets::NUMBERS]
    requires { Indexed s.now sheet }
    ensures { (m : Model) → Indexes s.now sheet m → take (machine_count m) result ≡ groups_of m }
{
    let next = needed(s, sheet);
    by_needs(&next, sheet.machines)
}

// Puts a group into the sets of the groups of some machines.
fn put_into(into: &mut [u64], numbers: &[u8], machines: u64, group: Group)
    requires { (length into.old ≡ 32) × (length numbers.now ≡ 64) × (group.0 < 64)
        × GroupsBelow numbers.now machines }
    ensures { PutInto into.old numbers.now machines group.0 into.new }
{
    for j in sets::each(machines) {
        let own = group_of(numbers, Machine(j as u8));
        let a = usize::from(own.0);
        into[a] = sets::with(into[a], usize::from(group.0));
    }
}

// Puts into each group's set the other groups with a machine that needs one of its machines.
fn put_targets(next: &[u64], numbers: &[u8], n: usize, targets: &mut [u64])
    requires { NumberedNeeds next.now numbers.now n × (targets.old ≡ replicate 32 0) }
    ensures { TargetSets next.now numbers.now n targets.new }
{
    for i in 0..n {
        let group = group_of(numbers, Machine(i as u8));
        let k = usize::from(group.0);
        put_into(targets, numbers, next[i], group);
        targets[k] = sets::without(targets[k], k);
    }
}

// Each machine's group number. Puts into each group's set the other groups whose moves name it.
pub fn ordered(s: &[u8], sheet: Sheet, targets: &mut [u64]) -> [u8; sets::NUMBERS]
    requires { Indexed s.now sheet × (targets.old ≡ replicate 32 0) }
    ensures numbers { (m : Model) → Indexes s.now sheet m
        → take (machine_count m) result ≡ groups_of m }
    ensures targets { (m : Model) → Indexes s.now sheet m
        → NeededBy m (groups_of m) targets.new }
{
    let n = sheet.machines;
    let next = needed(s, sheet);
    let numbers = by_needs(&next, n);
    put_targets(&next, &numbers, n, targets);
    numbers
}
