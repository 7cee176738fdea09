// Whether the groups of a picture have their numbers in turn.
ghost use Rattle.std.specs.Prelude.{◌≡◌, true, not, ◌&&◌, ℕ, ◌<◌, length, get_or, eqb};
ghost use Rattle.common.specs.Bits.{bit};
ghost use Rattle.common.specs.Lists.{up_to, all};
ghost use Rattle.sets.specs.Kept.Sets.{least};
ghost use Rattle.search.specs.Kept.Search.{Union};
ghost use Rattle.picture.specs.Reading.{in_turn};
ghost use Rattle.picture.specs.Kept.Shown.{Shows, shown};

use plan::partition::members;
use plan::sizing::{Group, group_of};
use sheet::index::Machine;

// The machines of some groups, by the machines of each.
fn machines_of(members: &[u64], groups: u64) -> u64
    requires { (g : ℕ) → bit groups g ≡ true → g < length members.now }
    ensures { Union members.now groups result }
{
    let mut r: u64 = 0;
    for g in sets::each(groups) {
        r = sets::join(r, members[g]);
    }
    r
}

// A group is that of the first of the machines that are ready for its number.
fn in_turn(numbers: &[u8], ready: u64, group: Group) -> bool
    ensures { result ≡ (not (eqb ready 0) && eqb (get_or numbers.now (least ready) 0) group.0) }
{
    if ready == 0 {
        return false;
    }
    let first = group_of(numbers, Machine(sets::lowest(ready) as u8));
    first == group
}

// Each number is in its turn: going down from the last, with the machines of later groups, and those that wait for one.
pub fn all_in_turn(numbers: &[u8], targets: &[u64]) -> bool
    requires { Shows numbers.now targets.now }
    ensures { result ≡ all (in_turn (shown numbers.now targets.now))
        (up_to (length targets.now)) }
{
    let machines = members(numbers);
    let mut waiting: u64 = 0;
    let mut later: u64 = 0;
    let mut held: u64 = 0;
    for k in (0..targets.len()).rev() {
        let new = sets::minus(targets[k], waiting);
        waiting = sets::join(waiting, targets[k]);
        later = sets::join(later, machines[k]);
        held = sets::join(held, machines_of(&machines, new));
        if !in_turn(numbers, sets::minus(later, held), Group(k as u8)) {
            return false;
        }
    }
    true
}
