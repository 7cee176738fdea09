// The length of a sheet's plan: tests 1 to 8 and 21, 9, 10.
ghost use Rattle.std.specs.Prelude.{◌≡◌, ◌≤◌, length, ◌<◌, IfSome};
ghost use Rattle.std.specs.Option.{unwrap_or};
ghost use Rattle.sheet.specs.Model.{Model, machine_count};
ghost use Rattle.sheet.specs.Kept.Indexed.{Indexed, Indexes};
ghost use Rattle.plan.specs.Groups.{groups_of};
ghost use Rattle.plan.specs.Planning.{length_reply};
ghost use Rattle.plan.specs.Kept.Sizes.{SmallNumbers, CountsOf, first_large, entries_of};
ghost use Rattle.sheet.specs.Refusal.{measured_of};
ghost use Rattle.plan.specs.Kept.Making.{length_with};

use crate::grouping::groups;
use crate::sizing::{Group, count, sizes, smallest};
use sheet::index::Sheet;
use sheet::refusal::{Cause, Refusal};

// A plan.
#[derive(Clone, Copy)]
pub struct Plan;

impl Plan {
    // Entries of all tables at most.
    pub const ENTRIES: usize = 16384;

    // The bound at most.
    pub const BOUND: u32 = 65535;
}

// Of the first groups, the lowest that has too many modes.
pub fn first_large(sizes: &[u8], count: usize) -> Option<usize>
    requires { count ≤ length sizes.now }
    ensures first { unwrap_or result count ≡ first_large sizes.now count }
    ensures inside { IfSome result (λ k. k < count) }
{
    sizes[..count].iter().position(|&n| Group::MODES < n)
}

// The entries of the tables of the first groups.
fn entries(sizes: &[u8], count: usize) -> usize
    requires { (count ≤ length sizes.now) × (count ≤ 32) }
    ensures { result ≡ entries_of sizes.now count }
{
    let mut r: usize = 0;
    for &size in &sizes[..count] {
        let n = usize::from(size);
        r += n * n;
    }
    r
}

// The length of a plan with these group numbers, if they pass 9 and 10.
pub fn length_of(numbers: &[u8], modes: &[u8]) -> Result<usize, Refusal>
    requires { SmallNumbers numbers.now modes.now }
    ensures { (m : Model) → length numbers.now ≡ machine_count m → CountsOf m modes.now
        → measured_of result ≡ length_with m numbers.now }
{
    let groups = count(numbers);
    let n = sizes(numbers, modes);
    if let Some(large) = first_large(&n[..], groups) {
        let m = smallest(numbers, Group(large as u8));
        return Err(Cause::LargeGroup.at(usize::from(m.0)));
    }
    let cells = entries(&n[..], groups);
    if Plan::ENTRIES < cells {
        return Err(Cause::LargePlan.at(0));
    }
    Ok(16 + numbers.len() + 4 * groups + 2 * cells)
}

// The length of the plan of a sheet that has been read.
fn measured(file: &[u8], sheet: Sheet) -> Result<usize, Refusal>
    requires { Indexed file.now sheet }
    ensures { (m : Model) → Indexes file.now sheet m → measured_of result ≡ length_with m (groups_of m) }
{
    let numbers = groups(file, sheet);
    let n = sheet.machines;
    length_of(&numbers[..n], &sheet.modes)
}

// The length of the plan of a sheet: tests 1 to 8 and 21, 9, 10.
pub fn plan_length(file: &[u8]) -> Result<usize, Refusal>
    ensures { measured_of result ≡ length_reply file.now }
{
    let sheet = sheet::scan::read(file)?;
    measured(file, sheet)
}
