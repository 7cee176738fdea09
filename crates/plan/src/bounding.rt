// Costs and the bound, as numbers that stop at one more than a bound may be.
ghost use Rattle.std.specs.Prelude.{◌≡◌, ℕ, ◌≤◌, length, get_or};
ghost use Rattle.sets.specs.Kept.Sets.{elements};
ghost use Rattle.plan.specs.Kept.CostSets.{capped_cost, move_cost, bound_by_sets};

use crate::measure::Plan;

// What the first groups cost together: each from its longest distance and the set of the groups that it names.
pub fn bound(named: &[u64], longest: &[u8], count: usize) -> u32
    requires { (count ≤ 64) × (count ≤ length named.now) × (count ≤ length longest.now) }
    ensures { result ≡ capped_cost (bound_by_sets named.now longest.now count) }
{
    // A cost for each number that a set can hold; of a group to come, 0.
    let mut costs = [0u32; sets::NUMBERS];
    let mut total: u32 = 0;
    for k in 0..count {
        let cost = capped(u32::from(longest[k]) * prepared(&costs, named[k]));
        costs[k] = cost;
        total = capped(total + cost);
    }
    total
}

// One move, and what preparing it may cost.
fn prepared(costs: &[u32; sets::NUMBERS], named: u64) -> u32
    requires { (i : ℕ) → get_or costs.now i 0 ≤ 65536 }
    ensures { result ≡ move_cost costs.now (elements named) }
{
    let mut r: u32 = 1;
    for a in sets::each(named) {
        r += costs[a];
    }
    r
}

// A cost that stops at one more than a bound may be.
fn capped(n: u32) -> u32
    ensures { result ≡ capped_cost n }
{
    n.min(Plan::BOUND + 1)
}
