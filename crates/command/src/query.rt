// A question: what to do in a state, under a plan. The facts of its machines and groups are in one array of bytes.
ghost use Rattle.std.specs.Prelude.{◌≡◌, List, ℕ, ◌≤◌, ◌<◌, length, get_or};
ghost use Rattle.sheet.specs.Model.{Model};
ghost use Rattle.plan.specs.Groups.{group_count};
ghost use Rattle.plan.specs.Reading.{groups_in, table_of_group};
ghost use Rattle.plan.specs.Kept.Showing.{Shows};
ghost use Rattle.command.specs.Kept.Question.{machines_in, numbers_in, weights_in, sizes_in, size_in, present_in, Kept};

use crate::state::machines_in;
use plan::lookup::table;
use plan::showing::Shown;
use plan::sizing::Group;
use plan::standing::Digits;
use sheet::index::{Moves, Sheet};
use sheet::writing::put_bytes;

// Each machine's group and weight, each group's size and present mode: 32 bytes each. One array, so that one slice lends all of it.
pub fn gathered(
    numbers: &[u8],
    weights: &[u8],
    sizes: &[u8],
    present: &[u8],
) -> [u8; 4 * Sheet::MACHINES]
    requires { (length numbers.now ≡ 32) × (length weights.now ≡ 32) × (length sizes.now ≡ 32)
        × (length present.now ≡ 32) }
    ensures { ((n : ℕ) → n ≤ 32 → numbers_in result n ≡ numbers_in numbers.now n)
        × (weights_in result ≡ weights.now)
        × ((k : ℕ) → k < 32 → size_in result k ≡ get_or sizes.now k 0)
        × ((k : ℕ) → k < 32 → present_in result k ≡ get_or present.now k 0) }
{
    let mut r = [0u8; 4 * Sheet::MACHINES];
    put_bytes(&mut r[..], 0, numbers);
    put_bytes(&mut r[..], 32, weights);
    put_bytes(&mut r[..], 64, sizes);
    put_bytes(&mut r[..], 96, present);
    r
}

// A question about a state, under a plan.
#[derive(Clone, Copy)]
pub struct Question<'a> {
    pub moves: Moves<'a>,
    pub plan: &'a [u8],
    // Where the record of each group's table begins.
    pub starts: &'a [u32],
    pub state: &'a [u8],
    // Each machine's group and weight, each group's size and present mode.
    pub facts: &'a [u8],
    // Where each machine stands in mode 0; behind the sets of 32 machines are the live modes of each group.
    pub zeros: &'a [u64],
    ghost whole: { length facts.now ≡ 128 },
    ghost few: { machines_in state.now ≤ 32 },
}

impl<'a> Question<'a> {
    // The groups of the machines that the state is for.
    pub fn numbers(&self) -> &'a [u8]
        ensures { result.now ≡ numbers_in self.now.facts.now (machines_in self.now.state.now) }
    {
        let n = machines_in(self.state);
        &self.facts[..n]
    }

    // What a mode of each machine weighs in its group's mode.
    pub fn weights(&self) -> &'a [u8]
        ensures { result.now ≡ weights_in self.now.facts.now }
    {
        &self.facts[32..64]
    }

    // How many modes each group has.
    pub fn sizes(&self) -> &'a [u8]
        ensures { result.now ≡ sizes_in self.now.facts.now }
    {
        &self.facts[64..96]
    }

    // How many modes a group has.
    pub fn size_of(&self, group: Group) -> usize
        requires { group.0 < 32 }
        ensures { (result ≡ size_in self.now.facts.now group.0) × (result < 256) }
    {
        usize::from(self.facts[64 + usize::from(group.0)])
    }

    // The mode that a group is in.
    pub fn mode_now(&self, group: Group) -> usize
        requires { group.0 < 32 }
        ensures { (result ≡ present_in self.now.facts.now group.0) × (result < 256) }
    {
        usize::from(self.facts[96 + usize::from(group.0)])
    }

    // Its machines, as digits of the modes of their groups.
    pub fn digits(&self) -> Digits<'a>
        ensures { (result.numbers.now ≡ numbers_in self.now.facts.now (machines_in self.now.state.now))
            × (result.weights.now ≡ weights_in self.now.facts.now) × (result.zeros.now ≡ self.now.zeros.now) }
    {
        Digits {
            numbers: self.numbers(),
            weights: self.weights(),
            zeros: self.zeros,
        }
    }

    // Its plan, shown, with what is kept of the groups.
    pub fn shown(&self) -> Shown<'a>
        requires { (m : Model) × (state : List ℕ)
            × Kept m self.now.plan.now state self.now.facts.now self.now.zeros.now self.now.starts.now
            × (machines_in state ≡ machines_in self.now.state.now) }
        ensures { (result.plan.now ≡ self.now.plan.now) × ((m : Model) (state : List ℕ)
            → Kept m self.now.plan.now state self.now.facts.now self.now.zeros.now self.now.starts.now
            → machines_in state ≡ machines_in self.now.state.now
            → Shows m result.plan.now result.digits.numbers.now result.digits.weights.now result.sizes.now
            result.starts.now result.digits.zeros.now) }
    {
        Shown {
            plan: self.plan,
            starts: self.starts,
            sizes: self.sizes(),
            digits: self.digits(),
        }
    }

    // The table of a group.
    pub fn table_of(&self, group: Group) -> &'a [u8]
        requires { (m : Model) × (state : List ℕ) × (zeros : List ℕ)
            × Kept m self.now.plan.now state self.now.facts.now zeros self.now.starts.now
            × (group.0 < group_count (groups_in m self.now.plan.now)) }
        ensures { (m : Model) (state zeros : List ℕ)
            → Kept m self.now.plan.now state self.now.facts.now zeros self.now.starts.now
            → group.0 < group_count (groups_in m self.now.plan.now)
            → result.now ≡ table_of_group m (groups_in m self.now.plan.now) self.now.plan.now group.0 }
    {
        let start = self.starts[usize::from(group.0)] as usize;
        table(self.plan, start, self.size_of(group))
    }
}
