// "Upstream": the groups that a group needs, directly or through others.
ghost use Rattle.std.specs.Prelude.{◌≡◌, Bool, true, List, ℕ, ◌≤◌, ◌<◌, length};
ghost use Rattle.common.specs.Bits.{bit};
ghost use Rattle.sheet.specs.Model.{Model};
ghost use Rattle.sheet.specs.Valid.{Valid};
ghost use Rattle.plan.specs.Groups.{group_count};
ghost use Rattle.plan.specs.Reading.{groups_in, well_shaped};
ghost use Rattle.command.specs.Kept.Question.{NamedBy, UpstreamSet, UpstreamOfSome, MarkedFrom};

use plan::sizing::Group;

// Goes on with the marks of a pass down the group numbers that has come to `top`: what a marked group or one of some groups names is
// marked. A group names lower ones alone, so once the pass has been at a number, the marks from there up are final. `all` in the contract is
// the whole set of those groups, which `groups` need be only below `top`.
fn pass(named: &[u64], groups: u64, marks: u64, top: usize) -> u64
    requires { (length named.now ≡ 32) × (top ≤ 32) }
    ensures { (m : Model) (plan : List ℕ) (counts : ℕ → Bool) (all : ℕ) → Valid m → well_shaped m plan ≡ true
        → NamedBy m plan counts named.now → ((a : ℕ) → a < top → bit groups a ≡ bit all a)
        → MarkedFrom m plan counts all top marks → MarkedFrom m plan counts all 0 result }
{
    let mut r = marks;
    for j in (0..top).rev() {
        if sets::has(sets::join(r, groups), j) {
            r = sets::join(r, named[j]);
        }
    }
    r
}

// The groups upstream of a group: a pass that has been at it.
pub fn upstream(named: &[u64], group: Group) -> u64
    requires { (length named.now ≡ 32) × (group.0 < 32) }
    ensures { (m : Model) (plan : List ℕ) (counts : ℕ → Bool) → Valid m → well_shaped m plan ≡ true
        → group.0 < group_count (groups_in m plan) → NamedBy m plan counts named.now → UpstreamSet m plan counts group.0 result }
{
    let k = usize::from(group.0);
    pass(named, 0, named[k], k)
}

// The groups upstream of some of these groups.
pub fn upstream_of(named: &[u64], groups: u64) -> u64
    requires { length named.now ≡ 32 }
    ensures { (m : Model) (plan : List ℕ) (counts : ℕ → Bool) → Valid m → well_shaped m plan ≡ true
        → NamedBy m plan counts named.now → UpstreamOfSome m plan counts groups result }
{
    pass(named, groups, 0, 32)
}
