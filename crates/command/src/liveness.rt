// Which groups are live, as 16 judges it.
ghost use Rattle.std.specs.Prelude.{◌≡◌, List, ℕ};
ghost use Rattle.common.specs.Lists.{pad};
ghost use Rattle.sheet.specs.Model.{Model};
ghost use Rattle.command.specs.Kept.Question.{Placed, FailedSet};

use crate::state::{mode_at, tag_at};
use plan::sizing::group_of;
use sheet::bits::has_mode;
use sheet::index::Machine;

// The groups that are not live: a machine of theirs is in a mode that is out of order, or tagged.
pub fn failed(state: &[u8], live: &[u8], numbers: &[u8]) -> u64
    requires { (m : Model) × (plan : List ℕ) × Placed m plan state.now numbers.now × (live.now ≡ pad 32 m.live) }
    ensures { (m : Model) (plan : List ℕ) → Placed m plan state.now numbers.now
        → live.now ≡ pad 32 m.live → FailedSet m plan state.now result }
{
    let mut r: u64 = 0;
    for i in 0..numbers.len() {
        let m = Machine(i as u8);
        let k = usize::from(group_of(numbers, m).0);
        r = sets::put_if(r, k, !has_mode(live[i], mode_at(state, m)));
        r = sets::put_if(r, k, tag_at(state, m) != 0);
    }
    r
}
