// The shape of a plan (15), whoever wrote it, once its numbers fit and their groups are known.
ghost use Rattle.std.specs.Prelude.{◌≡◌, ◌≤◌, length};
ghost use Rattle.sheet.specs.Model.{Model};
ghost use Rattle.sheet.specs.Valid.{Valid};
ghost use Rattle.plan.specs.Reading.{well_shaped};
ghost use Rattle.plan.specs.Kept.Outline.{NumbersFit, Outlined};

use crate::measure::first_large;
use crate::partition::Groups;
use crate::reading::{needs_come_first, records_fit};

// Whether no group is too large, none names one above it, and the records stand where they should.
pub fn in_shape(plan: &[u8], groups: Groups, starts: &[u32]) -> bool
    requires { (groups.count ≤ 32) × (length starts.now ≡ 33) }
    ensures { (m : Model) → Valid m → NumbersFit m plan.now
        → Outlined m plan.now groups starts.now → result ≡ well_shaped m plan.now }
{
    let count = groups.count;
    let sizes = groups.sizes;
    let named = groups.named;
    if first_large(&sizes[..], count).is_some() {
        return false;
    }
    if !needs_come_first(&named[..], count) {
        return false;
    }
    records_fit(plan, &sizes[..], starts, count)
}
