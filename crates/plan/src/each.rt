// A question that is asked of each member of a set.
ghost use Rattle.std.specs.Prelude.{◌≡◌, true, ℕ};
ghost use Rattle.common.specs.Bits.{bit};
ghost use Rattle.plan.specs.Kept.Each.{AllOf};

// Whether each member of a set passes a test. The least is tested first, and none behind one that fails.
pub fn all_of<F: Fn(usize) -> bool>(set: u64, test: F) -> bool
    requires { (i : ℕ) → bit set i ≡ true → F.pre test i }
    ensures { AllOf (F.post test) set result }
{
    for i in sets::each(set) {
        if !test(i) {
            return false;
        }
    }
    true
}
