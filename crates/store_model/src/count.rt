//! Counts of faults.

ghost use Rattle.std.specs.Prelude.{◌≡◌, true, false};
ghost use Rattle.store_model.specs.Cause.{Rose};

/// The count, one more where something failed.
pub fn faults_after(faults: u64, failed: bool) -> u64
    ensures some { failed ≡ true → Rose faults result }
    ensures none { failed ≡ false → result ≡ faults }
{
    if failed {
        faults.saturating_add(1)
    } else {
        faults
    }
}
