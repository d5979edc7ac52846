//! The count of a device's faults.

ghost use Rattle.std.specs.Prelude.{◌^◌, ◌<◌, ◌≤◌, IsErr};
ghost use Rattle.bm_base.specs.Count.{Rose};

use bm_base::Failed;

/// Counts one more fault. The count stands still at its last value.
pub fn count_fault(faults: &mut u64)
    ensures rose { Rose faults.old faults.new }
    ensures grows { faults.old ≤ faults.new }
    ensures fits { faults.new < 2 ^ 64 }
{
    *faults = faults.saturating_add(1);
}

/// Counts one more fault, and answers it.
pub fn fault<T>(faults: &mut u64) -> Result<T, Failed>
    ensures failed { IsErr result }
    ensures rose { Rose faults.old faults.new }
    ensures grows { faults.old ≤ faults.new }
    ensures fits { faults.new < 2 ^ 64 }
{
    count_fault(faults);
    Err(Failed)
}
