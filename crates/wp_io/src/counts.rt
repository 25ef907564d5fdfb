// Counts of calls and faults. They stop at the greatest `u64`.
ghost use Rattle.std.specs.Prelude.{◌≡◌, ◌≤◌};
ghost use Rattle.wp_io.specs.Faults.{count_after};
ghost use Rattle.wp_io.specs.Memory.{is_failing};

use crate::Failed;
use wp_base::List;

/// Counts a fault, and is the answer to it.
pub fn count_fault(faults: &mut u64) -> Failed
    ensures counted { faults.new ≡ count_after faults.old }
    ensures later { faults.old ≤ faults.new }
{
    *faults = faults.saturating_add(1);
    Failed
}

/// Counts a call, and tells whether it is one of those that fail.
pub fn count_call(calls: &mut u64, fail: &List<u64>) -> bool
    ensures counted { calls.new ≡ count_after calls.old }
    ensures failing { result ≡ is_failing fail.now calls.new }
{
    let number = calls.saturating_add(1);
    *calls = number;
    fail.as_slice().contains(&number)
}
