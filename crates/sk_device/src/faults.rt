//! The count of a device's faults.
ghost use Rattle.std.specs.Prelude.{◌≤◌};
ghost use Rattle.sk_outside.specs.Causes.{Rose};

use sk_outside::Failed;

/// Counts a fault.
pub(crate) fn fail(count: &mut u64) -> Failed
    ensures later { count.old ≤ count.new }
    ensures rose { Rose count.old count.new }
{
    *count = count.saturating_add(1);
    Failed
}
