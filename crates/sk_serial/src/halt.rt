//! A script that was not played to its end.

ghost use Rattle.std.specs.Prelude.{◌≡◌};
ghost use Rattle.sk_serial.specs.declared.run_fault.RunFault.TheVariants as run_fault;

use crate::run_fault::RunFault;
use sk_cut::Teller;
use sk_device::Device;
use sk_durable::Durable;

/// Why a script was not played to its end, and the disk that it was played on.
pub(crate) struct Halt<D> {
    pub(crate) fault: RunFault,
    pub(crate) disk: D,
}

/// A run that could not go on for want of memory. What is durable stays so.
pub(crate) fn starved<D: Device + Drop, F: Teller + Drop>(store: Durable<D, F>) -> Halt<D>
    ensures fault { result.fault ≡ run_fault.NoMemory }
    ensures disk { result.disk ≡ store.disk }
{
    let (disk, _receipts, _cut) = store.into_parts();
    Halt {
        fault: RunFault::NoMemory,
        disk,
    }
}
