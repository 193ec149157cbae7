//! The three calls that write a log.
ghost use Rattle.std.specs.Prelude.{◌≡◌, ◌⊎◌, ◌+◌, ◌*◌, ◌∷◌, [], ◌<◌, ◌≤◌, ◌^◌, IsTrue, OnOk, OnErr, IsErrOf, Ok, Err, length};
ghost use Rattle.sk_outside.specs.Causes.{Rose, HasCause};
ghost use Rattle.sk_device.specs.Disk.{Torn, Steps};
ghost use Rattle.sk_log.specs.Calls.{Stands, store_file, anchor_file};
ghost use Rattle.sk_log.specs.declared.fault.LogFault.TheVariants as fault;

use crate::ends::Ends;
use crate::fault::LogFault;
use sk_device::{Device, write_synced};

const OPEN: u8 = 1;

/// Writes at the end of the storage log and syncs. The answer is the log's length after it, in bytes, which may be at most
/// `logmax`. It takes no memory.
pub fn append_store<D: Device>(
    disk: &mut D,
    ends: &Ends,
    logmax: u32,
    bytes: &[u8],
) -> Result<u32, LogFault>
    requires set { ends.now.set < 2 }
    // Full exactly where the log would grow too long, and before any call on the device.
    ensures full { logmax < ends.now.store_end + length bytes.now →
        (result ≡ Err (fault.LogFull (ends.now.store_end + length bytes.now))) × (disk.new ≡ disk.old) }
    ensures fits { ends.now.store_end + length bytes.now ≤ logmax →
        (result ≡ Ok (ends.now.store_end + length bytes.now)) ⊎ (result ≡ Err fault.Device) }
    // A stop at any moment leaves everything else as it was.
    ensures steps { Steps D.disk (Torn (store_file ends.now.set) ends.now.store_end (length bytes.now)) disk.old disk.new }
    ensures stands { IsTrue (D.disk).tells → OnOk result (Stands D.disk (store_file ends.now.set) ends.now.store_end bytes.now disk.new) }
    ensures failed { result ≡ Err fault.Device → Rose (D.faults disk.old) (D.faults disk.new) }
    ensures later { D.faults disk.old ≤ D.faults disk.new }
{
    append(disk, 1 + 2 * ends.set, ends.store_end as u64, logmax, bytes)
}

/// Writes right behind the gate byte of the anchor log and syncs: a group's length and body, and the next gate byte, closed. The
/// answer is the log's length after it, in bytes, which may be at most `logmax`. It takes no memory.
///
/// The group counts only once its own gate byte is 1, which `open_gate` writes when all of it is on the disk.
pub fn append_anchor<D: Device>(
    disk: &mut D,
    ends: &Ends,
    logmax: u32,
    bytes: &[u8],
) -> Result<u32, LogFault>
    requires set { ends.now.set < 2 }
    ensures full { logmax < ends.now.gate + 1 + length bytes.now →
        (result ≡ Err (fault.LogFull (ends.now.gate + 1 + length bytes.now))) × (disk.new ≡ disk.old) }
    ensures fits { ends.now.gate + 1 + length bytes.now ≤ logmax →
        (result ≡ Ok (ends.now.gate + 1 + length bytes.now)) ⊎ (result ≡ Err fault.Device) }
    ensures steps { Steps D.disk (Torn (anchor_file ends.now.set) (ends.now.gate + 1) (length bytes.now)) disk.old disk.new }
    ensures stands { IsTrue (D.disk).tells → OnOk result (Stands D.disk (anchor_file ends.now.set) (ends.now.gate + 1) bytes.now disk.new) }
    ensures failed { result ≡ Err fault.Device → Rose (D.faults disk.old) (D.faults disk.new) }
    ensures later { D.faults disk.old ≤ D.faults disk.new }
{
    append(disk, 2 + 2 * ends.set, ends.gate as u64 + 1, logmax, bytes)
}

fn append<D: Device>(
    disk: &mut D,
    file: u8,
    at: u64,
    logmax: u32,
    bytes: &[u8],
) -> Result<u32, LogFault>
    requires file { file < 8 }
    requires at { at ≤ 2 ^ 32 }
    ensures full { logmax < at + length bytes.now → (result ≡ Err (fault.LogFull (at + length bytes.now))) × (disk.new ≡ disk.old) }
    ensures fits { at + length bytes.now ≤ logmax → (result ≡ Ok (at + length bytes.now)) ⊎ (result ≡ Err fault.Device) }
    ensures steps { Steps D.disk (Torn file at (length bytes.now)) disk.old disk.new }
    ensures stands { IsTrue (D.disk).tells → OnOk result (Stands D.disk file at bytes.now disk.new) }
    ensures failed { result ≡ Err fault.Device → Rose (D.faults disk.old) (D.faults disk.new) }
    ensures later { D.faults disk.old ≤ D.faults disk.new }
{
    let length = at + bytes.len() as u64;
    if length > logmax as u64 {
        return Err(LogFault::LogFull { length });
    }
    match write_synced(disk, file, at, bytes) {
        Ok(()) => Ok(length as u32),
        Err(_) => Err(LogFault::Device),
    }
}

/// Writes 1 into the gate byte at the end of the anchor log and syncs, so that the group behind it counts. It takes no memory.
pub fn open_gate<D: Device>(disk: &mut D, ends: &Ends) -> Result<(), LogFault>
    requires set { ends.now.set < 2 }
    ensures only { OnErr result (result ≡ Err fault.Device) }
    ensures steps { Steps D.disk (Torn (anchor_file ends.now.set) ends.now.gate 1) disk.old disk.new }
    ensures stands { IsTrue (D.disk).tells → OnOk result (Stands D.disk (anchor_file ends.now.set) ends.now.gate (1 ∷ []) disk.new) }
    ensures failed { OnErr result (Rose (D.faults disk.old) (D.faults disk.new)) }
    ensures later { D.faults disk.old ≤ D.faults disk.new }
{
    match write_synced(disk, 2 + 2 * ends.set, ends.gate as u64, &[OPEN]) {
        Ok(()) => Ok(()),
        Err(_) => Err(LogFault::Device),
    }
}
