//! A group is written: its range of the storage log, its text behind the closed gate, and the gate.
ghost use Rattle.std.specs.Prelude.{◌≡◌, ℕ, List, ◌+◌, ◌<◌, ◌≤◌, ◌^◌, IsTrue, OnOk, OnErr, IfOk, IfNone, None, Ok, Err, length};
ghost use Rattle.sk_outside.specs.Causes.{Rose};
ghost use Rattle.sk_device.specs.Disk.{Steps, Torn};
ghost use Rattle.sk_model.specs.declared.point.Point.{Point as Cut};
ghost use Rattle.sk_model.specs.declared.commit.Commit.{Commit as AnyCommit};
ghost use Rattle.sk_log.specs.Calls.{Stands, store_file};
ghost use Rattle.sk_log.specs.Growth.{group_text, next_ends};
ghost use Rattle.sk_cut.specs.Batches.{full_length};
ghost use Rattle.sk_cut.specs.Flush.{AllAt, AllFollow, IsFlushed, IsWritten};
ghost use Rattle.sk_model.specs.declared.receipt.FlushFault.TheVariants as fault;

use sk_device::Device;
use sk_log::{Ends, LogFault, append_anchor, append_store, open_gate};
use sk_model::FlushFault;

/// The length of the first log that would be too long.
pub fn full_length(logmax: u32, ends: &Ends, store: &[u8], body: &[u8]) -> Option<u64>
    ensures value { result ≡ full_length logmax ends.now store.now body.now }
    ensures room { IfNone result (ends.now.gate + 6 + length body.now ≤ logmax) }
{
    let store_length = ends.store_end as u64 + store.len() as u64;
    let anchor_length = ends.gate as u64 + 6 + body.len() as u64;
    if !store.is_empty() && store_length > logmax as u64 {
        Some(store_length)
    } else if anchor_length > logmax as u64 {
        Some(anchor_length)
    } else {
        None
    }
}

/// Writes the records of the storage log. Where there are none it makes no call.
fn put_store<D: Device>(
    disk: &mut D,
    ends: &Ends,
    logmax: u32,
    store: &[u8],
) -> Result<(), FlushFault>
    requires set { ends.now.set < 2 }
    requires fits { 0 < length store.now → ends.now.store_end + length store.now ≤ logmax }
    ensures only { OnErr result (result ≡ Err fault.Device) }
    ensures steps { Steps D.disk (Torn (store_file ends.now.set) ends.now.store_end (length store.now)) disk.old disk.new }
    ensures stands { IsTrue (D.disk).tells → OnOk result (Stands D.disk (store_file ends.now.set) ends.now.store_end store.now disk.new) }
    ensures failed { OnErr result (Rose (D.faults disk.old) (D.faults disk.new)) }
    ensures later { D.faults disk.old ≤ D.faults disk.new }
{
    if store.is_empty() {
        return Ok(());
    }
    match append_store(disk, ends, logmax, store) {
        Ok(_) => Ok(()),
        Err(LogFault::Device) => Err(FlushFault::Device),
        Err(LogFault::LogFull { length: _ }) => unreachable!(),
    }
}

/// Writes the group of this body and its range, and opens its gate. The answer is where the logs end then.
pub fn write_group<D: Device>(
    disk: &mut D,
    ends: &Ends,
    logmax: u32,
    store: &[u8],
    body: &[u8],
    group: &[u8],
) -> Result<Ends, FlushFault>
    requires set { ends.now.set < 2 }
    requires text { group.now ≡ group_text body.now }
    requires fits { full_length logmax ends.now store.now body.now ≡ None }
    // At each moment an image opens as one from before, or as it with the group.
    ensures any_moment { (cut to : Cut) (mem stored : List AnyCommit) → IsTrue (D.disk).tells → AllAt D.disk cut ends.now disk.old → AllFollow D.disk disk.old cut ends.now store.now body.now to mem stored
        → Steps D.disk (IsFlushed store.now body.now to mem stored) disk.old disk.new }
    ensures written { (cut to : Cut) (mem stored : List AnyCommit) → IsTrue (D.disk).tells → AllAt D.disk cut ends.now disk.old → AllFollow D.disk disk.old cut ends.now store.now body.now to mem stored
        → OnOk result (IsWritten D.disk store.now body.now to mem stored disk.old disk.new) }
    ensures ends { IfOk result (λ e. e ≡ next_ends ends.now store.now body.now) }
    ensures only { OnErr result (result ≡ Err fault.Device) }
    ensures failed { OnErr result (Rose (D.faults disk.old) (D.faults disk.new)) }
    ensures later { D.faults disk.old ≤ D.faults disk.new }
{
    put_store(disk, ends, logmax, store)?;
    match append_anchor(disk, ends, logmax, group) {
        Ok(_) => {}
        Err(LogFault::Device) => return Err(FlushFault::Device),
        Err(LogFault::LogFull { length: _ }) => unreachable!(),
    }
    match open_gate(disk, ends) {
        Ok(()) => Ok(Ends {
            set: ends.set,
            store_end: ends.store_end + store.len() as u32,
            gate: ends.gate + 5 + body.len() as u32,
        }),
        Err(_) => Err(FlushFault::Device),
    }
}
