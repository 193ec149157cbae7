//! Flushes of a run.

ghost use Rattle.std.specs.Prelude.{◌≡◌, ◌⊎◌, [], true, false, None, IfOk, IfErr};
ghost use Rattle.sk_run.specs.Flushing.{KeepsStill};
ghost use Rattle.sk_model.specs.declared.receipt.FlushFault.TheVariants as fault;
ghost use Rattle.sk_serial.specs.Saving.{Grows, Saves, saved_in, saved_by};
ghost use Rattle.sk_serial.specs.Showing.{IsStill, Appends, SavesOn, batch_of};
ghost use Rattle.sk_serial.specs.Flushed.{is_broken, IsPast};
ghost use Rattle.sk_serial.specs.Waiting.{KeepsQueue, NoneCovered};
ghost use Rattle.sk_serial.specs.declared.run_fault.RunFault.TheVariants as run_fault;

use crate::halt::{Halt, starved};
use sk_chain::Engine;
use sk_cut::{Batch, Teller};
use sk_device::Device;
use sk_durable::{Durable, Refused};
use sk_mem::MemEngine;
use sk_model::{FlushFault, Point, ReceiptList};
use sk_outcome::FlushNote;
use sk_run::{EndFault, Found, Run};
use sk_store::StoreEngine;
use std::alloc::Global;

/// The note of a flush that told these, or was refused.
fn noted(receipts: ReceiptList, cut: Point, refused: Option<FlushFault>) -> FlushNote
    ensures refused { result.refused ≡ refused }
    ensures receipts { result.receipts ≡ receipts }
    ensures cut { result.cut ≡ cut }
{
    FlushNote {
        receipts,
        cut,
        refused,
        unread: false,
        sweep_mem: None,
        sweep_store: None,
    }
}

/// Makes what was found durable.
fn written<D: Device + Drop, F: Teller + Drop>(
    alloc: Global,
    store: &mut Durable<D, F>,
    found: Found,
) -> Result<FlushNote, EndFault>
    requires open { store.old.broken ≡ false }
    ensures saves { Saves D.disk D.faults store.old store.new }
    ensures writes { IsStill store.old store.new ⊎ Appends D.disk store.old (batch_of found) store.new }
    ensures open { IfOk result (λ note. is_broken note ≡ store.new.broken) }
    ensures saved { IfOk result (λ note. saved_in store.new ≡ saved_by note (saved_in store.old)) }
    ensures queue { KeepsQueue store.old store.new }
    // Where it was not refused, whoever waits still is not covered by its cut.
    ensures told { IfOk result (λ note. note.refused ≡ None → NoneCovered store.new) }
    ensures full { IfOk result (λ note. IsPast store.old.logmax note.refused) }
{
    let Found {
        cut,
        mem,
        store: stored,
    } = found;
    let batch = Batch {
        cut,
        mem,
        store: stored,
    };
    match store.flush(&batch) {
        Ok(receipts) => Ok(noted(receipts, store.cut(), None)),
        Err(Refused::Flush(fault)) => {
            Ok(noted(ReceiptList::new(alloc), store.cut(), Some(fault)))
        }
        Err(Refused::Unlawful) => Err(EndFault::Unanswered),
    }
}

/// What a flush of the run comes to.
fn find_and_write<D: Device + Drop, F: Teller + Drop>(
    alloc: Global,
    run: &mut Run,
    store: &mut Durable<D, F>,
) -> Result<FlushNote, EndFault>
    requires open { store.old.broken ≡ false }
    ensures keeps { KeepsStill ⟦<MemEngine as Engine>⟧.stands ⟦<StoreEngine as Engine>⟧.stands run.old run.new }
    ensures shows { SavesOn D.disk ⟦<MemEngine as Engine>⟧.stands ⟦<StoreEngine as Engine>⟧.stands run.old store.old run.new store.new }
    ensures saves { Saves D.disk D.faults store.old store.new }
    ensures open { IfOk result (λ note. is_broken note ≡ store.new.broken) }
    ensures saved { IfOk result (λ note. saved_in store.new ≡ saved_by note (saved_in store.old)) }
    ensures queue { KeepsQueue store.old store.new }
    // Where it was not refused, whoever waits still is not covered by its cut.
    ensures told { IfOk result (λ note. note.refused ≡ None → NoneCovered store.new) }
    ensures full { IfOk result (λ note. IsPast store.old.logmax note.refused) }
{
    match run.find_batch(alloc, store.cut()) {
        Ok(found) => written(alloc, store, found),
        Err(EndFault::NoMemory) => {
            let refused = Some(FlushFault::NoMemory);
            Ok(noted(ReceiptList::new(alloc), store.cut(), refused))
        }
        Err(EndFault::Unanswered) => Err(EndFault::Unanswered),
    }
}

/// Makes durable what may be, and then purges both engines, unless the disk failed.
pub(crate) fn flush<D: Device + Drop, F: Teller + Drop>(
    alloc: Global,
    run: Run,
    store: Durable<D, F>,
) -> Result<(Run, Durable<D, F>, FlushNote), Halt<D>>
    requires open { store.broken ≡ false }
    ensures keeps { IfOk result (λ f. KeepsStill ⟦<MemEngine as Engine>⟧.stands ⟦<StoreEngine as Engine>⟧.stands run f.0) }
    ensures shows { IfOk result (λ f. SavesOn D.disk ⟦<MemEngine as Engine>⟧.stands ⟦<StoreEngine as Engine>⟧.stands run store f.0 f.1) }
    ensures saves { IfOk result (λ f. Saves D.disk D.faults store f.1) }
    ensures open { IfOk result (λ f. is_broken f.2 ≡ f.1.broken) }
    ensures saved { IfOk result (λ f. saved_in f.1 ≡ saved_by f.2 (saved_in store)) }
    ensures queue { IfOk result (λ f. KeepsQueue store f.1) }
    ensures told { IfOk result (λ f. f.2.refused ≡ None → NoneCovered f.1) }
    ensures full { IfOk result (λ f. IsPast store.logmax f.2.refused) }
    ensures halted { IfErr result (λ h. Grows D.disk D.faults store.disk h.disk) }
    ensures starved { IfErr result (λ h. h.fault ≡ run_fault.NoMemory) }
{
    let mut run = run;
    let mut store = store;
    let mut note = match find_and_write(alloc, &mut run, &mut store) {
        Ok(note) => note,
        Err(_) => return Err(starved(store)),
    };
    if !is_broken(&note) {
        let (mem, stored) = run.purge(store.cut());
        note.sweep_mem = mem;
        note.sweep_store = stored;
    }
    Ok((run, store, note))
}

/// Whether the disk failed the flush.
pub(crate) fn is_broken(note: &FlushNote) -> bool
    ensures { result ≡ is_broken note.now }
{
    matches!(note.refused, Some(FlushFault::Device))
}
