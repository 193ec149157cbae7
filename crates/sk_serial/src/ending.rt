//! The end of a run, and its text.

ghost use Rattle.std.specs.Prelude.{◌≡◌, ◌<◌, ◌≤◌, length, true, false, None, Some, IfOk, IfErr};
ghost use Rattle.std.specs.String.{string_bytes};
ghost use Rattle.sk_script.specs.Limits.{most_sessions};
ghost use Rattle.sk_run.specs.Ended.{Settles};
ghost use Rattle.sk_run.specs.Over.{AllRest};
ghost use Rattle.sk_serial.specs.Played as spec;
ghost use Rattle.sk_serial.specs.Running.{saved_of, HasText};
ghost use Rattle.sk_serial.specs.Saving.{Grows, Saves, IsKept, saved_in};
ghost use Rattle.sk_serial.specs.Waiting.{WaitsOn};
ghost use Rattle.sk_serial.specs.declared.run_fault.RunFault.TheVariants as run_fault;

use crate::flushing::flush;
use crate::halt::{Halt, starved};
use crate::playing::{Playing, queue_last, reserved, with_flush};
use crate::run_fault::RunFault;
use crate::summary::put_summary;
use sk_chain::Engine;
use sk_cut::Teller;
use sk_device::Device;
use sk_durable::Durable;
use sk_mem::MemEngine;
use sk_model::{Point, ReceiptList, Reply};
use sk_rows::NoMemory;
use sk_run::{Ended, Run};
use sk_script::put_report;
use sk_session::Unanswered;
use sk_store::StoreEngine;
use std::alloc::Global;

/// A run that has ended: what it hands out, its text, what its last line was answered, and what is durable of it.
#[derive(Drop)]
pub(crate) struct Shown<D> {
    pub(crate) ended: Ended,
    pub(crate) text: String,
    pub(crate) last: Option<Reply>,
    pub(crate) receipts: ReceiptList,
    pub(crate) cut: Point,
    pub(crate) disk: D,
    /// The disk failed a flush.
    pub(crate) broken: bool,
}

/// Ends each session, by number, and queues what commits by that.
fn settle<D: Device + Drop, F: Teller + Drop>(
    alloc: Global,
    run: Run,
    store: Durable<D, F>,
) -> Result<(Run, Durable<D, F>), Halt<D>>
    requires few { length run.sessions ≡ most_sessions }
    ensures settles { IfOk result (λ all. Settles ⟦<MemEngine as Engine>⟧.stands ⟦<StoreEngine as Engine>⟧.stands run all.0) }
    ensures tables { IfOk result (λ all. all.0.catalog ≡ run.catalog) }
    ensures disk { IfOk result (λ all. all.1.disk ≡ store.disk) }
    ensures saves { IfOk result (λ all. Saves D.disk D.faults store all.1) }
    ensures open { IfOk result (λ all. all.1.broken ≡ store.broken) }
    ensures saved { IfOk result (λ all. saved_in all.1 ≡ saved_in store) }
    ensures waits { IfOk result (λ all. WaitsOn run store all.0 all.1) }
    // No session has a transaction then.
    ensures rest { IfOk result (λ all. AllRest all.0) }
    ensures halted { IfErr result (λ h. Grows D.disk D.faults store.disk h.disk) }
    ensures starved { IfErr result (λ h. h.fault ≡ run_fault.NoMemory) }
{
    let mut run = run;
    let mut store = store;
    for before in 0..run.sessions() {
        store = reserved(store)?;
        run = match run.settle(alloc, before + 1) {
            Ok(settled) => settled,
            Err(Unanswered) => return Err(starved(store)),
        };
        queue_last(&run, &mut store, before + 1);
    }
    Ok((run, store))
}

/// Behind the last line, unless the run has ended before: all sessions end, and one flush more is made.
fn closed<D: Device + Drop, F: Teller + Drop>(
    alloc: Global,
    playing: Playing<D, F>,
) -> Result<Playing<D, F>, Halt<D>>
    requires open { playing.ended ≡ false → playing.store.broken ≡ false }
    requires few { length playing.run.sessions ≡ most_sessions }
    ensures closes { IfOk result (λ p. spec.Closes D.disk ⟦<MemEngine as Engine>⟧.stands ⟦<StoreEngine as Engine>⟧.stands (spec.now playing.run (string_bytes playing.text) playing.store playing.last) playing.ended (spec.now p.run (string_bytes p.text) p.store p.last)) }
    ensures saves { IfOk result (λ p. Saves D.disk D.faults playing.store p.store) }
    ensures halted { IfErr result (λ h. Grows D.disk D.faults playing.store.disk h.disk) }
    ensures starved { IfErr result (λ h. h.fault ≡ run_fault.NoMemory) }
{
    if playing.ended {
        return Ok(playing);
    }
    let Playing {
        run,
        store,
        text,
        last,
        ended,
    } = playing;
    let (run, store) = settle(alloc, run, store)?;
    let (run, store, note) = match flush(alloc, run, store) {
        Ok(flushed) => flushed,
        Err(halt) => return Err(halt),
    };
    let text = match with_flush(text, &note) {
        Ok(text) => text,
        Err(NoMemory) => return Err(starved(store)),
    };
    Ok(Playing {
        run,
        store,
        text,
        last,
        ended,
    })
}

/// Ends a run, and hands out what it came to.
pub(crate) fn end<D: Device + Drop, F: Teller + Drop>(
    alloc: Global,
    playing: Playing<D, F>,
) -> Result<Shown<D>, Halt<D>>
    requires open { playing.ended ≡ false → playing.store.broken ≡ false }
    requires few { length playing.run.sessions ≡ most_sessions }
    ensures ends { IfOk result (λ s. spec.EndsSo D.disk ⟦<MemEngine as Engine>⟧.stands ⟦<StoreEngine as Engine>⟧.stands (spec.now playing.run (string_bytes playing.text) playing.store playing.last) playing.ended s.ended (string_bytes s.text) (saved_of s) s.last s.disk s.broken) }
    ensures kept { IfOk result (λ s. IsKept D.disk D.faults playing.store s.receipts s.cut s.broken s.disk) }
    ensures halted { IfErr result (λ h. Grows D.disk D.faults playing.store.disk h.disk) }
    ensures starved { IfErr result (λ h. h.fault ≡ run_fault.NoMemory) }
{
    let Playing {
        run,
        store,
        text,
        last,
        ..
    } = closed(alloc, playing)?;
    let ended = match run.hand_out(alloc) {
        Ok(ended) => ended,
        Err(_) => return Err(starved(store)),
    };
    let broken = store.broken();
    let (disk, receipts, cut) = store.into_parts();
    Ok(Shown {
        ended,
        text,
        last,
        receipts,
        cut,
        disk,
        broken,
    })
}

/// The run with its report behind the text of its lines.
fn with_report<D: Device + Drop>(alloc: Global, shown: Shown<D>) -> Result<Shown<D>, Halt<D>>
    ensures text { IfOk result (λ s. HasText None shown s) }
    ensures halted { IfErr result (λ h. (h.disk ≡ shown.disk) × (h.fault ≡ run_fault.NoMemory)) }
{
    let Shown {
        ended,
        mut text,
        last,
        receipts,
        cut,
        disk,
        broken,
    } = shown;
    let put = put_report(
        alloc,
        &mut text,
        ended.order.as_slice(),
        ended.records.as_slice(),
        ended.places.as_slice(),
        receipts.as_slice(),
        cut,
    );
    if put.is_err() {
        let fault = RunFault::NoMemory;
        return Err(Halt { fault, disk });
    }
    Ok(Shown {
        ended,
        text,
        last,
        receipts,
        cut,
        disk,
        broken,
    })
}

/// The line that sums a run up.
fn summed_up<D: Device + Drop>(
    alloc: Global,
    shown: &Shown<D>,
    transfers: u32,
) -> Result<String, NoMemory>
    ensures { IfOk result (λ text. string_bytes text ≡ spec.printed_text (Some transfers) (string_bytes shown.now.text) shown.now.ended (saved_of shown.now) shown.now.last) }
{
    let mut text = String::new(alloc);
    put_summary(
        &mut text,
        transfers,
        shown.ended.order.as_slice(),
        shown.ended.records.as_slice(),
        &shown.last,
        shown.cut,
    )?;
    Ok(text)
}

/// The run with its one line in place of the text.
fn with_summary<D: Device + Drop>(
    alloc: Global,
    shown: Shown<D>,
    transfers: u32,
) -> Result<Shown<D>, Halt<D>>
    ensures text { IfOk result (λ s. HasText (Some transfers) shown s) }
    ensures halted { IfErr result (λ h. (h.disk ≡ shown.disk) × (h.fault ≡ run_fault.NoMemory)) }
{
    match summed_up(alloc, &shown, transfers) {
        Ok(text) => Ok(Shown { text, ..shown }),
        Err(NoMemory) => Err(Halt {
            fault: RunFault::NoMemory,
            disk: shown.disk,
        }),
    }
}

/// The run with the text that is printed of it: the lines and the report, or of a script that was generated of so many transfers the
/// one line that sums it up.
pub(crate) fn with_text<D: Device + Drop>(
    alloc: Global,
    shown: Shown<D>,
    transfers: Option<u32>,
) -> Result<Shown<D>, Halt<D>>
    ensures text { IfOk result (λ s. HasText transfers shown s) }
    ensures halted { IfErr result (λ h. (h.disk ≡ shown.disk) × (h.fault ≡ run_fault.NoMemory)) }
{
    match transfers {
        None => with_report(alloc, shown),
        Some(n) => with_summary(alloc, shown, n),
    }
}
