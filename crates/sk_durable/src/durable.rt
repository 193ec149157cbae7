//! The store of a run.
ghost use Rattle.std.specs.Prelude.{◌≡◌, ◌≢◌, ◌<◌, ◌≤◌, ◌+◌, ◌-◌, ◌++◌, ◌∷◌, ◌&&◌, [], true, false, not, IsTrue, OnOk, OnErr, IfOk, IfErr, Some, None, Ok, Err, length, map, max, get_or, nat_le, nat_lt, vec_len, vec_capacity};
ghost use Rattle.std.specs.List.{filter};
ghost use Rattle.sk_outside.specs.Causes.{Rose};
ghost use Rattle.sk_device.specs.Disk.{Steps};
ghost use Rattle.sk_model.specs.declared.receipt.FlushFault.TheVariants as fault;
ghost use Rattle.sk_log.specs.Lawful.{IsGroup};
ghost use Rattle.sk_cut.specs.Acked.{Acked};
ghost use Rattle.sk_cut.specs.Batches.{CanBeCounted, CanBeSpelled, as_cut, same_cut, stored_text, body_text, full_length};
ghost use Rattle.sk_cut.specs.Flush.{AllAt, AtMostGrows, HasGrown};
ghost use Rattle.sk_cut.specs.Receipts.{covers, receipt_at};
ghost use Rattle.sk_durable.specs.Growing.{AllOver, OnlyGrows};
ghost use Rattle.sk_durable.specs.Kept.{AreNewest, goes_on};
ghost use Rattle.sk_durable.specs.Refusing.{RefusesOrNot};
ghost use Rattle.sk_durable.specs.declared.refused.Refused.TheVariants as refused;

use crate::refused::Refused;
use sk_cut::{
    Batch, Pipeline, Teller, acked_at_first, acked_when_flushed, acked_when_queued, is_lawful,
    same_cut,
};
use sk_device::Device;
use sk_log::Ends;
use sk_model::{Label, Need, Point, Receipt, ReceiptList};
use sk_rows::{Catalog, NoMemory};
use std::alloc::Global;
use std::marker::Model;

/// The store of a run: its tables, its logs, who waits until a commit is durable, and who was told.
///
/// Contracts see its `Kept`: the tables, the disk, where the logs end, the longest that a log may get in bytes, the durable cut, the
/// needs that were queued, those of them that wait, the receipts, for how many more needs there is room, and whether the device has
/// failed.
#[derive(Drop)]
pub struct Durable<D: Device, F: Teller + Drop> {
    catalog: Catalog,
    pipeline: Pipeline<D, F>,
    queued: Vec<Need>,
    receipts: Vec<Receipt>,
    reserved: usize,
    last: [u32; 65],
}

impl<D: Device, F: Teller + Drop> Model for Durable<D, F> {
    ghost use Rattle.std.specs.Prelude.{◌≡◌, ◌+◌, ◌≤◌, vec_len, vec_capacity};
    ghost use Rattle.sk_durable.specs.Kept.{Kept, Holds};

    ghost Value = { Kept D };

    ghost view = { λ s. record { catalog = s.catalog; disk = s.pipeline.disk; ends = s.pipeline.ends; logmax = s.pipeline.logmax; cut = s.pipeline.cut; queued = s.queued.items; waiting = s.pipeline.waiting; receipts = s.receipts.items; reserved = s.pipeline.reserved; broken = s.pipeline.broken } };

    ghost invariant = { λ s. Holds D.disk s.catalog s.pipeline s.queued.items s.receipts.items s.last
        × (s.reserved ≡ s.pipeline.reserved)
        × (vec_len s.queued + s.reserved ≤ vec_capacity s.queued)
        × (vec_len s.queued + s.reserved ≤ vec_capacity s.receipts) };
}

/// Whether the batch has the durable cut, or is a group that an opened store obeys behind it.
fn may_follow(catalog: &Catalog, cut: Point, batch: &Batch) -> bool
    ensures group { result ≡ true → same_cut batch.now.cut cut ≡ false → IsGroup catalog.now (as_cut cut) batch.now.cut batch.now.mem batch.now.store }
    ensures spelled { result ≡ true → same_cut batch.now.cut cut ≡ false → CanBeSpelled batch.now }
    ensures unlike { result ≡ false → same_cut batch.now.cut cut ≡ false }
    ensures only { result ≡ false → IsGroup catalog.now (as_cut cut) batch.now.cut batch.now.mem batch.now.store → ¬ (CanBeCounted batch.now) }
{
    same_cut(&batch.cut, &cut) || is_lawful(catalog, cut, batch)
}

/// Whether the label is past the last one of its session.
fn is_past(label: Label, last: &[u32]) -> bool
    requires { length last.now ≡ 65 }
    ensures { result ≡ (nat_le label.session 64 && nat_lt (get_or last.now label.session 0) label.k) }
{
    let session = label.session as usize;
    session <= 64 && last[session] < label.k
}

/// Puts the receipts behind those of the flushes before. The room for them is there.
fn keep(told: &[Receipt], receipts: &mut Vec<Receipt>)
    requires room { vec_len receipts.old + length told.now ≤ vec_capacity receipts.old }
    ensures items { receipts.new.items ≡ receipts.old.items ++ told.now }
    ensures len { vec_len receipts.new ≡ vec_len receipts.old + length told.now }
    ensures capacity { vec_capacity receipts.old ≤ vec_capacity receipts.new }
{
    match receipts.extend_from_slice(told) {
        Ok(()) => {}
        Err(_) => unreachable!(),
    }
}

/// Of each session the number 0, which none of its transactions has.
fn no_numbers() -> [u32; 65]
    ensures { AreNewest result [] }
{
    [0; 65]
}

impl<D: Device, F: Teller + Drop> Durable<D, F> {
    /// The store that was opened, with these tables: every image of its disk opens at this cut, with these ends and over these
    /// tables, and `tell` answers the receipt of what it is given. A log may have at most `logmax` bytes. Nobody was queued.
    pub fn new(
        alloc: Global,
        catalog: Catalog,
        disk: D,
        ends: Ends,
        logmax: u32,
        cut: Point,
        tell: F,
    ) -> Self
        requires set { ends.set < 2 }
        requires disk { IsTrue (D.disk).tells → AllAt D.disk (as_cut cut) ends disk }
        requires over { IsTrue (D.disk).tells → AllOver D.disk catalog disk }
        requires tells { F.is_true tell }
        ensures { result ≡ record { catalog = catalog; disk = disk; ends = ends; logmax = logmax; cut = cut; queued = []; waiting = []; receipts = []; reserved = 0; broken = false } }
    {
        acked_at_first();
        Durable {
            catalog,
            pipeline: Pipeline::new(alloc, disk, ends, logmax, cut, tell),
            queued: Vec::new(alloc),
            receipts: Vec::new(alloc),
            reserved: 0,
            last: no_numbers(),
        }
    }

    /// Sees to it that a place is reserved for a need, and for its receipt. Where there is one already it takes no memory.
    pub fn reserve(&mut self) -> Result<(), NoMemory>
        ensures more { OnOk result (self.new ≡ record self.old { reserved = max 1 self.old.reserved }) }
        ensures same { OnErr result (self.new ≡ self.old) }
        ensures none { 0 < self.old.reserved → result ≡ Ok tt }
    {
        if self.reserved > 0 {
            return Ok(());
        }
        let waiting = self.queued.len() - self.receipts.len();
        let owed = waiting.checked_add(1).ok_or(NoMemory)?;
        self.queued.reserve(1)?;
        self.receipts.reserve(owed)?;
        self.pipeline.reserve()?;
        self.reserved = 1;
        Ok(())
    }

    /// Queues the need of a committed transaction, in a place that was reserved. It takes no memory. A need is passed over where
    /// one of its session was queued with its number or a later one, and where its session is none of 1 to 64.
    pub fn queue(&mut self, need: Need)
        requires reserved { 0 < self.old.reserved }
        ensures queued { goes_on need self.old.queued ≡ true → self.new ≡ record self.old { queued = self.old.queued ++ need ∷ []; waiting = self.old.waiting ++ need ∷ []; reserved = self.old.reserved - 1 } }
        ensures passed { goes_on need self.old.queued ≡ false → self.new ≡ self.old }
    {
        if !is_past(need.label, &self.last) {
            return;
        }
        acked_when_queued();
        self.last[need.label.session as usize] = need.label.k;
        self.pipeline.enqueue(need);
        match self.queued.push(need) {
            Ok(()) => self.reserved -= 1,
            Err(_) => unreachable!(),
        }
    }

    /// Makes the batch durable, and answers the receipts of the waiters that its cut covers, in the order in which they were queued;
    /// they wait no longer, and a copy of each receipt is kept. Where its cut is the durable one, the disk is left alone, and its
    /// commits do not count.
    ///
    /// `Unlawful` says that it is no group that an opened store obeys. After it, `LogFull` and `NoMemory` nothing has changed; after
    /// `Device` the store is broken for good, and nobody was told.
    pub fn flush(&mut self, batch: &Batch) -> Result<ReceiptList, Refused>
        requires open { self.old.broken ≡ false }
        // At each moment of the call, whatever it answers, an image opens as one from before did, with perhaps more commits.
        ensures any_moment { IsTrue (D.disk).tells → Steps D.disk OnlyGrows self.old.disk self.new.disk }
        // Where its cut is a new one, an image opens at each moment as one from before, or as that with the batch's commits behind it.
        ensures at_most { IsTrue (D.disk).tells → same_cut batch.now.cut self.old.cut ≡ false → Steps D.disk (AtMostGrows self.old.ends batch.now) self.old.disk self.new.disk }
        // After Ok each image opens as one from before with the batch's commits, and so at its cut.
        ensures written { IsTrue (D.disk).tells → same_cut batch.now.cut self.old.cut ≡ false → OnOk result (HasGrown D.disk self.old.ends batch.now self.old.disk self.new.disk) }
        ensures durable { OnOk result (IsTrue (D.disk).tells → AllAt D.disk (as_cut batch.now.cut) self.new.ends self.new.disk) }
        // Where its cut is the durable one, the disk is left alone, and only memory may be wanting.
        ensures untouched { same_cut batch.now.cut self.old.cut ≡ true → self.new.disk ≡ self.old.disk }
        ensures equal { same_cut batch.now.cut self.old.cut ≡ true → IfErr result (λ e. e ≡ refused.Flush fault.NoMemory) }
        // Just the waiters that the cut covers are told, in their order, and their receipts are kept.
        ensures receipts { IfOk result (λ rs. rs ≡ map (receipt_at batch.now.cut) (filter (covers batch.now.cut) self.old.waiting)) }
        ensures kept { IfOk result (λ rs. self.new.receipts ≡ self.old.receipts ++ rs) }
        ensures waiting { OnOk result (self.new.waiting ≡ filter (λ n. not (covers batch.now.cut n)) self.old.waiting) }
        ensures done { OnOk result ((as_cut self.new.cut ≡ as_cut batch.now.cut) × (self.new.broken ≡ false)) }
        // What became durable is a group; what is refused as none is none, unless the writes of a commit are too many to be counted.
        ensures group { OnOk result (same_cut batch.now.cut self.old.cut ≡ false → IsGroup self.old.catalog (as_cut self.old.cut) batch.now.cut batch.now.mem batch.now.store) }
        ensures unlawful { result ≡ Err refused.Unlawful → IsGroup self.old.catalog (as_cut self.old.cut) batch.now.cut batch.now.mem batch.now.store → ¬ (CanBeCounted batch.now) }
        // A log is too long exactly by its length, unless memory ran out; and the device fails only where none is.
        ensures full { IfErr result (λ e. same_cut batch.now.cut self.old.cut ≡ false → RefusesOrNot (full_length self.old.logmax self.old.ends (stored_text batch.now) (body_text self.old.ends batch.now)) e) }
        ensures fits { OnOk result (same_cut batch.now.cut self.old.cut ≡ false → full_length self.old.logmax self.old.ends (stored_text batch.now) (body_text self.old.ends batch.now) ≡ None) }
        ensures refused { IfErr result (λ e. e ≢ refused.Flush fault.Device → self.new ≡ self.old) }
        // Without Ok nobody was told.
        ensures told { OnErr result ((self.new.waiting ≡ self.old.waiting) × (self.new.receipts ≡ self.old.receipts) × (self.new.cut ≡ self.old.cut)) }
        ensures broken { result ≡ Err (refused.Flush fault.Device) → self.new.broken ≡ true }
        ensures failed { result ≡ Err (refused.Flush fault.Device) → Rose (D.faults self.old.disk) (D.faults self.new.disk) }
        ensures later { D.faults self.old.disk ≤ D.faults self.new.disk }
        ensures places { (self.new.catalog ≡ self.old.catalog) × (self.new.queued ≡ self.old.queued) × (self.new.reserved ≡ self.old.reserved) × (self.new.logmax ≡ self.old.logmax) }
    {
        if !may_follow(&self.catalog, self.pipeline.cut(), batch) {
            return Err(Refused::Unlawful);
        }
        acked_when_flushed();
        match self.pipeline.flush(batch) {
            Ok(told) => {
                keep(told.as_slice(), &mut self.receipts);
                Ok(told)
            }
            Err(why) => Err(Refused::Flush(why)),
        }
    }

    /// The durable cut.
    pub fn cut(&self) -> Point
        ensures { result ≡ self.now.cut }
    {
        self.pipeline.cut()
    }

    /// Whether the device has failed. The store is then to be opened again.
    pub fn broken(&self) -> bool
        ensures { result ≡ self.now.broken }
    {
        self.pipeline.broken()
    }

    /// The disk, everybody who was told, and the durable cut.
    pub fn into_parts(self) -> (D, ReceiptList, Point)
        ensures disk { result.0 ≡ self.disk }
        ensures receipts { result.1 ≡ self.receipts }
        ensures cut { result.2 ≡ self.cut }
        // Each receipt is of a need that was queued, at a cut that covers it and is not past the durable one, and nobody was told twice.
        ensures acked { Acked self.queued self.receipts self.cut }
        // Unless the device has failed, every image of the disk opens at the durable cut; and in any case over the tables.
        ensures stands { self.broken ≡ false → IsTrue (D.disk).tells → AllAt D.disk (as_cut self.cut) self.ends self.disk }
        ensures over { IsTrue (D.disk).tells → AllOver D.disk self.catalog self.disk }
    {
        let Durable {
            catalog: _,
            pipeline,
            queued: _,
            receipts,
            reserved: _,
            last: _,
        } = self;
        let cut = pipeline.cut();
        (pipeline.into_disk(), ReceiptList::from_vec(receipts), cut)
    }
}
