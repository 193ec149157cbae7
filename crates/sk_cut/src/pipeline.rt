//! The logs of one store, who waits for them, and what is durable.
ghost use Rattle.std.specs.Prelude.{◌≡◌, ◌≢◌, ◌⊎◌, ℕ, List, ◌+◌, ◌-◌, ◌<◌, ◌≤◌, ◌++◌, ◌∷◌, [], true, false, not, IsTrue, OnOk, OnErr, IsOk, IfOk, IfErr, Some, None, Ok, Err, length, map};
ghost use Rattle.std.specs.List.{filter};
ghost use Rattle.sk_outside.specs.Causes.{Rose};
ghost use Rattle.sk_device.specs.Disk.{Steps};
ghost use Rattle.sk_cut.specs.Batches.{CanBeSpelled, Refuses, as_cut, same_cut, stored_text, body_text, full_length};
ghost use Rattle.sk_cut.specs.Flush.{AllAt, AtMostGrows, HasGrown, IsLawful};
ghost use Rattle.sk_cut.specs.Receipts.{covers, receipt_at};
ghost use Rattle.sk_cut.specs.Acked.{times, labels_of, told, AreOnce};
ghost use Rattle.sk_model.specs.declared.receipt.FlushFault.TheVariants as fault;

use crate::receipts::{Teller, drop_covered, tell_all};
use crate::text::{are_bytes, spelled};
use crate::writing::write_group;
use sk_device::Device;
use sk_log::Ends;
use sk_model::{CommitList, FlushFault, Need, Point, ReceiptList};
use sk_rows::NoMemory;
use std::alloc::Global;
use std::marker::Model;

/// A cut, and the commits of both engines past the durable one and up to it. A commit of both stands in both lists.
#[derive(Drop)]
pub struct Batch {
    /// The cut that it reaches.
    pub cut: Point,
    /// The memory engine's commits, in the order of their numbers.
    pub mem: CommitList,
    /// The storage engine's commits, in the order of their numbers.
    pub store: CommitList,
}

/// The logs of one store, behind which committed transactions wait until their commits are durable.
///
/// Contracts see its `View`: the disk, where the logs end, the longest that a log may get in bytes, the durable cut, who waits in
/// which order, for how many more there is room, and whether the device has failed.
#[derive(Drop)]
pub struct Pipeline<D: Device, F: Teller + Drop> {
    alloc: Global,
    disk: D,
    ends: Ends,
    logmax: u32,
    cut: Point,
    waiting: Vec<Need>,
    reserved: usize,
    broken: bool,
    tell: F,
}

impl<D: Device, F: Teller + Drop> Model for Pipeline<D, F> {
    ghost use Rattle.std.specs.Prelude.{◌≡◌, ◌+◌, ◌≤◌, ◌<◌, false, IsTrue, vec_len, vec_capacity};
    ghost use Rattle.sk_cut.specs.Batches.{as_cut};
    ghost use Rattle.sk_cut.specs.Flush.{AllAt};
    ghost use Rattle.sk_cut.specs.Receipts.{View};
    ghost use Rattle.sk_cut.specs.Acked.{AreOnce, labels_of};

    ghost Value = { View D };

    ghost view = { λ s. record { disk = s.disk; ends = s.ends; logmax = s.logmax; cut = s.cut; waiting = s.waiting.items; reserved = s.reserved; broken = s.broken } };

    ghost invariant = { λ s. (s.ends.set < 2)
        × (s.broken ≡ false → IsTrue (D.disk).tells → AllAt D.disk (as_cut s.cut) s.ends s.disk)
        × (vec_len s.waiting + s.reserved ≤ vec_capacity s.waiting)
        × F.is_true s.tell
        × AreOnce (labels_of s.waiting.items) };
}

/// Whether the two cuts have the same numbers.
pub fn same_cut(a: &Point, b: &Point) -> bool
    ensures { result ≡ same_cut a.now b.now }
{
    a.a == b.a && a.b == b.b
}

impl<D: Device, F: Teller + Drop> Pipeline<D, F> {
    /// The pipeline of a store that was opened: every image of its disk opens at this cut and with these ends, and `tell` answers
    /// the receipt of what it is given. A log may have at most `logmax` bytes.
    pub fn new(alloc: Global, disk: D, ends: Ends, logmax: u32, cut: Point, tell: F) -> Self
        requires set { ends.set < 2 }
        requires disk { IsTrue (D.disk).tells → AllAt D.disk (as_cut cut) ends disk }
        requires tells { F.is_true tell }
        ensures { result ≡ record { disk = disk; ends = ends; logmax = logmax; cut = cut; waiting = []; reserved = 0; broken = false } }
    {
        Pipeline {
            alloc,
            disk,
            ends,
            logmax,
            cut,
            waiting: Vec::new(alloc),
            reserved: 0,
            broken: false,
            tell,
        }
    }

    /// Reserves one more place for a waiter.
    pub fn reserve(&mut self) -> Result<(), NoMemory>
        ensures more { OnOk result (self.new ≡ record self.old { reserved = self.old.reserved + 1 }) }
        ensures same { OnErr result (self.new ≡ self.old) }
    {
        let places = self.reserved.checked_add(1).ok_or(NoMemory)?;
        self.waiting.reserve(places)?;
        self.reserved = places;
        Ok(())
    }

    /// Puts a waiter behind the others, in a place that was reserved. Its label does not wait yet. It takes no memory.
    pub fn enqueue(&mut self, need: Need)
        requires reserved { 0 < self.old.reserved }
        requires new { times need.label (labels_of self.old.waiting) ≡ 0 }
        ensures { self.new ≡ record self.old { waiting = self.old.waiting ++ need ∷ []; reserved = self.old.reserved - 1 } }
    {
        match self.waiting.push(need) {
            Ok(()) => self.reserved -= 1,
            Err(_) => unreachable!(),
        }
    }

    /// Makes the batch durable, where its cut is a new one.
    fn advance(&mut self, batch: &Batch) -> Result<(), FlushFault>
        requires open { self.old.broken ≡ false }
        requires spelled { same_cut batch.now.cut self.old.cut ≡ false → CanBeSpelled batch.now }
        // Behind what each image holds, the batch is a group that an opened store obeys.
        requires lawful { IsTrue (D.disk).tells → same_cut batch.now.cut self.old.cut ≡ false → IsLawful D.disk self.old.disk self.old.cut batch.now }
        ensures any_moment { IsTrue (D.disk).tells → Steps D.disk (AtMostGrows self.old.ends batch.now) self.old.disk self.new.disk }
        ensures written { IsTrue (D.disk).tells → same_cut batch.now.cut self.old.cut ≡ false → OnOk result (HasGrown D.disk self.old.ends batch.now self.old.disk self.new.disk) }
        ensures durable { OnOk result (IsTrue (D.disk).tells → AllAt D.disk (as_cut batch.now.cut) self.new.ends self.new.disk) }
        ensures untouched { same_cut batch.now.cut self.old.cut ≡ true → OnOk result (self.new ≡ self.old) }
        ensures equal { same_cut batch.now.cut self.old.cut ≡ true → IsOk result }
        ensures done { OnOk result ((as_cut self.new.cut ≡ as_cut batch.now.cut) × (self.new.broken ≡ false)) }
        // A log is too long exactly by its length, unless memory ran out; and the device fails only where none is.
        ensures full { IfErr result (λ e. same_cut batch.now.cut self.old.cut ≡ false → Refuses (full_length self.old.logmax self.old.ends (stored_text batch.now) (body_text self.old.ends batch.now)) e) }
        ensures fits { OnOk result (same_cut batch.now.cut self.old.cut ≡ false → full_length self.old.logmax self.old.ends (stored_text batch.now) (body_text self.old.ends batch.now) ≡ None) }
        ensures refused { IfErr result (λ e. e ≢ fault.Device → self.new ≡ self.old) }
        ensures same { OnErr result (self.new.cut ≡ self.old.cut) }
        ensures broken { result ≡ Err fault.Device → self.new.broken ≡ true }
        ensures failed { result ≡ Err fault.Device → Rose (D.faults self.old.disk) (D.faults self.new.disk) }
        ensures later { D.faults self.old.disk ≤ D.faults self.new.disk }
        ensures waiting { self.new.waiting ≡ self.old.waiting }
        ensures places { (self.new.reserved ≡ self.old.reserved) × (self.new.logmax ≡ self.old.logmax) }
    {
        if same_cut(&batch.cut, &self.cut) {
            return Ok(());
        }
        let texts = spelled(self.alloc, self.logmax, &self.ends, batch)?;
        are_bytes(&texts.store);
        are_bytes(&texts.body);
        match write_group(
            &mut self.disk,
            &self.ends,
            self.logmax,
            &texts.store,
            &texts.body,
            &texts.group,
        ) {
            Ok(ends) => {
                self.ends = ends;
                self.cut = batch.cut;
                Ok(())
            }
            Err(_) => {
                self.broken = true;
                Err(FlushFault::Device)
            }
        }
    }

    /// Makes the batch durable, and answers the receipts of the waiters that its cut covers, in the order in which they were queued;
    /// they wait no longer. Where its cut is the durable one, the disk is left alone, and the batch's commits do not count. After
    /// `LogFull` and `NoMemory` nothing has changed; after `Device` the pipeline is broken for good, and nobody was told.
    pub fn flush(&mut self, batch: &Batch) -> Result<ReceiptList, FlushFault>
        requires open { self.old.broken ≡ false }
        requires spelled { same_cut batch.now.cut self.old.cut ≡ false → CanBeSpelled batch.now }
        // Behind what each image holds, the batch is a group that an opened store obeys.
        requires lawful { IsTrue (D.disk).tells → same_cut batch.now.cut self.old.cut ≡ false → IsLawful D.disk self.old.disk self.old.cut batch.now }
        // At each moment of the call an image opens as one from before, or as it with the batch's group.
        ensures any_moment { IsTrue (D.disk).tells → Steps D.disk (AtMostGrows self.old.ends batch.now) self.old.disk self.new.disk }
        // After Ok each image opens as one from before with it, and so at the batch's cut.
        ensures written { IsTrue (D.disk).tells → same_cut batch.now.cut self.old.cut ≡ false → OnOk result (HasGrown D.disk self.old.ends batch.now self.old.disk self.new.disk) }
        ensures durable { OnOk result (IsTrue (D.disk).tells → AllAt D.disk (as_cut batch.now.cut) self.new.ends self.new.disk) }
        // Where its cut is the durable one, the disk is left alone, and only memory may be wanting.
        ensures untouched { same_cut batch.now.cut self.old.cut ≡ true → self.new.disk ≡ self.old.disk }
        ensures equal { same_cut batch.now.cut self.old.cut ≡ true → IfErr result (λ e. e ≡ fault.NoMemory) }
        // Just the waiters that the cut covers are told, in their order, each once.
        ensures receipts { IfOk result (λ rs. rs ≡ map (receipt_at batch.now.cut) (filter (covers batch.now.cut) self.old.waiting)) }
        ensures once { IfOk result (λ rs. AreOnce (told rs)) }
        ensures waiting { OnOk result (self.new.waiting ≡ filter (λ n. not (covers batch.now.cut n)) self.old.waiting) }
        ensures done { OnOk result ((as_cut self.new.cut ≡ as_cut batch.now.cut) × (self.new.broken ≡ false)) }
        // A log is too long exactly by its length, unless memory ran out; and the device fails only where none is.
        ensures full { IfErr result (λ e. same_cut batch.now.cut self.old.cut ≡ false → Refuses (full_length self.old.logmax self.old.ends (stored_text batch.now) (body_text self.old.ends batch.now)) e) }
        ensures fits { OnOk result (same_cut batch.now.cut self.old.cut ≡ false → full_length self.old.logmax self.old.ends (stored_text batch.now) (body_text self.old.ends batch.now) ≡ None) }
        ensures refused { IfErr result (λ e. e ≢ fault.Device → self.new ≡ self.old) }
        // Without Ok nobody was told.
        ensures told { OnErr result ((self.new.waiting ≡ self.old.waiting) × (self.new.cut ≡ self.old.cut)) }
        ensures broken { result ≡ Err fault.Device → self.new.broken ≡ true }
        ensures failed { result ≡ Err fault.Device → Rose (D.faults self.old.disk) (D.faults self.new.disk) }
        ensures later { D.faults self.old.disk ≤ D.faults self.new.disk }
        ensures places { (self.new.reserved ≡ self.old.reserved) × (self.new.logmax ≡ self.old.logmax) }
    {
        let mut receipts = Vec::with_capacity(self.alloc, self.waiting.len())?;
        self.advance(batch)?;
        tell_all(&self.tell, batch.cut, &self.waiting, &mut receipts);
        drop_covered(batch.cut, &mut self.waiting);
        Ok(ReceiptList::from_vec(receipts))
    }

    /// The durable cut.
    pub fn cut(&self) -> Point
        ensures { result ≡ self.now.cut }
    {
        self.cut
    }

    /// Whether the device has failed. The store is then to be opened again.
    pub fn broken(&self) -> bool
        ensures { result ≡ self.now.broken }
    {
        self.broken
    }

    /// The disk. Who still waits is not told.
    pub fn into_disk(self) -> D
        ensures { result ≡ self.disk }
    {
        let Pipeline {
            alloc: _,
            disk,
            ends: _,
            logmax: _,
            cut: _,
            waiting: _,
            reserved: _,
            broken: _,
            tell: _,
        } = self;
        disk
    }
}
