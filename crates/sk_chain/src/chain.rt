//! The versions of one row: those that are stamped, and at most one that is open or closed.

ghost use Rattle.std.specs.Prelude.{◌≡◌, ℕ, ◌<◌, ◌≤◌, true, None, length, slice_get, IfSome, OnOk, OnErr};
ghost use Rattle.std.specs.Option.{option_copied};
ghost use Rattle.sk_model.specs.declared.label.Label.{Label};
ghost use Rattle.sk_model.specs.EngineReplies.{last_in};
ghost use Rattle.sk_chain.specs.Chained.{empty, versions, IsChain};
ghost use Rattle.sk_chain.specs.Reading.{newest, last_upto, seen_at, sight_of, found};
ghost use Rattle.sk_chain.specs.Writing.{past_of, conflict, is_by};
ghost use Rattle.sk_chain.specs.Changing.{may_push, pushed, closed, stamped, voided, trimmed};

use crate::version::{
    Blocked, Seen, Version, VersionState, closed_state, is_closed, is_closed_below, is_upto,
    past_version, same_label, why_of,
};
use sk_model::Label;
use sk_rows::{NoMemory, Row};
use std::alloc::Global;
use std::marker::Model;

/// The versions of one row, with room for the stamp of the one that is open or closed.
///
/// Contracts see the list of those that are stamped, oldest first, and the one that is open or closed.
#[derive(Debug, Drop)]
pub struct Chain {
    settled: Vec<Version>,
    top: Option<Version>,
}

impl Model for Chain {
    ghost use Rattle.sk_chain.specs.Chained.{Chained};

    ghost Value = { Chained };

    ghost use Rattle.std.specs.Vec.{vec_capacity};
    ghost use Rattle.sk_chain.specs.Chained.{IsHeld};

    ghost view = { λ c. record { settled = c.settled.items; top = c.top } };

    ghost invariant = { λ c. IsHeld (vec_capacity c.settled) (record { settled = c.settled.items; top = c.top }) };
}

impl Chain {
    /// No version.
    pub fn new(alloc: Global) -> Chain
        ensures { result ≡ empty }
    {
        Chain {
            settled: Vec::new(alloc),
            top: None,
        }
    }

    /// Writes the row, or its absence, as an open version of `by`, in place of the one that `by` has.
    ///
    /// It reserves the room that a stamp takes. A refusal changes nothing; memory is refused, too, where 2^32 - 1 versions are stamped, since places have 32 bits.
    pub fn push(&mut self, by: Label, row: Option<Row>) -> Result<(), NoMemory>
        requires { may_push self.old by ≡ true }
        ensures ok { OnOk result (self.new ≡ pushed self.old by row) }
        ensures err { OnErr result (self.new ≡ self.old) }
    {
        if self.settled.len() >= u32::MAX as usize {
            return Err(NoMemory);
        }
        self.settled.reserve(1)?;
        self.top = Some(Version {
            by,
            state: VersionState::Open,
            row,
        });
        Ok(())
    }

    /// The index of the version that `by` sees at the snapshot: its own, or else the newest one that is stamped with a number of at most the snapshot. It has to wait for another's closed version whose floor is below the snapshot.
    #[tactic(auto, using(crate::proofs::Finding::index_shows))]
    pub fn seen_at(&self, by: Label, snapshot: u32) -> Seen
        ensures value { result ≡ seen_at self.now by snapshot }
        ensures finds { sight_of (versions self.now) result ≡ found self.now by snapshot }
    {
        if let Some(top) = &self.top {
            if same_label(by, top.by) {
                return Seen::At(self.settled.len() as u32);
            }
            if is_closed_below(snapshot, top.state) {
                return Seen::Busy { by: top.by };
            }
        }
        match newest_upto(snapshot, self.settled.as_slice()) {
            Some(at) => Seen::At(at as u32),
            None => Seen::Nothing,
        }
    }

    /// The version at an index, counted from 0, the oldest one that stands.
    pub fn version(&self, at: u32) -> Option<&Version>
        ensures value { option_copied result ≡ slice_get (versions self.now) at }
        ensures chain { IsChain self.now }
    {
        let at = at as usize;
        if at < self.settled.len() {
            return Some(&self.settled[at]);
        }
        if at == self.settled.len() {
            self.top.as_ref()
        } else {
            None
        }
    }

    /// The newest version that is stamped with a number of at most `n`.
    pub fn stamped_upto(&self, n: u32) -> Option<&Version>
        ensures { option_copied result ≡ last_upto n self.now.settled }
    {
        match newest_upto(n, self.settled.as_slice()) {
            Some(at) => Some(&self.settled[at]),
            None => None,
        }
    }

    /// Whether there is a version that is open or closed, and it is this transaction's.
    pub fn is_by(&self, by: Label) -> bool
        ensures { result ≡ is_by by self.now.top }
    {
        match &self.top {
            Some(top) => same_label(by, top.by),
            None => false,
        }
    }

    /// Whom a write of `by` at the snapshot meets: another's version that is open or closed, or else the newest stamped one if its number is past the snapshot.
    pub fn conflict(&self, by: Label, snapshot: u32) -> Option<Blocked>
        ensures { result ≡ conflict self.now by snapshot }
    {
        if let Some(top) = &self.top {
            if !same_label(by, top.by) {
                return Some(Blocked {
                    by: top.by,
                    why: why_of(top.state),
                });
            }
        }
        past_last(snapshot, self.settled.as_slice())
    }

    /// Closes the open version with this floor. Where none is open, nothing changes.
    pub fn close(&mut self, floor: u32)
        ensures { self.new ≡ closed self.old floor }
    {
        if let Some(Version { by, state, row }) = self.top.take() {
            let state = closed_state(floor, state);
            self.top = Some(Version { by, state, row });
        }
    }

    /// Stamps the closed version with its number. Where none is closed, nothing changes. It takes no memory.
    pub fn stamp(&mut self, n: u32)
        ensures { self.new ≡ stamped self.old n }
    {
        if let Some(Version { by, state, row }) = self.top.take() {
            if is_closed(state) {
                let state = VersionState::Stamped { n };
                self.settled.push_reserved(Version { by, state, row });
            } else {
                self.top = Some(Version { by, state, row });
            }
        }
    }

    /// Drops the version that is open or closed. Where there is none, nothing changes.
    pub fn void(&mut self)
        ensures { self.new ≡ voided self.old }
    {
        self.top = None;
    }

    /// Drops each version that is older than the newest one stamped with a number of at most `upto`. Readers at snapshots from `upto` on, and writers, find what they found.
    pub fn trim(&mut self, upto: u32)
        ensures value { self.new ≡ trimmed self.old upto }
        ensures reads { (by : Label) (s : ℕ) → upto ≤ s → found self.new by s ≡ found self.old by s }
        ensures writes { (by : Label) (s : ℕ) → conflict self.new by s ≡ conflict self.old by s }
    {
        self.drop_older(upto);
    }

    fn drop_older(&mut self, upto: u32)
        ensures { self.new ≡ trimmed self.old upto }
    {
        if let Some(at) = newest_upto(upto, self.settled.as_slice()) {
            self.settled.drain(..at);
        }
    }
}

/// The index of the last version with a number of at most the snapshot. The search begins at the newest version.
fn newest_upto(snapshot: u32, settled: &[Version]) -> Option<usize>
    ensures at { result ≡ newest snapshot settled.now }
    ensures within { IfSome result (λ at. at < length settled.now) }
{
    let mut list = settled;
    while let [older @ .., version] = list {
        if is_upto(snapshot, version.state) {
            return Some(older.len());
        }
        list = older;
    }
    None
}

/// Whom a write at the snapshot meets in the newest of the stamped versions.
#[tactic(auto, using(crate::proofs::Newest::last_is))]
fn past_last(snapshot: u32, settled: &[Version]) -> Option<Blocked>
    ensures { result ≡ past_of snapshot (last_in None settled.now) }
{
    match settled.last() {
        Some(version) => past_version(snapshot, version),
        None => None,
    }
}
