//! The log of undo records.
//!
//! A record has a place and names the next older version of its row by that one's place, so the versions of a row are a path
//! through the log. What a log keeps (`AreWhole` of `specs/Log.antt`): a record that is named stands, has a smaller number and
//! knows the number of the record that names it, and no two records name one place. So a path goes down in numbers and ends,
//! and unlike paths have no record in common.

ghost use Rattle.std.specs.Prelude.{◌≡◌, ◌≤◌, [], length, map, None, Some, IfOk, OnErr, IsSome, IsTrue, ◌↔◌};
ghost use Rattle.std.specs.Option.{option_copied};
ghost use Rattle.sk_undo.specs.Log.{AreWhole, IsClaimed, IsFirst, IsFree, IsOlder, IsPushed, cut, dropped, filled, newest_for, record_at, row_of, row_seen, trimmed};

use crate::undo::{Undo, claim, cut, drop_path, forget, may_name, name, newest, record, trim};
use sk_rows::{NoMemory, Row};
use std::alloc::Global;
use std::marker::Model;

/// Undo records by place. Contracts see the list of its places, with the record where one stands.
///
/// `free` lists places without a record, so that they are used again. It is advice: a place is looked at before it is claimed.
#[derive(Debug, Drop)]
pub struct UndoLog {
    slots: Vec<Option<Undo>>,
    free: Vec<u32>,
}

impl Model for UndoLog {
    ghost use Rattle.sk_undo.specs.Log.{AreWhole, Log};

    ghost Value = { Log };

    ghost view = { λ l. l.slots.items };

    ghost invariant = { λ l. AreWhole l.slots.items };
}

impl UndoLog {
    /// A log without records.
    pub fn new(alloc: Global) -> UndoLog
        ensures { result ≡ [] }
    {
        UndoLog {
            slots: Vec::new(alloc),
            free: Vec::new(alloc),
        }
    }

    /// The row of the record in this place, and None where its version is an absence.
    pub fn row(&self, at: u32) -> Option<&Row>
        requires { IsSome (record_at self.now at) }
        ensures { option_copied result ≡ row_of (record_at self.now at) }
    {
        match self.slots.get(at as usize) {
            Some(Some(undo)) => undo.row.as_ref(),
            _ => None,
        }
    }

    /// A place for a record: a free one, or a new one at the end. Of the two steps of a push only this one wants memory. A place
    /// that is then not filled stays free. Refused for memory too where 2^32 places are taken.
    pub fn claim(&mut self) -> Result<u32, NoMemory>
        ensures ok { IfOk result (λ at. IsClaimed self.old at self.new) }
        ensures err { OnErr result (self.new ≡ self.old) }
    {
        claim(&mut self.slots, &mut self.free)
    }

    /// Whether a record of this number may name the older one: it stands, has a smaller number and is named by no record. That is
    /// what `fill` and `push` ask for.
    pub fn may_name(&self, older: Option<u32>, n: u32) -> bool
        ensures may { IsTrue result ↔ IsOlder self.now older n }
        ensures whole { AreWhole self.now }
    {
        may_name(self.slots.as_slice(), older, n)
    }

    /// Puts a record into a free place. `older`, where it is given, has a smaller number and is named by no record. Takes no
    /// memory.
    pub fn fill(&mut self, at: u32, older: Option<u32>, n: u32, row: Option<Row>)
        requires { IsFree self.old at × IsOlder self.old older n }
        ensures { self.new ≡ filled self.old at older n row }
    {
        self.slots[at as usize] = Some(Undo {
            older,
            newer: None,
            n,
            row,
        });
        name(&mut self.slots, older, n);
        forget(&mut self.free, at);
    }

    /// Adds a record in a free place or at the end, and answers its place. `older`, where it is given, has a smaller number and is
    /// named by no record.
    pub fn push(&mut self, older: Option<u32>, n: u32, row: Option<Row>) -> Result<u32, NoMemory>
        requires { IsOlder self.old older n }
        ensures ok { IfOk result (λ at. IsPushed self.old at (filled self.old at older n row) self.new) }
        ensures err { OnErr result (self.new ≡ self.old) }
    {
        let at = self.claim()?;
        self.fill(at, older, n, row);
        Ok(at)
    }

    /// Frees what stands behind the first record on the path from `from` whose number is at most `upto`. It costs the length of
    /// that path.
    pub fn cut(&mut self, from: Option<u32>, upto: u32)
        ensures { self.new ≡ cut self.old from upto }
    {
        cut(&mut self.slots, &mut self.free, from, upto);
    }

    /// Frees each record that has a newer one with a number of at most `upto` on its path; a path ends where its next record was
    /// freed. It looks at every place of the log.
    pub fn trim(&mut self, upto: u32)
        ensures { self.new ≡ map (trimmed upto) self.old }
    {
        trim(&mut self.slots, &mut self.free, upto);
    }

    /// Frees each record on the path that begins at `from`, a record that no other names.
    pub fn drop_path(&mut self, from: Option<u32>)
        requires { IsFirst self.old from }
        ensures { self.new ≡ dropped self.old from }
    {
        drop_path(&mut self.slots, &mut self.free, from);
    }

    /// The row of the version that a reader at this snapshot sees on the path from here. None where it sees none, or an absence.
    pub fn row_for(&self, from: Option<u32>, snapshot: u32) -> Option<&Row>
        ensures { option_copied result ≡ row_seen self.now from snapshot }
    {
        match record(
            self.slots.as_slice(),
            newest(self.slots.as_slice(), from, snapshot)?,
        ) {
            Some(undo) => undo.row.as_ref(),
            None => None,
        }
    }

    /// The place of the first record on the path from here whose number is at most `snapshot`: the version that a reader at this
    /// snapshot sees.
    pub fn newest_for(&self, from: Option<u32>, snapshot: u32) -> Option<u32>
        ensures { result ≡ newest_for self.now from snapshot }
    {
        newest(self.slots.as_slice(), from, snapshot)
    }
}
