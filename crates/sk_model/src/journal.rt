//! The journal of an engine: its calls in order, each with its reply.
//!
//! A Horizon changes nothing, so those that follow one another have one answer. They are kept as that answer and their number, and so
//! entering one takes no memory, and an engine that is asked again and again costs nothing.

ghost use Rattle.std.specs.Prelude.{◌≡◌, ◌<◌, ◌≤◌, ◌+◌, ◌-◌, [], false, length, OnOk, OnErr};
ghost use Rattle.sk_model.specs.Journal.{entries_in, most_others, entered, with_horizon, takes_horizon, is_horizon};

use crate::call::Entry;
use sk_rows::{Copies, List, NoMemory};
use std::alloc::Global;
use std::marker::Model;

/// How many entries that are not Horizons a journal has at most, those counted for which it has room.
const MOST_OTHERS: usize = 1 << 62;

/// Horizons that follow one another: their one answer, and how many there are.
#[derive(Clone, Copy, Debug, PartialEq, Eq)]
pub struct HorizonRun {
    pub answer: u32,
    pub count: u64,
}

/// An entry that is not a Horizon, and the Horizons right before it.
#[derive(Debug, Drop)]
pub struct JournalPart {
    pub horizons: HorizonRun,
    pub entry: Entry,
}

/// The calls of an engine in order, with their replies: at most 2^64 - 1 entries.
///
/// Contracts see the list of its entries, in which each Horizon stands by itself.
#[derive(Debug, Drop)]
pub struct Journal {
    parts: List<JournalPart>,
    last: HorizonRun,
    len: u64,
}

impl Model for Journal {
    ghost use Rattle.std.specs.Prelude.{◌≡◌, ◌≤◌, List as ItemList, length};
    ghost use Rattle.sk_model.specs.declared.call.Entry.{Entry as AnyEntry};
    ghost use Rattle.sk_model.specs.Journal.{entries_in, most_others};

    ghost Value = { ItemList AnyEntry };

    ghost view = { λ it. entries_in it.parts it.last };

    ghost invariant = { λ it. (it.len ≡ length (entries_in it.parts it.last)) × (length it.parts ≤ most_others) };
}

impl Journal {
    /// No entry.
    pub fn new(alloc: Global) -> Journal
        ensures { result ≡ [] }
    {
        Journal {
            parts: List::new(alloc),
            last: NO_HORIZONS,
            len: 0,
        }
    }

    /// How many entries there are, each Horizon counted.
    pub fn len(&self) -> u64
        ensures { result ≡ length self.now }
    {
        self.len
    }

    /// The entries that are not Horizons, each with the Horizons right before it, and the Horizons behind them all.
    pub fn as_parts(&self) -> (&[JournalPart], HorizonRun)
        ensures entries { self.now ≡ entries_in result.0.now result.1 }
        ensures others { length result.0.now ≤ most_others }
    {
        (self.parts.as_slice(), self.last)
    }
}

const NO_HORIZONS: HorizonRun = HorizonRun {
    answer: 0,
    count: 0,
};

impl Copies for JournalPart {
    fn copy(&self, alloc: Global) -> Result<JournalPart, NoMemory> {
        Ok(JournalPart {
            horizons: self.horizons,
            entry: self.entry.copy(alloc)?,
        })
    }
}

impl Copies for Journal {
    fn copy(&self, alloc: Global) -> Result<Journal, NoMemory> {
        Ok(Journal {
            parts: self.parts.copy(alloc)?,
            last: self.last,
            len: self.len,
        })
    }
}

/// A journal that grows, and the room for entries to come.
///
/// Contracts see its entries, and for how many more there is room.
#[derive(Debug, Drop)]
pub struct JournalWriter {
    parts: Vec<JournalPart>,
    last: HorizonRun,
    len: u64,
    room: usize,
}

impl Model for JournalWriter {
    ghost use Rattle.std.specs.Prelude.{◌≡◌};
    ghost use Rattle.std.specs.Vec.{vec_capacity};
    ghost use Rattle.sk_model.specs.Journal.{Written, IsWritten, entries_in};

    ghost Value = { Written };

    ghost view = { λ it. record { entries = entries_in it.parts.items it.last; room = it.room } };

    ghost invariant = { λ it. IsWritten it.parts.items it.last it.len it.room (vec_capacity it.parts) };
}

impl JournalWriter {
    /// No entry, and no room.
    pub fn new(alloc: Global) -> JournalWriter
        ensures { result ≡ record { entries = []; room = 0 } }
    {
        JournalWriter {
            parts: Vec::new(alloc),
            last: NO_HORIZONS,
            len: 0,
            room: 0,
        }
    }

    /// Takes room for so many entries more. Refused where there is no memory, where there are as many entries as there may be, and where more than 2^62 of them would be no Horizons.
    pub fn take_room(&mut self, entries: usize) -> Result<(), NoMemory>
        ensures ok { OnOk result (self.new ≡ record { entries = self.old.entries; room = self.old.room + entries }) }
        ensures err { OnErr result (self.new ≡ self.old) }
    {
        let Some(room) = self.room.checked_add(entries) else {
            return Err(NoMemory);
        };
        if self.len == u64::MAX || room > MOST_OTHERS - self.parts.len() {
            return Err(NoMemory);
        }
        self.parts.reserve(room)?;
        self.room = room;
        Ok(())
    }

    /// Gives back the room of so many entries.
    pub fn give_room(&mut self, entries: usize)
        requires { entries ≤ self.old.room }
        ensures { self.new ≡ record { entries = self.old.entries; room = self.old.room - entries } }
    {
        self.room -= entries;
    }

    /// Enters a call that is not a Horizon, in room that was taken for it. It takes no memory. Behind 2^64 - 1 entries it is not entered.
    pub fn enter(&mut self, entry: Entry)
        requires room { 0 < self.old.room }
        requires other { is_horizon entry.call ≡ false }
        ensures { self.new ≡ record { entries = entered self.old.entries entry; room = self.old.room - 1 } }
    {
        self.room -= 1;
        if self.len < u64::MAX {
            let horizons = self.last;
            self.parts.push_reserved(JournalPart { horizons, entry });
            self.last = NO_HORIZONS;
            self.len += 1;
        }
    }

    /// Enters a Horizon that was answered `n`. It takes no memory. Behind 2^64 - 1 entries, or right behind a Horizon with another answer, it is not entered.
    pub fn enter_horizon(&mut self, n: u32)
        ensures { self.new ≡ record { entries = with_horizon self.old.entries n; room = self.old.room } }
    {
        if self.takes_horizon(n) {
            self.last = HorizonRun {
                answer: n,
                count: self.last.count + 1,
            };
            self.len += 1;
        }
    }

    // Whether a Horizon that was answered n may be entered.
    fn takes_horizon(&self, n: u32) -> bool
        ensures { result ≡ takes_horizon self.now.entries n }
    {
        self.len < u64::MAX && (self.last.count == 0 || self.last.answer == n)
    }

    /// How many entries there are, each Horizon counted.
    pub fn len(&self) -> u64
        ensures { result ≡ length self.now.entries }
    {
        self.len
    }

    /// The journal as it stands. The room that is left goes.
    pub fn into_journal(self) -> Journal
        ensures { result ≡ self.entries }
    {
        let JournalWriter {
            parts,
            last,
            len,
            room: _,
        } = self;
        Journal {
            parts: List::from_vec(parts),
            last,
            len,
        }
    }
}
