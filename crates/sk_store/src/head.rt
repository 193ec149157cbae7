//! What the engine keeps in memory of a row.

ghost use Rattle.std.specs.Prelude.{◌≡◌};
ghost use Rattle.sk_chain.specs.Writing.{is_by as is_by_top, past_of, rival_or, why_of};
ghost use Rattle.sk_model.specs.Records.{same_label};
ghost use Rattle.sk_engine.specs.Stands.{state_by};
ghost use Rattle.sk_store.specs.Heads.{acted_head, acted_holds, acted_newest, closed_floor, forgotten, is_upto, last_of, no_head, settled_number, sight_of, top_of};

use sk_chain::Blocked;
use sk_engine::Act;
use sk_model::{Label, Why};
use sk_undo::UndoLog;
use std::alloc::Global;

/// The page and the slot of a cell.
#[derive(Clone, Copy, Debug, PartialEq, Eq)]
pub struct Spot {
    pub page: u32,
    pub slot: u16,
}

/// Who wrote a version, and as which number it committed.
#[derive(Clone, Copy, Debug, PartialEq, Eq)]
pub struct Stamp {
    pub by: Label,
    pub n: u32,
}

/// Whose version the cell has.
#[derive(Clone, Copy, Debug, PartialEq, Eq)]
pub enum Holds {
    /// The newest stamped version.
    Settled,
    /// A version that is open, or closed with this floor. The newest stamped one is the first undo record.
    Pending { by: Label, floor: Option<u32> },
    /// A version that was dropped, or none at all. The newest stamped one is the first undo record.
    Dropped,
}

/// Which version a reader gets.
#[derive(Clone, Copy, Debug, PartialEq, Eq)]
pub enum Sight {
    /// Its own, in the cell.
    Own,
    /// The newest stamped one up to its snapshot.
    Stamped,
    /// It has to wait for the transaction.
    Waits { by: Label },
}

/// Where the versions of a row are: the newest one in a cell of a page, the older ones as undo records.
#[derive(Debug, Drop)]
pub struct Head {
    /// The cell. An absence has none.
    pub cell: Option<Spot>,
    pub holds: Holds,
    /// The newest stamped version's; none where no version is stamped.
    pub newest: Option<Stamp>,
    /// The first undo record.
    pub older: Option<u32>,
    /// The undo records of this row.
    pub undo: UndoLog,
}

fn same_label(a: Label, b: Label) -> bool
    ensures { result ≡ same_label a b }
{
    a.session == b.session && a.k == b.k
}

/// Why a write is refused that meets another's version.
fn why_pending(floor: Option<u32>) -> Why
    ensures { result ≡ why_of (state_by floor) }
{
    match floor {
        None => Why::Open,
        Some(_) => Why::Closed,
    }
}

/// Whom a write at the snapshot meets in the newest stamped version.
fn past(newest: Option<Stamp>, snapshot: u32) -> Option<Blocked>
    ensures { result ≡ past_of snapshot (last_of newest) }
{
    match newest {
        Some(stamp) if snapshot < stamp.n => Some(Blocked {
            by: stamp.by,
            why: Why::Past {
                number: stamp.n,
                snapshot,
            },
        }),
        _ => None,
    }
}

/// The floor of a version that is closed now.
fn closed_floor(floor: Option<u32>, new: u32) -> Option<u32>
    ensures { result ≡ closed_floor new floor }
{
    match floor {
        None => Some(new),
        Some(old) => Some(old),
    }
}

fn acted_holds(holds: Holds, act: Act) -> Holds
    ensures { result ≡ acted_holds act holds }
{
    match holds {
        Holds::Settled => Holds::Settled,
        Holds::Dropped => Holds::Dropped,
        Holds::Pending { by, floor } => match act {
            Act::Close { floor: new } => Holds::Pending {
                by,
                floor: closed_floor(floor, new),
            },
            Act::Stamp { .. } => match floor {
                None => holds,
                Some(_) => Holds::Settled,
            },
            Act::Void => Holds::Dropped,
        },
    }
}

fn acted_newest(newest: Option<Stamp>, holds: Holds, act: Act) -> Option<Stamp>
    ensures { result ≡ acted_newest act holds newest }
{
    match holds {
        Holds::Settled => newest,
        Holds::Dropped => newest,
        Holds::Pending { by, floor } => match act {
            Act::Close { .. } => newest,
            Act::Stamp { n } => match floor {
                None => newest,
                Some(_) => Some(Stamp { by, n }),
            },
            Act::Void => newest,
        },
    }
}

/// Whether there is a number, of at most n.
pub(crate) fn is_upto(number: Option<u32>, n: u32) -> bool
    ensures { result ≡ is_upto n number }
{
    match number {
        None => false,
        Some(m) => m <= n,
    }
}

impl Head {
    /// A row without versions.
    pub fn new(alloc: Global) -> Head
        ensures { result ≡ no_head }
    {
        Head {
            cell: None,
            holds: Holds::Dropped,
            newest: None,
            older: None,
            undo: UndoLog::new(alloc),
        }
    }

    /// Whom a write of `by` at the snapshot meets: another's version that is open or closed, or else the newest stamped one if its
    /// number is past the snapshot.
    pub fn conflict(&self, by: Label, snapshot: u32) -> Option<Blocked>
        ensures { result ≡ rival_or by (top_of self.now.holds) (past_of snapshot (last_of self.now.newest)) }
    {
        match self.holds {
            Holds::Pending { by: other, floor } if !same_label(by, other) => Some(Blocked {
                by: other,
                why: why_pending(floor),
            }),
            _ => past(self.newest, snapshot),
        }
    }

    /// Whether there is a version that is open or closed, and it is this transaction's.
    pub fn is_by(&self, by: Label) -> bool
        ensures { result ≡ is_by_top by (top_of self.now.holds) }
    {
        match self.holds {
            Holds::Pending { by: other, .. } => same_label(by, other),
            Holds::Settled | Holds::Dropped => false,
        }
    }

    /// Which version a reader at the snapshot gets.
    pub fn sight(&self, by: Label, snapshot: u32) -> Sight
        ensures { result ≡ sight_of by snapshot (top_of self.now.holds) }
    {
        match self.holds {
            Holds::Pending { by: other, floor } => {
                if same_label(by, other) {
                    return Sight::Own;
                }
                match floor {
                    Some(floor) if floor < snapshot => Sight::Waits { by: other },
                    _ => Sight::Stamped,
                }
            }
            Holds::Settled | Holds::Dropped => Sight::Stamped,
        }
    }

    /// The number of the stamped version in the cell, if it has one.
    pub fn settled_number(&self) -> Option<u32>
        ensures { result ≡ settled_number self.now.holds self.now.newest }
    {
        match self.holds {
            Holds::Settled => match self.newest {
                None => None,
                Some(stamp) => Some(stamp.n),
            },
            Holds::Pending { .. } | Holds::Dropped => None,
        }
    }

    /// Closes, stamps or drops the version that is open or closed. Its cell stays.
    pub fn act(&mut self, act: Act)
        ensures { self.new ≡ acted_head act self.old }
    {
        let holds = self.holds;
        self.newest = acted_newest(self.newest, holds, act);
        self.holds = acted_holds(holds, act);
    }

    /// Gives up what only snapshots before this number need: all older versions, where the one in the cell is stamped with a number
    /// of at most `upto`.
    pub fn forget(&mut self, alloc: Global, upto: u32)
        ensures { self.new ≡ forgotten upto self.old }
    {
        if is_upto(self.settled_number(), upto) {
            self.older = None;
            self.undo = UndoLog::new(alloc);
        }
    }
}
