//! The commits of each engine, and the one list of a run.

ghost use Rattle.std.specs.Prelude.{◌≡◌, IfOk};
ghost use Rattle.sk_linked.specs.Reads.{order_of};
ghost use Rattle.sk_linked.specs.Traces.{run_of};
ghost use Rattle.sk_linked.specs.Kept.{Play, traces_in};
ghost use Rattle.sk_ledger.specs.Ledger.{committed_in, IsLeftBy};

use crate::entering::puts_in;
use crate::numbering::{in_order, numbered};
use sk_model::{CommitList, EngineName, Journal, Point, Record};
use sk_rows::NoMemory;
use sk_weave::weave;
use std::alloc::Global;

/// The commits of one engine in the order of their numbers: of each record that committed and drew a number there, what its puts in this journal that were done come to. They are right whatever was purged and whatever numbers are undecided.
///
/// It goes over the journal once and over the records once. A row that was put is found again by its key, and the puts of a transaction by its label.
pub fn commits(
    alloc: Global,
    name: EngineName,
    journal: &Journal,
    records: &[Record],
) -> Result<CommitList, NoMemory>
    ensures { IfOk result (λ cs. cs ≡ committed_in name journal.now records.now) }
{
    let puts = puts_in(alloc, journal)?;
    let numbered = numbered(alloc, name, &puts, records)?;
    in_order(alloc, numbered)
}

/// The one list of commits of a run that left these journals of both engines, all its points, and the records of its transactions.
pub fn order(
    alloc: Global,
    mem: &Journal,
    store: &Journal,
    points: &[Point],
    records: &[Record],
) -> Result<CommitList, NoMemory>
    requires { (p : Play) × IsLeftBy p mem.now store.now points.now records.now }
    ensures { IfOk result (λ order. (p : Play) → IsLeftBy p mem.now store.now points.now records.now → order ≡ order_of (run_of (traces_in p))) }
{
    let mem = commits(alloc, EngineName::Mem, mem, records)?;
    let store = commits(alloc, EngineName::Store, store, records)?;
    weave(alloc, points, mem.as_slice(), store.as_slice())
}
