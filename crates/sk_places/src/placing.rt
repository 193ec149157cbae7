//! The places of records.

ghost use Rattle.std.specs.Prelude.{◌≡◌, ◌≤◌, length, map, IfOk};
ghost use Rattle.sk_model.specs.Places.{place};
ghost use Rattle.sk_model.specs.Records.{InTurn};

use crate::index::PlaceIndex;
use sk_model::{Commit, PlaceList, Record};
use sk_rows::{List, NoMemory};
use std::alloc::Global;

/// The length of the prefix of the list that each record read, in the time of (commits + records) * log commits.
pub fn places(alloc: Global, order: &[Commit], records: &[Record]) -> Result<PlaceList, NoMemory>
    requires few { length order.now ≤ 4294967295 }
    requires by_mem { InTurn (λ c. c.mem) order.now }
    requires by_store { InTurn (λ c. c.store) order.now }
    ensures { IfOk result (λ all. all ≡ map (λ r. place order.now r.mem r.store) records.now) }
{
    let index = PlaceIndex::new(alloc, order)?;
    let mut all = List::new(alloc);
    index.add(records, &mut all)?;
    Ok(all)
}
