ghost use Rattle.std.specs.Prelude.{◌≡◌, IfOk};

use super::*;
use sk_model::{Commit, Ending, Label, Record, TxKind};
use sk_rows::{List, NoMemory};
use std::alloc::Global;
use std::test::Fail;

const LABEL: Label = Label { session: 1, k: 1 };

fn commit(alloc: Global, mem: Option<u32>, store: Option<u32>) -> Commit
    ensures mem { result.mem ≡ mem }
    ensures store { result.store ≡ store }
{
    Commit {
        label: LABEL,
        mem,
        store,
        writes: List::new(alloc),
    }
}

fn reader(alloc: Global, mem: Option<u32>, store: Option<u32>) -> Record {
    Record {
        label: LABEL,
        kind: TxKind::Cross,
        mem,
        store,
        said: List::new(alloc),
        ending: Ending::Open,
        drew_mem: None,
        drew_store: None,
        made: List::new(alloc),
    }
}

// Snapshots before, at, between and behind the numbers, and absent ones.
#[test]
fn records_read_up_to_their_snapshots(rt: HostRuntime) -> Result<(), Fail> {
    let order = [
        commit(rt.alloc(), Some(2), Some(3)),
        commit(rt.alloc(), Some(5), None),
        commit(rt.alloc(), None, Some(7)),
    ];
    let wanted = [
        (Some(1), Some(2), 0),
        (Some(2), Some(3), 1),
        (Some(4), Some(6), 1),
        (Some(5), Some(6), 2),
        (Some(4), Some(7), 3),
        (Some(9), Some(9), 3),
        (Some(9), None, 2),
        (None, Some(4), 1),
        (None, None, 0),
    ];
    let mut records = Vec::new(rt.alloc());
    for (mem, store, _) in wanted {
        records.push(reader(rt.alloc(), mem, store))?;
    }
    let found = places(rt.alloc(), &order, &records)?;
    assert_eq!(rt; found.len(), wanted.len());
    for (place, (_, _, end)) in found.as_slice().iter().zip(wanted) {
        assert_eq!(rt; *place, end);
    }
    Ok(())
}
