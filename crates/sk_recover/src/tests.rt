//! Opening over devices in memory: a new store, a store with one group, damaged files, and a store whose making or whose first flush
//! was cut short.
use super::*;
use sk_device::{MemDevice, Tear, TearingDevice};
use sk_log::{Ends, LogFault, What, append_anchor, append_store, open_gate};
use sk_model::{Point, Tables};
use sk_rows::{Catalog, Column, List, Sort, Table, Txt, Value};
use std::alloc::Global;
use std::process::Abort;
use std::test::Fail;

/// The tables `a`, of the memory engine, and `c`, of the storage engine, each with an INT key `id` and an INT `v`, and no rows.
const IMAGE: [u8; 32] = [
    0, 2, 1, 97, 0, 2, 2, 105, 100, 0, 1, 118, 0, 1, 99, 1, 2, 2, 105, 100, 0, 1, 118, 0, 0, 0, 0,
    0, 0, 0, 0, 0,
];

/// The open entry of a new store with this image and the cut (0, 0).
const ROOT: [u8; 24] = [
    1, 1, 0, 0, 0, 0, 0, 1, 0, 0, 0, 0, 0, 0, 0, 0, 0, 0, 0, 0, 0, 0, 0, 32,
];

/// One commit of both engines with the numbers 1 and 1, which wrote (1, 20) to `c` ..
const STORE: [u8; 38] = [
    0, 1, 0, 0, 0, 1, 1, 0, 0, 0, 1, 0, 0, 0, 1, 0, 0, 0, 1, 0, 1, 1, 0, 0, 0, 0, 0, 0, 0, 1, 0, 0,
    0, 0, 0, 0, 0, 20,
];

/// .. and (1, 10) to `a`.
const ANCHOR: [u8; 60] = [
    1, 0, 0, 0, 54, 0, 0, 0, 1, 0, 0, 0, 1, 0, 0, 0, 38, 0, 0, 0, 1, 0, 1, 0, 0, 0, 1, 1, 0, 0, 0,
    1, 0, 0, 0, 1, 0, 0, 0, 1, 0, 0, 1, 0, 0, 0, 0, 0, 0, 0, 1, 0, 0, 0, 0, 0, 0, 0, 10, 0,
];

const START: Point = Point {
    a: 0,
    b: 0,
    commit: false,
};

fn table(alloc: Global, name: &[u8], store: bool) -> Result<Table, Fail> {
    let mut columns = List::new(alloc);
    for name in [b"id".as_slice(), b"v".as_slice()] {
        let name = Txt::from_vec(name.to_vec(alloc)?).ok().ok_or("a name")?;
        columns.push(Column {
            name,
            sort: Sort::Int,
        })?;
    }
    Ok(Table {
        name: Txt::from_vec(name.to_vec(alloc)?).ok().ok_or("a name")?,
        store,
        columns,
    })
}

fn catalog(alloc: Global) -> Result<Catalog, Fail> {
    let mut catalog = Catalog::new(alloc);
    catalog
        .add(table(alloc, b"a", false)?)
        .ok()
        .ok_or("a table")?;
    catalog
        .add(table(alloc, b"c", true)?)
        .ok()
        .ok_or("a table")?;
    Ok(catalog)
}

/// A device with these files, and the image.
fn disk(alloc: Global, root: &[u8], store: &[u8], anchor: &[u8]) -> Result<MemDevice, Fail> {
    let mut disk = MemDevice::new(alloc, Vec::new(alloc), Vec::new(alloc));
    disk.set(0, root.to_vec(alloc)?);
    disk.set(1, store.to_vec(alloc)?);
    disk.set(2, anchor.to_vec(alloc)?);
    disk.set(5, IMAGE.to_vec(alloc)?);
    Ok(disk)
}

/// One change of the files of a store with one group: a byte that is set, or else the file is cut there. And what is wrong then.
struct Damage {
    file: u8,
    at: usize,
    byte: Option<u8>,
    of: u8,
    place: u64,
    what: What,
}

/// The store with one group, changed so.
fn changed(alloc: Global, file: u8, at: usize, byte: Option<u8>) -> Result<MemDevice, Fail> {
    let mut disk = disk(alloc, &ROOT, &STORE, &ANCHOR)?;
    if file < 8 && at < disk.bytes(file).len() {
        let mut bytes = disk.bytes(file)[..at].to_vec(alloc)?;
        if let Some(byte) = byte {
            bytes.push(byte)?;
            bytes.extend_from_slice(&disk.bytes(file)[at + 1..])?;
        }
        disk.set(file, bytes);
    }
    Ok(disk)
}

/// The second value of the first row of a table.
fn value(rows: &Tables, table: usize) -> Option<i64> {
    let (_, row) = rows.get(table)?.as_slice().first()?;
    match row.get(1)? {
        Value::Int(n) => Some(*n),
        Value::Text(_) => None,
        Value::Bool(_) => None,
    }
}

#[test]
fn a_new_store_is_made_and_a_group_is_read(rt: HostRuntime) -> Result<(), Fail> {
    let alloc = rt.alloc();
    let catalog = catalog(alloc)?;
    let mut made = MemDevice::new(alloc, Vec::new(alloc), Vec::new(alloc));
    let new = open(alloc, &mut made, &catalog, START)
        .ok()
        .ok_or("a new store")?;
    assert!(rt; new.fresh);
    assert_eq!(rt; made.bytes(0), ROOT.as_slice());
    assert_eq!(rt; made.bytes(2), [0].as_slice());
    assert_eq!(rt; made.bytes(5), IMAGE.as_slice());
    let mut disk = disk(alloc, &ROOT, &STORE, &ANCHOR)?;
    let store = open(alloc, &mut disk, &catalog, START)
        .ok()
        .ok_or("a store")?;
    assert!(rt; !store.fresh);
    assert_eq!(rt; store.catalog.tables().len(), 2);
    assert_eq!(rt; (store.cut.a, store.cut.b), (1, 1));
    assert_eq!(rt;
        (store.ends.set, store.ends.store_end, store.ends.gate),
        (0, 38, 59)
    );
    assert_eq!(rt; value(&store.rows, 0), Some(10));
    assert_eq!(rt; value(&store.rows, 1), Some(20));
    Ok(())
}

const DAMAGES: [Damage; 16] = [
    Damage {
        file: 0,
        at: 1,
        byte: Some(9),
        of: 0,
        place: 1,
        what: What::Format,
    },
    Damage {
        file: 0,
        at: 2,
        byte: Some(2),
        of: 0,
        place: 2,
        what: What::Tag,
    },
    Damage {
        file: 1,
        at: 10,
        byte: Some(0),
        of: 1,
        place: 7,
        what: What::Order,
    },
    Damage {
        file: 1,
        at: 10,
        byte: Some(2),
        of: 1,
        place: 7,
        what: What::Order,
    },
    Damage {
        file: 1,
        at: 20,
        byte: Some(0),
        of: 1,
        place: 19,
        what: What::Range,
    },
    Damage {
        file: 1,
        at: 21,
        byte: Some(2),
        of: 1,
        place: 21,
        what: What::Tag,
    },
    Damage {
        file: 1,
        at: 5,
        byte: Some(2),
        of: 1,
        place: 0,
        what: What::Half,
    },
    Damage {
        file: 1,
        at: 37,
        byte: None,
        of: 1,
        place: 30,
        what: What::Length,
    },
    Damage {
        file: 2,
        at: 12,
        byte: Some(0),
        of: 1,
        place: 7,
        what: What::Order,
    },
    Damage {
        file: 2,
        at: 16,
        byte: Some(37),
        of: 1,
        place: 30,
        what: What::Length,
    },
    Damage {
        file: 2,
        at: 20,
        byte: Some(2),
        of: 2,
        place: 59,
        what: What::Length,
    },
    Damage {
        file: 2,
        at: 20,
        byte: Some(0),
        of: 2,
        place: 21,
        what: What::Length,
    },
    Damage {
        file: 2,
        at: 59,
        byte: Some(1),
        of: 2,
        place: 60,
        what: What::Length,
    },
    Damage {
        file: 2,
        at: 0,
        byte: None,
        of: 2,
        place: 0,
        what: What::Length,
    },
    Damage {
        file: 2,
        at: 3,
        byte: None,
        of: 2,
        place: 1,
        what: What::Length,
    },
    Damage {
        file: 2,
        at: 59,
        byte: None,
        of: 2,
        place: 59,
        what: What::Length,
    },
];

#[test]
fn the_first_damaged_field_is_answered(rt: HostRuntime) -> Result<(), Fail> {
    let alloc = rt.alloc();
    let catalog = catalog(alloc)?;
    for damage in &DAMAGES {
        let mut disk = changed(alloc, damage.file, damage.at, damage.byte)?;
        let fault = open(alloc, &mut disk, &catalog, START).err();
        let want = OpenFault::Damaged {
            file: damage.of,
            place: damage.place,
            what: damage.what,
        };
        assert_eq!(rt; fault, Some(want));
    }
    Ok(())
}

// A gate that is not 1 is no damage: nothing behind it counts. That of the anchor log leaves a store without rows, that of the root none.
#[test]
fn a_closed_gate_hides_what_is_behind_it(rt: HostRuntime) -> Result<(), Fail> {
    let alloc = rt.alloc();
    let catalog = catalog(alloc)?;
    for (file, fresh) in [(2, false), (0, true)] {
        let mut disk = changed(alloc, file, 0, Some(7))?;
        let store = open(alloc, &mut disk, &catalog, START)
            .ok()
            .ok_or("a store")?;
        assert_eq!(rt; store.fresh, fresh);
        assert_eq!(rt; (store.cut.a, store.cut.b), (0, 0));
        assert_eq!(rt; value(&store.rows, 0), None);
        assert_eq!(rt; value(&store.rows, 1), None);
    }
    Ok(())
}

/// Opening these files in a device of which these calls fail, of writes and syncs and of the others.
fn failing(alloc: Global, change: u64, look: u64) -> Result<Option<OpenFault>, Fail> {
    let mut changes = Vec::new(alloc);
    changes.push(change)?;
    let mut looks = Vec::new(alloc);
    looks.push(look)?;
    let mut disk = MemDevice::new(alloc, changes, looks);
    disk.set(0, ROOT.to_vec(alloc)?);
    disk.set(1, STORE.to_vec(alloc)?);
    disk.set(2, ANCHOR.to_vec(alloc)?);
    disk.set(5, IMAGE.to_vec(alloc)?);
    Ok(open(alloc, &mut disk, &catalog(alloc)?, START).err())
}

#[test]
fn a_failing_call_is_a_fault_of_the_device(rt: HostRuntime) -> Result<(), Fail> {
    // Seven syncs; then a length and a read for each of the root, the image and both logs.
    for change in 1..8 {
        let fault = failing(rt.alloc(), change, 0)?;
        assert_eq!(rt; fault, Some(OpenFault::Device));
    }
    for look in 1..9 {
        let fault = failing(rt.alloc(), 0, look)?;
        assert_eq!(rt; fault, Some(OpenFault::Device));
    }
    assert_eq!(rt; failing(rt.alloc(), 8, 9)?, None);
    Ok(())
}

/// What a stop leaves of the making of a new store whose call of this number fails.
fn cut_short(alloc: Global, failing: u64, tear: Tear) -> Result<MemDevice, Fail> {
    let mut calls = Vec::new(alloc);
    calls.push(failing)?;
    let files = MemDevice::new(alloc, calls, Vec::new(alloc));
    let mut disk = TearingDevice::new(alloc, files, tear)?;
    let _ = open(alloc, &mut disk, &catalog(alloc)?, START);
    Ok(disk.stopped(&[tear])?)
}

/// Whether what is left opens as a new store. It opens, and has the bytes of the store then.
fn opens_anew(rt: &impl Abort, alloc: Global, mut disk: MemDevice) -> Result<bool, Fail> {
    let opened = open(alloc, &mut disk, &catalog(alloc)?, START);
    assert_eq!(rt; disk.bytes(0), ROOT.as_slice());
    assert_eq!(rt; disk.bytes(2), [0].as_slice());
    assert_eq!(rt; disk.bytes(5), IMAGE.as_slice());
    let store = opened.ok().ok_or("a store")?;
    Ok(store.fresh)
}

#[test]
fn a_store_opens_whatever_call_of_its_making_fails(rt: HostRuntime) -> Result<(), Fail> {
    let alloc = rt.alloc();
    // Seven syncs, and a write and a sync for each of five steps, of which the last opens the gate.
    for failing in 1..18 {
        for stands in 0..4 {
            for filler in [None, Some(0), Some(1), Some(255)] {
                let tear = Tear {
                    stands: stands * 11,
                    filler,
                };
                let fresh = opens_anew(&rt, alloc, cut_short(alloc, failing, tear)?)?;
                assert!(rt; fresh || failing > 15);
            }
        }
    }
    let none_fails = cut_short(
        alloc,
        18,
        Tear {
            stands: 0,
            filler: None,
        },
    )?;
    assert!(rt; !opens_anew(&rt, alloc, none_fails)?);
    Ok(())
}

/// Where the logs of a new store end.
const NEW: Ends = Ends {
    set: 0,
    store_end: 0,
    gate: 0,
};

/// The six calls of a flush, which are a write and a sync of the storage log, of the group behind its closed gate, and of the gate.
fn flush(disk: &mut TearingDevice) -> Result<(), LogFault> {
    append_store(disk, &NEW, 60, &STORE)?;
    append_anchor(disk, &NEW, 60, &ANCHOR[1..])?;
    open_gate(disk, &NEW)
}

/// What a stop leaves of a flush behind a new store whose call of this number fails.
fn flush_cut_short(alloc: Global, failing: u64, tear: Tear) -> Result<MemDevice, Fail> {
    let mut files = MemDevice::new(alloc, [failing].to_vec(alloc)?, Vec::new(alloc));
    files.set(0, ROOT.to_vec(alloc)?);
    files.set(2, [0].to_vec(alloc)?);
    files.set(5, IMAGE.to_vec(alloc)?);
    let mut disk = TearingDevice::new(alloc, files, tear)?;
    let _ = flush(&mut disk);
    Ok(disk.stopped(&[tear])?)
}

/// Whether the store opens with the group. Else it opens as it was, without rows.
fn opens_with_the_group(rt: &impl Abort, alloc: Global, mut disk: MemDevice) -> Result<bool, Fail> {
    let opened = open(alloc, &mut disk, &catalog(alloc)?, START);
    let store = opened.ok().ok_or("a store")?;
    assert!(rt; !store.fresh);
    let grown = store.cut.a == 1;
    assert_eq!(rt; store.cut.b, store.cut.a);
    assert_eq!(rt; value(&store.rows, 0), grown.then_some(10));
    assert_eq!(rt; value(&store.rows, 1), grown.then_some(20));
    Ok(grown)
}

#[test]
fn a_stop_leaves_a_group_whole_or_not_at_all(rt: HostRuntime) -> Result<(), Fail> {
    let alloc = rt.alloc();
    // The last two calls write and sync the gate; the seventh is none of them.
    for failing in 1..8 {
        for stands in 0..4 {
            for filler in [None, Some(0), Some(1), Some(255)] {
                let tear = Tear {
                    stands: stands * 19,
                    filler,
                };
                let is_one = stands > 0 || matches!(filler, Some(1));
                let left = flush_cut_short(alloc, failing, tear)?;
                let grown = opens_with_the_group(&rt, alloc, left)?;
                assert_eq!(rt; grown, failing == 7 || failing > 4 && is_one);
            }
        }
    }
    Ok(())
}
