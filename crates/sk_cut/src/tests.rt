//! A batch that is a group, and three that are not; and a flush over files in memory: what stands in both logs, and who is told.
ghost use Rattle.std.specs.Prelude.{◌≡◌, [], All, IfOk};
ghost use Rattle.sk_log.specs.Spelled.{IsSpellable};
ghost use Rattle.sk_cut.specs.Batches.{CanBeSpelled};

use super::*;
use sk_device::{Device, MemDevice};
use sk_log::Ends;
use sk_model::{
    Commit, CommitList, FlushFault, Label, Need, Point, Receipt, ReceiptList, Write, WriteList,
};
use sk_outside::Failed;
use sk_rows::{Catalog, Column, List, Sort, Table, Txt, Value};
use std::alloc::Global;
use std::test::*;

fn txt(alloc: Global, bytes: &[u8]) -> Result<Txt, Fail> {
    let bytes = Vec::from_slice(alloc, bytes)?;
    Ok(Txt::from_vec(bytes).ok().ok_or("a text")?)
}

/// A table with the INT key `id`.
fn table(alloc: Global, name: &[u8], store: bool) -> Result<Table, Fail> {
    let key = Column {
        name: txt(alloc, b"id")?,
        sort: Sort::Int,
    };
    Ok(Table {
        name: txt(alloc, name)?,
        store,
        columns: List::of_one(alloc, key)?,
    })
}

/// Table 0 is of the memory engine, table 1 of the storage engine.
fn catalog(alloc: Global) -> Result<Catalog, Fail> {
    let mut catalog = Catalog::new(alloc);
    let mem = catalog.add(table(alloc, b"a", false)?);
    mem.ok().ok_or("a table")?;
    let store = catalog.add(table(alloc, b"c", true)?);
    store.ok().ok_or("a table")?;
    Ok(catalog)
}

/// The commit of 1.1 with the memory number 1, which wrote the row (1) with this key.
fn commits(alloc: Global, store: Option<u32>, table: u16, key: i64) -> Result<CommitList, Fail> {
    let write = Write {
        table,
        key: Value::Int(key),
        row: Some(List::of_one(alloc, Value::Int(1))?),
    };
    let commit = Commit {
        label: Label { session: 1, k: 1 },
        mem: Some(1),
        store,
        writes: WriteList::of_one(alloc, write)?,
    };
    Ok(CommitList::of_one(alloc, commit)?)
}

const START: Point = Point {
    a: 0,
    b: 0,
    commit: false,
};

#[test]
fn a_batch_is_tested(rt: HostRuntime) -> Result<(), Fail> {
    let alloc = rt.alloc();
    let catalog = catalog(alloc)?;
    let cases = [
        ("a commit of both engines", Some(1), 0, 1, true),
        ("a table of the other engine", Some(1), 1, 1, false),
        ("a key that is not the row's", Some(1), 0, 2, false),
        ("a half alone", None, 0, 1, false),
    ];
    for (name, store, table, key, want) in cases {
        let batch = Batch {
            cut: Point {
                a: 1,
                b: 1,
                commit: false,
            },
            mem: commits(alloc, store, table, key)?,
            store: commits(alloc, Some(1), 1, 1)?,
        };
        assert_eq!(rt; is_lawful(&catalog, START, &batch), want, "at {name}");
    }
    Ok(())
}

/// Files in memory that tell nothing, so that nothing has to be shown of what they open as.
#[derive(Drop)]
struct Untold(MemDevice);

impl Device for Untold {
    ghost use Rattle.sk_device.specs.Disk.{silent};
    ghost use Rattle.sk_device.specs.Memory.{faults_of};

    ghost disk = { silent };

    ghost faults = { λ device. faults_of device.0 };

    fn len(&mut self, file: u8) -> Result<u64, Failed> {
        self.0.len(file)
    }

    fn read(&mut self, file: u8, at: u64, out: &mut [u8]) -> Result<usize, Failed> {
        self.0.read(file, at, out)
    }

    fn write(&mut self, file: u8, at: u64, bytes: &[u8]) -> Result<(), Failed> {
        self.0.write(file, at, bytes)
    }

    fn sync(&mut self, file: u8) -> Result<(), Failed> {
        self.0.sync(file)
    }
}

/// The records of a commit in both logs: the storage log ..
const STORE: [u8; 38] = [
    0, 1, 0, 0, 0, 1, 1, 0, 0, 0, 1, 0, 0, 0, 1, 0, 0, 0, 1, 0, 1, 1, 0, 0, 0, 0, 0, 0, 0, 1, 0, 0,
    0, 0, 0, 0, 0, 20,
];

/// .. and the anchor log, whose gate is open.
const ANCHOR: [u8; 60] = [
    1, 0, 0, 0, 54, 0, 0, 0, 1, 0, 0, 0, 1, 0, 0, 0, 38, 0, 0, 0, 1, 0, 1, 0, 0, 0, 1, 1, 0, 0, 0,
    1, 0, 0, 0, 1, 0, 0, 0, 1, 0, 0, 1, 0, 0, 0, 0, 0, 0, 0, 1, 0, 0, 0, 0, 0, 0, 0, 10, 0,
];

/// The commit 1.1 of both engines with the numbers 1 and 1, which wrote the row (1, value) of this table.
fn both(alloc: Global, table: u16, value: i64) -> Result<CommitList, Fail>
    ensures { IfOk result (λ cs. All IsSpellable cs) }
{
    let mut row = List::new(alloc);
    row.push(Value::Int(1))?;
    row.push(Value::Int(value))?;
    let write = Write {
        table,
        key: Value::Int(1),
        row: Some(row),
    };
    let commit = Commit {
        label: Label { session: 1, k: 1 },
        mem: Some(1),
        store: Some(1),
        writes: WriteList::of_one(alloc, write)?,
    };
    Ok(CommitList::of_one(alloc, commit)?)
}

/// The commit wrote (1, 10) to the memory table 0 and (1, 20) to the storage table 1.
fn batch(alloc: Global) -> Result<Batch, Fail>
    ensures { IfOk result (λ b. CanBeSpelled b) }
{
    Ok(Batch {
        cut: Point {
            a: 1,
            b: 1,
            commit: false,
        },
        mem: both(alloc, 0, 10)?,
        store: both(alloc, 1, 20)?,
    })
}

/// The transaction 1.1 waits for the memory engine's number 1, if a place can be had.
fn wait<D: Device, F: Teller + Drop>(pipeline: &mut Pipeline<D, F>)
    requires { pipeline.old.waiting ≡ [] }
    ensures { pipeline.new.broken ≡ pipeline.old.broken }
{
    if pipeline.reserve().is_ok() {
        pipeline.enqueue(Need {
            label: Label { session: 1, k: 1 },
            mem: Some(1),
            store: None,
        });
    }
}

/// What a flush answers, and leaves.
#[derive(Drop)]
struct Left {
    answer: Result<ReceiptList, FlushFault>,
    broken: bool,
    cut: Point,
    files: MemDevice,
}

/// A flush behind a closed gate, of whose writes and syncs the one of this number fails.
fn flushed_by<F: Teller + Drop>(
    alloc: Global,
    failing: u64,
    logmax: u32,
    tell: F,
) -> Result<Left, Fail>
    requires { F.is_true tell }
{
    let mut files = MemDevice::new(alloc, [failing].to_vec(alloc)?, Vec::new(alloc));
    files.set(2, [0].to_vec(alloc)?);
    let ends = Ends {
        set: 0,
        store_end: 0,
        gate: 0,
    };
    let batch = batch(alloc)?;
    let mut pipeline = Pipeline::new(alloc, Untold(files), ends, logmax, START, tell);
    wait(&mut pipeline);
    let answer = pipeline.flush(&batch);
    let broken = pipeline.broken();
    let cut = pipeline.cut();
    let Untold(files) = pipeline.into_disk();
    Ok(Left {
        answer,
        broken,
        cut,
        files,
    })
}

fn flushed(alloc: Global, failing: u64, logmax: u32) -> Result<Left, Fail> {
    flushed_by(
        alloc,
        failing,
        logmax,
        |label: Label, cut: Point| Receipt { label, cut },
    )
}

#[test]
fn a_flush_writes_a_group_and_tells_who_waits(rt: HostRuntime) -> Result<(), Fail> {
    let left = flushed(rt.alloc(), 7, 60)?;
    assert_eq!(rt; (left.cut.a, left.cut.b, left.broken), (1, 1, false));
    assert_eq!(rt; left.files.bytes(1), STORE.as_slice());
    assert_eq!(rt; left.files.bytes(2), ANCHOR.as_slice());
    let receipts = left.answer.ok().ok_or("receipts")?;
    let told = Receipt {
        label: Label { session: 1, k: 1 },
        cut: Point {
            a: 1,
            b: 1,
            commit: false,
        },
    };
    assert_eq!(rt; receipts.as_slice(), [told].as_slice());
    Ok(())
}

#[test]
fn a_log_that_would_be_too_long_is_left_alone(rt: HostRuntime) -> Result<(), Fail> {
    let left = flushed(rt.alloc(), 7, 59)?;
    assert_eq!(rt; (left.cut.a, left.cut.b, left.broken), (0, 0, false));
    assert_eq!(rt; left.answer.err(), Some(FlushFault::LogFull { length: 60 }));
    assert!(rt; left.files.bytes(1).is_empty());
    assert_eq!(rt; left.files.bytes(2), [0].as_slice());
    Ok(())
}

// A write and a sync of the storage log, of the group behind its closed gate, and of the gate.
#[test]
fn a_failing_call_breaks_the_pipeline(rt: HostRuntime) -> Result<(), Fail> {
    for failing in 1..7 {
        let left = flushed(rt.alloc(), failing, 60)?;
        assert_eq!(rt; (left.cut.a, left.cut.b, left.broken), (0, 0, true));
        assert_eq!(rt; left.answer.err(), Some(FlushFault::Device));
    }
    Ok(())
}
