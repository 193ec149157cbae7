use crate::{put_flush_lines, put_reply_lines, put_report, put_script_fault};
use sk_model::{
    Commit, CommitList, Ending, EngineFault, EngineName, ErrWord, FlushFault, Label, Point,
    PointList, Receipt, ReceiptList, Record, RecordList, Recycled, Reply, RowList, SaidList,
    StepName, TxKind, Why, WriteList,
};
use sk_outcome::FlushNote;
use sk_rows::{Row, Txt, Value};
use std::alloc::Global;
use std::test::Fail;

const BY: Label = Label { session: 2, k: 3 };

const POINT: Point = Point {
    a: 2,
    b: 3,
    commit: true,
};

fn text(rt: &HostRuntime, bytes: &[u8]) -> Result<Value, Fail> {
    match Txt::from_vec(bytes.to_vec(rt.alloc())?) {
        Ok(text) => Ok(Value::Text(text)),
        Err(_) => Err("the bytes are no text")?,
    }
}

/// A row with a value of each sort, and a row of one empty text.
fn rows(rt: &HostRuntime) -> Result<RowList, Fail> {
    let mut first = Row::new(rt.alloc());
    first.push(Value::Int(-5))?;
    first.push(text(rt, b"it's")?)?;
    first.push(Value::Bool(true))?;
    first.push(Value::Bool(false))?;
    let mut second = Row::new(rt.alloc());
    second.push(text(rt, b"")?)?;
    let mut rows = RowList::new(rt.alloc());
    rows.push(first)?;
    rows.push(second)?;
    Ok(rows)
}

fn conflict(why: Why) -> Reply {
    Reply::Conflict { by: BY, why }
}

fn past() -> Why {
    Why::Past {
        number: 6,
        snapshot: 5,
    }
}

fn old(engine: EngineName) -> Reply {
    Reply::Old {
        engine,
        snapshot: 4,
        horizon: 9,
    }
}

fn check_failed() -> Reply {
    Reply::CheckFailed {
        point: POINT,
        mem: 4,
        store: 5,
    }
}

#[test]
fn reply_lines(rt: HostRuntime) -> Result<(), Fail> {
    let table = vec![in rt.alloc();
        (Reply::Began(BY), "7: OK 2.3\n"),
        (Reply::Count(4), "7: COUNT 4\n"),
        (Reply::Rows(RowList::new(rt.alloc())), "7: ROWS 0\n"),
        (
            Reply::Rows(rows(&rt)?),
            "7: ROW -5, 'it''s', TRUE, FALSE\n7: ROW ''\n7: ROWS 2\n"
        ),
        (Reply::Committed, "7: COMMITTED\n"),
        (Reply::RolledBack, "7: ROLLEDBACK\n"),
        (Reply::Step(StepName::CloseMem, None), "7: STEP close m\n"),
        (
            Reply::Step(StepName::DrawMem, Some(8)),
            "7: STEP draw m 8\n"
        ),
        (Reply::Step(StepName::Check, None), "7: STEP check\n"),
        (check_failed(), "7: CHECKFAILED 2 3 drew 4 5\n"),
        (Reply::Spent(EngineName::Mem), "7: SPENT memory\n"),
        (conflict(Why::Open), "7: CONFLICT 2.3 open\n"),
        (conflict(Why::Closed), "7: CONFLICT 2.3 closed\n"),
        (conflict(past()), "7: CONFLICT 2.3 past 6 5\n"),
        (Reply::Busy { by: BY }, "7: BUSY 2.3\n"),
        (
            Reply::Recycled(Recycled {
                a: 1,
                oldest: POINT
            }),
            "7: RECYCLED 1 2 3\n"
        ),
        (old(EngineName::Mem), "7: OLD memory 4 9\n"),
        (Reply::Refused(ErrWord::Duplicate), "7: ERR duplicate\n"),
    ]?;
    for (reply, lines) in table.as_slice() {
        let mut out = String::new(rt.alloc());
        assert!(rt; put_reply_lines(&mut out, 7, reply).is_ok());
        assert!(rt; out.as_str() == *lines);
    }
    Ok(())
}

fn commit(alloc: Global, label: Label, mem: Option<u32>, store: Option<u32>) -> Commit {
    Commit {
        label,
        mem,
        store,
        writes: WriteList::new(alloc),
    }
}

/// What a record has of snapshots and of drawn numbers, each of the memory engine and of the storage engine.
type Numbers = ((Option<u32>, Option<u32>), (Option<u32>, Option<u32>));

fn transaction(
    alloc: Global,
    label: Label,
    kind: TxKind,
    ending: Ending,
    numbers: Numbers,
) -> Record {
    let ((mem, store), (drew_mem, drew_store)) = numbers;
    Record {
        label,
        kind,
        mem,
        store,
        said: SaidList::new(alloc),
        ending,
        drew_mem,
        drew_store,
        made: PointList::new(alloc),
    }
}

fn commits(alloc: Global) -> Result<CommitList, Fail> {
    let mut order = CommitList::new(alloc);
    order.push(commit(alloc, Label { session: 1, k: 1 }, Some(1), None))?;
    order.push(commit(alloc, Label { session: 4, k: 1 }, None, Some(6)))?;
    order.push(commit(alloc, BY, Some(7), Some(8)))?;
    Ok(order)
}

fn transactions(alloc: Global) -> Result<RecordList, Fail> {
    let mut records = RecordList::new(alloc);
    records.push(transaction(
        alloc,
        Label { session: 1, k: 1 },
        TxKind::Mem,
        Ending::Committed,
        ((Some(0), None), (Some(1), None)),
    ))?;
    records.push(transaction(
        alloc,
        BY,
        TxKind::Cross,
        Ending::CheckFailed,
        ((Some(3), Some(5)), (Some(7), Some(8))),
    ))?;
    records.push(transaction(
        alloc,
        Label { session: 4, k: 1 },
        TxKind::Store,
        Ending::Open,
        ((None, Some(6)), (None, None)),
    ))?;
    records.push(transaction(
        alloc,
        Label { session: 4, k: 2 },
        TxKind::Store,
        Ending::Committed,
        ((None, Some(6)), (None, Some(7))),
    ))?;
    Ok(records)
}

/// Receipts for these labels.
fn receipts(alloc: Global, labels: &[Label]) -> Result<ReceiptList, Fail> {
    let mut receipts = ReceiptList::new(alloc);
    for label in labels {
        receipts.push(Receipt {
            label: *label,
            cut: POINT,
        })?;
    }
    Ok(receipts)
}

#[test]
fn reports_and_faults(rt: HostRuntime) -> Result<(), Fail> {
    let order = commits(rt.alloc())?;
    let records = transactions(rt.alloc())?;
    let told = receipts(rt.alloc(), &[BY, Label { session: 1, k: 1 }])?;
    let mut out = String::new(rt.alloc());
    assert!(rt;
        put_report(
            rt.alloc(),
            &mut out,
            order.as_slice(),
            records.as_slice(),
            &[0, 2, 4, 3],
            told.as_slice(),
            POINT,
        )
        .is_ok()
    );
    assert!(rt; put_script_fault(&mut out, 12, 5).is_ok());
    let text = b"ORDER 1.1 1 -\nORDER 4.1 - 6\nORDER 2.3 7 8\n\
        TX 1.1 memory 0 - 0 committed 1 - acked\n\
        TX 2.3 cross 3 5 2 checkfailed 7 8 -\n\
        TX 4.1 storage - 6 4 open - - -\n\
        TX 4.2 storage - 6 3 committed - 7 pending\n\
        CUT 2 3\n\
        FAULT script 12 5\n";
    assert!(rt; out.as_bytes() == text.as_slice());
    Ok(())
}

fn note(alloc: Global, refused: Option<FlushFault>) -> Result<FlushNote, Fail> {
    Ok(FlushNote {
        receipts: receipts(alloc, &[BY, Label { session: 1, k: 1 }])?,
        cut: POINT,
        refused,
        unread: false,
        sweep_mem: None,
        sweep_store: None,
    })
}

#[test]
fn flush_lines(rt: HostRuntime) -> Result<(), Fail> {
    let mut swept = note(rt.alloc(), None)?;
    swept.sweep_mem = Some(EngineFault::NoMemory);
    swept.sweep_store = Some(EngineFault::Device);
    let mut unread = note(rt.alloc(), None)?;
    unread.unread = true;
    let table = vec![in rt.alloc();
        (note(rt.alloc(), None)?, "ACK 2.3\nACK 1.1\nFLUSH 2 3\n"),
        (
            swept,
            "ACK 2.3\nACK 1.1\nFLUSH 2 3\nSWEEP memory\nSWEEP device\n"
        ),
        (unread, "SWEEP device\n"),
        (
            note(rt.alloc(), Some(FlushFault::LogFull { length: 60 }))?,
            "FLUSH full 60\n"
        ),
        (
            note(rt.alloc(), Some(FlushFault::NoMemory))?,
            "FLUSH memory\n"
        ),
        (
            note(rt.alloc(), Some(FlushFault::Device))?,
            "FLUSH device\n"
        ),
    ]?;
    for (note, lines) in table.as_slice() {
        let mut out = String::new(rt.alloc());
        assert!(rt; put_flush_lines(&mut out, note).is_ok());
        assert!(rt; out.as_str() == *lines);
    }
    Ok(())
}
