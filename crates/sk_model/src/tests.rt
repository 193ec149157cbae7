use super::*;
use sk_rows::{Copies, List, Row, Value};
use std::test::Fail;

fn row(rt: &HostRuntime, key: i64, v: i64) -> Result<Row, Fail> {
    let mut values = Row::new(rt.alloc());
    values.push(Value::Int(key))?;
    values.push(Value::Int(v))?;
    Ok(values)
}

// A row that is put, and one that is deleted.
fn writes(rt: &HostRuntime) -> Result<WriteList, Fail> {
    let mut writes = WriteList::new(rt.alloc());
    writes.push(Write {
        table: 0,
        key: Value::Int(1),
        row: Some(row(rt, 1, 10)?),
    })?;
    writes.push(Write {
        table: 1,
        key: Value::Int(2),
        row: None,
    })?;
    Ok(writes)
}

fn label() -> Label {
    Label { session: 1, k: 2 }
}

#[test]
fn copied_commits(rt: HostRuntime) -> Result<(), Fail> {
    let mut commits = CommitList::new(rt.alloc());
    commits.push(Commit {
        label: label(),
        mem: Some(1),
        store: None,
        writes: writes(&rt)?,
    })?;
    match commits.copy(rt.alloc()) {
        Ok(same) => assert!(rt; matches!(same.get(0), Some(commit) if commit.writes.len() == 2)),
        Err(_) => assert!(rt; false),
    }
    Ok(())
}

#[test]
fn copied_tables(rt: HostRuntime) -> Result<(), Fail> {
    let mut rows = KeyedRows::new(rt.alloc());
    rows.push((Value::Int(1), row(&rt, 1, 10)?))?;
    let mut tables = Tables::new(rt.alloc());
    tables.push(rows)?;
    tables.push(KeyedRows::new(rt.alloc()))?;
    match tables.copy(rt.alloc()) {
        Ok(same) => assert!(rt; matches!(same.get(0), Some(rows) if rows.len() == 1)),
        Err(_) => assert!(rt; false),
    }
    Ok(())
}

#[test]
fn copied_replies(rt: HostRuntime) -> Result<(), Fail> {
    let point = Point {
        a: 1,
        b: 1,
        commit: true,
    };
    let mut rows = RowList::new(rt.alloc());
    rows.push(row(&rt, 1, 10)?)?;
    let by = label();
    let replies = vec![in rt.alloc();
        Reply::Began(by),
        Reply::Count(1),
        Reply::Rows(rows),
        Reply::Committed,
        Reply::RolledBack,
        Reply::Step(StepName::DrawMem, Some(1)),
        Reply::CheckFailed {
            point,
            mem: 1,
            store: 1
        },
        Reply::Spent(EngineName::Mem),
        Reply::Conflict { by, why: Why::Open },
        Reply::Busy { by },
        Reply::Recycled(Recycled {
            a: 0,
            oldest: point
        }),
        Reply::Old {
            engine: EngineName::Store,
            snapshot: 0,
            horizon: 1
        },
        Reply::Refused(ErrWord::Table),
    ]?;
    let replies: ReplyList = List::from_vec(replies);
    match replies.copy(rt.alloc()) {
        Ok(same) => assert!(rt; same.len() == 13),
        Err(_) => assert!(rt; false),
    }
    Ok(())
}
