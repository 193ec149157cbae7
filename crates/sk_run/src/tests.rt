ghost use Rattle.std.specs.Prelude.{◌≡◌, ◌≤◌, true, IfOk, length};
ghost use Rattle.sk_model.specs.Texts.{texts_are_short};
ghost use Rattle.sk_store.specs.Begun.{no_rows};

use super::*;
use sk_model::{KeyedRows, Point, Reply, Tables};
use sk_rows::{Begun, Catalog, Column, ColumnList, Sort, Statement, Table, Txt, Value, ValueList};
use std::alloc::Global;
use std::process::Abort;
use std::test::Fail;

const START: Point = Point {
    a: 0,
    b: 0,
    commit: false,
};

fn text(alloc: Global, word: &[u8]) -> Result<Txt, Fail> {
    let bytes = Vec::from_slice(alloc, word)?;
    Ok(Txt::from_vec(bytes).ok().ok_or("a name")?)
}

// A table with the one column `id`.
fn table(alloc: Global, name: u8, store: bool) -> Result<Table, Fail> {
    let column = Column {
        name: text(alloc, b"id")?,
        sort: Sort::Int,
    };
    Ok(Table {
        name: text(alloc, &[name])?,
        store,
        columns: ColumnList::of_one(alloc, column)?,
    })
}

// No rows, for each table of the catalog.
fn empty_tables(alloc: Global, catalog: &Catalog) -> Result<Tables, Fail>
    ensures { IfOk result (λ rows. rows ≡ no_rows catalog.now) }
{
    let mut rows = Tables::new(alloc);
    for _table in catalog.tables() {
        rows.push(KeyedRows::new(alloc))?;
    }
    Ok(rows)
}

// Two sessions over table `a`, in memory, and table `c`, on pages.
fn begin(alloc: Global) -> Result<Run, Fail>
    ensures { IfOk result (λ run. length run.sessions ≡ 2) }
{
    let mut catalog = Catalog::new(alloc);
    if catalog.add(table(alloc, b'a', false)?).is_err()
        || catalog.add(table(alloc, b'c', true)?).is_err()
    {
        return Err("a table was refused")?;
    }
    let rows = empty_tables(alloc, &catalog)?;
    Ok(Run::new(alloc, catalog, &rows, 2, 8, START, 2)?)
}

fn insert(alloc: Global, name: u8, id: i64) -> Result<Statement, Fail>
    ensures { IfOk result (λ s. texts_are_short s ≡ true) }
{
    Ok(Statement::Insert {
        table: text(alloc, &[name])?,
        values: ValueList::of_one(alloc, Value::Int(id))?,
    })
}

// The run once this session has said this, and what it was answered.
fn say(alloc: Global, run: Run, session: u16, statement: &Statement) -> Result<(Run, Reply), Fail>
    requires first { 1 ≤ session }
    requires last { session ≤ length run.sessions }
    requires short { texts_are_short statement.now ≡ true }
    ensures { IfOk result (λ said. length said.0.sessions ≡ length run.sessions) }
{
    match run.line(alloc, session, Some(statement)) {
        Ok(said) => Ok(said),
        Err(_) => Err("no answer")?,
    }
}

// Session 2 begins before what session 1 commits, and is rolled back at the end.
#[test]
fn line_by_line(rt: HostRuntime) -> Result<(), Fail> {
    let alloc = rt.alloc();
    let run = begin(alloc)?;
    let (run, began) = say(alloc, run, 2, &Statement::Begin(Begun::Mem))?;
    assert!(rt; matches!(began, Reply::Began(_)));
    let (run, counted) = say(alloc, run, 1, &insert(alloc, b'a', 7)?)?;
    assert!(rt; matches!(counted, Reply::Count(1)));
    let Ok(ended) = run.finish(alloc) else {
        return Err("not finished")?;
    };
    assert_eq!(rt; ended.records.len(), 2);
    assert_eq!(rt; ended.order.len(), 1);
    assert_eq!(rt; ended.places.as_slice(), [0, 0].as_slice());
    assert_eq!(rt; ended.points.len(), 1);
    assert_eq!(rt; ended.mem.len(), 7);
    assert_eq!(rt; ended.store.len(), 0);
    Ok(())
}
