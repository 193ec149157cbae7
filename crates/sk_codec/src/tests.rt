use super::*;
use sk_model::{Commit, Label};
use sk_rows::{Catalog, Column, List, Sort, Table, Txt, Value, fits};
use std::alloc::Global;
use std::test::*;

fn txt(alloc: Global, bytes: &[u8]) -> Result<Txt, Fail> {
    Ok(
        Txt::from_vec(Vec::from_slice(alloc, bytes)?)
            .ok()
            .ok_or("a text")?,
    )
}

/// A table with an INT key and one more column.
fn table(alloc: Global, sort: Sort) -> Result<Table, Fail> {
    let mut columns = List::new(alloc);
    let name = txt(alloc, b"id")?;
    columns.push(Column {
        name,
        sort: Sort::Int,
    })?;
    let name = txt(alloc, b"v")?;
    columns.push(Column { name, sort })?;
    Ok(Table {
        name: txt(alloc, b"a")?,
        store: false,
        columns,
    })
}

const BYTES: [u8; 17] = [0, 0, 0, 0, 0, 0, 0, 1, 0, 0, 0, 0, 0, 0, 0, 10, 9];

#[test]
fn rows_are_written_and_read(rt: HostRuntime) -> Result<(), Fail> {
    let alloc = rt.alloc();
    let numbers = table(alloc, Sort::Int)?;
    let row = read_row(alloc, &BYTES[..16], &numbers).ok().ok_or("a row")?;
    let mut out = Vec::new(alloc);
    assert!(rt; put_row(&mut out, &row).is_ok());
    assert_eq!(rt; out.as_slice(), &BYTES[..16]);

    let fault = read_row(alloc, &BYTES[..15], &numbers).err();
    assert_eq!(rt; fault, Some(CodecFault::Short { place: 8 }));
    let fault = read_row(alloc, &BYTES, &numbers).err();
    assert_eq!(rt; fault, Some(CodecFault::Extra { place: 16 }));
    let truths = table(alloc, Sort::Bool)?;
    let fault = read_row(alloc, &[0, 0, 0, 0, 0, 0, 0, 1, 2], &truths).err();
    assert_eq!(rt; fault, Some(CodecFault::Tag { place: 8 }));
    let texts = table(alloc, Sort::Text)?;
    let fault = read_row(alloc, &[0, 0, 0, 0, 0, 0, 0, 1, 0, 1, 9], &texts).err();
    assert_eq!(rt; fault, Some(CodecFault::Range { place: 8 }));

    let mut row = List::new(alloc);
    row.push(Value::Int(-2))?;
    row.push(Value::Text(txt(alloc, b"hi")?))?;
    assert!(rt; fits(&row, &texts));
    let mut out = Vec::new(alloc);
    assert!(rt; put_row(&mut out, &row).is_ok());
    assert_eq!(rt;
        out.as_slice(),
        [255, 255, 255, 255, 255, 255, 255, 254, 0, 2, 104, 105].as_slice()
    );
    assert!(rt; read_row(alloc, out.as_slice(), &texts).is_ok());
    Ok(())
}

/// The record of a commit of both engines with the numbers 1 and 1, which wrote the row (1, 20) of table 1.
const RECORD: [u8; 38] = [
    0, 1, 0, 0, 0, 1, 1, 0, 0, 0, 1, 0, 0, 0, 1, 0, 0, 0, 1, 0, 1, 1, 0, 0, 0, 0, 0, 0, 0, 1, 0, 0,
    0, 0, 0, 0, 0, 20,
];

fn catalog(alloc: Global) -> Result<Catalog, Fail> {
    let mut catalog = Catalog::new(alloc);
    let first = table(alloc, Sort::Int)?;
    catalog.add(first).ok().ok_or("the first table")?;
    let mut second = table(alloc, Sort::Int)?;
    second.name = txt(alloc, b"c")?;
    second.store = true;
    catalog.add(second).ok().ok_or("the second table")?;
    Ok(catalog)
}

#[test]
fn a_record_of_both_engines(rt: HostRuntime) -> Result<(), Fail> {
    let alloc = rt.alloc();
    let catalog = catalog(alloc)?;
    let (commit, len) = read_record(alloc, &RECORD, true, &catalog)
        .ok()
        .ok_or("a record")?;
    assert_eq!(rt; len, 38);
    assert_eq!(rt; commit.label, Label { session: 1, k: 1 });
    assert_eq!(rt; (commit.mem, commit.store), (Some(1), Some(1)));
    let fault = read_record(alloc, &RECORD, false, &catalog).err();
    assert_eq!(rt; fault, Some(CodecFault::Range { place: 19 }));
    let fault = read_record(alloc, &RECORD[..37], true, &catalog).err();
    assert_eq!(rt; fault, Some(CodecFault::Short { place: 30 }));
    Ok(())
}

/// Transaction 1.1 drew the number 1 of the memory engine and wrote nothing.
#[test]
fn a_record_without_writes(rt: HostRuntime) -> Result<(), Fail> {
    let commit = Commit {
        label: Label { session: 1, k: 1 },
        mem: Some(1),
        store: None,
        writes: List::new(rt.alloc()),
    };
    let mut out = Vec::new(rt.alloc());
    assert!(rt; put_record(&mut out, false, &commit).is_ok());
    assert_eq!(rt;
        out.as_slice(),
        [0, 1, 0, 0, 0, 1, 0, 0, 0, 0, 1, 0, 0, 0, 0].as_slice()
    );
    Ok(())
}
