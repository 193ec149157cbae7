//! A group is appended, the root is read, and an image is written.
ghost use Rattle.std.specs.Prelude.{◌≡◌};

use super::*;
use sk_device::{Device, MemDevice};
use sk_model::Point;
use sk_rows::{Catalog, Column, List, Sort, Table, Txt};
use std::alloc::Global;
use std::test::*;

fn ends(store_end: u32, gate: u32) -> Ends
    ensures { result ≡ record { set = 0; store_end = store_end; gate = gate } }
{
    Ends {
        set: 0,
        store_end,
        gate,
    }
}

#[test]
fn a_group_is_appended_and_its_gate_opened(rt: HostRuntime) -> Result<(), Fail> {
    let alloc = rt.alloc();
    let mut device = MemDevice::new(alloc, Vec::new(alloc), Vec::new(alloc));
    assert!(rt; device.write(2, 0, &[0]).is_ok());
    let group = group_text(alloc, &[7, 8]).ok().ok_or("a group")?;
    assert_eq!(rt;
        append_store(&mut device, &ends(0, 0), 100, &[1, 2, 3]),
        Ok(3)
    );
    assert_eq!(rt; append_anchor(&mut device, &ends(0, 0), 100, &group), Ok(8));
    assert_eq!(rt; open_gate(&mut device, &ends(0, 0)), Ok(()));
    assert_eq!(rt; device.bytes(1), [1, 2, 3].as_slice());
    assert_eq!(rt; device.bytes(2), [1, 0, 0, 0, 2, 7, 8, 0].as_slice());
    let full = append_store(&mut device, &ends(3, 0), 4, &[1, 2]);
    assert_eq!(rt; full, Err(LogFault::LogFull { length: 5 }));
    Ok(())
}

#[test]
fn the_open_entry_with_the_greater_sequence_holds(rt: HostRuntime) -> Result<(), Fail> {
    let alloc = rt.alloc();
    let cut = Point {
        a: 2,
        b: 1,
        commit: false,
    };
    let mut root = Vec::new(alloc);
    root.push(1)?;
    let first = entry_text(alloc, 0, 1, &cut, 66).ok().ok_or("an entry")?;
    root.extend_from_slice(&first)?;
    assert_eq!(rt; holding(&root), Ok(Some(0)));
    let entry = entry_at(&root, 0);
    let want = Root {
        set: 0,
        sequence: 1,
        cut,
        size: 66,
    };
    assert_eq!(rt; entry, Ok(want));
    root.push(1)?;
    let second = entry_text(alloc, 1, 2, &cut, 66).ok().ok_or("an entry")?;
    root.extend_from_slice(&second)?;
    assert_eq!(rt; holding(&root), Ok(Some(24)));
    Ok(())
}

fn txt(alloc: Global, bytes: &[u8]) -> Result<Txt, Fail> {
    Ok(
        Txt::from_vec(Vec::from_slice(alloc, bytes)?)
            .ok()
            .ok_or("a text")?,
    )
}

/// A table with an INT key `id` and an INT `v`.
fn table(alloc: Global, name: &[u8], store: bool) -> Result<Table, Fail> {
    let mut columns = List::new(alloc);
    let key = txt(alloc, b"id")?;
    columns.push(Column {
        name: key,
        sort: Sort::Int,
    })?;
    let other = txt(alloc, b"v")?;
    columns.push(Column {
        name: other,
        sort: Sort::Int,
    })?;
    Ok(Table {
        name: txt(alloc, name)?,
        store,
        columns,
    })
}

/// The tables `a`, of the memory engine, and `c`, of the storage engine, and no rows.
const IMAGE: [u8; 32] = [
    0, 2, 1, 97, 0, 2, 2, 105, 100, 0, 1, 118, 0, 1, 99, 1, 2, 2, 105, 100, 0, 1, 118, 0, 0, 0, 0,
    0, 0, 0, 0, 0,
];

#[test]
fn an_image_without_rows_is_written(rt: HostRuntime) -> Result<(), Fail> {
    let alloc = rt.alloc();
    let mut catalog = Catalog::new(alloc);
    let first = table(alloc, b"a", false)?;
    catalog.add(first).ok().ok_or("the first table")?;
    let second = table(alloc, b"c", true)?;
    catalog.add(second).ok().ok_or("the second table")?;
    let image = empty_image(alloc, &catalog).ok().ok_or("an image")?;
    assert_eq!(rt; image.as_slice(), IMAGE.as_slice());
    Ok(())
}
