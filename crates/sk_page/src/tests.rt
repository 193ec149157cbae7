ghost use Rattle.std.specs.Prelude.{◌<◌, length};

use super::*;
use std::test::*;

/// Puts the cell in the place of the one in the slot, if there is one.
fn replace(page: &mut Page, slot: u16, cell: &[u8]) -> Option<Result<(), Full>>
    requires { length cell.now < 4294967292 }
{
    if page.cell(slot).is_none() {
        return None;
    }
    Some(page.replace(slot, cell))
}

#[test]
fn cells_fill_a_page_lowest_slot_first(rt: HostRuntime) {
    let mut page = Page::new();
    let large = [7; 4084];
    assert_eq!(rt; page.insert(&large), Ok(0));
    assert_eq!(rt; page.insert(&[]), Err(Full { free: 0, need: 4 }));
    assert_eq!(rt; replace(&mut page, 0, b"one"), Some(Ok(())));
    assert_eq!(rt; page.insert(b"two"), Ok(1));
    assert_eq!(rt; page.insert(b"three"), Ok(2));
    page.remove(1);
    page.remove(9);
    assert_eq!(rt; replace(&mut page, 9, b"nine"), None);
    assert!(rt; page.cell(1).is_none());
    assert_eq!(rt; page.insert(b"four"), Ok(1));
    assert_eq!(rt; page.cell(0), Some(b"one".as_slice()));
    assert_eq!(rt; page.cell(1), Some(b"four".as_slice()));
    assert_eq!(rt; page.cell(2), Some(b"three".as_slice()));
    assert_eq!(rt;
        page.replace(2, &large),
        Err(Full {
            free: 4064,
            need: 4079
        })
    );
}
