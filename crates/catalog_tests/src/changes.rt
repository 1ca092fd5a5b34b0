//! Changes of a catalog, one after another.

use crate::making::{Change, listed, make_change};
use gx_catalog::Catalog;
use gx_chain::fetch_slots;
use gx_pages::MemoryPages;
use std::test::Fail;

// Behind each change the catalog in memory and the one that is loaded again list the same.
#[test]
fn changes_in_order(rt: HostRuntime) -> Result<(), Fail> {
    let alloc = rt.alloc();
    let mut pages = MemoryPages::new(alloc)?;
    let mut catalog = Catalog::load(alloc, &mut pages)?;
    assert_eq!(rt; listed(alloc, &catalog)?.as_str(), "|");
    for (wanted, list) in [
        (Change::AddTable(b"one"), "one=1/1 |"),
        (Change::AddTable(b"two"), "one=1/1 two=2/1 |"),
        (Change::AddIndex(2, b"b"), "one=1/1 two=2/1 | b=2+9/0"),
        (
            Change::AddTable(b"six"),
            "one=1/1 two=2/1 six=3/1 | b=2+9/0",
        ),
        (
            Change::AddIndex(1, b"a"),
            "one=1/1 two=2/1 six=3/1 | b=2+9/0 a=1+9/0",
        ),
        (
            Change::SetHeap(1, 300),
            "one=1/300 two=2/1 six=3/1 | b=2+9/0 a=1+9/0",
        ),
        (
            Change::SetNulls(b"b", 70000),
            "one=1/300 two=2/1 six=3/1 | b=2+9/70000 a=1+9/0",
        ),
        (
            Change::DropIndex(b"b"),
            "one=1/300 two=2/1 six=3/1 | a=1+9/0",
        ),
        (Change::DropTable(2), "one=1/300 six=3/1 | a=1+9/0"),
        // The least number that no table has is 2 again.
        (
            Change::AddTable(b"ten"),
            "one=1/300 six=3/1 ten=2/1 | a=1+9/0",
        ),
        (
            Change::AddTable(b""),
            "one=1/300 six=3/1 ten=2/1 =4/1 | a=1+9/0",
        ),
    ] {
        assert!(rt; make_change(alloc, &mut pages, &mut catalog, &wanted)?);
        assert_eq!(rt; listed(alloc, &catalog)?.as_str(), list);
        let again = Catalog::load(alloc, &mut pages)?;
        assert_eq!(rt; listed(alloc, &again)?.as_str(), list);
    }
    Ok(())
}

#[test]
fn found_and_not(rt: HostRuntime) -> Result<(), Fail> {
    let alloc = rt.alloc();
    let mut pages = MemoryPages::new(alloc)?;
    let mut catalog = Catalog::load(alloc, &mut pages)?;
    assert_eq!(rt; catalog.free_number(), 1);
    for wanted in [
        Change::AddTable(b"one"),
        Change::AddTable(b"two"),
        Change::AddIndex(2, b"one"),
        Change::DropTable(1),
    ] {
        assert!(rt; make_change(alloc, &mut pages, &mut catalog, &wanted)?);
    }
    assert_eq!(rt; catalog.table(b"two").map(|table| table.number), Some(2));
    assert_eq!(rt; catalog.table(b"one").map(|table| table.number), None);
    assert_eq!(rt; catalog.table(b"Two").map(|table| table.number), None);
    assert_eq!(rt;
        catalog.table_numbered(2).map(|table| table.number),
        Some(2)
    );
    assert_eq!(rt; catalog.table_numbered(1).map(|table| table.number), None);
    assert_eq!(rt; catalog.index(b"one").map(|index| index.table), Some(2));
    assert_eq!(rt; catalog.index(b"two").map(|index| index.table), None);
    assert_eq!(rt; catalog.free_number(), 1);
    Ok(())
}

// The items as docs/file-format.md has them.
#[test]
fn items_byte_by_byte(rt: HostRuntime) -> Result<(), Fail> {
    let alloc = rt.alloc();
    let mut pages = MemoryPages::new(alloc)?;
    let mut catalog = Catalog::load(alloc, &mut pages)?;
    for wanted in [
        Change::AddTable(b"t"),
        Change::SetHeap(1, 0x0102_0304_0506),
        Change::AddIndex(1, b"tx"),
        Change::SetNulls(b"tx", 0x0a0b),
    ] {
        assert!(rt; make_change(alloc, &mut pages, &mut catalog, &wanted)?);
    }
    let slots = fetch_slots(&mut pages, 1, 3)?;
    let table = [
        1, 1, 0, 0, 0, 6, 5, 4, 3, 2, 1, 0, 0, 2, 0, 0, 0, 0, 0, 0, 0, 2, 0, 0, 0, 0, 0, 0, 0, 1,
        1, 1, b'a', 1, b't',
    ];
    let index = [
        3, 1, 0, 0, 0, 0, 1, 0, 0, 9, 0, 0, 0, 0, 0, 0, 0, 11, 10, 0, 0, 0, 0, 0, 0, 2, b't', b'x',
    ];
    assert_eq!(rt; slots.count(), 2);
    assert!(rt; slots.item(0) == Some(&table[..]));
    assert!(rt; slots.item(1) == Some(&index[..]));
    assert_eq!(rt; slots.next(), 0);
    Ok(())
}
