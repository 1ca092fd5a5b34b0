//! Items that a catalog may have, and items that it may not.

use crate::laying::{Letters, index_item, lay, loaded, table_item};
use gx_bytes::Bytes;
use gx_pages::MemoryPages;
use std::alloc::Global;
use std::test::Fail;

// What is loaded from these items, and whether few enough pages were fetched.
fn load_items(alloc: Global, items: &[Bytes]) -> Result<(Option<(usize, usize)>, bool), Fail> {
    let mut pages = MemoryPages::new(alloc)?;
    let count = lay(&mut pages, items)?;
    let before = pages.fetches();
    let found = loaded(alloc, &mut pages)?;
    let few = pages.fetches().saturating_sub(before) <= count.saturating_mul(4);
    Ok((found, few))
}

// A table `t` with number 1 and a column of type int4, one `s` with number 2 and two columns of type int4[], and an item.
fn load_behind(alloc: Global, item: Bytes) -> Result<(Option<(usize, usize)>, bool), Fail> {
    let one = Letters {
        kind: 1,
        letters: b"a",
        often: 1,
    };
    let two = Letters {
        kind: 14,
        letters: b"ab",
        often: 1,
    };
    let mut items = Vec::new(alloc);
    items.push(table_item(alloc, 1, 1, &one, b"t")?)?;
    items.push(table_item(alloc, 2, 1, &two, b"s")?)?;
    items.push(item)?;
    load_items(alloc, items.as_slice())
}

#[test]
fn tables(rt: HostRuntime) -> Result<(), Fail> {
    let alloc = rt.alloc();
    let long = [b'n'; 64];
    let letters = b"abcdefghijklmnopqrstuvwxyzABCDEFG";
    for (why, number, next, kind, letters, often, name, sound) in [
        ("sound", 3, 1, 1, &b"ab"[..], 1, &b"u"[..], true),
        ("no column", 3, 1, 1, b"", 1, b"u", true),
        ("the last type", 3, 1, 14, b"a", 1, b"u", true),
        ("long names", 3, 1, 1, b"ab", 63, &long[..63], true),
        ("many rows", 3, 1 << 48, 1, b"a", 1, b"u", true),
        ("many columns", 3, 1, 1, &letters[..32], 1, b"u", true),
        ("no next row number", 3, 0, 1, b"a", 1, b"u", false),
        ("too many rows", 3, (1 << 48) + 1, 1, b"a", 1, b"u", false),
        ("no type", 3, 1, 0, b"a", 1, b"u", false),
        ("no such type", 3, 1, 15, b"a", 1, b"u", false),
        ("too many columns", 3, 1, 1, &letters[..], 1, b"u", false),
        ("a column twice", 3, 1, 1, b"aba", 1, b"u", false),
        ("a column's long name", 3, 1, 1, b"a", 64, b"u", false),
        ("a long name", 3, 1, 1, b"a", 1, &long[..], false),
        ("a name twice", 3, 1, 1, b"a", 1, b"t", false),
        ("a number twice", 2, 1, 1, b"a", 1, b"u", false),
    ] {
        let columns = Letters {
            kind,
            letters,
            often,
        };
        let item = table_item(alloc, number, next, &columns, name)?;
        let wanted = if sound { Some((3, 0)) } else { None };
        assert_eq!(rt; load_behind(alloc, item)?, (wanted, true), "{why}");
    }
    Ok(())
}

#[test]
fn indexes(rt: HostRuntime) -> Result<(), Fail> {
    let alloc = rt.alloc();
    let long = [b'n'; 64];
    for (why, table, column, class, parameter, name, sound) in [
        ("sound", 1, 0, 1, 0, &b"x"[..], true),
        ("intervals", 2, 1, 11, 200, b"x", true),
        ("a signature", 2, 0, 12, 252, b"x", true),
        ("a gin class", 2, 0, 13, 0, b"x", true),
        ("a table's name", 1, 0, 1, 0, b"t", true),
        ("a long name", 1, 0, 1, 0, &long[..63], true),
        ("no such table", 3, 0, 1, 0, b"x", false),
        ("no such column", 1, 1, 1, 0, b"x", false),
        ("no class", 1, 0, 0, 0, b"x", false),
        ("no such class", 1, 0, 18, 0, b"x", false),
        ("a class of another type", 1, 0, 2, 0, b"x", false),
        ("a parameter of none", 1, 0, 1, 8, b"x", false),
        ("no interval", 2, 0, 11, 0, b"x", false),
        ("too many intervals", 2, 0, 11, 201, b"x", false),
        ("no such signature", 2, 0, 12, 100, b"x", false),
        ("a name that is too long", 1, 0, 1, 0, &long[..], false),
    ] {
        let item = index_item(alloc, table, column, class, parameter, name)?;
        let wanted = if sound { Some((2, 1)) } else { None };
        assert_eq!(rt; load_behind(alloc, item)?, (wanted, true), "{why}");
    }
    Ok(())
}

#[test]
fn other_bytes(rt: HostRuntime) -> Result<(), Fail> {
    let alloc = rt.alloc();
    let table = [
        1, 3, 0, 0, 0, 1, 0, 0, 0, 0, 0, 0, 0, 2, 0, 0, 0, 0, 0, 0, 0, 2, 0, 0, 0, 0, 0, 0, 0, 1,
        1, 1, b'a', 1, b'u', 0,
    ];
    let index = [
        3, 1, 0, 0, 0, 0, 1, 0, 0, 9, 0, 0, 0, 0, 0, 0, 0, 0, 0, 0, 0, 0, 0, 0, 0, 1, b'x', 0,
    ];
    for (why, bytes, sound) in [
        ("a table", &table[..35], Some((3, 0))),
        ("a table and a byte", &table[..], None),
        ("a table without its name's end", &table[..34], None),
        ("a table without its name", &table[..33], None),
        ("a table without its columns", &table[..29], None),
        ("an index", &index[..27], Some((2, 1))),
        ("an index and a byte", &index[..], None),
        ("an index without its name's end", &index[..26], None),
        ("an index without its roots", &index[..9], None),
        ("no byte", &[], None),
        ("a byte 1 alone", &[1], None),
        ("a byte 3 alone", &[3], None),
        ("another kind of item", &[4, 1, 0, 0, 0], None),
    ] {
        let item = Bytes::from_slice(alloc, bytes)?;
        assert_eq!(rt; load_behind(alloc, item)?, (sound, true), "{why}");
    }
    Ok(())
}

// An index of format 1, without the root of its NULL rows, and names whose length is spelled in two bytes.
#[test]
fn other_spellings(rt: HostRuntime) -> Result<(), Fail> {
    let alloc = rt.alloc();
    for (why, bytes) in [
        (
            "an index of format 1",
            &[2, 1, 0, 0, 0, 0, 1, 0, 0, 9, 0, 0, 0, 0, 0, 0, 0, 1, b'x'][..],
        ),
        (
            "an index's name",
            &[
                3, 1, 0, 0, 0, 0, 1, 0, 0, 9, 0, 0, 0, 0, 0, 0, 0, 0, 0, 0, 0, 0, 0, 0, 0, 129, 0,
                b'x',
            ],
        ),
        (
            "a table's name",
            &[
                1, 3, 0, 0, 0, 1, 0, 0, 0, 0, 0, 0, 0, 2, 0, 0, 0, 0, 0, 0, 0, 2, 0, 0, 0, 0, 0, 0,
                0, 0, 129, 0, b'u',
            ],
        ),
    ] {
        let item = Bytes::from_slice(alloc, bytes)?;
        assert_eq!(rt; load_behind(alloc, item)?, (None, true), "{why}");
    }
    Ok(())
}

// As many tables, and as many indexes on the first of them; their names are their numbers in four bytes.
#[test]
fn how_many(rt: HostRuntime) -> Result<(), Fail> {
    let alloc = rt.alloc();
    let column = Letters {
        kind: 1,
        letters: b"a",
        often: 1,
    };
    for (tables, indexes, same, sound) in [
        (256u32, 32u32, false, true),
        (257, 0, false, false),
        (1, 33, false, false),
        (1, 2, true, false),
    ] {
        let mut items = Vec::new(alloc);
        for number in 0..tables {
            items.push(table_item(alloc, number, 1, &column, &number.to_le_bytes())?)?;
        }
        for number in 0..indexes {
            let name = if same {
                [b'x'; 4]
            } else {
                number.to_le_bytes()
            };
            items.push(index_item(alloc, 0, 0, 1, 0, &name)?)?;
        }
        let wanted = if sound { Some((256, 32)) } else { None };
        assert_eq!(rt; load_items(alloc, items.as_slice())?, (wanted, true));
    }
    Ok(())
}
