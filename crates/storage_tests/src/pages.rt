//! The pages of an empty database by hand, each call once, and what is broken.

ghost use Rattle.std.specs.Prelude.{◌≡◌, ◌<◌, false};

use gx_pages::{
    Bitmap, MemoryPages, Page, PageError, Pages, RowRef, Rows, Steps, Store, empty_catalog,
    free_page, header_page, lacks_none, next_free, set_first_free,
};
use std::alloc::{AllocError, Global};
use std::marker::Brand;
use std::sync::ledger::{Blank, Ledger};
use std::test::Fail;

// A page of zeros but for these bytes, from the first on.
fn page_of(bytes: &[u8]) -> Page {
    let mut page = Page::zero();
    for (into, byte) in page.bytes_mut().iter_mut().zip(bytes.iter()) {
        *into = *byte;
    }
    page
}

#[test]
fn pages_by_hand(rt: HostRuntime) -> Result<(), Fail> {
    let header = b"PGIX\x02\0\0\0\x04\x03\x02\x01\0\0\0\0\0\0\0\0\0\0\0\0\x01";
    assert_eq!(rt;
        header_page(16909060).bytes() == page_of(header).bytes(),
        true
    );
    let catalog = b"\x03\0\0\0\0\x20";
    assert_eq!(rt; empty_catalog().bytes() == page_of(catalog).bytes(), true);
    let free = b"\x07\0\0\0\0\x20\0\0\x02\x01";
    assert_eq!(rt; free_page(258).bytes() == page_of(free).bytes(), true);
    assert_eq!(rt; next_free(&page_of(free)), Some(258));
    for other in [
        b"\x06\0\0\0\0\x20".as_slice(),
        b"\x07\x01\0\0\0\x20",
        b"\x07\0\x01\0\0\x20",
        b"\x07\0\0\0\0\x1f",
        b"\x07\0\0\0\0\x20\x01",
        b"\x07\0\0\0\0\x20\0\0\0\0\0\0\0\0\0\0\x01",
    ] {
        assert_eq!(rt; next_free(&page_of(other)), None);
    }
    Ok(())
}

// Takes two pages, writes the first, gives it back, and takes it again. Gives what was taken, and whether the page
// that was taken again was zeros.
fn take_and_give<P: Pages>(pages: &mut P) -> Result<([u64; 3], bool), PageError> {
    let mut read = Page::zero();
    let first = pages.take()?;
    let second = pages.take()?;
    pages.put(second, &page_of(b"\x02second"))?;
    pages.fetch(second, &mut read)?;
    let written = read.bytes() == page_of(b"\x02second").bytes();
    pages.give(second)?;
    let again = pages.take()?;
    pages.fetch(again, &mut read)?;
    Ok((
        [first, second, again],
        written && read.bytes() == Page::zero().bytes(),
    ))
}

#[test]
fn an_empty_database(rt: HostRuntime) -> Result<(), Fail> {
    let mut store = MemoryPages::new(rt.alloc())?;
    let mut read = Page::zero();
    store.fetch(0, &mut read)?;
    assert_eq!(rt; read.bytes() == header_page(2).bytes(), true);
    store.fetch(1, &mut read)?;
    assert_eq!(rt; read.bytes() == empty_catalog().bytes(), true);
    let past = Err(PageError::Broken {
        page: 2,
        expected: 1,
        found: 2,
    });
    assert_eq!(rt; store.fetch(2, &mut read), past);
    assert_eq!(rt; store.put(2, &read), past);
    assert_eq!(rt; take_and_give(&mut store)?, ([2, 3, 3], true));
    store.fetch(0, &mut read)?;
    assert_eq!(rt; read.bytes() == header_page(4).bytes(), true);
    assert_eq!(rt; store.fetches(), 6);
    lacks_none();
    Ok(())
}

// A store of four pages whose first free page is this one, with these bytes on page 2.
fn chained(alloc: Global, first: u64, second: Page) -> Result<MemoryPages, AllocError> {
    let mut header = header_page(4);
    set_first_free(&mut header, first);
    MemoryPages::with(alloc, &[header, empty_catalog(), second], 4)
}

#[test]
fn broken_chains(rt: HostRuntime) -> Result<(), Fail> {
    let broken = |page, expected, found| Err(PageError::Broken {
        page,
        expected,
        found,
    });
    let cases: [(u64, Page, Result<u64, PageError>, Result<u64, PageError>); 6] = [
        (0, free_page(0), Ok(4), Ok(5)),
        (2, free_page(2), Ok(2), broken(2, 7, 0)),
        (2, free_page(1), Ok(2), broken(1, 7, 3)),
        (2, free_page(4), Ok(2), broken(4, 3, 4)),
        (2, empty_catalog(), broken(2, 7, 3), broken(2, 7, 3)),
        (9, free_page(0), broken(9, 3, 9), broken(9, 3, 9)),
    ];
    for (first, second, one, two) in cases {
        let mut store = chained(rt.alloc(), first, second)?;
        assert_eq!(rt; store.take(), one);
        assert_eq!(rt; store.take(), two);
    }
    Ok(())
}

#[test]
fn the_last_page(rt: HostRuntime) -> Result<(), Fail> {
    let mut store = MemoryPages::with(rt.alloc(), &[header_page((1 << 50) - 1)], (1 << 50) - 1)?;
    let full = Err(PageError::PageSpace { pages: 1 << 50 });
    assert_eq!(rt; store.take(), Ok((1 << 50) - 1));
    assert_eq!(rt; store.take(), full);
    store.give((1 << 50) - 1)?;
    assert_eq!(rt; store.take(), Ok((1 << 50) - 1));
    let mut store = MemoryPages::with(rt.alloc(), &[header_page(1 << 50)], 1 << 50)?;
    assert_eq!(rt; store.take(), full);
    Ok(())
}

// Commits one page, and abandons a change of it and one page more. Gives the page's first byte before and after.
fn commit_and_abandon<S: Store>(store: &mut S) -> Result<(u8, u8), PageError>
    requires { S.spoiled store.old ≡ false }
{
    let mut read = Page::zero();
    store.begin();
    let page = store.take()?;
    store.put(page, &page_of(b"a"))?;
    store.reserve()?;
    store.commit()?;
    store.begin();
    store.put(page, &page_of(b"b"))?;
    store.take()?;
    store.fetch(page, &mut read)?;
    let before = read.bytes()[0];
    store.abandon();
    store.fetch(page, &mut read)?;
    Ok((before, read.bytes()[0]))
}

#[test]
fn units_of_changes(rt: HostRuntime) -> Result<(), Fail> {
    let mut store = MemoryPages::new(rt.alloc())?;
    assert_eq!(rt; commit_and_abandon(&mut store)?, (b'b', b'a'));
    assert_eq!(rt; store.take(), Ok(3));
    store.abandon();
    assert_eq!(rt; store.take(), Ok(3));
    Ok(())
}

fn stands_at(rows: &Rows, at: usize, row: RowRef, bytes: &[u8]) -> bool {
    match rows.get(at) {
        Some((found, found_bytes)) => found == row && found_bytes == bytes,
        None => false,
    }
}

#[test]
fn rows_by_number(rt: HostRuntime) -> Result<(), Fail> {
    let alloc = rt.alloc();
    let first = RowRef {
        number: 1,
        page: 2,
        slot: 3,
    };
    let second = RowRef {
        number: 9,
        page: 2,
        slot: 0,
    };
    let mut bitmap = Bitmap::new(alloc);
    bitmap.push(first)?;
    bitmap.push(second)?;
    assert_eq!(rt; bitmap.as_slice() == [first, second].as_slice(), true);
    let mut rows = Rows::new(alloc);
    rows.push(second, b"second")?;
    rows.push(first, b"")?;
    assert_eq!(rt; rows.len(), 2);
    assert_eq!(rt; stands_at(&rows, 0, second, b"second"), true);
    assert_eq!(rt; stands_at(&rows, 1, first, b""), true);
    assert_eq!(rt; rows.get(2).is_none(), true);
    Ok(())
}

fn two_steps<L: Ledger>(blank: Blank)
    requires name { blank.name ≡ L.name }
    requires parts { blank.parts ≡ L.parts }
    requires some { 0 < blank.parts }
{
    let mut steps = Steps::<L>::new(blank);
    steps.tick();
    steps.tick();
}

#[test]
fn steps_are_counted() {
    two_steps::<Brand>(Blank::new(1));
}
