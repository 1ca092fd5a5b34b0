//! Pages that are no chain of a catalog.

use crate::laying::{CATALOG, is_broken, loaded, put};
use crate::making::{Change, listed, make_change};
use gx_catalog::Catalog;
use gx_pages::{MemoryPages, Pages};
use gx_slot::SlotPage;
use std::test::Fail;

// Pages without items from page 1 on, each of a kind and a level, and with a page behind it.
fn lay_pages(pages: &mut MemoryPages, laid: &[(u8, u8, u64)]) -> Result<(), Fail> {
    let mut page = 1;
    for (kind, level, next) in laid {
        if page > 1 {
            page = pages.take()?;
        }
        let mut slots = SlotPage::new(*kind, *level);
        slots.set_next(*next);
        put(pages, page, &slots)?;
        page = 2;
    }
    Ok(())
}

// Each is found broken with at most four times as many fetches as there are different pages.
#[test]
fn no_chains(rt: HostRuntime) -> Result<(), Fail> {
    let alloc = rt.alloc();
    for (why, laid, sound) in [
        ("one page", &[(3, 0, 0)][..], true),
        ("three pages", &[(3, 0, 2), (3, 0, 3), (3, 0, 0)], true),
        ("a heap page", &[(2, 0, 0)], false),
        ("a free page", &[(7, 0, 0)], false),
        ("an upper page", &[(3, 1, 0)], false),
        ("no page behind it", &[(3, 0, 2)], false),
        ("far away", &[(3, 0, 1 << 63)], false),
        ("a heap page behind it", &[(3, 0, 2), (2, 0, 0)], false),
        ("an upper page behind it", &[(3, 0, 2), (3, 1, 0)], false),
        ("round by one", &[(3, 0, 1)], false),
        ("round by two", &[(3, 0, 2), (3, 0, 1)], false),
        (
            "round by three behind two",
            &[(3, 0, 2), (3, 0, 3), (3, 0, 4), (3, 0, 5), (3, 0, 3)],
            false,
        ),
        (
            "round by one behind four",
            &[(3, 0, 2), (3, 0, 3), (3, 0, 4), (3, 0, 5), (3, 0, 5)],
            false,
        ),
    ] {
        let mut pages = MemoryPages::new(alloc)?;
        lay_pages(&mut pages, laid)?;
        let before = pages.fetches();
        let wanted = if sound { Some((0, 0)) } else { None };
        assert_eq!(rt; loaded(alloc, &mut pages)?, wanted, "{why}");
        let fetches = pages.fetches().saturating_sub(before);
        assert!(rt; fetches <= (laid.len() as u64).saturating_mul(4), "{why}");
    }
    Ok(())
}

// A page of zeros is none of a catalog.
#[test]
fn zeros(rt: HostRuntime) -> Result<(), Fail> {
    let alloc = rt.alloc();
    let mut pages = MemoryPages::new(alloc)?;
    let taken = pages.take()?;
    let mut slots = SlotPage::new(CATALOG, 0);
    slots.set_next(taken);
    put(&mut pages, 1, &slots)?;
    assert_eq!(rt; loaded(alloc, &mut pages)?, None);
    Ok(())
}

// The pages are changed behind a catalog's back: no change of it is made then, and the catalog in memory stays.
#[test]
fn changes_of_other_pages(rt: HostRuntime) -> Result<(), Fail> {
    let alloc = rt.alloc();
    let mut pages = MemoryPages::new(alloc)?;
    let mut catalog = Catalog::load(alloc, &mut pages)?;
    for wanted in [
        Change::AddTable(b"t"),
        Change::AddTable(b"s"),
        Change::AddIndex(1, b"x"),
    ] {
        assert!(rt; make_change(alloc, &mut pages, &mut catalog, &wanted)?);
    }
    let list = listed(alloc, &catalog)?;
    for (kind, next) in [(CATALOG, 0), (CATALOG, 1), (CATALOG, 2), (2, 0)] {
        let mut slots = SlotPage::new(kind, 0);
        slots.set_next(next);
        put(&mut pages, 1, &slots)?;
        for wanted in [
            Change::SetHeap(1, 2),
            Change::SetNulls(b"x", 5),
            Change::DropTable(2),
            Change::DropIndex(b"x"),
        ] {
            let before = pages.fetches();
            let answer = make_change(alloc, &mut pages, &mut catalog, &wanted);
            assert!(rt; answer.is_err_and(|error| is_broken(&error)));
            assert!(rt; pages.fetches().saturating_sub(before) <= 8);
            assert_eq!(rt; listed(alloc, &catalog)?, list);
        }
    }
    Ok(())
}
