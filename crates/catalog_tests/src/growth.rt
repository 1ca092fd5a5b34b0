//! Catalogs over several pages.

use crate::making::{Change, add_table, make_change};
use gx_catalog::Catalog;
use gx_chain::Chain;
use gx_pages::MemoryPages;
use std::alloc::Global;
use std::test::Fail;

// How many pages the catalog stands on.
fn pages_of(alloc: Global, pages: &mut MemoryPages) -> Result<usize, Fail> {
    let (_, feet, _) = Chain::open(alloc, pages, 3, 1)?;
    Ok(feet.len())
}

// The numbers of the tables.
fn numbers_of(alloc: Global, catalog: &Catalog) -> Result<Vec<u32>, Fail> {
    let mut numbers = Vec::new(alloc);
    for table in catalog.tables() {
        numbers.push(table.number)?;
    }
    Ok(numbers)
}

// Whether the numbers are those of these stretches, one behind another.
fn are(numbers: &[u32], stretches: &[(u32, u32)]) -> bool {
    let mut rest = numbers;
    for (first, last) in stretches {
        for number in *first..=*last {
            match rest.split_first() {
                Some((found, more)) if *found == number => rest = more,
                _ => return false,
            }
        }
    }
    rest.is_empty()
}

// An item of a table with one column `a` and a name of 63 bytes has 97 bytes and takes 4 more in its page's table, so 80 of
// them fill a page.
#[test]
fn tables_over_pages(rt: HostRuntime) -> Result<(), Fail> {
    let alloc = rt.alloc();
    let mut pages = MemoryPages::new(alloc)?;
    let mut catalog = Catalog::load(alloc, &mut pages)?;
    for number in 1..171u32 {
        let name = format!(in alloc; "{number:0>63}")?;
        assert!(rt; add_table(alloc, &mut pages, &mut catalog, name.as_bytes())?);
        assert_eq!(rt; pages_of(alloc, &mut pages)?, (number as usize + 79) / 80);
    }
    assert!(rt; are(numbers_of(alloc, &catalog)?.as_slice(), &[(1, 170)]));
    // The page in the middle goes with its last table, the first page stays, and the last one goes.
    for (first, last, feet, left) in [
        (81, 159, 3, &[(1, 80), (160, 170)][..]),
        (160, 160, 2, &[(1, 80), (161, 170)]),
        (1, 80, 2, &[(161, 170)]),
        (161, 170, 1, &[]),
    ] {
        for number in first..=last {
            assert!(rt; make_change(alloc, &mut pages, &mut catalog, &Change::DropTable(number))?);
        }
        assert_eq!(rt; pages_of(alloc, &mut pages)?, feet);
        assert!(rt; are(numbers_of(alloc, &catalog)?.as_slice(), left));
        let again = Catalog::load(alloc, &mut pages)?;
        assert!(rt; are(numbers_of(alloc, &again)?.as_slice(), left));
    }
    Ok(())
}

// There may be 256 tables, and 32 indexes on each.
#[test]
fn as_many_as_may_be(rt: HostRuntime) -> Result<(), Fail> {
    let alloc = rt.alloc();
    let mut pages = MemoryPages::new(alloc)?;
    let mut catalog = Catalog::load(alloc, &mut pages)?;
    for number in 0..300 {
        let name = format!(in alloc; "t{number}")?;
        let added = add_table(alloc, &mut pages, &mut catalog, name.as_bytes())?;
        assert_eq!(rt; added, number < 256);
    }
    for number in 0..40 {
        let name = format!(in alloc; "x{number}")?;
        let wanted = Change::AddIndex(7, name.as_bytes());
        assert_eq!(rt;
            make_change(alloc, &mut pages, &mut catalog, &wanted)?,
            number < 32
        );
    }
    let again = Catalog::load(alloc, &mut pages)?;
    assert_eq!(rt; (again.tables().len(), again.indexes().len()), (256, 32));
    assert_eq!(rt; again.free_number(), 257);
    Ok(())
}
