//! Trees of 2,000 seeded values over pages in memory: a search is the filter of the leaf tests, before and after half of the
//! rows were removed.

ghost use Rattle.std.specs.Prelude.{◌≡◌, OnOk, IfOk};

use crate::seeded::Seeded;
use gx_class_inet::InetClass;
use gx_class_intset::IntClass;
use gx_class_ltree::LtreeClass;
use gx_class_range::RangeClass;
use gx_class_sets::{HstoreClass, IntbigClass};
use gx_gist::{GistClass, Test};
use gx_gist_tree::Tree;
use gx_pages::{Bitmap, MemoryPages, PageError, RowRef};
use std::alloc::Global;
use std::test::Fail;

const ROWS: u32 = 2000;

fn row_of(number: u32) -> RowRef {
    RowRef {
        number: u64::from(number),
        page: 7,
        slot: 3,
    }
}

/// Inserts the row with this number.
fn insert<C: Seeded>(
    alloc: Global,
    pages: &mut MemoryPages,
    tree: &mut Tree<C>,
    number: u32,
) -> Result<(), PageError>
where
    C::Value: Drop,
    requires { C.valid tree.old.class }
    ensures { tree.new ≡ tree.old }
{
    let value = tree.class.value(alloc, number)?;
    let Ok(key) = tree.class.leaf(alloc, &value) else {
        return Err(PageError::Memory);
    };
    tree.insert(alloc, pages, row_of(number), &key)
}

/// Whether the leaf key of a row rules the query out.
fn passes<C: Seeded>(
    alloc: Global,
    class: &C,
    number: u32,
    query: &C::Query,
) -> Result<bool, PageError>
where
    C::Value: Drop,
    requires class { C.valid class.now }
    requires query { C.valid_query class.now query.now }
{
    let value = class.value(alloc, number)?;
    let Ok(key) = class.leaf(alloc, &value) else {
        return Err(PageError::Memory);
    };
    let Ok(test) = class.test(alloc, &key, true, query) else {
        return Err(PageError::Memory);
    };
    Ok(test != Test::No)
}

/// How many rows a search finds, if they are those whose leaf key passes, by rising numbers; of even numbers only where `all`
/// is given.
fn found<C: Seeded>(
    alloc: Global,
    pages: &mut MemoryPages,
    tree: &Tree<C>,
    query: &C::Query,
    all: bool,
) -> Result<Option<u32>, PageError>
where
    C::Value: Drop,
    requires class { C.valid tree.now.class }
    requires query { C.valid_query tree.now.class query.now }
{
    let rows = tree.search(alloc, pages, query)?;
    let mut found = rows.as_slice().iter();
    let mut count = 0u32;
    for number in 0..ROWS {
        let wanted = (all || number % 2 == 1) && passes(alloc, &tree.class, number, query)?;
        if wanted {
            if found.next().copied() != Some(row_of(number)) {
                return Ok(None);
            }
            count = count.saturating_add(1);
        }
    }
    match found.next() {
        None => Ok(Some(count)),
        Some(_) => Ok(None),
    }
}

/// The place of the first query whose search isn't that filter, or finds nothing at all.
fn first_wrong<C: Seeded>(
    alloc: Global,
    pages: &mut MemoryPages,
    tree: &Tree<C>,
    all: bool,
) -> Result<Option<usize>, PageError>
where
    C::Value: Drop,
    C::Query: Drop,
    requires { C.valid tree.now.class }
{
    for place in 0..64 {
        let Some(query) = tree.class.query(alloc, place)? else {
            return Ok(None);
        };
        match found(alloc, pages, tree, &query, all)? {
            None | Some(0) => return Ok(Some(place)),
            Some(_) => {}
        }
    }
    Ok(None)
}

/// The places of the first wrong queries before and after the rows of even numbers were removed.
fn wrong<C: Seeded>(alloc: Global, class: C) -> Result<(Option<usize>, Option<usize>), Fail>
where
    C::Value: Drop,
    C::Query: Drop,
    requires { C.valid class }
{
    let mut pages = MemoryPages::new(alloc)?;
    let mut tree = Tree::create(class, &mut pages)?;
    let mut even = Bitmap::new(alloc);
    for number in 0..ROWS {
        insert(alloc, &mut pages, &mut tree, number)?;
        let row = row_of(number);
        if number % 2 == 0 && even.is_below(row.number) {
            even.push(row)?;
        }
    }
    let before = first_wrong(alloc, &mut pages, &tree, true)?;
    tree.remove_rows(alloc, &mut pages, &even)?;
    let after = first_wrong(alloc, &mut pages, &tree, false)?;
    tree.drop_all(&mut pages)?;
    Ok((before, after))
}

#[test]
fn maps(rt: HostRuntime) -> Result<(), Fail> {
    assert_eq!(rt; wrong(rt.alloc(), HstoreClass::<16>)?, (None, None));
    Ok(())
}

#[test]
fn signatures_of_numbers(rt: HostRuntime) -> Result<(), Fail> {
    assert_eq!(rt; wrong(rt.alloc(), IntbigClass::<252>)?, (None, None));
    Ok(())
}

#[test]
fn intervals_of_numbers(rt: HostRuntime) -> Result<(), Fail> {
    assert_eq!(rt; wrong(rt.alloc(), IntClass { numranges: 4 })?, (None, None));
    Ok(())
}

#[test]
fn label_paths(rt: HostRuntime) -> Result<(), Fail> {
    assert_eq!(rt; wrong(rt.alloc(), LtreeClass::<8>)?, (None, None));
    Ok(())
}

#[test]
fn ranges(rt: HostRuntime) -> Result<(), Fail> {
    assert_eq!(rt; wrong(rt.alloc(), RangeClass)?, (None, None));
    Ok(())
}

#[test]
fn networks(rt: HostRuntime) -> Result<(), Fail> {
    assert_eq!(rt; wrong(rt.alloc(), InetClass)?, (None, None));
    Ok(())
}
