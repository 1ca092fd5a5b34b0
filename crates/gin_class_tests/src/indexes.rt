//! Indexes of 2,000 seeded values over pages in memory: a search is the filter of the candidates, before and after half of the rows
//! were removed.

ghost use Rattle.std.specs.Prelude.{◌≡◌, IfOk, MatchOption};

use crate::candidates::is_candidate;
use gx_bytes::ValueError;
use gx_gin::GinClass;
use gx_gin_arrays::{ArrayClass, GinIntClass};
use gx_gin_documents::{JsonbClass, JsonbPathClass};
use gx_gin_maps::GinHstoreClass;
use gx_gin_scan::Gin;
use gx_pages::{Bitmap, MemoryPages, PageError, RowRef};
use std::alloc::Global;
use std::test::Fail;

const ROWS: u32 = 2000;

/// A class with a value for each number, and some queries.
pub trait Seeded: GinClass {
    /// The value of a row with this number.
    fn value(&self, alloc: Global, number: u32) -> Result<Self::Value, ValueError>
        requires { Self.valid self.now }
        ensures { IfOk result (Self.valid_value self.now) };

    /// The query at this place, if there are so many.
    fn query(&self, alloc: Global, place: usize) -> Result<Option<Self::Query>, ValueError>
        requires { Self.valid self.now }
        ensures { IfOk result (λ found. MatchOption found (Unit {0}) (Self.valid_query self.now)) };
}

fn row_of(number: u32) -> RowRef {
    RowRef {
        number: u64::from(number),
        page: 7,
        slot: 3,
    }
}

/// Inserts the row with this number.
fn insert<C: Seeded>(
    alloc: Global,
    pages: &mut MemoryPages,
    gin: &mut Gin<C>,
    number: u32,
) -> Result<(), PageError>
where
    C::Value: Drop,
    requires { C.valid gin.old.class }
    ensures { gin.new ≡ gin.old }
{
    let Ok(value) = gin.class.value(alloc, number) else {
        return Err(PageError::Memory);
    };
    gin.insert(alloc, pages, row_of(number), &value)
}

/// Whether a row's value is a candidate of the query.
fn passes<C: Seeded>(
    alloc: Global,
    class: &C,
    number: u32,
    query: &C::Query,
) -> Result<bool, PageError>
where
    C::Value: Drop,
    requires class { C.valid class.now }
    requires query { C.valid_query class.now query.now }
{
    let Ok(value) = class.value(alloc, number) else {
        return Err(PageError::Memory);
    };
    match is_candidate(alloc, class, &value, query) {
        Ok(is) => Ok(is),
        Err(_) => Err(PageError::Memory),
    }
}

/// How many rows a search finds, if they are the candidates, by rising numbers; of even numbers only where `all` is given.
fn found<C: Seeded>(
    alloc: Global,
    pages: &mut MemoryPages,
    gin: &Gin<C>,
    query: &C::Query,
    all: bool,
) -> Result<Option<u32>, PageError>
where
    C::Value: Drop,
    requires class { C.valid gin.now.class }
    requires query { C.valid_query gin.now.class query.now }
{
    let rows = gin.search(alloc, pages, query)?;
    let mut found = rows.as_slice().iter();
    let mut count = 0u32;
    for number in 0..ROWS {
        let wanted = (all || number % 2 == 1) && passes(alloc, &gin.class, number, query)?;
        if wanted {
            if found.next().copied() != Some(row_of(number)) {
                return Ok(None);
            }
            count = count.saturating_add(1);
        }
    }
    match found.next() {
        None => Ok(Some(count)),
        Some(_) => Ok(None),
    }
}

/// The place of the first query whose search isn't that filter, or finds nothing at all.
fn first_wrong<C: Seeded>(
    alloc: Global,
    pages: &mut MemoryPages,
    gin: &Gin<C>,
    all: bool,
) -> Result<Option<usize>, PageError>
where
    C::Value: Drop,
    C::Query: Drop,
    requires { C.valid gin.now.class }
{
    for place in 0..64 {
        let Ok(made) = gin.class.query(alloc, place) else {
            return Err(PageError::Memory);
        };
        let Some(query) = made else {
            return Ok(None);
        };
        match found(alloc, pages, gin, &query, all)? {
            None | Some(0) => return Ok(Some(place)),
            Some(_) => {}
        }
    }
    Ok(None)
}

/// The places of the first wrong queries before and after the rows of even numbers were removed.
fn wrong<C: Seeded>(alloc: Global, class: C) -> Result<(Option<usize>, Option<usize>), Fail>
where
    C::Value: Drop,
    C::Query: Drop,
    requires { C.valid class }
{
    let mut pages = MemoryPages::new(alloc)?;
    let mut gin = Gin::create(class, &mut pages)?;
    let mut even = Bitmap::new(alloc);
    for number in 0..ROWS {
        insert(alloc, &mut pages, &mut gin, number)?;
        let row = row_of(number);
        if number % 2 == 0 && even.is_below(row.number) {
            even.push(row)?;
        }
    }
    let before = first_wrong(alloc, &mut pages, &gin, true)?;
    gin.remove_rows(alloc, &mut pages, &even)?;
    let after = first_wrong(alloc, &mut pages, &gin, false)?;
    gin.drop_all(alloc, &mut pages)?;
    Ok((before, after))
}

#[test]
fn indexes_of_arrays(rt: HostRuntime) -> Result<(), Fail> {
    assert_eq!(rt; wrong(rt.alloc(), ArrayClass)?, (None, None));
    assert_eq!(rt; wrong(rt.alloc(), GinIntClass)?, (None, None));
    Ok(())
}

#[test]
fn indexes_of_maps(rt: HostRuntime) -> Result<(), Fail> {
    assert_eq!(rt; wrong(rt.alloc(), GinHstoreClass)?, (None, None));
    Ok(())
}

#[test]
fn indexes_of_documents(rt: HostRuntime) -> Result<(), Fail> {
    assert_eq!(rt; wrong(rt.alloc(), JsonbClass)?, (None, None));
    assert_eq!(rt; wrong(rt.alloc(), JsonbPathClass)?, (None, None));
    Ok(())
}
