//! An index of int4 values, of which some are NULL, over pages in memory.

ghost use Rattle.std.specs.Prelude.{◌≡◌, IfOk};
ghost use Rattle.gx_scalar.specs.declared.scalar.ScalarKind.TheVariants.{Int4};
ghost use Rattle.gx_scalar.specs.Values.{IsScalar};

use gx_class_scalar::{ScalarClass, ScalarOp, ScalarQuery};
use gx_gist_tree::Tree;
use gx_index::{Indexed, create_keys, find_keys};
use gx_pages::{Bitmap, MemoryPages, PageError, Pages, RowRef};
use gx_scalar::{Scalar, ScalarKind};
use gx_value::Value;
use std::alloc::Global;
use std::test::Fail;

const ROWS: u32 = 400;

// The value that a number's text spells.
fn scalar_of(alloc: Global, number: u32) -> Result<Scalar, PageError>
    ensures { IfOk result (λ value. IsScalar Int4 value) }
{
    let Ok(text) = format!(in alloc; "{number}") else {
        return Err(PageError::Memory);
    };
    let Ok(value) = Scalar::read(alloc, ScalarKind::Int4, &text) else {
        return Err(PageError::Memory);
    };
    Ok(value)
}

fn row_of(number: u32) -> RowRef {
    RowRef {
        number: u64::from(number),
        page: 7,
        slot: 3,
    }
}

// The value of a row: NULL of each third.
fn value_of(number: u32) -> Option<u32> {
    if number % 3 == 0 {
        return None;
    }
    Some(number % 40)
}

// Adds a row with a number, or with NULL.
fn put(
    alloc: Global,
    pages: &mut MemoryPages,
    index: &mut Indexed<Tree<ScalarClass>>,
    row: RowRef,
    number: Option<u32>,
) -> Result<(), PageError>
    requires { index.old.kept.class.kind ≡ Int4 }
    ensures { index.new.kept ≡ index.old.kept }
{
    let Some(number) = number else {
        return index.put(alloc, pages, row, None);
    };
    let scalar = scalar_of(alloc, number)?;
    let value = Value::Scalar(scalar);
    index.put(alloc, pages, row, Some(&value))
}

// An index of all rows.
fn filled(alloc: Global, pages: &mut MemoryPages) -> Result<Indexed<Tree<ScalarClass>>, PageError>
    ensures { IfOk result (λ index. index.kept.class.kind ≡ Int4) }
{
    let class = ScalarClass {
        kind: ScalarKind::Int4,
    };
    let tree = create_keys(class, pages)?;
    let mut index = Indexed::new(tree);
    for number in 0..ROWS {
        put(alloc, pages, &mut index, row_of(number), value_of(number))?;
    }
    Ok(index)
}

// Whether just the rows were found that are wanted: those with the value, but for those of even numbers where these are gone.
fn are_wanted(found: &Bitmap, wanted: Option<u32>, gone: bool) -> bool {
    let mut rows = found.as_slice().iter();
    for number in 0..ROWS {
        let there = value_of(number) == wanted && !(gone && number % 2 == 0);
        if there && rows.next().copied() != Some(row_of(number)) {
            return false;
        }
    }
    rows.next().is_none()
}

// The rows of even numbers.
fn even_rows(alloc: Global) -> Result<Bitmap, Fail> {
    let mut rows = Bitmap::new(alloc);
    for number in 0..ROWS {
        let row = row_of(number);
        if number % 2 == 0 && rows.is_below(row.number) {
            rows.push(row)?;
        }
    }
    Ok(rows)
}

// The rows with this value.
fn equal_to(
    alloc: Global,
    pages: &mut MemoryPages,
    index: &Indexed<Tree<ScalarClass>>,
    number: u32,
) -> Result<Bitmap, PageError>
    requires { index.now.kept.class.kind ≡ Int4 }
{
    let operand = scalar_of(alloc, number)?;
    let query = ScalarQuery {
        op: ScalarOp::Equal,
        operand,
    };
    find_keys(&index.kept, alloc, pages, &query)
}

// How many of the values from 0 to 39 are found just in their rows.
fn values_found(
    alloc: Global,
    pages: &mut MemoryPages,
    index: &Indexed<Tree<ScalarClass>>,
    gone: bool,
) -> Result<u32, PageError>
    requires { index.now.kept.class.kind ≡ Int4 }
{
    let mut found = 0u32;
    for number in 0..40 {
        let rows = equal_to(alloc, pages, index, number)?;
        if are_wanted(&rows, Some(number), gone) {
            found = number + 1;
        }
    }
    Ok(found)
}

// The count of pages, and that count after an index is made anew where one was given back.
fn counts(alloc: Global) -> Result<(u64, u64), PageError> {
    let Ok(mut pages) = MemoryPages::new(alloc) else {
        return Err(PageError::Memory);
    };
    let index = filled(alloc, &mut pages)?;
    index.drop_all(alloc, &mut pages)?;
    let _again = filled(alloc, &mut pages)?;
    let after = pages.take()?;
    let Ok(mut other) = MemoryPages::new(alloc) else {
        return Err(PageError::Memory);
    };
    let _once = filled(alloc, &mut other)?;
    let count = other.take()?;
    Ok((count, after))
}

#[test]
fn values_and_nulls(rt: HostRuntime) -> Result<(), Fail> {
    let alloc = rt.alloc();
    let mut pages = MemoryPages::new(alloc)?;
    let index = filled(alloc, &mut pages)?;
    let found = values_found(alloc, &mut pages, &index, false)?;
    assert_eq!(rt; found, 40);
    let nulls = index.find_nulls(alloc, &mut pages)?;
    assert!(rt; are_wanted(&nulls, None, false));
    Ok(())
}

#[test]
fn pages_are_given_back(rt: HostRuntime) -> Result<(), Fail> {
    let (count, after) = counts(rt.alloc())?;
    assert_eq!(rt; after, count);
    Ok(())
}

#[test]
fn rows_are_taken_out(rt: HostRuntime) -> Result<(), Fail> {
    let alloc = rt.alloc();
    let mut pages = MemoryPages::new(alloc)?;
    let mut index = filled(alloc, &mut pages)?;
    let even = even_rows(alloc)?;
    index.remove(alloc, &mut pages, &even)?;
    let found = values_found(alloc, &mut pages, &index, true)?;
    assert_eq!(rt; found, 40);
    let nulls = index.find_nulls(alloc, &mut pages)?;
    assert!(rt; are_wanted(&nulls, None, true));
    index.remove(alloc, &mut pages, &nulls)?;
    let left = index.find_nulls(alloc, &mut pages)?;
    assert!(rt; left.len() == 0);
    Ok(())
}
