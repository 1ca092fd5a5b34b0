//! Pages of a catalog by hand, and what is loaded from them.

use gx_bytes::Bytes;
use gx_catalog::Catalog;
use gx_pages::{MemoryPages, PageError, Pages};
use gx_slot::SlotPage;
use std::alloc::Global;
use std::test::Fail;

/// The kind of a catalog page.
pub const CATALOG: u8 = 3;

/// How many tables and indexes are loaded. None where a page is Broken, with two numbers that differ.
pub fn loaded(alloc: Global, pages: &mut MemoryPages) -> Result<Option<(usize, usize)>, Fail> {
    match Catalog::load(alloc, pages) {
        Ok(catalog) => Ok(Some((catalog.tables().len(), catalog.indexes().len()))),
        Err(error) => {
            if is_broken(&error) {
                return Ok(None);
            }
            Err(Fail::from(error))
        }
    }
}

/// Whether a page is broken, with two numbers that differ.
pub fn is_broken(error: &PageError) -> bool {
    match error {
        PageError::Broken {
            expected,
            found,
            ..
        } => expected != found,
        _ => false,
    }
}

/// Puts a page, but page 0.
pub fn put(pages: &mut MemoryPages, page: u64, slots: &SlotPage) -> Result<(), PageError> {
    if page == 0 {
        return Ok(());
    }
    pages.put(page, slots.page())
}

/// Lays items on page 1 and, where they don't fit there, on pages behind it, and gives how many pages there are.
pub fn lay(pages: &mut MemoryPages, items: &[Bytes]) -> Result<u64, Fail> {
    let mut page = 1;
    let mut count = 1u64;
    let mut slots = SlotPage::new(CATALOG, 0);
    for item in items {
        if slots.add(item.as_slice()).is_ok() {
            continue;
        }
        let next = pages.take()?;
        slots.set_next(next);
        put(pages, page, &slots)?;
        page = next;
        count = count.saturating_add(1);
        slots = SlotPage::new(CATALOG, 0);
        let _slot = slots.add(item.as_slice());
    }
    put(pages, page, &slots)?;
    Ok(count)
}

/// The columns of a table by hand: all of one type, each with a letter as its name that stands there so often.
#[derive(Clone, Copy)]
pub struct Letters<'a> {
    pub kind: u8,
    pub letters: &'a [u8],
    pub often: u8,
}

/// An item of a table, with its heap on page 2. Its names are shorter than 128 bytes.
pub fn table_item(
    alloc: Global,
    number: u32,
    next: u64,
    columns: &Letters,
    name: &[u8],
) -> Result<Bytes, Fail> {
    let mut item = Bytes::new(alloc);
    item.push(1)?;
    item.extend_from_slice(&number.to_le_bytes())?;
    item.extend_from_slice(&next.to_le_bytes())?;
    item.extend_from_slice(&[2, 0, 0, 0, 0, 0, 0, 0, 2, 0, 0, 0, 0, 0, 0, 0])?;
    item.push(u8::try_from(columns.letters.len())?)?;
    for letter in columns.letters {
        item.push(columns.kind)?;
        item.push(columns.often)?;
        for _ in 0..columns.often {
            item.push(*letter)?;
        }
    }
    item.push(u8::try_from(name.len())?)?;
    item.extend_from_slice(name)?;
    Ok(item)
}

/// An item of an index, with root 9 and no NULL rows.
pub fn index_item(
    alloc: Global,
    table: u32,
    column: u8,
    class: u8,
    parameter: u16,
    name: &[u8],
) -> Result<Bytes, Fail> {
    let mut item = Bytes::new(alloc);
    item.push(3)?;
    item.extend_from_slice(&table.to_le_bytes())?;
    item.push(column)?;
    item.push(class)?;
    item.extend_from_slice(&parameter.to_le_bytes())?;
    item.extend_from_slice(&[9, 0, 0, 0, 0, 0, 0, 0, 0, 0, 0, 0, 0, 0, 0, 0])?;
    item.push(u8::try_from(name.len())?)?;
    item.extend_from_slice(name)?;
    Ok(item)
}
