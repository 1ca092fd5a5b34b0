//! Catalogs, byte by byte as docs/file-format.md has them.

use gx_bytes::{Bytes, NoMemory, push_field};
use gx_catalog::Catalog;
use gx_pages::{MemoryPages, Pages};
use gx_slot::SlotPage;
use std::alloc::Global;
use std::test::Fail;

/// An index: its name, the number of its table, the place of its column, the number of its class and the class's parameter.
pub type IndexLine<'a> = (&'a str, u32, u8, u8, u16);

/// A table: its name, its number, and the numbers of its columns' types. The columns are `a`, `b` and so on.
pub type TableLine<'a> = (&'a str, u32, &'a [u8]);

/// The catalog with these tables and indexes.
pub fn catalog_of(
    alloc: Global,
    tables: &[TableLine],
    indexes: &[IndexLine],
) -> Result<Catalog, Fail> {
    let mut page = SlotPage::new(3, 0);
    for table in tables {
        page.add(table_item(alloc, table)?.as_slice())?;
    }
    for index in indexes {
        page.add(index_item(alloc, index)?.as_slice())?;
    }
    let mut pages = MemoryPages::new(alloc)?;
    pages.put(1, page.page())?;
    Ok(Catalog::load(alloc, &mut pages)?)
}

fn table_item(alloc: Global, table: &TableLine) -> Result<Bytes, NoMemory> {
    let (name, number, kinds) = table;
    let mut item = Bytes::new(alloc);
    item.push(1)?;
    item.extend_from_slice(&number.to_le_bytes())?;
    // the next row's number, the first page of the heap and its last one
    for field in [1u64, 2, 2] {
        item.extend_from_slice(&field.to_le_bytes())?;
    }
    let letters = b"abcdefghijklmnopqrstuvwxyz";
    item.push(kinds.len().min(26) as u8)?;
    for (kind, letter) in kinds.iter().zip(letters.iter()) {
        item.push(*kind)?;
        push_field(&mut item, &[*letter])?;
    }
    push_field(&mut item, name.as_bytes())?;
    Ok(item)
}

fn index_item(alloc: Global, index: &IndexLine) -> Result<Bytes, NoMemory> {
    let (name, table, column, class, parameter) = index;
    let mut item = Bytes::new(alloc);
    item.push(3)?;
    item.extend_from_slice(&table.to_le_bytes())?;
    item.push(*column)?;
    item.push(*class)?;
    item.extend_from_slice(&parameter.to_le_bytes())?;
    // the root, and that of the rows with NULL
    for field in [3u64, 0] {
        item.extend_from_slice(&field.to_le_bytes())?;
    }
    push_field(&mut item, name.as_bytes())?;
    Ok(item)
}
