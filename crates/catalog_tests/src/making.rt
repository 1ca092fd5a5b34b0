//! Catalogs are changed where a change is accepted, and listed.

ghost use Rattle.std.specs.Prelude.{◌≡◌, IfOk};
ghost use Rattle.gx_catalog.specs.Validity.{AreColumns, count_on};

use gx_bytes::{Bytes, NoMemory};
use gx_catalog::{Catalog, IndexInfo, TableInfo};
use gx_heap::Heap;
use gx_pages::{MemoryPages, PageError};
use gx_value::{Class, Column, ColumnType, Columns};
use std::alloc::Global;
use std::str;
use std::test::Fail;

/// A change of a catalog.
#[derive(Clone, Copy)]
pub enum Change<'a> {
    AddTable(&'a [u8]),
    // an index on the first column of the table with this number
    AddIndex(u32, &'a [u8]),
    // another next row number
    SetHeap(u32, u64),
    SetNulls(&'a [u8], u64),
    DropTable(u32),
    DropIndex(&'a [u8]),
}

/// Makes the change. False where it isn't one that may be made.
pub fn make_change(
    alloc: Global,
    pages: &mut MemoryPages,
    catalog: &mut Catalog,
    wanted: &Change,
) -> Result<bool, PageError> {
    match wanted {
        Change::AddTable(name) => add_table(alloc, pages, catalog, name),
        Change::AddIndex(table, name) => add_index(alloc, pages, catalog, *table, name),
        Change::SetHeap(table, next) => set_heap(alloc, pages, catalog, *table, *next),
        Change::SetNulls(name, nulls) => set_nulls(alloc, pages, catalog, name, *nulls),
        Change::DropTable(table) => drop_table(alloc, pages, catalog, *table),
        Change::DropIndex(name) => drop_index(alloc, pages, catalog, name),
    }
}

/// Adds a table of one column behind the others, with the least free number and a heap of its own.
pub fn add_table(
    alloc: Global,
    pages: &mut MemoryPages,
    catalog: &mut Catalog,
    name: &[u8],
) -> Result<bool, PageError> {
    gx_catalog::one_more_table();
    if name.len() > 63 {
        return Ok(false);
    }
    if catalog.tables().len() >= 256 {
        return Ok(false);
    }
    if let Some(_table) = catalog.table(name) {
        return Ok(false);
    }
    let Ok(name) = Bytes::from_slice(alloc, name) else {
        return Err(PageError::Memory);
    };
    let Ok(columns) = one_column(alloc) else {
        return Err(PageError::Memory);
    };
    let heap = Heap::create(pages)?;
    let number = catalog.free_number();
    let table = TableInfo {
        name,
        number,
        columns,
        heap,
    };
    catalog.add_table(alloc, pages, table)?;
    Ok(true)
}

// The column `a`, of type int4.
fn one_column(alloc: Global) -> Result<Columns, NoMemory>
    ensures { IfOk result AreColumns }
{
    let mut columns = Columns::new(alloc);
    columns.push(Column {
        name: Bytes::from_slice(alloc, b"a")?,
        kind: ColumnType::Int4,
    })?;
    Ok(columns)
}

/// Adds an index on the first column of a table, with root 9.
pub fn add_index(
    alloc: Global,
    pages: &mut MemoryPages,
    catalog: &mut Catalog,
    table: u32,
    name: &[u8],
) -> Result<bool, PageError> {
    gx_catalog::one_more_index();
    let class = Class::GistInt4;
    if name.len() > 63 {
        return Ok(false);
    }
    if count_on(catalog.indexes(), table) >= 32 {
        return Ok(false);
    }
    if let Some(_index) = catalog.index(name) {
        return Ok(false);
    }
    let Some(info) = catalog.table_numbered(table) else {
        return Ok(false);
    };
    let Some(column) = info.columns.as_slice().get(0) else {
        return Ok(false);
    };
    if !class.takes(column.kind) {
        return Ok(false);
    }
    let Ok(name) = Bytes::from_slice(alloc, name) else {
        return Err(PageError::Memory);
    };
    let index = IndexInfo {
        name,
        table,
        column: 0,
        class,
        parameter: 0,
        root: 9,
        nulls: 0,
    };
    catalog.add_index(alloc, pages, index)?;
    Ok(true)
}

// How many indexes are on the table of this number.
fn count_on(indexes: &[IndexInfo], number: u32) -> usize
    ensures { result ≡ count_on number indexes.now }
{
    indexes.iter().filter(|index| index.table == number).count()
}

/// Gives a table a heap with another next row number.
pub fn set_heap(
    alloc: Global,
    pages: &mut MemoryPages,
    catalog: &mut Catalog,
    table: u32,
    next: u64,
) -> Result<bool, PageError> {
    gx_catalog::found_among();
    let Some(info) = catalog.table_numbered(table) else {
        return Ok(false);
    };
    if next == 0 {
        return Ok(false);
    }
    if next > 281_474_976_710_656 {
        return Ok(false);
    }
    let heap = Heap {
        first: info.heap.first,
        last: info.heap.last,
        next,
    };
    catalog.set_heap(alloc, pages, table, heap)?;
    Ok(true)
}

/// Gives an index another root of its NULL rows.
pub fn set_nulls(
    alloc: Global,
    pages: &mut MemoryPages,
    catalog: &mut Catalog,
    name: &[u8],
    nulls: u64,
) -> Result<bool, PageError> {
    gx_catalog::found_among();
    if let Some(_index) = catalog.index(name) {
        catalog.set_nulls(alloc, pages, name, nulls)?;
        return Ok(true);
    }
    Ok(false)
}

/// Takes a table without indexes out.
pub fn drop_table(
    alloc: Global,
    pages: &mut MemoryPages,
    catalog: &mut Catalog,
    table: u32,
) -> Result<bool, PageError> {
    gx_catalog::found_among();
    gx_catalog::none_counted();
    if count_on(catalog.indexes(), table) != 0 {
        return Ok(false);
    }
    if let Some(_table) = catalog.table_numbered(table) {
        catalog.drop_table(alloc, pages, table)?;
        return Ok(true);
    }
    Ok(false)
}

/// Takes an index out.
pub fn drop_index(
    alloc: Global,
    pages: &mut MemoryPages,
    catalog: &mut Catalog,
    name: &[u8],
) -> Result<bool, PageError> {
    gx_catalog::found_among();
    if let Some(_index) = catalog.index(name) {
        catalog.drop_index(alloc, pages, name)?;
        return Ok(true);
    }
    Ok(false)
}

/// The tables as `NAME=NUMBER/NEXT ROW NUMBER`, and behind a `|` the indexes as `NAME=TABLE+ROOT/ROOT OF NULL ROWS`.
pub fn listed(alloc: Global, catalog: &Catalog) -> Result<String, Fail> {
    let mut text = String::new(alloc);
    for table in catalog.tables() {
        let name = str::from_utf8(table.name.as_slice())?;
        let next = table.heap.next;
        text.push_str(format!(in alloc; "{name}={}/{next} ", table.number)?.as_str())?;
    }
    text.push_str("|")?;
    for index in catalog.indexes() {
        let name = str::from_utf8(index.name.as_slice())?;
        text.push_str(format!(in alloc;
            " {name}={}+{}/{}",
            index.table, index.root, index.nulls
        )?.as_str())?;
    }
    Ok(text)
}
