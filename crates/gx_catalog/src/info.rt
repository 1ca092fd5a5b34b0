//! What the catalog knows of a table and of an index.

use gx_bytes::Bytes;
use gx_heap::Heap;
use gx_value::{Class, Columns};

/// A table: its name, its number, its columns, and its rows on pages.
#[derive(Debug, Drop)]
pub struct TableInfo {
    pub name: Bytes,
    pub number: u32,
    pub columns: Columns,
    pub heap: Heap,
}

/// An index: its name, the number of its table, the place of its column from 0, its class and the class's parameter, the
/// root page of what it holds, and that of the tree of its rows with NULL, or 0 where there is none.
#[derive(Debug, Drop)]
pub struct IndexInfo {
    pub name: Bytes,
    pub table: u32,
    pub column: u8,
    pub class: Class,
    pub parameter: u16,
    pub root: u64,
    pub nulls: u64,
}

/// An item of the catalog's chain.
#[derive(Debug, Drop)]
pub enum Item {
    Table(TableInfo),
    Index(IndexInfo),
}
