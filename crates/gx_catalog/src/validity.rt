//! Whether tables and indexes are those of a database.

ghost use Rattle.std.specs.Prelude.{◌≡◌, ◌↔◌, IsTrue};
ghost use Rattle.gx_catalog.specs.Validity.{AreCatalog, AreColumns, IsHeap, IsTable};
ghost use Rattle.gx_catalog.specs.Tails.{AllTails, IsNewColumn, IsNewIndex, IsNewTable, StandsOn};

use crate::info::{IndexInfo, TableInfo};
use crate::lookup::{column_named, count_on, index_named, table_named, table_numbered};
use gx_heap::Heap;
use gx_value::Column;

/// Whether they are tables and indexes of a database.
pub fn are_catalog(tables: &[TableInfo], indexes: &[IndexInfo]) -> bool
    ensures { IsTrue result ↔ AreCatalog tables.now indexes.now }
{
    if tables.len() > 256 {
        return false;
    }
    if !are_tables(tables, indexes) {
        return false;
    }
    are_indexes(indexes, tables)
}

fn are_tables(tables: &[TableInfo], indexes: &[IndexInfo]) -> bool
    ensures { IsTrue result ↔ AllTails (IsNewTable indexes.now) tables.now }
{
    let mut rest = tables;
    while let Some((table, others)) = rest.split_first() {
        if !is_new_table(table, others, indexes) {
            return false;
        }
        rest = others;
    }
    true
}

fn is_new_table(table: &TableInfo, others: &[TableInfo], indexes: &[IndexInfo]) -> bool
    ensures { IsTrue result ↔ IsNewTable indexes.now table.now others.now }
{
    if !is_table(table) {
        return false;
    }
    if table_named(others, table.name.as_slice()).is_some() {
        return false;
    }
    if table_numbered(others, table.number).is_some() {
        return false;
    }
    count_on(indexes, table.number) <= 32
}

fn is_table(table: &TableInfo) -> bool
    ensures { IsTrue result ↔ IsTable table.now }
{
    if table.name.len() > 63 {
        return false;
    }
    if !is_heap(&table.heap) {
        return false;
    }
    are_columns(table.columns.as_slice())
}

fn is_heap(heap: &Heap) -> bool
    ensures { IsTrue result ↔ IsHeap heap.now }
{
    if heap.next == 0 {
        return false;
    }
    heap.next <= 281_474_976_710_656
}

fn are_columns(columns: &[Column]) -> bool
    ensures { IsTrue result ↔ AreColumns columns.now }
{
    if columns.len() > 32 {
        return false;
    }
    are_new_columns(columns)
}

fn are_new_columns(columns: &[Column]) -> bool
    ensures { IsTrue result ↔ AllTails IsNewColumn columns.now }
{
    let mut rest = columns;
    while let Some((column, others)) = rest.split_first() {
        if !is_new_column(column, others) {
            return false;
        }
        rest = others;
    }
    true
}

fn is_new_column(column: &Column, others: &[Column]) -> bool
    ensures { IsTrue result ↔ IsNewColumn column.now others.now }
{
    if column_named(others, column.name.as_slice()).is_some() {
        return false;
    }
    column.name.len() <= 63
}

fn are_indexes(indexes: &[IndexInfo], tables: &[TableInfo]) -> bool
    ensures { IsTrue result ↔ AllTails (IsNewIndex tables.now) indexes.now }
{
    let mut rest = indexes;
    while let Some((index, others)) = rest.split_first() {
        if !is_new_index(index, others, tables) {
            return false;
        }
        rest = others;
    }
    true
}

fn is_new_index(index: &IndexInfo, others: &[IndexInfo], tables: &[TableInfo]) -> bool
    ensures { IsTrue result ↔ IsNewIndex tables.now index.now others.now }
{
    if index.name.len() > 63 {
        return false;
    }
    if index_named(others, index.name.as_slice()).is_some() {
        return false;
    }
    if !index.class.allows(u64::from(index.parameter)) {
        return false;
    }
    stands_on(index, tables)
}

// Whether the index's table and column are there, and its class takes the column's type.
fn stands_on(index: &IndexInfo, tables: &[TableInfo]) -> bool
    ensures { IsTrue result ↔ StandsOn tables.now index.now }
{
    let Some(table) = table_numbered(tables, index.table) else {
        return false;
    };
    match table.columns.as_slice().get(index.column as usize) {
        Some(column) => index.class.takes(column.kind),
        None => false,
    }
}
