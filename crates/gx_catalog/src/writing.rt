//! The bytes of items.

ghost use Rattle.std.specs.Prelude.{◌≡◌, ℕ, ◌<◌, ◌++◌, length, IfOk, OnOk};
ghost use Rattle.std.specs.List.{flat_map};
ghost use Rattle.gx_bytes.specs.Fields.{le16, le32, le64};
ghost use Rattle.gx_catalog.specs.Items.{FitsHeap, FitsIndex, FitsTable, class_bytes, column_bytes, columns_bytes, heap_bytes, index_bytes, table_bytes};

use crate::info::{IndexInfo, TableInfo};
use gx_bytes::{Bytes, NoMemory, push_field};
use gx_heap::Heap;
use gx_value::{Class, Column};
use std::alloc::Global;

/// The bytes of a table's item, with this heap in place of its own.
pub fn table_item(alloc: Global, table: &TableInfo, heap: &Heap) -> Result<Bytes, NoMemory>
    requires { length table.now.columns < 256 }
    ensures bytes { IfOk result (λ item. item ≡ table_bytes (record table.now { heap = heap.now })) }
    ensures fits { OnOk result (FitsTable (record table.now { heap = heap.now })) }
{
    let mut item = Bytes::new(alloc);
    item.push(1)?;
    let number = table.number;
    push_u32(&mut item, number)?;
    push_heap(&mut item, heap)?;
    push_columns(&mut item, table.columns.as_slice())?;
    push_field(&mut item, table.name.as_slice())?;
    Ok(item)
}

/// The bytes of an index's item, with this root of its NULL rows in place of its own.
pub fn index_item(alloc: Global, index: &IndexInfo, nulls: u64) -> Result<Bytes, NoMemory>
    ensures bytes { IfOk result (λ item. item ≡ index_bytes (record index.now { nulls = nulls })) }
    ensures fits { OnOk result (FitsIndex (record index.now { nulls = nulls })) }
{
    let mut item = Bytes::new(alloc);
    item.push(3)?;
    let table = index.table;
    let parameter = index.parameter;
    let root = index.root;
    push_u32(&mut item, table)?;
    push_class(&mut item, index.column, index.class, parameter)?;
    push_u64(&mut item, root)?;
    push_u64(&mut item, nulls)?;
    push_field(&mut item, index.name.as_slice())?;
    Ok(item)
}

fn push_heap(to: &mut Bytes, heap: &Heap) -> Result<(), NoMemory>
    ensures bytes { OnOk result (to.new ≡ to.old ++ heap_bytes heap.now) }
    ensures fits { OnOk result (FitsHeap heap.now) }
{
    let Heap { first, last, next } = *heap;
    push_u64(to, next)?;
    push_u64(to, first)?;
    push_u64(to, last)?;
    Ok(())
}

fn push_columns(to: &mut Bytes, columns: &[Column]) -> Result<(), NoMemory>
    requires { length columns.now < 256 }
    ensures { OnOk result (to.new ≡ to.old ++ columns_bytes columns.now) }
{
    to.push(columns.len() as u8)?;
    push_each(to, columns)?;
    Ok(())
}

fn push_each(to: &mut Bytes, columns: &[Column]) -> Result<(), NoMemory>
    ensures { OnOk result (to.new ≡ to.old ++ flat_map column_bytes columns.now) }
{
    for column in columns {
        push_column(to, column)?;
    }
    Ok(())
}

fn push_column(to: &mut Bytes, column: &Column) -> Result<(), NoMemory>
    ensures { OnOk result (to.new ≡ to.old ++ column_bytes column.now) }
{
    to.push(column.kind.number())?;
    push_field(to, column.name.as_slice())?;
    Ok(())
}

fn push_class(to: &mut Bytes, column: u8, class: Class, parameter: u16) -> Result<(), NoMemory>
    ensures { OnOk result (to.new ≡ to.old ++ class_bytes column class parameter) }
{
    to.push(column)?;
    to.push(class.number())?;
    push_u16(to, parameter)?;
    Ok(())
}

#[tactic(auto, unfolding(gx_bytes::specs::Fields::le16))]
fn push_u16(to: &mut Bytes, number: u16) -> Result<(), NoMemory>
    ensures { OnOk result (to.new ≡ to.old ++ le16 number) }
{
    to.extend_from_slice(&number.to_le_bytes())
}

#[tactic(auto, unfolding(gx_bytes::specs::Fields::le32))]
fn push_u32(to: &mut Bytes, number: u32) -> Result<(), NoMemory>
    ensures { OnOk result (to.new ≡ to.old ++ le32 number) }
{
    to.extend_from_slice(&number.to_le_bytes())
}

#[tactic(auto, unfolding(gx_bytes::specs::Fields::le64))]
fn push_u64(to: &mut Bytes, number: u64) -> Result<(), NoMemory>
    ensures { OnOk result (to.new ≡ to.old ++ le64 number) }
{
    to.extend_from_slice(&number.to_le_bytes())
}
