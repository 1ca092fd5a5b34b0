//! Changes of the lists in memory.

ghost use Rattle.std.specs.Prelude.{◌≡◌};
ghost use Rattle.gx_catalog.specs.Catalogs.{with_heap, with_nulls, without_index, without_table};

use crate::info::{IndexInfo, TableInfo};
use crate::lookup::is_same;
use gx_heap::Heap;

/// Gives the table of this number another heap.
pub fn set_heap_of(tables: &mut Vec<TableInfo>, number: u32, heap: Heap)
    ensures { tables.new.items ≡ with_heap number heap tables.old.items }
{
    for table in tables.iter_mut() {
        if table.number == number {
            table.heap = heap;
        }
    }
}

/// Gives the index of this name another root of its NULL rows.
pub fn set_nulls_of(indexes: &mut Vec<IndexInfo>, name: &[u8], nulls: u64)
    ensures { indexes.new.items ≡ with_nulls name.now nulls indexes.old.items }
{
    for index in indexes.iter_mut() {
        if is_same(index.name.as_slice(), name) {
            index.nulls = nulls;
        }
    }
}

/// Takes out the table of this number.
pub fn drop_table_of(tables: &mut Vec<TableInfo>, number: u32)
    ensures { tables.new.items ≡ without_table number tables.old.items }
{
    tables.retain(|table| table.number != number);
}

/// Takes out the index of this name.
pub fn drop_index_of(indexes: &mut Vec<IndexInfo>, name: &[u8])
    ensures { indexes.new.items ≡ without_index name.now indexes.old.items }
{
    indexes.retain(|index| !is_same(index.name.as_slice(), name));
}
