//! The tables and the indexes that the entries of a chain spell.

ghost use Rattle.std.specs.Prelude.{◌≡◌, IfOk, MatchOption};
ghost use Rattle.gx_catalog.specs.Items.{Spells, SpellsNone};

use crate::info::{IndexInfo, Item, TableInfo};
use crate::reading::read_item;
use gx_bytes::NoMemory;
use gx_chain::Entry;
use std::alloc::Global;

/// The tables and the indexes that the entries spell, in order. None where one of them is no item.
pub fn lists_of(
    alloc: Global,
    entries: &[Entry],
) -> Result<Option<(Vec<TableInfo>, Vec<IndexInfo>)>, NoMemory>
    ensures { IfOk result (λ found. MatchOption found (SpellsNone entries.now) (λ lists. Spells entries.now lists.0.items lists.1.items)) }
{
    let mut tables = Vec::new(alloc);
    let mut indexes = Vec::new(alloc);
    for entry in entries {
        let Some(item) = read_item(alloc, entry.item.as_slice())? else {
            return Ok(None);
        };
        match item {
            Item::Table(table) => tables.push(table)?,
            Item::Index(index) => indexes.push(index)?,
        }
    }
    Ok(Some((tables, indexes)))
}
