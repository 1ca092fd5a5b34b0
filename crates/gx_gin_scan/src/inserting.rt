//! A row under the keys of its items.

ghost use Rattle.std.specs.Prelude.{◌≡◌, ℕ, ◌+◌, ◌*◌, ◌≤◌, List, length, map, IfErr, OnOk};
ghost use Rattle.std.specs.List.{AllByRecursion};
ghost use Rattle.gx_chain.specs.Chains.{IsSound};
ghost use Rattle.gx_pages.specs.Footprints.{KeepsPages, StaysQuiet};
ghost use Rattle.gx_pages.specs.Frees.{IsFull};
ghost use Rattle.gx_pages.specs.Pages.{HasCause};
ghost use Rattle.gx_gin_scan.specs.Gins.{HoldsGin};
ghost use Rattle.gx_gin_scan.specs.Lists.{Grows, IsBehind, Lists, keys_of};
ghost use Rattle.gx_gin_scan.specs.Searches.{item_key};

use crate::putting::put_row;
use crate::searching::key_of;
use gx_gin::Items;
use gx_pages::{PageError, Pages, RowRef};
use std::alloc::Global;

/// The key under which rows without items stand.
pub const PLACEHOLDER: &[u8] = &[0];

/// Puts a row behind those of each item. At most 61 pages more are taken for each.
fn put_items<P: Pages>(
    alloc: Global,
    pages: &mut P,
    root: u64,
    items: &Items,
    row: RowRef,
) -> Result<(), PageError>
    requires { AllByRecursion (λ item. length item ≤ 1900) items.now }
    ensures put { OnOk result (P.tells → (lists : Lists) (feet free : List ℕ) → HoldsGin P.Pages pages.old root lists feet free → IsBehind lists row
        → (after : Lists) × (later : List ℕ) × (rest : List ℕ) × HoldsGin P.Pages pages.new root after later rest × KeepsPages P.Pages pages.old pages.new feet free later rest
        × Grows (map item_key items.now) row lists after) }
    ensures grows { P.count pages.old ≤ P.count pages.new }
    ensures by { P.count pages.new ≤ P.count pages.old + 61 * length items.now }
    ensures cause { IfErr result (HasCause (P.faults pages.old) (P.faults pages.new)
        (λ at expected found. P.tells → (lists : Lists) (feet free : List ℕ) → HoldsGin P.Pages pages.old root lists feet free → IsBehind lists row → ⊥)
        (IsFull P.tells (P.map pages.new) (P.count pages.new)) (Unit {0})) }
    ensures heap { IsSound result → P.heap_fetches pages.new ≡ P.heap_fetches pages.old }
    ensures quiet { StaysQuiet P.Pages pages.old pages.new }
{
    for at in 0..items.len() {
        let Some(item) = items.get(at) else {
            unreachable!()
        };
        let key = key_of(alloc, item)?;
        put_row(alloc, pages, root, key.as_slice(), row)?;
    }
    Ok(())
}

/// Puts a row behind those of each key of a value with these items. At most 61 pages more are taken for each key.
pub fn put_keys<P: Pages>(
    alloc: Global,
    pages: &mut P,
    root: u64,
    items: &Items,
    row: RowRef,
) -> Result<(), PageError>
    requires { AllByRecursion (λ item. length item ≤ 1900) items.now }
    ensures put { OnOk result (P.tells → (lists : Lists) (feet free : List ℕ) → HoldsGin P.Pages pages.old root lists feet free → IsBehind lists row
        → (after : Lists) × (later : List ℕ) × (rest : List ℕ) × HoldsGin P.Pages pages.new root after later rest × KeepsPages P.Pages pages.old pages.new feet free later rest
        × Grows (keys_of items.now) row lists after) }
    ensures grows { P.count pages.old ≤ P.count pages.new }
    ensures by { P.count pages.new ≤ P.count pages.old + 61 * length (keys_of items.now) }
    ensures cause { IfErr result (HasCause (P.faults pages.old) (P.faults pages.new)
        (λ at expected found. P.tells → (lists : Lists) (feet free : List ℕ) → HoldsGin P.Pages pages.old root lists feet free → IsBehind lists row → ⊥)
        (IsFull P.tells (P.map pages.new) (P.count pages.new)) (Unit {0})) }
    ensures heap { IsSound result → P.heap_fetches pages.new ≡ P.heap_fetches pages.old }
    ensures quiet { StaysQuiet P.Pages pages.old pages.new }
{
    if items.len() == 0 {
        return put_row(alloc, pages, root, PLACEHOLDER, row);
    }
    put_items(alloc, pages, root, items, row)
}
