//! The entry with the next key.

ghost use Rattle.std.specs.Prelude.{◌≡◌, ℕ, ◌<◌, ◌==◌, List, ◌∷◌, ◌++◌, length, map, position, Some, None, IfOk, IfErr, IfSome, IfNone};
ghost use Rattle.std.specs.List.{AllByRecursion};
ghost use Rattle.std.specs.Option.{option_map};
ghost use Rattle.gx_pages.specs.Footprints.{IsOutside, StaysQuiet};
ghost use Rattle.gx_pages.specs.Pages.{HasCause};
ghost use Rattle.gx_chain.specs.Chains.{IsSound};
ghost use Rattle.gx_tree.specs.Trees.{IsBrokenOr, IsOn, Leaf, items_of, leaves, numbers};
ghost use Rattle.gx_gin_entry.specs.EntryTrees.{AreListed, AreRising, Entry, HoldsMap, IsEntry, IsNext, IsSplit, entry_bytes, key_or_least};

use crate::keys::Sought;
use crate::places::{broken, entry_at, find_in};
use crate::tree::KIND;
use gx_bytes::Bytes;
use gx_pages::{PageError, Pages};
use gx_slot::SlotPage;
use gx_tree::{fetch_level, fetch_top, survey};
use std::alloc::Global;

/// The key from which on the next one is sought: the least of all where there is none.
pub fn sought_from(key: Option<&[u8]>) -> Sought<'_>
    ensures { result.key.now ≡ key_or_least (option_map (λ k. k.now) key.entry) }
{
    match key {
        Some(key) => Sought { key },
        None => Sought { key: &[] },
    }
}

/// The first slot whose key is above this one. None where there are no entries that rise.
fn slot_above(slots: &SlotPage, key: Option<&[u8]>) -> Option<u16>
    ensures some { IfSome result (λ slot. (list : List Entry) → AreListed slots.now.items list → IsSplit list (option_map (λ k. k.now) key.entry) slot) }
    ensures none { IfNone result ((list : List Entry) → AreListed slots.now.items list → ⊥) }
{
    let Some(key) = key else {
        return Some(0);
    };
    let Some(place) = find_in(slots, key) else {
        return None;
    };
    if place.here {
        return Some(place.slot + 1);
    }
    Some(place.slot)
}

/// A copy of an entry.
fn copy_of(alloc: Global, key: &[u8], posting: &[u8]) -> Result<(Bytes, Bytes), PageError>
    ensures copy { IfOk result (λ made. (made.0 ≡ key.now) × (made.1 ≡ posting.now)) }
    ensures err { IfErr result (λ error. error ≡ PageError.Memory) }
{
    let Ok(key) = Bytes::from_slice(alloc, key) else {
        return Err(PageError::Memory);
    };
    let Ok(posting) = Bytes::from_slice(alloc, posting) else {
        return Err(PageError::Memory);
    };
    Ok((key, posting))
}

/// The first entry on a page whose key is above this one. None where there is none.
pub fn above_in(
    alloc: Global,
    page: u64,
    slots: &SlotPage,
    key: Option<&[u8]>,
) -> Result<Option<(Bytes, Bytes)>, PageError>
    ensures found { IfOk result (λ found. (list : List Entry) → AreListed slots.now.items list → IsNext list (option_map (λ k. k.now) key.entry) (option_map (λ e. (e.0, e.1)) found)) }
    ensures cause { IfErr result (IsBrokenOr page ((list : List Entry) → AreListed slots.now.items list → ⊥)) }
{
    let Some(slot) = slot_above(slots, key) else {
        return Err(broken(page));
    };
    if slots.count() <= slot {
        return Ok(None);
    }
    let Some((found, posting)) = entry_at(slots, slot) else {
        return Err(broken(page));
    };
    let entry = copy_of(alloc, found, posting)?;
    Ok(Some(entry))
}

/// The pages behind this one in a list. None where it isn't there.
fn pages_behind(list: &[u64], page: u64) -> Option<&[u64]>
    ensures { (front back : List ℕ) → list.now ≡ front ++ page ∷ back → IsOutside page front → option_map (λ l. l.now) result ≡ Some back }
{
    let Some(place) = place_of(list, page) else {
        return None;
    };
    Some(&list[place + 1..])
}

/// Where a page stands in a list.
fn place_of(list: &[u64], page: u64) -> Option<usize>
    ensures place { result ≡ position (λ other. other == page) list.now }
    ensures below { IfSome result (λ place. place < length list.now) }
{
    list.iter().position(|other| *other == page)
}

/// The first entry on pages of level 0. None where there is none.
fn first_in<P: Pages>(
    alloc: Global,
    pages: &mut P,
    list: &[u64],
) -> Result<Option<(Bytes, Bytes)>, PageError>
    ensures found { IfOk result (λ found. P.tells → (row : List Leaf) (entries : List Entry) → list.now ≡ numbers row → AllByRecursion (IsOn (P.map pages.old) 5 0) row
        → items_of row ≡ map entry_bytes entries → AllByRecursion IsEntry entries → AreRising entries → IsNext entries None (option_map (λ e. (e.0, e.1)) found)) }
    ensures cause { IfErr result (HasCause (P.faults pages.old) (P.faults pages.new)
        (λ at expected found. P.tells → (row : List Leaf) (entries : List Entry) → list.now ≡ numbers row → AllByRecursion (IsOn (P.map pages.old) 5 0) row
        → AllByRecursion (λ page. page < P.count pages.old) list.now → items_of row ≡ map entry_bytes entries → AllByRecursion IsEntry entries → AreRising entries → ⊥) (λ _. ⊥) (Unit {0})) }
    ensures map { P.map pages.new ≡ P.map pages.old }
    ensures count { P.count pages.new ≡ P.count pages.old }
    ensures heap { IsSound result → P.heap_fetches pages.new ≡ P.heap_fetches pages.old }
    ensures quiet { StaysQuiet P.Pages pages.old pages.new }
{
    for page in list {
        let slots = fetch_level(pages, *page, KIND, 0)?;
        let found = above_in(alloc, *page, &slots, None)?;
        if let Some(entry) = found {
            return Ok(Some(entry));
        }
    }
    Ok(None)
}

/// The first entry on the pages of level 0 of a tree behind one of them. None where there is none.
pub fn first_behind<P: Pages>(
    alloc: Global,
    pages: &mut P,
    root: u64,
    page: u64,
) -> Result<Option<(Bytes, Bytes)>, PageError>
    ensures found { IfOk result (λ found. P.tells → (list : List Entry) (feet : List ℕ) (held : HoldsMap (P.map pages.old) (P.count pages.old) root list feet) (prior others : List Leaf) (items : List (List ℕ)) (entries : List Entry)
        → leaves held.tree ≡ prior ++ (page, items) ∷ others → items_of others ≡ map entry_bytes entries → AllByRecursion IsEntry entries → AreRising entries → IsNext entries None (option_map (λ e. (e.0, e.1)) found)) }
    ensures cause { IfErr result (HasCause (P.faults pages.old) (P.faults pages.new)
        (λ at expected found. P.tells → (list : List Entry) (feet : List ℕ) (held : HoldsMap (P.map pages.old) (P.count pages.old) root list feet) (prior others : List Leaf) (items : List (List ℕ)) (entries : List Entry)
        → leaves held.tree ≡ prior ++ (page, items) ∷ others → items_of others ≡ map entry_bytes entries → AllByRecursion IsEntry entries → AreRising entries → ⊥) (λ _. ⊥) (Unit {0})) }
    ensures map { P.map pages.new ≡ P.map pages.old }
    ensures count { P.count pages.new ≡ P.count pages.old }
    ensures heap { IsSound result → P.heap_fetches pages.new ≡ P.heap_fetches pages.old }
    ensures quiet { StaysQuiet P.Pages pages.old pages.new }
{
    let top = fetch_top(pages, root, KIND)?;
    if top.level() == 0 {
        return Ok(None);
    }
    let all = survey(alloc, pages, root, KIND, &top)?;
    let Some(list) = pages_behind(all.leaves.as_slice(), page) else {
        return Err(broken(root));
    };
    first_in(alloc, pages, list)
}
