//! All entries.

ghost use Rattle.std.specs.Prelude.{◌≡◌, ◌≢◌, ℕ, ◌+◌, ◌<◌, ◌≤◌, List, [], ◌∷◌, ◌++◌, length, map, IfErr, OnOk};
ghost use Rattle.std.specs.List.{AllByRecursion};
ghost use Rattle.gx_pages.specs.Footprints.{StaysQuiet};
ghost use Rattle.gx_pages.specs.Pages.{HasCause};
ghost use Rattle.gx_chain.specs.Chains.{IsSound};
ghost use Rattle.gx_tree.specs.Trees.{IsBrokenOr, IsOn, Leaf, items_of, numbers};
ghost use Rattle.gx_gin_entry.specs.EntryTrees.{AreListed, AreRising, Entry, IsEntry, entry_bytes};
ghost use Rattle.gx_gin_entry.specs.Listed.{entries_of};

use crate::places::{broken, entry_at};
use crate::tree::KIND;
use gx_bytes::Bytes;
use gx_pages::{PageError, Pages};
use gx_slot::SlotPage;
use gx_tree::fetch_level;
use std::alloc::Global;

/// A key with its posting.
#[derive(Debug, Drop)]
pub struct EntryBytes {
    pub key: Bytes,
    pub posting: Bytes,
}

/// Adds a copy of an entry.
fn push_entry(
    alloc: Global,
    key: &[u8],
    posting: &[u8],
    to: &mut Vec<EntryBytes>,
) -> Result<(), PageError>
    ensures ok { OnOk result (entries_of to.new.items ≡ entries_of to.old.items ++ (key.now, posting.now) ∷ []) }
    ensures err { IfErr result (λ error. error ≡ PageError.Memory) }
{
    let Ok(key) = Bytes::from_slice(alloc, key) else {
        return Err(PageError::Memory);
    };
    let Ok(posting) = Bytes::from_slice(alloc, posting) else {
        return Err(PageError::Memory);
    };
    match to.push(EntryBytes { key, posting }) {
        Ok(()) => Ok(()),
        Err(_) => Err(PageError::Memory),
    }
}

/// Adds the entries of a page of level 0.
pub fn push_entries(
    alloc: Global,
    page: u64,
    slots: &SlotPage,
    to: &mut Vec<EntryBytes>,
) -> Result<(), PageError>
    ensures ok { OnOk result ((list : List Entry) → AreListed slots.now.items list → entries_of to.new.items ≡ entries_of to.old.items ++ list) }
    ensures cause { IfErr result (IsBrokenOr page ((list : List Entry) → AreListed slots.now.items list → ⊥)) }
{
    for slot in 0..slots.count() {
        let Some((key, posting)) = entry_at(slots, slot) else {
            return Err(broken(page));
        };
        push_entry(alloc, key, posting, to)?;
    }
    Ok(())
}

/// Adds the entries of pages of level 0.
pub fn leaf_entries<P: Pages>(
    alloc: Global,
    pages: &mut P,
    list: &[u64],
    to: &mut Vec<EntryBytes>,
) -> Result<(), PageError>
    ensures ok { OnOk result (P.tells → (row : List Leaf) (entries : List Entry) → list.now ≡ numbers row → AllByRecursion (IsOn (P.map pages.old) 5 0) row
        → items_of row ≡ map entry_bytes entries → AllByRecursion IsEntry entries → AreRising entries → entries_of to.new.items ≡ entries_of to.old.items ++ entries) }
    ensures cause { IfErr result (HasCause (P.faults pages.old) (P.faults pages.new)
        (λ at expected found. P.tells → (row : List Leaf) (entries : List Entry) → list.now ≡ numbers row → AllByRecursion (IsOn (P.map pages.old) 5 0) row
        → AllByRecursion (λ page. page < P.count pages.old) list.now → items_of row ≡ map entry_bytes entries → AllByRecursion IsEntry entries → AreRising entries → ⊥) (λ _. ⊥) (Unit {0})) }
    ensures map { P.map pages.new ≡ P.map pages.old }
    ensures count { P.count pages.new ≡ P.count pages.old }
    ensures heap { IsSound result → P.heap_fetches pages.new ≡ P.heap_fetches pages.old }
    ensures fetches { P.fetches pages.new ≤ P.fetches pages.old + length list.now }
    ensures quiet { StaysQuiet P.Pages pages.old pages.new }
{
    for page in list {
        let slots = fetch_level(pages, *page, KIND, 0)?;
        push_entries(alloc, *page, &slots, to)?;
    }
    Ok(())
}
