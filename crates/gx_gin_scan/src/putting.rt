//! A row more under a key.

ghost use Rattle.std.specs.Prelude.{◌≡◌, ℕ, ◌+◌, ◌≤◌, List, [], ◌∷◌, length, IfErr, OnOk};
ghost use Rattle.gx_chain.specs.Chains.{IsSound};
ghost use Rattle.gx_pages.specs.Footprints.{KeepsPages, StaysQuiet};
ghost use Rattle.gx_pages.specs.Frees.{IsFull};
ghost use Rattle.gx_pages.specs.Pages.{HasCause};
ghost use Rattle.gx_pages.specs.Rows.{AreBelow};
ghost use Rattle.gx_gin_scan.specs.Gins.{HasList, HoldsGin};
ghost use Rattle.gx_gin_scan.specs.Lists.{Grows, Lists, rows_under};

use crate::growing::grown_posting;
use crate::postings::{broken, list_in, root_in};
use gx_gin_entry::EntryTree;
use gx_pages::{PageError, Pages, RowRef};
use gx_posting_tree::PostingTree;
use std::alloc::Global;

/// Puts a row behind those of the list of a key. At most 61 pages more are taken.
fn put_in_list<P: Pages>(
    alloc: Global,
    pages: &mut P,
    root: u64,
    key: &[u8],
    list: &[u8],
    row: RowRef,
) -> Result<(), PageError>
    requires { length key.now ≤ 1901 }
    ensures put { OnOk result (P.tells → (lists : Lists) (feet free : List ℕ) (gin : HoldsGin P.Pages pages.old root lists feet free) → HasList gin.held.entries key.now list.now → AreBelow (rows_under lists key.now) row.number
        → (after : Lists) × (later : List ℕ) × (rest : List ℕ) × HoldsGin P.Pages pages.new root after later rest × KeepsPages P.Pages pages.old pages.new feet free later rest × Grows (key.now ∷ []) row lists after) }
    ensures grows { P.count pages.old ≤ P.count pages.new }
    ensures by { P.count pages.new ≤ P.count pages.old + 61 }
    ensures cause { IfErr result (HasCause (P.faults pages.old) (P.faults pages.new)
        (λ at expected found. P.tells → (lists : Lists) (feet free : List ℕ) (gin : HoldsGin P.Pages pages.old root lists feet free) → HasList gin.held.entries key.now list.now → AreBelow (rows_under lists key.now) row.number → ⊥)
        (IsFull P.tells (P.map pages.new) (P.count pages.new)) (Unit {0})) }
    ensures heap { IsSound result → P.heap_fetches pages.new ≡ P.heap_fetches pages.old }
    ensures quiet { StaysQuiet P.Pages pages.old pages.new }
{
    let posting = grown_posting(alloc, pages, root, list, row)?;
    let mut tree = EntryTree::at(root);
    tree.put(alloc, pages, key, posting.as_slice())
}

/// Puts a row behind those of a key, all of which are below it. At most 61 pages more are taken.
pub fn put_row<P: Pages>(
    alloc: Global,
    pages: &mut P,
    root: u64,
    key: &[u8],
    row: RowRef,
) -> Result<(), PageError>
    requires { length key.now ≤ 1901 }
    ensures put { OnOk result (P.tells → (lists : Lists) (feet free : List ℕ) → HoldsGin P.Pages pages.old root lists feet free → AreBelow (rows_under lists key.now) row.number
        → (after : Lists) × (later : List ℕ) × (rest : List ℕ) × HoldsGin P.Pages pages.new root after later rest × KeepsPages P.Pages pages.old pages.new feet free later rest × Grows (key.now ∷ []) row lists after) }
    ensures grows { P.count pages.old ≤ P.count pages.new }
    ensures by { P.count pages.new ≤ P.count pages.old + 61 }
    ensures cause { IfErr result (HasCause (P.faults pages.old) (P.faults pages.new)
        (λ at expected found. P.tells → (lists : Lists) (feet free : List ℕ) → HoldsGin P.Pages pages.old root lists feet free → AreBelow (rows_under lists key.now) row.number → ⊥)
        (IsFull P.tells (P.map pages.new) (P.count pages.new)) (Unit {0})) }
    ensures heap { IsSound result → P.heap_fetches pages.new ≡ P.heap_fetches pages.old }
    ensures quiet { StaysQuiet P.Pages pages.old pages.new }
{
    let found = EntryTree::at(root).get(alloc, pages, key)?;
    let Some(posting) = found else {
        return put_in_list(alloc, pages, root, key, &[], row);
    };
    if let Some(list) = list_in(posting.as_slice()) {
        return put_in_list(alloc, pages, root, key, list, row);
    }
    let Some(root_page) = root_in(posting.as_slice()) else {
        return Err(broken(root));
    };
    let mut rows = PostingTree::at(root_page);
    rows.insert(alloc, pages, row)
}
