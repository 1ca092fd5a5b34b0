//! Rows that are taken out of the pages of level 0.

ghost use Rattle.std.specs.Prelude.{◌≡◌, ◌≢◌, ℕ, ◌+◌, ◌<◌, length, List, [], ◌∷◌, ◌++◌, map, Some, IfOk, IfErr, IfSome, OnOk};
ghost use Rattle.std.specs.List.{AllByRecursion};
ghost use Rattle.gx_pages.specs.declared.row.RowRef.{RowRef};
ghost use Rattle.gx_pages.specs.Footprints.{StaysQuiet};
ghost use Rattle.gx_pages.specs.Frees.{IsApart};
ghost use Rattle.gx_pages.specs.Pages.{HasCause};
ghost use Rattle.gx_posting.specs.Postings.{Spells, last_of};
ghost use Rattle.gx_slot.specs.Slots.{Fits, spelling};
ghost use Rattle.gx_chain.specs.Chains.{IsSound};
ghost use Rattle.gx_tree.specs.Trees.{Holds, HoldsNone, IsBrokenOr, IsOn, Leaf, Tree, items_of, leaves, numbers, slots};
ghost use Rattle.gx_tree.specs.Paging.{weight};
ghost use Rattle.gx_posting_tree.specs.PostingTrees.{AreSpelled, without};
ghost use Rattle.gx_posting_tree.specs.Removing.{IsKept, IsStripped, LostRows, unless_empty};

use crate::reading::{KIND, no_list};
use gx_bytes::{Bytes, NoMemory};
use gx_pages::{Bitmap, PageError, Pages, RowRef};
use gx_posting::{push_posting, read_posting};
use gx_slot::SlotPage;
use gx_tree::{TreePages, fetch_level, fetch_top, survey};
use std::alloc::Global;

/// Adds a row behind the last one of a list, where its number is none of those that go. Gives the last row then.
fn push_kept(
    item: &mut Bytes,
    last: Option<RowRef>,
    row: RowRef,
    gone: &Bitmap,
) -> Result<Option<RowRef>, NoMemory>
    requires { IfSome last (λ before. before.number < row.number) }
    ensures list { IfOk result (λ after. (rows : List RowRef) → Spells item.old rows → last_of rows ≡ last → Spells item.new (rows ++ without gone.now (row ∷ []))) }
    ensures last { IfOk result (λ after. (rows : List RowRef) → last_of rows ≡ last → last_of (rows ++ without gone.now (row ∷ [])) ≡ after) }
{
    if gone.has(row.number) {
        return Ok(last);
    }
    push_posting(item, last, row)?;
    Ok(Some(row))
}

/// The list of the rows that stay.
fn kept_list(alloc: Global, rows: &Bitmap, gone: &Bitmap) -> Result<Bytes, NoMemory>
    ensures { IfOk result (λ item. Spells item (without gone.now rows.now)) }
{
    let mut item = Bytes::new(alloc);
    let mut last = None;
    let list = rows.as_slice();
    for at in 0..list.len() {
        let row = list[at];
        last = push_kept(&mut item, last, row, gone)?;
    }
    Ok(item)
}

/// A posting list without some rows. Where the bytes spell no list, Broken names the page.
pub fn kept_item(alloc: Global, page: u64, item: &[u8], gone: &Bitmap) -> Result<Bytes, PageError>
    ensures kept { IfOk result (λ kept. (rows : List RowRef) → Spells item.now rows → Spells kept (without gone.now rows)) }
    ensures cause { IfErr result (IsBrokenOr page ((rows : List RowRef) → Spells item.now rows → ⊥)) }
{
    let mut rows = Bitmap::new(alloc);
    match read_posting(item, &mut rows) {
        Ok(true) => (),
        Ok(false) => return Err(no_list(page)),
        Err(_) => return Err(PageError::Memory),
    }
    let Ok(kept) = kept_list(alloc, &rows, gone) else {
        return Err(PageError::Memory);
    };
    Ok(kept)
}

/// Adds a list to a page, unless it is empty. Broken where the page has no room.
fn add_list(page: u64, to: &mut SlotPage, list: &[u8]) -> Result<(), PageError>
    ensures added { OnOk result ((items : List (List ℕ)) → to.old ≡ slots 6 0 (map (λ item. Some item) items) → to.new ≡ slots 6 0 (map (λ item. Some item) (items ++ unless_empty list.now))) }
    ensures cause { IfErr result (IsBrokenOr page ((items : List (List ℕ)) → to.old ≡ slots 6 0 (map (λ item. Some item) items) → 8176 < weight items + (4 + length list.now))) }
{
    if list.is_empty() {
        return Ok(());
    }
    match to.add(list) {
        Ok(_) => Ok(()),
        Err(_) => Err(no_list(page)),
    }
}

/// The lists of a page without some rows. A list of which no row stays is left out.
fn kept_page(alloc: Global, page: u64, was: &SlotPage, gone: &Bitmap) -> Result<SlotPage, PageError>
    ensures kept { IfOk result (λ kept. IsKept gone.now was.now kept) }
    ensures cause { IfErr result (IsBrokenOr page (Fits was.now → (items : List (List ℕ)) (rows : List RowRef) → was.now.items ≡ map (λ item. Some item) items → AreSpelled items rows → ⊥)) }
{
    let mut kept = SlotPage::new(KIND, 0);
    for slot in 0..was.count() {
        let Some(item) = was.item(slot) else {
            return Err(no_list(page));
        };
        let list = kept_item(alloc, page, item, gone)?;
        add_list(page, &mut kept, list.as_slice())?;
    }
    Ok(kept)
}

/// Puts what a page becomes, where it isn't what stands there.
fn put_changed<P: Pages>(
    pages: &mut P,
    page: u64,
    was: &SlotPage,
    is: &SlotPage,
) -> Result<(), PageError>
    requires { page ≢ 0 }
    ensures put { OnOk result (P.tells → P.map pages.old page ≡ Some (spelling was.now) → P.map pages.new page ≡ Some (spelling is.now)) }
    ensures others { OnOk result (P.tells → (n : ℕ) → n ≢ page → P.map pages.new n ≡ P.map pages.old n) }
    ensures count { P.count pages.new ≡ P.count pages.old }
    ensures cause { IfErr result (HasCause (P.faults pages.old) (P.faults pages.new) (λ at expected found. page < P.count pages.old → ⊥) (λ _. ⊥) (Unit {0})) }
    ensures heap { P.heap_fetches pages.new ≡ P.heap_fetches pages.old }
    ensures quiet { StaysQuiet P.Pages pages.old pages.new }
{
    if was.page().bytes() == is.page().bytes() {
        return Ok(());
    }
    pages.put(page, is.page())
}

/// Takes rows out of a page of level 0. True where nothing is left on it.
fn strip_page<P: Pages>(
    alloc: Global,
    pages: &mut P,
    page: u64,
    gone: &Bitmap,
) -> Result<bool, PageError>
    ensures stripped { IfOk result (λ empty. P.tells → (items : List (List ℕ)) → IsOn (P.map pages.old) 6 0 (page, items) → IsStripped gone.now (P.map pages.new) page items empty) }
    ensures others { OnOk result (P.tells → (n : ℕ) → n ≢ page → P.map pages.new n ≡ P.map pages.old n) }
    ensures nonzero { OnOk result (page ≢ 0) }
    ensures count { P.count pages.new ≡ P.count pages.old }
    ensures cause { IfErr result (HasCause (P.faults pages.old) (P.faults pages.new)
        (λ at expected found. P.tells → (items : List (List ℕ)) (rows : List RowRef) → IsOn (P.map pages.old) 6 0 (page, items) → page < P.count pages.old → AreSpelled items rows → ⊥)
        (λ _. ⊥) (Unit {0})) }
    ensures heap { IsSound result → P.heap_fetches pages.new ≡ P.heap_fetches pages.old }
    ensures quiet { StaysQuiet P.Pages pages.old pages.new }
{
    let was = fetch_level(pages, page, KIND, 0)?;
    let kept = kept_page(alloc, page, &was, gone)?;
    put_changed(pages, page, &was, &kept)?;
    Ok(kept.count() == 0)
}

/// Takes rows out of pages of level 0. True where nothing is left on them.
pub fn strip_pages<P: Pages>(
    alloc: Global,
    pages: &mut P,
    list: &[u64],
    gone: &Bitmap,
) -> Result<bool, PageError>
    ensures stripped { IfOk result (λ empty. P.tells → (leaves : List Leaf) → list.now ≡ numbers leaves → IsApart list.now → AllByRecursion (IsOn (P.map pages.old) 6 0) leaves
        → LostRows gone.now (P.map pages.old) (P.map pages.new) list.now leaves empty) }
    ensures count { P.count pages.new ≡ P.count pages.old }
    ensures cause { IfErr result (HasCause (P.faults pages.old) (P.faults pages.new)
        (λ at expected found. P.tells → (leaves : List Leaf) (rows : List RowRef) → list.now ≡ numbers leaves → IsApart list.now → AllByRecursion (IsOn (P.map pages.old) 6 0) leaves
        → AllByRecursion (λ page. page < P.count pages.old) list.now → AreSpelled (items_of leaves) rows → ⊥) (λ _. ⊥) (Unit {0})) }
    ensures heap { IsSound result → P.heap_fetches pages.new ≡ P.heap_fetches pages.old }
    ensures quiet { StaysQuiet P.Pages pages.old pages.new }
{
    let mut empty = true;
    for page in list {
        let none = strip_page(alloc, pages, *page, gone)?;
        empty = empty && none;
    }
    Ok(empty)
}

/// The pages of level 0 of a posting tree, in order.
pub fn leaf_list<P: Pages>(alloc: Global, pages: &mut P, root: u64) -> Result<Vec<u64>, PageError>
    ensures all { IfOk result (λ all. P.tells → (tree : Tree) → Holds (P.map pages.old) (P.count pages.old) 6 root tree → all.items ≡ numbers (leaves tree)) }
    ensures cause { IfErr result (HasCause (P.faults pages.old) (P.faults pages.new)
        (λ at expected found. P.tells → HoldsNone (P.map pages.old) (P.count pages.old) 6 root) (λ _. ⊥) (Unit {0})) }
    ensures map { P.map pages.new ≡ P.map pages.old }
    ensures count { P.count pages.new ≡ P.count pages.old }
    ensures heap { IsSound result → P.heap_fetches pages.new ≡ P.heap_fetches pages.old }
    ensures quiet { StaysQuiet P.Pages pages.old pages.new }
{
    let top = fetch_top(pages, root, KIND)?;
    if top.level() == 0 {
        let mut all = Vec::new(alloc);
        let Ok(()) = all.push(root) else {
            return Err(PageError::Memory);
        };
        return Ok(all);
    }
    let TreePages { leaves, .. } = survey(alloc, pages, root, KIND, &top)?;
    Ok(leaves)
}
