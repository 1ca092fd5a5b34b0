//! The rows of a key: in its entry, or in a posting tree.

ghost use Rattle.std.specs.Prelude.{◌≡◌, ◌≢◌, ℕ, ◌+◌, ◌^◌, ◌<◌, ◌≤◌, List, ◌∷◌, length, IfOk, IfErr, IfSome, IfNone, OnOk};
ghost use Rattle.gx_bytes.specs.Fields.{le64};
ghost use Rattle.gx_chain.specs.Chains.{IsSound};
ghost use Rattle.gx_pages.specs.declared.row.RowRef.{RowRef};
ghost use Rattle.gx_pages.specs.Footprints.{StaysQuiet};
ghost use Rattle.gx_pages.specs.Pages.{HasCause};
ghost use Rattle.gx_posting.specs.Postings.{Spells};
ghost use Rattle.gx_tree.specs.Trees.{IsBrokenOr};
ghost use Rattle.gx_gin_scan.specs.Gins.{HoldsLists, HoldsNoLists, IsPosting, pages_under};
ghost use Rattle.gx_gin_scan.specs.Lists.{Lists, rows_under};

use gx_bytes::{Bytes, get_u64};
use gx_gin_entry::EntryTree;
use gx_pages::{Bitmap, PageError, Pages};
use gx_posting::read_posting;
use gx_posting_tree::PostingTree;
use std::alloc::Global;

/// The byte before the root page of a posting tree; before a list stands 0.
pub const TREE: u8 = 1;

/// The posting of a key isn't as it has to be.
pub fn broken(page: u64) -> PageError
    ensures { result ≡ PageError.Broken page 1 0 }
{
    PageError::Broken {
        page,
        expected: 1,
        found: 0,
    }
}

/// The posting list in a posting. None where it has none.
pub fn list_in(posting: &[u8]) -> Option<&[u8]>
    ensures some { IfSome result (λ list. posting.now ≡ 0 ∷ list.now) }
    ensures none { IfNone result ((list : List ℕ) → posting.now ≢ 0 ∷ list) }
{
    let (first, list) = posting.split_first()?;
    if *first == 0 { Some(list) } else { None }
}

/// The root page of a posting tree in a posting. None where it has none.
pub fn root_in(posting: &[u8]) -> Option<u64>
    ensures some { IfSome result (λ root. posting.now ≡ 1 ∷ le64 root) }
    ensures fits { IfSome result (λ root. root < 2 ^ 64) }
    ensures none { IfNone result ((root : ℕ) → posting.now ≢ 1 ∷ le64 root) }
{
    let (first, field) = posting.split_first()?;
    if *first == TREE && field.len() == 8 {
        get_u64(field, 0)
    } else {
        None
    }
}

/// The rows that a posting list spells.
pub fn rows_of_list(alloc: Global, page: u64, list: &[u8]) -> Result<Bitmap, PageError>
    ensures spelled { IfOk result (λ found. Spells list.now found) }
    ensures rows { IfOk result (λ found. (rows : List RowRef) → Spells list.now rows → found ≡ rows) }
    ensures cause { IfErr result (IsBrokenOr page ((rows : List RowRef) → Spells list.now rows → ⊥)) }
{
    let mut found = Bitmap::new(alloc);
    match read_posting(list, &mut found) {
        Ok(true) => Ok(found),
        Ok(false) => Err(broken(page)),
        Err(_) => Err(PageError::Memory),
    }
}

/// The rows of a posting. Each page of a posting tree is fetched once.
pub fn rows_of_posting<P: Pages>(
    alloc: Global,
    pages: &mut P,
    page: u64,
    posting: &[u8],
) -> Result<Bitmap, PageError>
    ensures rows { IfOk result (λ found. P.tells → (rows : List RowRef) (feet : List ℕ) → IsPosting (P.map pages.old) (P.count pages.old) posting.now rows feet → found ≡ rows) }
    ensures fetches { OnOk result (P.tells → (rows : List RowRef) (feet : List ℕ) → IsPosting (P.map pages.old) (P.count pages.old) posting.now rows feet
        → P.fetches pages.new ≤ P.fetches pages.old + length feet) }
    ensures cause { IfErr result (HasCause (P.faults pages.old) (P.faults pages.new)
        (λ at expected found. P.tells → (rows : List RowRef) (feet : List ℕ) → IsPosting (P.map pages.old) (P.count pages.old) posting.now rows feet → ⊥) (λ _. ⊥) (Unit {0})) }
    ensures map { P.map pages.new ≡ P.map pages.old }
    ensures count { P.count pages.new ≡ P.count pages.old }
    ensures heap { IsSound result → P.heap_fetches pages.new ≡ P.heap_fetches pages.old }
    ensures quiet { StaysQuiet P.Pages pages.old pages.new }
{
    if let Some(list) = list_in(posting) {
        return rows_of_list(alloc, page, list);
    }
    let Some(root) = root_in(posting) else {
        return Err(broken(page));
    };
    PostingTree::at(root).rows(alloc, pages)
}

/// The rows of a key. A page a level is fetched, and each page of its posting tree once.
pub fn rows_of_key<P: Pages>(
    alloc: Global,
    pages: &mut P,
    root: u64,
    key: &[u8],
) -> Result<Bitmap, PageError>
    ensures rows { IfOk result (λ found. P.tells → (lists : Lists) (feet : List ℕ) → HoldsLists (P.map pages.old) (P.count pages.old) root lists feet → found ≡ rows_under lists key.now) }
    ensures fetches { OnOk result (P.tells → (lists : Lists) (feet : List ℕ) (held : HoldsLists (P.map pages.old) (P.count pages.old) root lists feet)
        → P.fetches pages.new ≤ P.fetches pages.old + (held.held.tree.0 + 1 + length (pages_under (P.map pages.old) (P.count pages.old) held.entries lists held.trees held.are key.now))) }
    ensures cause { IfErr result (HasCause (P.faults pages.old) (P.faults pages.new)
        (λ at expected found. P.tells → HoldsNoLists (P.map pages.old) (P.count pages.old) root) (λ _. ⊥) (Unit {0})) }
    ensures map { P.map pages.new ≡ P.map pages.old }
    ensures count { P.count pages.new ≡ P.count pages.old }
    ensures heap { IsSound result → P.heap_fetches pages.new ≡ P.heap_fetches pages.old }
    ensures quiet { StaysQuiet P.Pages pages.old pages.new }
{
    let posting = EntryTree::at(root).get(alloc, pages, key)?;
    let Some(posting) = posting else {
        return Ok(Bitmap::new(alloc));
    };
    rows_of_posting(alloc, pages, root, posting.as_slice())
}
