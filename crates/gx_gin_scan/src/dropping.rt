//! The pages of posting trees, given back.

ghost use Rattle.std.specs.Prelude.{◌≡◌, ℕ, List, [], ◌++◌, IfErr, OnOk};
ghost use Rattle.gx_chain.specs.Chains.{IsSound};
ghost use Rattle.gx_pages.specs.declared.row.RowRef.{RowRef};
ghost use Rattle.gx_pages.specs.Footprints.{KeepsPages, StaysQuiet};
ghost use Rattle.gx_pages.specs.Frees.{IsApart, IsFreeList};
ghost use Rattle.gx_pages.specs.Pages.{HasCause};
ghost use Rattle.gx_gin_entry.specs.Listed.{entries_of};
ghost use Rattle.gx_gin_scan.specs.Gins.{AreHeld, IsPosting};
ghost use Rattle.gx_gin_scan.specs.Lists.{Lists};

use crate::postings::{broken, list_in, root_in};
use gx_gin_entry::EntryBytes;
use gx_pages::{PageError, Pages};
use gx_posting_tree::PostingTree;
use std::alloc::Global;

/// Gives back the pages of a posting.
fn drop_posting<P: Pages>(
    alloc: Global,
    pages: &mut P,
    page: u64,
    posting: &[u8],
) -> Result<(), PageError>
    ensures dropped { OnOk result (P.tells → (rows : List RowRef) (feet free : List ℕ) → IsPosting (P.map pages.old) (P.count pages.old) posting.now rows feet → IsFreeList (P.map pages.old) (P.count pages.old) free → IsApart (feet ++ free)
        → (rest : List ℕ) × KeepsPages P.Pages pages.old pages.new feet free [] rest) }
    ensures count { P.count pages.new ≡ P.count pages.old }
    ensures cause { IfErr result (HasCause (P.faults pages.old) (P.faults pages.new)
        (λ at expected found. P.tells → (rows : List RowRef) (feet free : List ℕ) → IsPosting (P.map pages.old) (P.count pages.old) posting.now rows feet → IsFreeList (P.map pages.old) (P.count pages.old) free → IsApart (feet ++ free) → ⊥)
        (λ _. ⊥) (Unit {0})) }
    ensures heap { IsSound result → P.heap_fetches pages.new ≡ P.heap_fetches pages.old }
    ensures quiet { StaysQuiet P.Pages pages.old pages.new }
{
    if let Some(_list) = list_in(posting) {
        return Ok(());
    }
    let Some(root) = root_in(posting) else {
        return Err(broken(page));
    };
    PostingTree::at(root).drop_all(alloc, pages)
}

/// Gives back the pages of the postings of entries.
pub fn drop_postings<P: Pages>(
    alloc: Global,
    pages: &mut P,
    page: u64,
    entries: &[EntryBytes],
) -> Result<(), PageError>
    ensures dropped { OnOk result (P.tells → (lists : Lists) (feet free : List ℕ) → AreHeld (P.map pages.old) (P.count pages.old) (entries_of entries.now) lists feet → IsFreeList (P.map pages.old) (P.count pages.old) free → IsApart (feet ++ free)
        → (rest : List ℕ) × KeepsPages P.Pages pages.old pages.new feet free [] rest) }
    ensures count { P.count pages.new ≡ P.count pages.old }
    ensures cause { IfErr result (HasCause (P.faults pages.old) (P.faults pages.new)
        (λ at expected found. P.tells → (lists : Lists) (feet free : List ℕ) → AreHeld (P.map pages.old) (P.count pages.old) (entries_of entries.now) lists feet → IsFreeList (P.map pages.old) (P.count pages.old) free → IsApart (feet ++ free) → ⊥)
        (λ _. ⊥) (Unit {0})) }
    ensures heap { IsSound result → P.heap_fetches pages.new ≡ P.heap_fetches pages.old }
    ensures quiet { StaysQuiet P.Pages pages.old pages.new }
{
    for entry in entries {
        drop_posting(alloc, pages, page, entry.posting.as_slice())?;
    }
    Ok(())
}
