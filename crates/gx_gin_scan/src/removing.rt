//! Rows that are taken out of an index.

ghost use Rattle.std.specs.Prelude.{◌≡◌, ℕ, ◌≤◌, List, ◌∷◌, ◌++◌, length, IfErr, IfOk, OnOk};
ghost use Rattle.gx_bytes.specs.Fields.{le64};
ghost use Rattle.gx_chain.specs.Chains.{IsSound};
ghost use Rattle.gx_pages.specs.Footprints.{StaysQuiet};
ghost use Rattle.gx_pages.specs.Pages.{HasCause};
ghost use Rattle.gx_gin_entry.specs.EntryTrees.{Entry};
ghost use Rattle.gx_gin_entry.specs.Listed.{entries_of};
ghost use Rattle.gx_gin_scan.specs.Gins.{HoldsGin};
ghost use Rattle.gx_gin_scan.specs.Lists.{Lists};
ghost use Rattle.gx_gin_scan.specs.Removing.{LosesAll, LosesRows};

use crate::growing::LONGEST;
use crate::postings::{broken, list_in, root_in};
use gx_bytes::{Bytes, NoMemory};
use gx_gin_entry::{EntryBytes, EntryTree};
use gx_pages::{Bitmap, PageError, Pages};
use gx_posting_tree::{PostingTree, kept_item};
use std::alloc::Global;

/// A key has no more bytes.
const LONGEST_KEY: usize = 1901;

/// The posting of a list.
fn list_posting(alloc: Global, list: &[u8]) -> Result<Bytes, NoMemory>
    ensures { IfOk result (λ posting. posting ≡ 0 ∷ list.now) }
{
    let mut posting = Bytes::from_slice(alloc, &[0])?;
    posting.extend_from_slice(list)?;
    Ok(posting)
}

/// Takes rows out of the list of an entry. The entry goes where none is left, and isn't written where none of them stands there.
fn strip_list<P: Pages>(
    alloc: Global,
    pages: &mut P,
    root: u64,
    key: &[u8],
    list: &[u8],
    gone: &Bitmap,
) -> Result<(), PageError>
    requires { length key.now ≤ 1901 }
    ensures stripped { OnOk result (P.tells → (lists : Lists) (feet free : List ℕ) (gin : HoldsGin P.Pages pages.old root lists feet free) (front back : List Entry) → gin.held.entries ≡ front ++ (key.now, 0 ∷ list.now) ∷ back
        → LosesRows P.Pages pages.old pages.new root lists feet free front key.now back gone.now) }
    ensures count { P.count pages.new ≡ P.count pages.old }
    ensures cause { IfErr result (HasCause (P.faults pages.old) (P.faults pages.new)
        (λ at expected found. P.tells → (lists : Lists) (feet free : List ℕ) (gin : HoldsGin P.Pages pages.old root lists feet free) (front back : List Entry) → gin.held.entries ≡ front ++ (key.now, 0 ∷ list.now) ∷ back → ⊥)
        (λ _. ⊥) (Unit {0})) }
    ensures heap { IsSound result → P.heap_fetches pages.new ≡ P.heap_fetches pages.old }
    ensures quiet { StaysQuiet P.Pages pages.old pages.new }
{
    let kept = kept_item(alloc, root, list, gone)?;
    if kept.as_slice() == list {
        return Ok(());
    }
    let mut tree = EntryTree::at(root);
    if kept.is_empty() {
        return tree.remove(pages, key);
    }
    if kept.len() > LONGEST {
        return Err(broken(root));
    }
    let Ok(posting) = list_posting(alloc, kept.as_slice()) else {
        return Err(PageError::Memory);
    };
    let done = tree.replace(alloc, pages, key, posting.as_slice())?;
    if done { Ok(()) } else { Err(broken(root)) }
}

/// Takes rows out of the posting tree of an entry. Both go where none is left.
fn strip_tree<P: Pages>(
    alloc: Global,
    pages: &mut P,
    root: u64,
    key: &[u8],
    tree: u64,
    gone: &Bitmap,
) -> Result<(), PageError>
    ensures stripped { OnOk result (P.tells → (lists : Lists) (feet free : List ℕ) (gin : HoldsGin P.Pages pages.old root lists feet free) (front back : List Entry) → gin.held.entries ≡ front ++ (key.now, 1 ∷ le64 tree) ∷ back
        → LosesRows P.Pages pages.old pages.new root lists feet free front key.now back gone.now) }
    ensures count { P.count pages.new ≡ P.count pages.old }
    ensures cause { IfErr result (HasCause (P.faults pages.old) (P.faults pages.new)
        (λ at expected found. P.tells → (lists : Lists) (feet free : List ℕ) (gin : HoldsGin P.Pages pages.old root lists feet free) (front back : List Entry) → gin.held.entries ≡ front ++ (key.now, 1 ∷ le64 tree) ∷ back → ⊥)
        (λ _. ⊥) (Unit {0})) }
    ensures heap { IsSound result → P.heap_fetches pages.new ≡ P.heap_fetches pages.old }
    ensures quiet { StaysQuiet P.Pages pages.old pages.new }
{
    let mut rows = PostingTree::at(tree);
    let empty = rows.remove_rows(alloc, pages, gone)?;
    if !empty {
        return Ok(());
    }
    rows.drop_all(alloc, pages)?;
    let mut entries = EntryTree::at(root);
    entries.remove(pages, key)
}

/// Takes rows out of what an entry has.
fn strip_entry<P: Pages>(
    alloc: Global,
    pages: &mut P,
    root: u64,
    entry: &EntryBytes,
    gone: &Bitmap,
) -> Result<(), PageError>
    ensures stripped { OnOk result (P.tells → (lists : Lists) (feet free : List ℕ) (gin : HoldsGin P.Pages pages.old root lists feet free) (front back : List Entry) → gin.held.entries ≡ front ++ (entry.now.key, entry.now.posting) ∷ back
        → LosesRows P.Pages pages.old pages.new root lists feet free front entry.now.key back gone.now) }
    ensures count { P.count pages.new ≡ P.count pages.old }
    ensures cause { IfErr result (HasCause (P.faults pages.old) (P.faults pages.new)
        (λ at expected found. P.tells → (lists : Lists) (feet free : List ℕ) (gin : HoldsGin P.Pages pages.old root lists feet free) (front back : List Entry) → gin.held.entries ≡ front ++ (entry.now.key, entry.now.posting) ∷ back → ⊥)
        (λ _. ⊥) (Unit {0})) }
    ensures heap { IsSound result → P.heap_fetches pages.new ≡ P.heap_fetches pages.old }
    ensures quiet { StaysQuiet P.Pages pages.old pages.new }
{
    let key = entry.key.as_slice();
    if key.len() > LONGEST_KEY {
        return Err(broken(root));
    }
    let posting = entry.posting.as_slice();
    if let Some(list) = list_in(posting) {
        return strip_list(alloc, pages, root, key, list, gone);
    }
    let Some(tree) = root_in(posting) else {
        return Err(broken(root));
    };
    strip_tree(alloc, pages, root, key, tree, gone)
}

/// Takes rows out of what all entries have.
pub fn strip_entries<P: Pages>(
    alloc: Global,
    pages: &mut P,
    root: u64,
    entries: &[EntryBytes],
    gone: &Bitmap,
) -> Result<(), PageError>
    ensures stripped { OnOk result (P.tells → (lists : Lists) (feet free : List ℕ) (gin : HoldsGin P.Pages pages.old root lists feet free) → gin.held.entries ≡ entries_of entries.now
        → LosesAll P.Pages pages.old pages.new root lists feet free gone.now) }
    ensures count { P.count pages.new ≡ P.count pages.old }
    ensures cause { IfErr result (HasCause (P.faults pages.old) (P.faults pages.new)
        (λ at expected found. P.tells → (lists : Lists) (feet free : List ℕ) (gin : HoldsGin P.Pages pages.old root lists feet free) → gin.held.entries ≡ entries_of entries.now → ⊥)
        (λ _. ⊥) (Unit {0})) }
    ensures heap { IsSound result → P.heap_fetches pages.new ≡ P.heap_fetches pages.old }
    ensures quiet { StaysQuiet P.Pages pages.old pages.new }
{
    for entry in entries {
        strip_entry(alloc, pages, root, entry, gone)?;
    }
    Ok(())
}
