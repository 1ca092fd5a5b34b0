//! The rows that a query looks at.

ghost use Rattle.std.specs.Prelude.{◌≡◌, ◌≢◌, ℕ, ◌+◌, ◌≤◌, List, [], ◌∷◌, ◌++◌, IfOk, IfErr, OnOk};
ghost use Rattle.gx_chain.specs.Chains.{IsSound};
ghost use Rattle.gx_pages.specs.declared.row.RowRef.{RowRef};
ghost use Rattle.gx_pages.specs.Footprints.{StaysQuiet};
ghost use Rattle.gx_pages.specs.Pages.{HasCause};
ghost use Rattle.gx_gin.specs.declared.wanted.Mode.TheVariants.{All};
ghost use Rattle.gx_gin_entry.specs.Listed.{entries_of};
ghost use Rattle.gx_gin_scan.specs.Gins.{AreHeld, HoldsLists, HoldsNoLists};
ghost use Rattle.gx_gin_scan.specs.Lists.{Lists, rows_under};
ghost use Rattle.gx_gin_scan.specs.Searches.{all_rows, joined, looked_at, more_keys, pages_read, placeholder};

use crate::postings::{rows_of_key, rows_of_posting};
use crate::searching::{join, push_rows};
use gx_gin::Mode;
use gx_gin_entry::{EntryBytes, EntryTree};
use gx_pages::{Bitmap, PageError, Pages, RowRef};
use std::alloc::Global;

/// The rows of these entries.
fn rows_of_entries<P: Pages>(
    alloc: Global,
    pages: &mut P,
    page: u64,
    entries: &[EntryBytes],
) -> Result<Vec<RowRef>, PageError>
    ensures rows { IfOk result (λ rows. P.tells → (lists : Lists) (feet : List ℕ) → AreHeld (P.map pages.old) (P.count pages.old) (entries_of entries.now) lists feet → rows.items ≡ all_rows lists) }
    ensures cause { IfErr result (HasCause (P.faults pages.old) (P.faults pages.new)
        (λ at expected found. P.tells → (lists : Lists) (feet : List ℕ) → AreHeld (P.map pages.old) (P.count pages.old) (entries_of entries.now) lists feet → ⊥) (λ _. ⊥) (Unit {0})) }
    ensures map { P.map pages.new ≡ P.map pages.old }
    ensures count { P.count pages.new ≡ P.count pages.old }
    ensures heap { IsSound result → P.heap_fetches pages.new ≡ P.heap_fetches pages.old }
    ensures quiet { StaysQuiet P.Pages pages.old pages.new }
{
    let mut rows = Vec::new(alloc);
    for entry in entries {
        let list = rows_of_posting(alloc, pages, page, entry.posting.as_slice())?;
        push_rows(&list, &mut rows)?;
    }
    Ok(rows)
}

/// The rows of all keys. Each page of the index is fetched once.
fn every_row<P: Pages>(alloc: Global, pages: &mut P, root: u64) -> Result<Vec<RowRef>, PageError>
    ensures rows { IfOk result (λ rows. P.tells → (lists : Lists) (feet : List ℕ) → HoldsLists (P.map pages.old) (P.count pages.old) root lists feet → rows.items ≡ all_rows lists) }
    ensures cause { IfErr result (HasCause (P.faults pages.old) (P.faults pages.new)
        (λ at expected found. P.tells → HoldsNoLists (P.map pages.old) (P.count pages.old) root) (λ _. ⊥) (Unit {0})) }
    ensures map { P.map pages.new ≡ P.map pages.old }
    ensures count { P.count pages.new ≡ P.count pages.old }
    ensures heap { IsSound result → P.heap_fetches pages.new ≡ P.heap_fetches pages.old }
    ensures quiet { StaysQuiet P.Pages pages.old pages.new }
{
    let entries = EntryTree::at(root).entries(alloc, pages)?;
    rows_of_entries(alloc, pages, root, entries.as_slice())
}

/// The rows of lists, and those without items.
fn with_empty<P: Pages>(
    alloc: Global,
    pages: &mut P,
    root: u64,
    found: &[Bitmap],
) -> Result<Vec<RowRef>, PageError>
    ensures rows { IfOk result (λ rows. P.tells → (lists : Lists) (feet : List ℕ) → HoldsLists (P.map pages.old) (P.count pages.old) root lists feet → rows.items ≡ joined found.now ++ rows_under lists placeholder) }
    ensures fetches { OnOk result (P.tells → (lists : Lists) (feet : List ℕ) (held : HoldsLists (P.map pages.old) (P.count pages.old) root lists feet)
        → P.fetches pages.new ≤ P.fetches pages.old + pages_read (P.map pages.old) (P.count pages.old) root lists feet held (placeholder ∷ [])) }
    ensures cause { IfErr result (HasCause (P.faults pages.old) (P.faults pages.new)
        (λ at expected found. P.tells → HoldsNoLists (P.map pages.old) (P.count pages.old) root) (λ _. ⊥) (Unit {0})) }
    ensures map { P.map pages.new ≡ P.map pages.old }
    ensures count { P.count pages.new ≡ P.count pages.old }
    ensures heap { IsSound result → P.heap_fetches pages.new ≡ P.heap_fetches pages.old }
    ensures quiet { StaysQuiet P.Pages pages.old pages.new }
{
    let empty = rows_of_key(alloc, pages, root, &[0])?;
    let mut rows = join(alloc, found)?;
    push_rows(&empty, &mut rows)?;
    Ok(rows)
}

/// The rows that a query in this mode looks at, in any order, where these are the lists of its items.
pub fn rows_looked_at<P: Pages>(
    alloc: Global,
    pages: &mut P,
    root: u64,
    mode: Mode,
    found: &[Bitmap],
) -> Result<Vec<RowRef>, PageError>
    ensures rows { IfOk result (λ rows. P.tells → (lists : Lists) (feet : List ℕ) → HoldsLists (P.map pages.old) (P.count pages.old) root lists feet → rows.items ≡ looked_at lists mode found.now) }
    ensures fetches { OnOk result (mode ≢ All → P.tells → (lists : Lists) (feet : List ℕ) (held : HoldsLists (P.map pages.old) (P.count pages.old) root lists feet)
        → P.fetches pages.new ≤ P.fetches pages.old + pages_read (P.map pages.old) (P.count pages.old) root lists feet held (more_keys mode)) }
    ensures cause { IfErr result (HasCause (P.faults pages.old) (P.faults pages.new)
        (λ at expected found. P.tells → HoldsNoLists (P.map pages.old) (P.count pages.old) root) (λ _. ⊥) (Unit {0})) }
    ensures map { P.map pages.new ≡ P.map pages.old }
    ensures count { P.count pages.new ≡ P.count pages.old }
    ensures heap { IsSound result → P.heap_fetches pages.new ≡ P.heap_fetches pages.old }
    ensures quiet { StaysQuiet P.Pages pages.old pages.new }
{
    match mode {
        Mode::Default => join(alloc, found),
        Mode::IncludeEmpty => with_empty(alloc, pages, root, found),
        Mode::All => every_row(alloc, pages, root),
    }
}
