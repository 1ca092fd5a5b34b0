//! The rows that a query looks at, and those of them that pass.

ghost use Rattle.std.specs.Prelude.{◌≡◌, ◌≢◌, ◌↔◌, ℕ, ◌+◌, ◌≤◌, List, [], ◌∷◌, ◌++◌, if◌then◌else◌, length, map, Contains, IfOk, IfErr, OnOk};
ghost use Rattle.std.specs.List.Sorted.{IsNonDecreasingBy};
ghost use Rattle.gx_chain.specs.Chains.{IsSound};
ghost use Rattle.gx_pages.specs.declared.row.RowRef.{RowRef};
ghost use Rattle.gx_pages.specs.Footprints.{StaysQuiet};
ghost use Rattle.gx_pages.specs.Pages.{HasCause};
ghost use Rattle.gx_pages.specs.Rows.{AreBelow, HasNumber, IsRising};
ghost use Rattle.gx_gin_scan.specs.Gins.{HoldsLists, HoldsNoLists};
ghost use Rattle.gx_gin_scan.specs.Lists.{Lists, isnt_no, rows_under};
ghost use Rattle.gx_gin_scan.specs.Searches.{item_key, joined, lists_of, marks, pages_read, picked};

use crate::postings::rows_of_key;
use gx_bytes::{Bytes, NoMemory};
use gx_gin::{GinClass, Items};
use gx_gist::Test;
use gx_pages::{Bitmap, PageError, Pages, RowRef};
use std::alloc::Global;

/// The key of an item: byte 1 before it.
pub fn key_of(alloc: Global, item: &[u8]) -> Result<Bytes, PageError>
    ensures key { IfOk result (λ key. key ≡ item_key item.now) }
    ensures err { IfErr result (λ error. error ≡ PageError.Memory) }
{
    let Ok(mut key) = Bytes::from_slice(alloc, &[1]) else {
        return Err(PageError::Memory);
    };
    match key.extend_from_slice(item) {
        Ok(()) => Ok(key),
        Err(_) => Err(PageError::Memory),
    }
}

/// The rows of an item.
fn rows_of_item<P: Pages>(
    alloc: Global,
    pages: &mut P,
    root: u64,
    item: &[u8],
) -> Result<Bitmap, PageError>
    ensures rows { IfOk result (λ found. P.tells → (lists : Lists) (feet : List ℕ) → HoldsLists (P.map pages.old) (P.count pages.old) root lists feet → found ≡ rows_under lists (item_key item.now)) }
    ensures fetches { OnOk result (P.tells → (lists : Lists) (feet : List ℕ) (held : HoldsLists (P.map pages.old) (P.count pages.old) root lists feet)
        → P.fetches pages.new ≤ P.fetches pages.old + pages_read (P.map pages.old) (P.count pages.old) root lists feet held (item_key item.now ∷ [])) }
    ensures cause { IfErr result (HasCause (P.faults pages.old) (P.faults pages.new)
        (λ at expected found. P.tells → HoldsNoLists (P.map pages.old) (P.count pages.old) root) (λ _. ⊥) (Unit {0})) }
    ensures map { P.map pages.new ≡ P.map pages.old }
    ensures count { P.count pages.new ≡ P.count pages.old }
    ensures heap { IsSound result → P.heap_fetches pages.new ≡ P.heap_fetches pages.old }
    ensures quiet { StaysQuiet P.Pages pages.old pages.new }
{
    let key = key_of(alloc, item)?;
    rows_of_key(alloc, pages, root, key.as_slice())
}

/// The rows of each item.
pub fn rows_of_items<P: Pages>(
    alloc: Global,
    pages: &mut P,
    root: u64,
    items: &Items,
) -> Result<Vec<Bitmap>, PageError>
    ensures lists { IfOk result (λ found. P.tells → (lists : Lists) (feet : List ℕ) → HoldsLists (P.map pages.old) (P.count pages.old) root lists feet → found.items ≡ lists_of lists items.now) }
    ensures length { IfOk result (λ found. length found.items ≡ length items.now) }
    ensures fetches { OnOk result (P.tells → (lists : Lists) (feet : List ℕ) (held : HoldsLists (P.map pages.old) (P.count pages.old) root lists feet)
        → P.fetches pages.new ≤ P.fetches pages.old + pages_read (P.map pages.old) (P.count pages.old) root lists feet held (map item_key items.now)) }
    ensures cause { IfErr result (HasCause (P.faults pages.old) (P.faults pages.new)
        (λ at expected found. P.tells → HoldsNoLists (P.map pages.old) (P.count pages.old) root) (λ _. ⊥) (Unit {0})) }
    ensures map { P.map pages.new ≡ P.map pages.old }
    ensures count { P.count pages.new ≡ P.count pages.old }
    ensures heap { IsSound result → P.heap_fetches pages.new ≡ P.heap_fetches pages.old }
    ensures quiet { StaysQuiet P.Pages pages.old pages.new }
{
    let mut found = Vec::new(alloc);
    for at in 0..items.len() {
        let Some(item) = items.get(at) else {
            unreachable!()
        };
        let rows = rows_of_item(alloc, pages, root, item)?;
        let Ok(()) = found.push(rows) else {
            return Err(PageError::Memory);
        };
    }
    Ok(found)
}

/// Adds rows at the end.
pub fn push_rows(rows: &Bitmap, to: &mut Vec<RowRef>) -> Result<(), PageError>
    ensures ok { OnOk result (to.new.items ≡ to.old.items ++ rows.now) }
    ensures err { IfErr result (λ error. error ≡ PageError.Memory) }
{
    match to.extend_from_slice(rows.as_slice()) {
        Ok(()) => Ok(()),
        Err(_) => Err(PageError::Memory),
    }
}

/// The rows of lists, one list behind another.
pub fn join(alloc: Global, lists: &[Bitmap]) -> Result<Vec<RowRef>, PageError>
    ensures rows { IfOk result (λ rows. rows.items ≡ joined lists.now) }
    ensures err { IfErr result (λ error. error ≡ PageError.Memory) }
{
    let mut rows = Vec::new(alloc);
    for list in lists {
        push_rows(list, &mut rows)?;
    }
    Ok(rows)
}

/// Rows in any order by rising numbers, one of each number.
pub fn arrange(alloc: Global, rows: Vec<RowRef>) -> Result<Bitmap, PageError>
    ensures numbers { IfOk result (λ found. (number : ℕ) → HasNumber found number ↔ HasNumber rows.items number) }
    ensures rows { IfOk result (λ found. (row : RowRef) → Contains found row → Contains rows.items row) }
    ensures rising { IfOk result (λ found. IsRising found) }
    ensures err { IfErr result (λ error. error ≡ PageError.Memory) }
{
    let mut rows = rows;
    rows.sort_unstable_by_key(|row| row.number);
    first_of_each(alloc, rows.as_slice())
}

/// The first row of each number.
fn first_of_each(alloc: Global, rows: &[RowRef]) -> Result<Bitmap, PageError>
    requires { IsNonDecreasingBy (λ row. row.number) rows.now }
    ensures numbers { IfOk result (λ found. (number : ℕ) → HasNumber found number ↔ HasNumber rows.now number) }
    ensures rows { IfOk result (λ found. (row : RowRef) → Contains found row → Contains rows.now row) }
    ensures rising { IfOk result (λ found. IsRising found) }
    ensures err { IfErr result (λ error. error ≡ PageError.Memory) }
{
    let mut found = Bitmap::new(alloc);
    for row in rows {
        push_later(&mut found, *row)?;
    }
    let _rising = found.as_slice();
    Ok(found)
}

/// Adds a row where its number is above all that stand.
fn push_later(to: &mut Bitmap, row: RowRef) -> Result<(), PageError>
    ensures added { OnOk result (AreBelow to.old row.number → to.new ≡ to.old ++ row ∷ []) }
    ensures left { OnOk result ((AreBelow to.old row.number → ⊥) → to.new ≡ to.old) }
    ensures err { IfErr result (λ error. error ≡ PageError.Memory) }
{
    if !to.is_below(row.number) {
        return Ok(());
    }
    match to.push(row) {
        Ok(()) => Ok(()),
        Err(_) => Err(PageError::Memory),
    }
}

/// For each list, whether the row of this number is in it: by halving.
fn marks_of(alloc: Global, lists: &[Bitmap], number: u64) -> Result<Vec<bool>, NoMemory>
    ensures { IfOk result (λ found. found.items ≡ marks lists.now number) }
{
    let mut found = Vec::new(alloc);
    for list in lists {
        found.push(list.has(number))?;
    }
    Ok(found)
}

/// Tells whether the marks of the row of this number don't rule it out.
fn is_picked<C: GinClass>(
    alloc: Global,
    class: &C,
    query: &C::Query,
    lists: &[Bitmap],
    number: u64,
) -> Result<bool, PageError>
    requires class { C.valid class.now }
    requires query { C.valid_query class.now query.now }
    requires lists { length lists.now ≡ length (C.wanted_of class.now query.now) }
    ensures picked { IfOk result (λ yes. yes ≡ isnt_no (C.passes_of class.now query.now (marks lists.now number))) }
    ensures err { IfErr result (λ error. error ≡ PageError.Memory) }
{
    let Ok(marks) = marks_of(alloc, lists, number) else {
        return Err(PageError::Memory);
    };
    match class.passes(query, marks.as_slice()) {
        Test::No => Ok(false),
        Test::Maybe => Ok(true),
        Test::Yes => Ok(true),
    }
}

/// Adds a row where it is one to be kept.
fn push_kept(to: &mut Bitmap, row: RowRef, kept: bool) -> Result<(), PageError>
    requires { AreBelow to.old row.number }
    ensures ok { OnOk result (to.new ≡ to.old ++ (if kept then row ∷ [] else [])) }
    ensures err { IfErr result (λ error. error ≡ PageError.Memory) }
{
    if !kept {
        return Ok(());
    }
    match to.push(row) {
        Ok(()) => Ok(()),
        Err(_) => Err(PageError::Memory),
    }
}

/// The rows that the marks of the wanted lists don't rule out.
pub fn pick<C: GinClass>(
    alloc: Global,
    class: &C,
    query: &C::Query,
    lists: &[Bitmap],
    rows: &Bitmap,
) -> Result<Bitmap, PageError>
    requires class { C.valid class.now }
    requires query { C.valid_query class.now query.now }
    requires lists { length lists.now ≡ length (C.wanted_of class.now query.now) }
    ensures found { IfOk result (λ found. found ≡ picked (C.passes_of class.now query.now) lists.now rows.now) }
    ensures err { IfErr result (λ error. error ≡ PageError.Memory) }
{
    let mut found = Bitmap::new(alloc);
    for row in rows.as_slice() {
        let kept = is_picked(alloc, class, query, lists, row.number)?;
        push_kept(&mut found, *row, kept)?;
    }
    Ok(found)
}
