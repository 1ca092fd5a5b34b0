//! A walk over the rows of a table.

ghost use Rattle.std.specs.Prelude.{◌≡◌, ◌≢◌, ℕ, ◌+◌, ◌≤◌, List, [], ◌∷◌, Option, IfOk, IfErr, OnOk};
ghost use Rattle.gx_pages.specs.Footprints.{StaysQuiet};
ghost use Rattle.gx_pages.specs.Pages.{HasCause};
ghost use Rattle.gx_heap.specs.Heaps.{Row, HoldsHeap};
ghost use Rattle.gx_value.specs.Rows.{SpellsRow};
ghost use Rattle.gx_value.specs.Values.{Datum};
ghost use Rattle.gx_model.specs.Truth.{selects};
ghost use Rattle.gx_plan.specs.Bounds.{kinds_of};
ghost use Rattle.gx_query.specs.declared.counts.Counts.{Counts};
ghost use Rattle.gx_query.specs.Seen.{Seen, AreSeen};
ghost use Rattle.gx_query.specs.Walks.{Breaks, IsFilter, Shown, condition_of};

use crate::counts::Counts;
use crate::filter::Filter;
use crate::narrow::narrow;
use crate::visit::Visit;
use gx_bytes::Bytes;
use gx_chain::Trail;
use gx_heap::Heap;
use gx_pages::{PageError, Pages, RowRef, Rows, Steps};
use gx_value::{Column, decode_row};
use std::alloc::Global;
use std::sync::ledger::Ledger;

/// Looks at all rows of a heap in order, shows those of which the condition is true to a visitor, and counts both. Each page is fetched once.
/// Broken where the pages are no chain, a circle too, which is found when it closes.
pub fn walk_rows<P: Pages, V: Visit, L: Ledger>(
    alloc: Global,
    pages: &mut P,
    heap: &Heap,
    columns: &[Column],
    filter: &Filter,
    visitor: &mut V,
    steps: &mut Steps<L>,
) -> Result<Counts, PageError>
    requires filter { IsFilter columns.now filter.now }
    requires fits { V.fits visitor.old columns.now }
    ensures shown { IfOk result (λ counts. P.tells → (rows : List Row) (feet free : List ℕ) → HoldsHeap P.Pages pages.old heap.now rows feet free
        → (seen : List Seen) → AreSeen (kinds_of columns.now) rows seen
        → Shown (V.after columns.now) (condition_of filter.now) visitor.old visitor.new (record { rows = 0; selected = 0 }) counts seen) }
    ensures cause { IfErr result (HasCause (P.faults pages.old) (P.faults pages.new)
        (λ at expected found. P.tells → (rows : List Row) (feet free : List ℕ) → HoldsHeap P.Pages pages.old heap.now rows feet free
        → (seen : List Seen) → AreSeen (kinds_of columns.now) rows seen → ⊥) (λ _. ⊥) (Unit {0})) }
    ensures map { P.map pages.new ≡ P.map pages.old }
    ensures count { P.count pages.new ≡ P.count pages.old }
    ensures ticks { P.heap_fetches pages.new + steps.old ≤ P.heap_fetches pages.old + steps.new }
    ensures most { steps.new ≤ steps.old + heap.now.next }
    ensures quiet { StaysQuiet P.Pages pages.old pages.new }
{
    gx_heap::whole_scan(pages);
    let mut counts = Counts {
        rows: 0,
        selected: 0,
    };
    let mut trail = Trail::new();
    let mut page = heap.first;
    for passed in 0..heap.next {
        if page == 0 {
            return Ok(counts);
        }
        if !trail.passes(page) {
            return Err(unended(page));
        }
        let mut rows = Rows::new(alloc);
        let next = heap.next_page_of(pages, page, &mut rows, steps)?;
        look_at(alloc, columns, filter, &rows, visitor, &mut counts)?;
        page = next;
    }
    if page != 0 {
        return Err(unended(page));
    }
    Ok(counts)
}

// Looks at these rows in order.
fn look_at<V: Visit>(
    alloc: Global,
    columns: &[Column],
    filter: &Filter,
    rows: &Rows,
    visitor: &mut V,
    counts: &mut Counts,
) -> Result<(), PageError>
    requires filter { IsFilter columns.now filter.now }
    requires fits { V.fits visitor.old columns.now }
    ensures shown { OnOk result ((seen : List Seen) → AreSeen (kinds_of columns.now) rows.now seen
        → Shown (V.after columns.now) (condition_of filter.now) visitor.old visitor.new counts.old counts.new seen) }
    ensures still { OnOk result (V.fits visitor.new columns.now) }
    ensures cause { IfErr result (Breaks ((seen : List Seen) → AreSeen (kinds_of columns.now) rows.now seen → ⊥)) }
{
    let mut scratch = Bytes::new(alloc);
    for at in 0..rows.len() {
        let Some((place, bytes)) = rows.get(at) else {
            unreachable!();
        };
        look_at_one(
            alloc,
            columns,
            filter,
            place,
            bytes,
            visitor,
            counts,
            &mut scratch,
        )?;
    }
    Ok(())
}

// Looks at the row that stands there and has these bytes.
fn look_at_one<V: Visit>(
    alloc: Global,
    columns: &[Column],
    filter: &Filter,
    place: RowRef,
    bytes: &[u8],
    visitor: &mut V,
    counts: &mut Counts,
    scratch: &mut Bytes,
) -> Result<(), PageError>
    requires filter { IsFilter columns.now filter.now }
    requires fits { V.fits visitor.old columns.now }
    ensures shown { OnOk result ((fields : List (Option Datum)) → SpellsRow (kinds_of columns.now) bytes.now fields
        → Shown (V.after columns.now) (condition_of filter.now) visitor.old visitor.new counts.old counts.new ((place, fields) ∷ [])) }
    ensures still { OnOk result (V.fits visitor.new columns.now) }
    ensures cause { IfErr result (Breaks ((fields : List (Option Datum)) → SpellsRow (kinds_of columns.now) bytes.now fields → ⊥)) }
{
    let selected = is_selected(alloc, columns, filter, place.page, bytes, scratch)?;
    if selected {
        show(alloc, columns, filter, place, bytes, visitor)?;
    }
    match counts.add(selected) {
        Ok(()) => Ok(()),
        Err(_) => Err(PageError::Memory),
    }
}

// Whether the condition is true of the row on this page with these bytes. Only the fields that it names are decoded.
fn is_selected(
    alloc: Global,
    columns: &[Column],
    filter: &Filter,
    page: u64,
    bytes: &[u8],
    scratch: &mut Bytes,
) -> Result<bool, PageError>
    requires { IsFilter columns.now filter.now }
    ensures selected { IfOk result (λ yes. (fields : List (Option Datum)) → SpellsRow (kinds_of columns.now) bytes.now fields → yes ≡ selects (condition_of filter.now) fields) }
    ensures cause { IfErr result (Breaks ((fields : List (Option Datum)) → SpellsRow (kinds_of columns.now) bytes.now fields → ⊥)) }
{
    if filter.condition.is_none() {
        return Ok(true);
    }
    gx_value::one_row();
    scratch.truncate(0);
    let Ok(so) = narrow(filter.wanted.as_slice(), bytes, scratch) else {
        return Err(PageError::Memory);
    };
    if !so {
        return Err(no_row(page));
    }
    let Ok(decoded) = decode_row(alloc, filter.kinds.as_slice(), scratch.as_slice()) else {
        return Err(PageError::Memory);
    };
    let Some(fields) = decoded else {
        return Err(no_row(page));
    };
    match filter.selects(alloc, fields.as_slice()) {
        Ok(selected) => Ok(selected),
        Err(_) => Err(PageError::Memory),
    }
}

// Shows the row that stands there and has these bytes.
fn show<V: Visit>(
    alloc: Global,
    columns: &[Column],
    filter: &Filter,
    place: RowRef,
    bytes: &[u8],
    visitor: &mut V,
) -> Result<(), PageError>
    requires filter { IsFilter columns.now filter.now }
    requires fits { V.fits visitor.old columns.now }
    ensures shown { OnOk result ((fields : List (Option Datum)) → SpellsRow (kinds_of columns.now) bytes.now fields → visitor.new ≡ V.after columns.now visitor.old (place, fields)) }
    ensures still { OnOk result (V.fits visitor.new columns.now) }
    ensures cause { IfErr result (Breaks ((fields : List (Option Datum)) → SpellsRow (kinds_of columns.now) bytes.now fields → ⊥)) }
{
    gx_value::one_row();
    let Ok(decoded) = decode_row(alloc, filter.kinds.as_slice(), bytes) else {
        return Err(PageError::Memory);
    };
    let Some(fields) = decoded else {
        return Err(no_row(place.page));
    };
    match visitor.visit(columns, place, fields.as_slice()) {
        Ok(()) => Ok(()),
        Err(_) => Err(PageError::Memory),
    }
}

// A row on the page isn't one of the table.
fn no_row(page: u64) -> PageError
    ensures { result ≡ PageError.Broken page 1 0 }
{
    PageError::Broken {
        page,
        expected: 1,
        found: 0,
    }
}

// The chain of pages goes on with this one, where it has to end.
fn unended(page: u64) -> PageError
    ensures { result ≡ PageError.Broken page 0 page }
{
    PageError::Broken {
        page,
        expected: 0,
        found: page,
    }
}
