//! Rows that are appended to a heap.

ghost use Rattle.std.specs.Prelude.{◌≡◌, ◌≢◌, ℕ, ◌+◌, ◌^◌, ◌<◌, ◌≤◌, ◌⊎◌, List, ◌++◌, length, take, IfOk, IfErr, OnOk};
ghost use Rattle.std.specs.List.{AllByRecursion};
ghost use Rattle.gx_bytes.specs.Fields.{le64};
ghost use Rattle.gx_pages.specs.Footprints.{KeepsPages, StaysQuiet};
ghost use Rattle.gx_pages.specs.Pages.{HasCause};
ghost use Rattle.gx_heap.specs.Heaps.{HoldsHeap, HoldsNoHeap, Row};
ghost use Rattle.gx_change.specs.Appended.{AreNumbered, items_from};

use gx_bytes::{Bytes, NoMemory};
use gx_chain::{fetch_slots, put_slots};
use gx_heap::Heap;
use gx_pages::{PageError, Pages, Steps};
use gx_slot::SlotPage;
use std::alloc::Global;
use std::sync::ledger::Ledger;

/// The kind of a heap's pages.
const HEAP: u8 = 2;

/// Appends rows to a heap, in order. Where several rows fit the last page, it is fetched once for them.
pub fn append_rows<P: Pages, L: Ledger>(
    alloc: Global,
    pages: &mut P,
    heap: &mut Heap,
    rows: &[Bytes],
    steps: &mut Steps<L>,
) -> Result<(), PageError>
    requires short { AllByRecursion (λ row. length row ≤ 7900) rows.now }
    requires room { heap.old.next + length rows.now ≤ 2 ^ 48 }
    ensures added { OnOk result (P.tells → (stored : List Row) (feet free : List ℕ) → HoldsHeap P.Pages pages.old heap.old stored feet free
        → (more : List Row) × (later : List ℕ) × (rest : List ℕ) × HoldsHeap P.Pages pages.new heap.new (stored ++ more) later rest
        × KeepsPages P.Pages pages.old pages.new feet free later rest × AreNumbered heap.old.next rows.now more) }
    ensures next { OnOk result (heap.new.next ≡ heap.old.next + length rows.now) }
    ensures by_each { P.count pages.new ≤ P.count pages.old + length rows.now }
    ensures cause { IfErr result (HasCause (P.faults pages.old) (P.faults pages.new)
        (λ at expected found. P.tells → HoldsNoHeap P.Pages pages.old heap.old)
        (λ count. (0 < length rows.now) × (2 ^ 50 ≤ P.count pages.old + length rows.now)) (Unit {0})) }
    ensures ticks { P.heap_fetches pages.new + steps.old ≤ P.heap_fetches pages.old + steps.new }
    ensures most { steps.new ≤ steps.old + length rows.now + 1 }
    ensures quiet { StaysQuiet P.Pages pages.old pages.new }
{
    let done = append_runs(alloc, pages, heap, rows, steps)?;
    let (_, rest) = rows.split_at(done);
    append_each(alloc, pages, heap, rest, steps)
}

/// Appends the first of these rows to a heap, and tells how many: all of them, or those before one that stands alone on its page.
fn append_runs<P: Pages, L: Ledger>(
    alloc: Global,
    pages: &mut P,
    heap: &mut Heap,
    rows: &[Bytes],
    steps: &mut Steps<L>,
) -> Result<usize, PageError>
    requires short { AllByRecursion (λ row. length row ≤ 7900) rows.now }
    requires room { heap.old.next + length rows.now ≤ 2 ^ 48 }
    ensures within { IfOk result (λ n. n ≤ length rows.now) }
    ensures added { IfOk result (λ n. P.tells → (stored : List Row) (feet free : List ℕ) → HoldsHeap P.Pages pages.old heap.old stored feet free
        → (more : List Row) × (later : List ℕ) × (rest : List ℕ) × HoldsHeap P.Pages pages.new heap.new (stored ++ more) later rest
        × KeepsPages P.Pages pages.old pages.new feet free later rest × AreNumbered heap.old.next (take n rows.now) more) }
    ensures next { IfOk result (λ n. heap.new.next ≡ heap.old.next + n) }
    ensures by_each { IfOk result (λ n. P.count pages.new ≤ P.count pages.old + n) }
    ensures by_all { P.count pages.new ≤ P.count pages.old + length rows.now }
    ensures cause { IfErr result (HasCause (P.faults pages.old) (P.faults pages.new)
        (λ at expected found. P.tells → HoldsNoHeap P.Pages pages.old heap.old)
        (λ count. (0 < length rows.now) × (2 ^ 50 ≤ P.count pages.old + length rows.now)) (Unit {0})) }
    ensures ticks { P.heap_fetches pages.new + steps.old ≤ P.heap_fetches pages.old + steps.new }
    ensures most { IfOk result (λ n. steps.new ≤ steps.old + n + 1) }
    ensures at_most { steps.new ≤ steps.old + length rows.now + 1 }
    ensures quiet { StaysQuiet P.Pages pages.old pages.new }
{
    let mut done = 0;
    while done < rows.len() {
        let (_, rest) = rows.split_at(done);
        let n = append_run(alloc, pages, heap, rest, steps)?;
        if n == 0 {
            return Ok(done);
        }
        done += n;
    }
    Ok(done)
}

/// Appends the first of these rows to a heap, and tells how many: as many as fit the last page, and then one that begins a page. None where
/// not even the first fits.
fn append_run<P: Pages, L: Ledger>(
    alloc: Global,
    pages: &mut P,
    heap: &mut Heap,
    rows: &[Bytes],
    steps: &mut Steps<L>,
) -> Result<usize, PageError>
    requires short { AllByRecursion (λ row. length row ≤ 7900) rows.now }
    requires room { heap.old.next + length rows.now ≤ 2 ^ 48 }
    ensures within { IfOk result (λ n. n ≤ length rows.now) }
    ensures added { IfOk result (λ n. P.tells → (stored : List Row) (feet free : List ℕ) → HoldsHeap P.Pages pages.old heap.old stored feet free
        → (more : List Row) × (later : List ℕ) × (rest : List ℕ) × HoldsHeap P.Pages pages.new heap.new (stored ++ more) later rest
        × KeepsPages P.Pages pages.old pages.new feet free later rest × AreNumbered heap.old.next (take n rows.now) more) }
    ensures next { IfOk result (λ n. heap.new.next ≡ heap.old.next + n) }
    ensures by_each { IfOk result (λ n. P.count pages.new ≤ P.count pages.old + n) }
    ensures by_all { P.count pages.new ≤ P.count pages.old + length rows.now }
    ensures cause { IfErr result (HasCause (P.faults pages.old) (P.faults pages.new)
        (λ at expected found. P.tells → HoldsNoHeap P.Pages pages.old heap.old)
        (λ count. (0 < length rows.now) × (2 ^ 50 ≤ P.count pages.old + length rows.now)) (Unit {0})) }
    ensures ticks { P.heap_fetches pages.new + steps.old ≤ P.heap_fetches pages.old + steps.new }
    ensures none { IfOk result (λ n. n ≡ 0 → steps.new ≤ steps.old + 1) }
    ensures most { IfOk result (λ n. 0 < n → steps.new ≤ steps.old + n) }
    ensures at_most { steps.new ≤ steps.old + length rows.now + 1 }
    ensures quiet { StaysQuiet P.Pages pages.old pages.new }
{
    let n = append_here(alloc, pages, heap, rows, steps)?;
    if n == 0 || n >= rows.len() {
        return Ok(n);
    }
    heap.append(alloc, pages, rows[n].as_slice(), steps)?;
    Ok(n + 1)
}

/// Appends the first of these rows to a heap's last page, as many as fit there, and tells how many. The page is fetched once.
fn append_here<P: Pages, L: Ledger>(
    alloc: Global,
    pages: &mut P,
    heap: &mut Heap,
    rows: &[Bytes],
    steps: &mut Steps<L>,
) -> Result<usize, PageError>
    requires { heap.old.next + length rows.now ≤ 2 ^ 48 }
    ensures within { IfOk result (λ n. n ≤ length rows.now) }
    ensures added { IfOk result (λ n. P.tells → (stored : List Row) (feet free : List ℕ) → HoldsHeap P.Pages pages.old heap.old stored feet free
        → (more : List Row) × HoldsHeap P.Pages pages.new heap.new (stored ++ more) feet free
        × KeepsPages P.Pages pages.old pages.new feet free feet free × AreNumbered heap.old.next (take n rows.now) more) }
    ensures next { IfOk result (λ n. heap.new.next ≡ heap.old.next + n) }
    ensures count { P.count pages.new ≡ P.count pages.old }
    ensures cause { IfErr result (HasCause (P.faults pages.old) (P.faults pages.new)
        (λ at expected found. P.tells → HoldsNoHeap P.Pages pages.old heap.old) (λ count. ⊥) (Unit {0})) }
    ensures ticks { P.heap_fetches pages.new + steps.old ≤ P.heap_fetches pages.old + steps.new }
    ensures most { steps.new ≤ steps.old + 1 }
    ensures quiet { StaysQuiet P.Pages pages.old pages.new }
{
    steps.tick();
    let mut slots = fetch_slots(pages, heap.last, HEAP)?;
    let Ok(n) = fill(alloc, &mut slots, heap.next, rows) else {
        return Err(PageError::Memory);
    };
    put_slots(pages, heap.last, &slots)?;
    heap.next += n as u64;
    Ok(n)
}

/// Adds the items of the first of these rows, which have the numbers from this one on, as many as fit, and tells how many.
fn fill(alloc: Global, slots: &mut SlotPage, next: u64, rows: &[Bytes]) -> Result<usize, NoMemory>
    requires { next + length rows.now ≤ 2 ^ 48 }
    ensures within { IfOk result (λ n. n ≤ length rows.now) }
    ensures filled { IfOk result (λ n. slots.new ≡ record slots.old { items = slots.old.items ++ items_from next (take n rows.now) }) }
{
    let mut item = Bytes::new(alloc);
    let mut n = 0;
    for row in rows {
        make_item(&mut item, next + n as u64, row.as_slice())?;
        match slots.add(item.as_slice()) {
            Ok(_) => n += 1,
            Err(_) => return Ok(n),
        }
    }
    Ok(n)
}

/// Makes the item of a row with this number.
fn make_item(item: &mut Bytes, number: u64, row: &[u8]) -> Result<(), NoMemory>
    ensures { OnOk result (item.new ≡ le64 number ++ row.now) }
{
    item.truncate(0);
    push_number(item, number)?;
    item.extend_from_slice(row)
}

#[tactic(auto, unfolding(gx_bytes::specs::Fields::le64))]
fn push_number(item: &mut Bytes, number: u64) -> Result<(), NoMemory>
    ensures { OnOk result (item.new ≡ item.old ++ le64 number) }
{
    item.extend_from_slice(&number.to_le_bytes())
}

/// Appends rows to a heap one by one.
fn append_each<P: Pages, L: Ledger>(
    alloc: Global,
    pages: &mut P,
    heap: &mut Heap,
    rows: &[Bytes],
    steps: &mut Steps<L>,
) -> Result<(), PageError>
    requires short { AllByRecursion (λ row. length row ≤ 7900) rows.now }
    requires room { heap.old.next + length rows.now ≤ 2 ^ 48 }
    ensures added { OnOk result (P.tells → (stored : List Row) (feet free : List ℕ) → HoldsHeap P.Pages pages.old heap.old stored feet free
        → (more : List Row) × (later : List ℕ) × (rest : List ℕ) × HoldsHeap P.Pages pages.new heap.new (stored ++ more) later rest
        × KeepsPages P.Pages pages.old pages.new feet free later rest × AreNumbered heap.old.next rows.now more) }
    ensures next { OnOk result (heap.new.next ≡ heap.old.next + length rows.now) }
    ensures by_each { P.count pages.new ≤ P.count pages.old + length rows.now }
    ensures cause { IfErr result (HasCause (P.faults pages.old) (P.faults pages.new)
        (λ at expected found. P.tells → HoldsNoHeap P.Pages pages.old heap.old)
        (λ count. (0 < length rows.now) × (2 ^ 50 ≤ P.count pages.old + length rows.now)) (Unit {0})) }
    ensures ticks { P.heap_fetches pages.new + steps.old ≤ P.heap_fetches pages.old + steps.new }
    ensures most { steps.new ≤ steps.old + length rows.now }
    ensures quiet { StaysQuiet P.Pages pages.old pages.new }
{
    for row in rows {
        heap.append(alloc, pages, row.as_slice(), steps)?;
    }
    Ok(())
}
