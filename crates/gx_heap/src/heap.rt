//! The rows of a table.

ghost use Rattle.std.specs.Prelude.{◌≡◌, ◌≢◌, ℕ, ◌+◌, ◌^◌, ◌<◌, ◌≤◌, List, [], ◌∷◌, ◌++◌, length, Some, IfOk, IfErr, OnOk, OnErr};
ghost use Rattle.gx_pages.specs.declared.row.RowRef.{RowRef};
ghost use Rattle.gx_pages.specs.Footprints.{KeepsPages, StaysQuiet};
ghost use Rattle.gx_pages.specs.Frees.{IsFreeList, IsFull};
ghost use Rattle.gx_pages.specs.Pages.{HasCause};
ghost use Rattle.gx_slot.specs.Slots.{IsBroken, spelling};
ghost use Rattle.gx_chain.specs.Chains.{ListsNone};
ghost use Rattle.gx_heap.specs.Heaps.{Row, HoldsHeap, HoldsNoHeap, AreRows, AreUsed, HasRoomFor, HasRow, IsIn, IsRef, StandsBehind, chain_of, first_page, rows_on, runs, without};

use crate::item::{HEAP, item_of};
use crate::reading::{item_at, no_row, push_rows};
use crate::removal::remove_run;
use crate::vacuum::drop_empty;
use gx_bytes::Bytes;
use gx_chain::{Chain, fetch_slots};
use gx_pages::{Bitmap, PageError, Pages, RowRef, Rows, Steps};
use gx_slot::SlotPage;
use std::alloc::Global;
use std::sync::ledger::Ledger;

/// A heap: its first and its last page, and the number that the next row gets. It has at least one page, and no more than
/// that number.
#[derive(Clone, Copy, Debug, Drop, PartialEq, Eq)]
pub struct Heap {
    pub first: u64,
    pub last: u64,
    pub next: u64,
}

impl Heap {
    /// A heap without rows, on a page that it takes.
    pub fn create<P: Pages>(pages: &mut P) -> Result<Heap, PageError>
        ensures made { IfOk result (λ heap. P.tells → (free : List ℕ) → IsFreeList (P.map pages.old) (P.count pages.old) free
            → (rest : List ℕ) × HoldsHeap P.Pages pages.new heap [] (heap.first ∷ []) rest
            × KeepsPages P.Pages pages.old pages.new [] free (heap.first ∷ []) rest) }
        ensures next { IfOk result (λ heap. heap.next ≡ 1) }
        ensures grows { P.count pages.old ≤ P.count pages.new }
        ensures by_one { P.count pages.new ≤ P.count pages.old + 1 }
        ensures cause { IfErr result (HasCause (P.faults pages.old) (P.faults pages.new)
            (λ at expected found. P.tells → ListsNone P.Pages pages.old) (IsFull P.tells (P.map pages.new) (P.count pages.new)) (Unit {0})) }
        ensures heap { P.heap_fetches pages.new ≡ P.heap_fetches pages.old }
        ensures fetches { P.fetches pages.new ≡ P.fetches pages.old }
        ensures quiet { StaysQuiet P.Pages pages.old pages.new }
    {
        let chain = Chain::create(pages, HEAP)?;
        Ok(Heap {
            first: chain.first,
            last: chain.last,
            next: 1,
        })
    }

    /// Adds a row behind all others, with the next number. It stands on the last page where it has room there, else on a new
    /// page.
    pub fn append<P: Pages, L: Ledger>(
        &mut self,
        alloc: Global,
        pages: &mut P,
        row: &[u8],
        steps: &mut Steps<L>,
    ) -> Result<RowRef, PageError>
        requires short { length row.now ≤ 7900 }
        requires room { self.old.next < 2 ^ 48 }
        ensures added { IfOk result (λ at. P.tells → (rows : List Row) (feet free : List ℕ) → HoldsHeap P.Pages pages.old self.old rows feet free
            → (later rest : List ℕ) × HoldsHeap P.Pages pages.new self.new (rows ++ (at, row.now) ∷ []) later rest
            × KeepsPages P.Pages pages.old pages.new feet free later rest
            × StandsBehind (P.map pages.old) self.old row.now at.page feet later) }
        ensures number { IfOk result (λ at. at.number ≡ self.old.next) }
        ensures next { OnOk result (self.new.next ≡ self.old.next + 1) }
        ensures first { self.new.first ≡ self.old.first }
        ensures same { OnErr result (self.new ≡ self.old) }
        ensures grows { P.count pages.old ≤ P.count pages.new }
        ensures by_one { P.count pages.new ≤ P.count pages.old + 1 }
        ensures cause { IfErr result (HasCause (P.faults pages.old) (P.faults pages.new)
            (λ at expected found. P.tells → HoldsNoHeap P.Pages pages.old self.old)
            (λ count. IsFull P.tells (P.map pages.new) (P.count pages.new) count
            × (P.tells → (rows : List Row) (feet free : List ℕ) → HoldsHeap P.Pages pages.old self.old rows feet free → ¬ HasRoomFor (P.map pages.old) self.old row.now)) (Unit {0})) }
        ensures ticks { P.heap_fetches pages.new + steps.old ≤ P.heap_fetches pages.old + steps.new }
        ensures most { steps.new ≤ steps.old + 1 }
        ensures fetches { P.fetches pages.new ≤ P.fetches pages.old + 1 }
        ensures quiet { StaysQuiet P.Pages pages.old pages.new }
    {
        let item = item_of(alloc, self.next, row)?;
        let mut chain = to_chain(self);
        steps.tick();
        let (page, slot) = chain.append(pages, HEAP, item.as_slice())?;
        let at = RowRef {
            number: self.next,
            page,
            slot,
        };
        self.last = page;
        self.next += 1;
        Ok(at)
    }

    /// The bytes of a row.
    pub fn row<P: Pages, L: Ledger>(
        &self,
        alloc: Global,
        pages: &mut P,
        at: RowRef,
        steps: &mut Steps<L>,
    ) -> Result<Bytes, PageError>
        ensures found { IfOk result (λ row. P.tells → (rows : List Row) (bytes feet free : List ℕ) → HoldsHeap P.Pages pages.old self.now rows feet free
            → IsIn (at, bytes) rows → row ≡ bytes) }
        ensures cause { IfErr result (HasCause (P.faults pages.old) (P.faults pages.new)
            (λ _ expected found. P.tells → (rows : List Row) (feet free : List ℕ) → HoldsHeap P.Pages pages.old self.now rows feet free → ¬ IsRef at rows) (λ _. ⊥) (Unit {0})) }
        ensures map { P.map pages.new ≡ P.map pages.old }
        ensures count { P.count pages.new ≡ P.count pages.old }
        ensures ticks { P.heap_fetches pages.new + steps.old ≤ P.heap_fetches pages.old + steps.new }
        ensures most { steps.new ≤ steps.old + 1 }
        ensures fetches { P.fetches pages.new ≤ P.fetches pages.old + 1 }
        ensures quiet { StaysQuiet P.Pages pages.old pages.new }
    {
        let slots = self.page_of(pages, at.page, steps)?;
        match Bytes::from_slice(alloc, self.row_in(pages, &slots, at)?) {
            Ok(row) => Ok(row),
            Err(_) => Err(PageError::Memory),
        }
    }

    /// A page on which a row of the heap stands, to read rows from it by `row_in`.
    pub fn page_of<P: Pages, L: Ledger>(
        &self,
        pages: &mut P,
        page: u64,
        steps: &mut Steps<L>,
    ) -> Result<SlotPage, PageError>
        ensures bytes { IfOk result (λ slots. P.tells → P.map pages.old page ≡ Some (spelling slots)) }
        ensures nonzero { OnOk result (page ≢ 0) }
        ensures cause { IfErr result (HasCause (P.faults pages.old) (P.faults pages.new)
            (λ at expected found. P.tells → (rows : List Row) (feet free : List ℕ) → HoldsHeap P.Pages pages.old self.now rows feet free → ¬ HasRow rows page) (λ _. ⊥) ⊥) }
        ensures map { P.map pages.new ≡ P.map pages.old }
        ensures count { P.count pages.new ≡ P.count pages.old }
        ensures ticks { P.heap_fetches pages.new + steps.old ≤ P.heap_fetches pages.old + steps.new }
        ensures most { steps.new ≤ steps.old + 1 }
        ensures fetches { P.fetches pages.new ≤ P.fetches pages.old + 1 }
        ensures quiet { StaysQuiet P.Pages pages.old pages.new }
    {
        steps.tick();
        let slots = fetch_slots(pages, page, HEAP)?;
        Ok(slots)
    }

    /// The bytes of a row on its page, where it lies on these pages.
    pub fn row_in<'a, P: Pages>(
        &self,
        _pages: &P,
        slots: &'a SlotPage,
        at: RowRef,
    ) -> Result<&'a [u8], PageError>
        ensures found { IfOk result (λ row. P.tells → P.map _pages.now at.page ≡ Some (spelling slots.now) → (rows : List Row) (bytes feet free : List ℕ)
            → HoldsHeap P.Pages _pages.now self.now rows feet free → IsIn (at, bytes) rows → row.now ≡ bytes) }
        ensures broken { IfErr result (IsBroken at.page) }
        ensures err { OnErr result (P.tells → P.map _pages.now at.page ≡ Some (spelling slots.now) → (rows : List Row) (feet free : List ℕ)
            → HoldsHeap P.Pages _pages.now self.now rows feet free → ¬ IsRef at rows) }
    {
        let _page = slots.page();
        match item_at(slots, at) {
            Some(row) => Ok(row),
            None => Err(no_row(at)),
        }
    }

    /// Adds the rows of a page in order, and gives the page behind it, or 0.
    pub fn next_page_of<P: Pages, L: Ledger>(
        &self,
        pages: &mut P,
        page: u64,
        rows: &mut Rows,
        steps: &mut Steps<L>,
    ) -> Result<u64, PageError>
        ensures read { IfOk result (λ next. P.tells → (all : List Row) (front back free : List ℕ) → HoldsHeap P.Pages pages.old self.now all (front ++ page ∷ back) free
            → (rows.new ≡ rows.old ++ rows_on page all) × (next ≡ first_page back)) }
        ensures cause { IfErr result (HasCause (P.faults pages.old) (P.faults pages.new)
            (λ at expected found. P.tells → (all : List Row) (front back free : List ℕ) → HoldsHeap P.Pages pages.old self.now all (front ++ page ∷ back) free → ⊥) (λ _. ⊥) (Unit {0})) }
        ensures map { P.map pages.new ≡ P.map pages.old }
        ensures count { P.count pages.new ≡ P.count pages.old }
        ensures ticks { P.heap_fetches pages.new + steps.old ≤ P.heap_fetches pages.old + steps.new }
        ensures most { steps.new ≤ steps.old + 1 }
        ensures fetches { P.fetches pages.new ≤ P.fetches pages.old + 1 }
        ensures quiet { StaysQuiet P.Pages pages.old pages.new }
    {
        steps.tick();
        let slots = fetch_slots(pages, page, HEAP)?;
        push_rows(page, &slots, rows)?;
        Ok(slots.next())
    }

    /// Removes the rows with the numbers of these, which are rows of the heap. Each page is fetched once.
    pub fn remove<P: Pages, L: Ledger>(
        &mut self,
        pages: &mut P,
        rows: &Bitmap,
        steps: &mut Steps<L>,
    ) -> Result<(), PageError>
        ensures removed { OnOk result (P.tells → (all : List Row) (feet free : List ℕ) → HoldsHeap P.Pages pages.old self.old all feet free → AreRows rows.now all
            → HoldsHeap P.Pages pages.new self.new (without rows.now all) feet free × KeepsPages P.Pages pages.old pages.new feet free feet free) }
        ensures heap { self.new ≡ self.old }
        ensures count { P.count pages.new ≡ P.count pages.old }
        ensures cause { IfErr result (HasCause (P.faults pages.old) (P.faults pages.new)
            (λ at expected found. P.tells → (all : List Row) (feet free : List ℕ) → HoldsHeap P.Pages pages.old self.old all feet free → ¬ AreRows rows.now all) (λ _. ⊥) (Unit {0})) }
        ensures ticks { P.heap_fetches pages.new + steps.old ≤ P.heap_fetches pages.old + steps.new }
        ensures most { steps.new ≤ steps.old + length rows.now }
        ensures fetches { P.fetches pages.new ≤ P.fetches pages.old + runs rows.now }
        ensures quiet { StaysQuiet P.Pages pages.old pages.new }
    {
        let mut rest = rows.as_slice();
        while !rest.is_empty() {
            rest = remove_run(pages, rest, steps)?;
        }
        Ok(())
    }

    /// Gives back each page without rows, but the last one.
    pub fn vacuum<P: Pages, L: Ledger>(
        &mut self,
        pages: &mut P,
        steps: &mut Steps<L>,
    ) -> Result<(), PageError>
        ensures kept { OnOk result (P.tells → (rows : List Row) (feet free : List ℕ) → HoldsHeap P.Pages pages.old self.old rows feet free
            → (later rest : List ℕ) × HoldsHeap P.Pages pages.new self.new rows later rest × AreUsed later rows
            × KeepsPages P.Pages pages.old pages.new feet free later rest) }
        ensures last { self.new.last ≡ self.old.last }
        ensures next { self.new.next ≡ self.old.next }
        ensures count { P.count pages.new ≡ P.count pages.old }
        ensures cause { IfErr result (HasCause (P.faults pages.old) (P.faults pages.new)
            (λ at expected found. P.tells → HoldsNoHeap P.Pages pages.old self.old) (λ _. ⊥) (Unit {0})) }
        ensures ticks { P.heap_fetches pages.new + steps.old ≤ P.heap_fetches pages.old + steps.new }
        ensures most { steps.new ≤ steps.old + (self.old.next + self.old.next) }
        ensures fetches { P.fetches pages.new ≤ P.fetches pages.old + (self.old.next + self.old.next) }
        ensures quiet { StaysQuiet P.Pages pages.old pages.new }
    {
        let mut chain = to_chain(self);
        drop_empty(&mut chain, pages, steps)?;
        self.first = chain.first;
        Ok(())
    }

    /// Gives every page back. There is no heap then.
    pub fn drop_all<P: Pages, L: Ledger>(
        self,
        pages: &mut P,
        steps: &mut Steps<L>,
    ) -> Result<(), PageError>
        ensures dropped { OnOk result (P.tells → (rows : List Row) (feet free : List ℕ) → HoldsHeap P.Pages pages.old self rows feet free
            → (rest : List ℕ) × KeepsPages P.Pages pages.old pages.new feet free [] rest) }
        ensures count { P.count pages.new ≡ P.count pages.old }
        ensures cause { IfErr result (HasCause (P.faults pages.old) (P.faults pages.new)
            (λ at expected found. P.tells → HoldsNoHeap P.Pages pages.old self) (λ _. ⊥) (Unit {0})) }
        ensures ticks { P.heap_fetches pages.new + steps.old ≤ P.heap_fetches pages.old + steps.new }
        ensures most { steps.new ≤ steps.old + self.next }
        ensures fetches { P.fetches pages.new ≤ P.fetches pages.old + self.next }
        ensures quiet { StaysQuiet P.Pages pages.old pages.new }
    {
        let chain = to_chain(&self);
        chain.drop_all(pages, HEAP, steps)?;
        Ok(())
    }
}

// The heap's chain: it has no more pages than its next row number.
fn to_chain(heap: &Heap) -> Chain
    ensures { result ≡ chain_of heap.now }
{
    Chain {
        first: heap.first,
        last: heap.last,
        pages: heap.next,
    }
}
