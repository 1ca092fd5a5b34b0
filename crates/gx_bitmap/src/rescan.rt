//! The rows of a bitmap of whose bytes a test is true.

ghost use Rattle.std.specs.Prelude.{◌≡◌, ◌≢◌, ◌⊎◌, ℕ, ◌+◌, ◌<◌, ◌≤◌, ◌==◌, if◌then◌else◌, Bool, List, [], ◌∷◌, ◌++◌, None, Some, true, filter, length, option_to_list, IsSome, IfOk, IfErr, IfSome, IfNone, OnOk};
ghost use Rattle.gx_pages.specs.Footprints.{StaysQuiet};
ghost use Rattle.gx_pages.specs.Pages.{HasCause};
ghost use Rattle.gx_pages.specs.declared.row.RowRef.{RowRef};
ghost use Rattle.gx_heap.specs.Heaps.{Row, HoldsHeap, AreRows, HasRow, IsIn, IsRef, turns};
ghost use Rattle.gx_bitmap.specs.Scans.{AreCandidates, IsKept, kept_page};

use gx_bytes::{Bytes, NoMemory};
use gx_heap::Heap;
use gx_pages::{Bitmap, PageError, Pages, RowRef, Steps};
use gx_slot::SlotPage;
use std::alloc::Global;
use std::marker::Model;
use std::sync::ledger::Ledger;

/// A test of the bytes of a row, and the call that decides it.
pub trait RowTest: Drop {
    // whether the test is true of these bytes
    ghost passes: { Self → List ℕ → Bool };

    /// Whether the test is true of these bytes.
    fn recheck(&self, bytes: &[u8]) -> Result<bool, NoMemory>
        ensures { IfOk result (λ yes. yes ≡ passes self.now bytes.now) };
}

/// A page of a heap as it was when it was fetched.
#[derive(Drop)]
pub struct KeptPage {
    pub number: u64,
    pub slots: SlotPage,
}

/// A walk over the rows of a bitmap that gives those of whose bytes a test is true. The page that was fetched last is kept
/// for the rows that stand on it.
#[derive(Drop)]
pub struct Rescan<K: RowTest> {
    rows: Bitmap,
    passed: usize,
    test: K,
    kept: Option<KeptPage>,
}

impl<K: RowTest> Model for Rescan<K> {
    ghost use Rattle.std.specs.Prelude.{◌≤◌, length, drop};
    ghost use Rattle.gx_bitmap.specs.Scans.{Scan};

    ghost Value = { Scan K };

    ghost view = { λ s. record { left = drop s.passed s.rows; test = s.test; kept = s.kept } };

    ghost invariant = { λ s. s.passed ≤ length s.rows };
}

impl<K: RowTest> Rescan<K> {
    /// A walk over these rows, of which it has passed none.
    pub fn new(rows: Bitmap, test: K) -> Rescan<K>
        ensures { result ≡ record { left = rows; test = test; kept = None } }
    {
        Rescan {
            rows,
            passed: 0,
            test,
            kept: None,
        }
    }

    /// The next row of whose bytes the test is true, and its bytes; the rows before it are passed. None where there is none
    /// left. The kept page is used: the map has to be the one that the last call left.
    pub fn next<P: Pages, L: Ledger>(
        &mut self,
        alloc: Global,
        pages: &mut P,
        heap: &Heap,
        steps: &mut Steps<L>,
    ) -> Result<Option<(RowRef, Bytes)>, PageError>
        ensures next { IfOk result (λ found. P.tells → IsKept (P.map pages.old) self.old.kept → (rows : List Row) (feet free : List ℕ) → HoldsHeap P.Pages pages.old heap.now rows feet free
            → (candidates : List Row) → AreCandidates self.old.left rows candidates
            → (behind : List Row) × AreCandidates self.new.left rows behind
            × (filter (λ row. K.passes self.old.test row.1) candidates ≡ option_to_list found ++ filter (λ row. K.passes self.old.test row.1) behind)) }
        ensures none { IfOk result (λ found. found ≡ None → self.new.left ≡ []) }
        ensures some { IfOk result (λ found. IfSome found (λ row. (front : List RowRef) × (self.old.left ≡ front ++ row.0 ∷ self.new.left))) }
        ensures passes { IfOk result (λ found. IfSome found (λ row. K.passes self.old.test row.1 ≡ true)) }
        ensures test { self.new.test ≡ self.old.test }
        ensures kept { P.tells → IsKept (P.map pages.old) self.old.kept → IsKept (P.map pages.new) self.new.kept }
        ensures cause { IfErr result (HasCause (P.faults pages.old) (P.faults pages.new)
            (λ at expected found. P.tells → IsKept (P.map pages.old) self.old.kept → (rows : List Row) (feet free : List ℕ) → HoldsHeap P.Pages pages.old heap.now rows feet free
            → ¬ AreRows self.old.left rows) (λ _. ⊥) (Unit {0})) }
        ensures map { P.map pages.new ≡ P.map pages.old }
        ensures count { P.count pages.new ≡ P.count pages.old }
        ensures ticks { P.heap_fetches pages.new + steps.old ≤ P.heap_fetches pages.old + steps.new }
        ensures most { steps.new + length self.new.left ≤ steps.old + length self.old.left }
        ensures fetches { OnOk result (P.fetches pages.new + turns (kept_page self.new.kept) self.new.left ≤ P.fetches pages.old + turns (kept_page self.old.kept) self.old.left) }
        ensures quiet { StaysQuiet P.Pages pages.old pages.new }
    {
        while let Some(at) = self.pass_first() {
            if let Some(row) = self.read(alloc, pages, heap, at, steps)? {
                return Ok(Some((at, row)));
            }
        }
        Ok(None)
    }

    // Passes the first row that is left.
    fn pass_first(&mut self) -> Option<RowRef>
        ensures some { IfSome result (λ at. self.old.left ≡ at ∷ self.new.left) }
        ensures none { IfNone result (self.old.left ≡ []) }
        ensures end { IfNone result (self.new.left ≡ []) }
        ensures same { (self.new.test ≡ self.old.test) × (self.new.kept ≡ self.old.kept) }
    {
        let rows = self.rows.as_slice();
        if self.passed >= rows.len() {
            return None;
        }
        let at = rows[self.passed];
        self.passed += 1;
        Some(at)
    }

    // The bytes of a row, where the test is true of them.
    fn read<P: Pages, L: Ledger>(
        &mut self,
        alloc: Global,
        pages: &mut P,
        heap: &Heap,
        at: RowRef,
        steps: &mut Steps<L>,
    ) -> Result<Option<Bytes>, PageError>
        ensures found { IfOk result (λ found. P.tells → IsKept (P.map pages.old) self.old.kept → (rows : List Row) (feet free : List ℕ) → HoldsHeap P.Pages pages.old heap.now rows feet free
            → (bytes : List ℕ) → IsIn (at, bytes) rows → found ≡ (if K.passes self.old.test bytes then Some bytes else None)) }
        ensures passes { IfOk result (λ found. IfSome found (λ row. K.passes self.old.test row ≡ true)) }
        ensures same { (self.new.test ≡ self.old.test) × (self.new.left ≡ self.old.left) }
        ensures kept { P.tells → IsKept (P.map pages.old) self.old.kept → IsKept (P.map pages.new) self.new.kept }
        ensures cause { IfErr result (HasCause (P.faults pages.old) (P.faults pages.new)
            (λ _ expected found. P.tells → IsKept (P.map pages.old) self.old.kept → (rows : List Row) (feet free : List ℕ) → HoldsHeap P.Pages pages.old heap.now rows feet free
            → ¬ IsRef at rows) (λ _. ⊥) (Unit {0})) }
        ensures map { P.map pages.new ≡ P.map pages.old }
        ensures count { P.count pages.new ≡ P.count pages.old }
        ensures ticks { P.heap_fetches pages.new + steps.old ≤ P.heap_fetches pages.old + steps.new }
        ensures most { steps.new ≤ steps.old + 1 }
        ensures fetches { OnOk result ((rest : List RowRef) → P.fetches pages.new + turns (kept_page self.new.kept) rest ≤ P.fetches pages.old + turns (kept_page self.old.kept) (at ∷ rest)) }
        ensures quiet { StaysQuiet P.Pages pages.old pages.new }
    {
        keep(&mut self.kept, pages, heap, at.page, steps)?;
        let Some(page) = &self.kept else {
            unreachable!();
        };
        let row = heap.row_in(pages, &page.slots, at)?;
        let Ok(passes) = self.test.recheck(row) else {
            return Err(PageError::Memory);
        };
        if !passes {
            return Ok(None);
        }
        let Ok(row) = Bytes::from_slice(alloc, row) else {
            return Err(PageError::Memory);
        };
        Ok(Some(row))
    }
}

// Keeps the page with this number: the one that is kept already, or else the one that it fetches.
fn keep<P: Pages, L: Ledger>(
    kept: &mut Option<KeptPage>,
    pages: &mut P,
    heap: &Heap,
    number: u64,
    steps: &mut Steps<L>,
) -> Result<(), PageError>
    ensures page { OnOk result (IfSome kept.new (λ page. page.number ≡ number) × IsSome kept.new) }
    ensures kept { P.tells → IsKept (P.map pages.old) kept.old → IsKept (P.map pages.new) kept.new }
    ensures cause { IfErr result (HasCause (P.faults pages.old) (P.faults pages.new)
        (λ at expected found. P.tells → (rows : List Row) (feet free : List ℕ) → HoldsHeap P.Pages pages.old heap.now rows feet free → ¬ HasRow rows number) (λ _. ⊥) ⊥) }
    ensures map { P.map pages.new ≡ P.map pages.old }
    ensures count { P.count pages.new ≡ P.count pages.old }
    ensures ticks { P.heap_fetches pages.new + steps.old ≤ P.heap_fetches pages.old + steps.new }
    ensures most { steps.new ≤ steps.old + 1 }
    ensures fetches { OnOk result ((P.fetches pages.new ≡ P.fetches pages.old) × (kept_page kept.old ≡ number) ⊎ (P.fetches pages.new ≤ P.fetches pages.old + 1) × (kept_page kept.old ≢ number)) }
    ensures quiet { StaysQuiet P.Pages pages.old pages.new }
{
    if let Some(page) = kept {
        if page.number == number {
            return Ok(());
        }
    }
    let slots = heap.page_of(pages, number, steps)?;
    *kept = Some(KeptPage { number, slots });
    Ok(())
}
