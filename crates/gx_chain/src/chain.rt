//! A chain of slot pages.

ghost use Rattle.std.specs.Prelude.{◌≡◌, ◌≢◌, ℕ, ◌+◌, ◌<◌, ◌≤◌, List, [], ◌∷◌, ◌++◌, length, Option, Some, IfOk, IfErr, OnOk, OnErr};
ghost use Rattle.gx_pages.specs.Footprints.{KeepsPages, StaysQuiet};
ghost use Rattle.gx_pages.specs.Frees.{IsFreeList, IsFull};
ghost use Rattle.gx_pages.specs.Pages.{HasCause};
ghost use Rattle.gx_chain.specs.Chains.{Link, Holds, HoldsBeside, HoldsNone, BeginsNone, ListsNone, HasRoom, Adds, IsBehind, IsSound, entries_of, first_of, last_to, pages_of};
ghost use Rattle.gx_chain.specs.declared.entry.Entry.{Entry};

use crate::entry::Entry;
use crate::reading::{fetch_slots, push_entries};
use crate::trail::Trail;
use crate::writing::{is_empty, put_slots, remove_item};
use gx_pages::{PageError, Pages, Steps};
use gx_slot::SlotPage;
use std::alloc::Global;
use std::sync::ledger::Ledger;

/// A chain of slot pages of one kind, which holds a list of items: its first and its last page, and a bound of how many
/// pages it has, which bounds every walk over it. It has at least one.
#[derive(Clone, Copy, Debug, Drop, PartialEq, Eq)]
pub struct Chain {
    pub first: u64,
    pub last: u64,
    pub pages: u64,
}

impl Chain {
    /// A chain without items, on a page that it takes.
    pub fn create<P: Pages>(pages: &mut P, kind: u8) -> Result<Chain, PageError>
        ensures one { IfOk result (λ chain. (chain.first ≡ chain.last) × (chain.pages ≡ 1)) }
        ensures made { IfOk result (λ chain. P.tells → (free : List ℕ) → IsFreeList (P.map pages.old) (P.count pages.old) free
            → (rest : List ℕ) × HoldsBeside P.Pages pages.new kind chain ((chain.first, []) ∷ []) rest
            × KeepsPages P.Pages pages.old pages.new [] free (chain.first ∷ []) rest) }
        ensures grows { P.count pages.old ≤ P.count pages.new }
        ensures by_one { P.count pages.new ≤ P.count pages.old + 1 }
        ensures cause { IfErr result (HasCause (P.faults pages.old) (P.faults pages.new)
            (λ at expected found. P.tells → ListsNone P.Pages pages.old) (IsFull P.tells (P.map pages.new) (P.count pages.new)) (Unit {0})) }
        ensures heap { P.heap_fetches pages.new ≡ P.heap_fetches pages.old }
        ensures fetches { P.fetches pages.new ≡ P.fetches pages.old }
        ensures quiet { StaysQuiet P.Pages pages.old pages.new }
    {
        let first = pages.take()?;
        let slots = SlotPage::new(kind, 0);
        pages.put(first, slots.page())?;
        Ok(Chain {
            first,
            last: first,
            pages: 1,
        })
    }

    /// Adds an item at the end, and gives its page and its slot. It stands on the last page where it has room there, else
    /// on a new page.
    pub fn append<P: Pages>(
        &mut self,
        pages: &mut P,
        kind: u8,
        item: &[u8],
    ) -> Result<(u64, u16), PageError>
        requires { length item.now ≤ 8172 }
        ensures added { IfOk result (λ at. P.tells → (links : List Link) (free : List ℕ) → HoldsBeside P.Pages pages.old kind self.old links free
            → (later : List Link) × (rest : List ℕ) × HoldsBeside P.Pages pages.new kind self.new later rest
            × Adds links later at.0 at.1 item.now × (entries_of later ≡ entries_of links ++ record { page = at.0; slot = at.1; item = item.now } ∷ [])
            × KeepsPages P.Pages pages.old pages.new (pages_of links) free (pages_of later) rest
            × (self.old.pages ≡ length links → self.new.pages ≡ length later)) }
        ensures first { self.new.first ≡ self.old.first }
        ensures last { IfOk result (λ at. self.new.last ≡ at.0) }
        ensures pages { self.new.pages ≤ self.old.pages + 1 }
        ensures same { OnErr result (self.new ≡ self.old) }
        ensures grows { P.count pages.old ≤ P.count pages.new }
        ensures by_one { P.count pages.new ≤ P.count pages.old + 1 }
        ensures cause { IfErr result (HasCause (P.faults pages.old) (P.faults pages.new)
            (λ at expected found. P.tells → HoldsNone P.Pages pages.old kind self.old)
            (λ count. IsFull P.tells (P.map pages.new) (P.count pages.new) count × (P.tells → (front : List Link) (items : List (Option (List ℕ)))
            → Holds (P.map pages.old) (P.count pages.old) kind self.old (front ++ (self.old.last, items) ∷ []) → ¬ HasRoom items item.now)) (Unit {0})) }
        ensures heap { P.heap_fetches pages.new ≤ P.heap_fetches pages.old + 1 }
        ensures other { kind ≢ 2 → IsSound result → P.heap_fetches pages.new ≡ P.heap_fetches pages.old }
        ensures fetches { P.fetches pages.new ≤ P.fetches pages.old + 1 }
        ensures quiet { StaysQuiet P.Pages pages.old pages.new }
    {
        let mut slots = fetch_slots(pages, self.last, kind)?;
        if let Ok(slot) = slots.add(item) {
            put_slots(pages, self.last, &slots)?;
            return Ok((self.last, slot));
        }
        let page = pages.take()?;
        let mut fresh = SlotPage::new(kind, 0);
        let Ok(slot) = fresh.add(item) else {
            unreachable!();
        };
        pages.put(page, fresh.page())?;
        slots.set_next(page);
        pages.put(self.last, slots.page())?;
        self.last = page;
        self.pages = self.pages.saturating_add(1);
        Ok((page, slot))
    }

    /// The chain that begins at this page, its pages and its items in order. Broken where no chain of this kind begins there, a circle
    /// too, which is found when it closes.
    pub fn open<P: Pages>(
        alloc: Global,
        pages: &mut P,
        kind: u8,
        first: u64,
    ) -> Result<(Chain, Vec<u64>, Vec<Entry>), PageError>
        ensures linked { IfOk result (λ opened. P.tells → (links : List Link) × Holds (P.map pages.old) (P.count pages.old) kind opened.0 links
            × (opened.2.items ≡ entries_of links) × (opened.0.pages ≡ length links) × (opened.1.items ≡ pages_of links)) }
        ensures first { IfOk result (λ opened. opened.0.first ≡ first) }
        ensures cause { IfErr result (HasCause (P.faults pages.old) (P.faults pages.new)
            (λ at expected found. P.tells → BeginsNone (P.map pages.old) (P.count pages.old) kind first) (λ _. ⊥) (Unit {0})) }
        ensures map { P.map pages.new ≡ P.map pages.old }
        ensures count { P.count pages.new ≡ P.count pages.old }
        ensures other { kind ≢ 2 → IsSound result → P.heap_fetches pages.new ≡ P.heap_fetches pages.old }
        ensures once { kind ≢ 2 → P.heap_fetches pages.new ≤ P.heap_fetches pages.old + 1 }
        ensures fetches { IfOk result (λ opened. P.fetches pages.new ≤ P.fetches pages.old + opened.0.pages) }
        ensures quiet { StaysQuiet P.Pages pages.old pages.new }
    {
        let mut entries = Vec::new(alloc);
        let mut feet = Vec::new(alloc);
        let mut trail = Trail::new();
        let mut page = first;
        for passed in 0..u64::MAX {
            let slots = fetch_slots(pages, page, kind)?;
            let level = slots.level();
            if level != 0 {
                return Err(PageError::Broken {
                    page,
                    expected: 0,
                    found: u64::from(level),
                });
            }
            if !trail.passes(page) {
                return Err(unended(page));
            }
            let next = slots.next();
            push_entries(alloc, page, &slots, &mut entries)?;
            let Ok(()) = feet.push(page) else {
                return Err(PageError::Memory);
            };
            if next == 0 {
                let chain = Chain {
                    first,
                    last: page,
                    pages: passed + 1,
                };
                return Ok((chain, feet, entries));
            }
            page = next;
        }
        Err(unended(page))
    }

    /// Takes the first page out of the chain and gives it back: `next`, the page behind it, is the first one then.
    pub fn unlink_first<P: Pages>(
        &mut self,
        pages: &mut P,
        page: u64,
        next: u64,
    ) -> Result<(), PageError>
        requires nonzero { page ≢ 0 }
        requires below { page < P.count pages.old }
        ensures unlinked { OnOk result (P.tells → next ≢ 0 → (kind : ℕ) (back : List Link) (items : List (Option (List ℕ))) (free : List ℕ)
            → HoldsBeside P.Pages pages.old kind self.old ((page, items) ∷ back) free → next ≡ first_of back
            → HoldsBeside P.Pages pages.new kind self.new back (page ∷ free)
            × KeepsPages P.Pages pages.old pages.new (page ∷ pages_of back) free (pages_of back) (page ∷ free)) }
        ensures chain { OnOk result (self.new ≡ record self.old { first = next }) }
        ensures same { OnErr result (self.new ≡ self.old) }
        ensures count { P.count pages.new ≡ P.count pages.old }
        ensures cause { IfErr result (HasCause (P.faults pages.old) (P.faults pages.new) (λ _ _ _. ⊥) (λ _. ⊥) (Unit {0})) }
        ensures heap { P.heap_fetches pages.new ≡ P.heap_fetches pages.old }
        ensures fetches { P.fetches pages.new ≡ P.fetches pages.old }
        ensures quiet { StaysQuiet P.Pages pages.old pages.new }
    {
        pages.give(page)?;
        self.first = next;
        Ok(())
    }

    /// Takes a page out of the chain and gives it back: the page `before` it names `next` then, the page behind it.
    pub fn unlink_behind<P: Pages>(
        &self,
        pages: &mut P,
        kind: u8,
        before: u64,
        page: u64,
        next: u64,
    ) -> Result<(), PageError>
        requires nonzero { page ≢ 0 }
        requires below { page < P.count pages.old }
        ensures unlinked { OnOk result (P.tells → next ≢ 0 → (front back : List Link) (others items : List (Option (List ℕ))) (free : List ℕ)
            → HoldsBeside P.Pages pages.old kind self.now (front ++ (before, others) ∷ (page, items) ∷ back) free → next ≡ first_of back
            → HoldsBeside P.Pages pages.new kind self.now (front ++ (before, others) ∷ back) (page ∷ free)
            × KeepsPages P.Pages pages.old pages.new (pages_of (front ++ (before, others) ∷ (page, items) ∷ back)) free (pages_of (front ++ (before, others) ∷ back)) (page ∷ free)) }
        ensures shorter { OnOk result (P.tells → (ends : Chain) (front back : List Link) (others items : List (Option (List ℕ))) (free : List ℕ)
            → HoldsBeside P.Pages pages.old kind self.now (front ++ (before, others) ∷ (page, items) ∷ back) free → next ≡ first_of back
            → ends.first ≡ self.now.first → ends.last ≡ last_to before back → length (front ++ (before, others) ∷ back) ≤ ends.pages
            → HoldsBeside P.Pages pages.new kind ends (front ++ (before, others) ∷ back) (page ∷ free)
            × KeepsPages P.Pages pages.old pages.new (pages_of (front ++ (before, others) ∷ (page, items) ∷ back)) free (pages_of (front ++ (before, others) ∷ back)) (page ∷ free)) }
        ensures count { P.count pages.new ≡ P.count pages.old }
        ensures cause { IfErr result (HasCause (P.faults pages.old) (P.faults pages.new)
            (λ at expected found. P.tells → (front back : List Link) (others : List (Option (List ℕ)))
            → Holds (P.map pages.old) (P.count pages.old) kind self.now (front ++ (before, others) ∷ back) → ⊥) (λ _. ⊥) (Unit {0})) }
        ensures heap { P.heap_fetches pages.new ≤ P.heap_fetches pages.old + 1 }
        ensures other { kind ≢ 2 → IsSound result → P.heap_fetches pages.new ≡ P.heap_fetches pages.old }
        ensures fetches { P.fetches pages.new ≤ P.fetches pages.old + 1 }
        ensures quiet { StaysQuiet P.Pages pages.old pages.new }
    {
        let mut slots = fetch_slots(pages, before, kind)?;
        slots.set_next(next);
        pages.put(before, slots.page())?;
        pages.give(page)?;
        Ok(())
    }

    /// Empties a slot. A page that has no item then is given back, but the first one. `before` is the page before it, or 0.
    pub fn remove<P: Pages>(
        &mut self,
        pages: &mut P,
        kind: u8,
        before: u64,
        page: u64,
        slot: u16,
    ) -> Result<(), PageError>
        ensures removed { OnOk result (P.tells → (links : List Link) (free : List ℕ) (front back : List Entry) (item : List ℕ)
            → HoldsBeside P.Pages pages.old kind self.old links free → entries_of links ≡ front ++ record { page = page; slot = slot; item = item } ∷ back
            → IsBehind before page (pages_of links)
            → (later : List Link) × (rest : List ℕ) × HoldsBeside P.Pages pages.new kind self.new later rest × (entries_of later ≡ front ++ back)
            × KeepsPages P.Pages pages.old pages.new (pages_of links) free (pages_of later) rest
            × (self.old.pages ≡ length links → self.new.pages ≡ length later)) }
        ensures first { self.new.first ≡ self.old.first }
        ensures same { OnErr result (self.new ≡ self.old) }
        ensures count { P.count pages.new ≡ P.count pages.old }
        ensures cause { IfErr result (HasCause (P.faults pages.old) (P.faults pages.new)
            (λ at expected found. P.tells → (links : List Link) (free : List ℕ) (front back : List Entry) (item : List ℕ)
            → HoldsBeside P.Pages pages.old kind self.old links free → entries_of links ≡ front ++ record { page = page; slot = slot; item = item } ∷ back
            → ¬ IsBehind before page (pages_of links)) (λ _. ⊥) (Unit {0})) }
        ensures other { kind ≢ 2 → IsSound result → P.heap_fetches pages.new ≡ P.heap_fetches pages.old }
        ensures fetches { P.fetches pages.new ≤ P.fetches pages.old + 2 }
        ensures quiet { StaysQuiet P.Pages pages.old pages.new }
    {
        let slots = remove_item(pages, kind, page, slot)?;
        if before == 0 {
            return Ok(());
        }
        if !is_empty(&slots) {
            return Ok(());
        }
        let next = slots.next();
        self.unlink_behind(pages, kind, before, page, next)?;
        if next == 0 {
            self.last = before;
        }
        self.pages = self.pages.saturating_sub(1);
        Ok(())
    }

    /// Gives every page back. There is no chain then. A step is counted for each page that is fetched.
    pub fn drop_all<P: Pages, L: Ledger>(
        self,
        pages: &mut P,
        kind: u8,
        steps: &mut Steps<L>,
    ) -> Result<(), PageError>
        ensures dropped { OnOk result (P.tells → (links : List Link) (free : List ℕ) → HoldsBeside P.Pages pages.old kind self links free
            → (rest : List ℕ) × KeepsPages P.Pages pages.old pages.new (pages_of links) free [] rest) }
        ensures count { P.count pages.new ≡ P.count pages.old }
        ensures cause { IfErr result (HasCause (P.faults pages.old) (P.faults pages.new)
            (λ at expected found. P.tells → HoldsNone P.Pages pages.old kind self) (λ _. ⊥) (Unit {0})) }
        ensures ticks { P.heap_fetches pages.new + steps.old ≤ P.heap_fetches pages.old + steps.new }
        ensures most { steps.new ≤ steps.old + self.pages }
        ensures fetches { P.fetches pages.new ≤ P.fetches pages.old + self.pages }
        ensures quiet { StaysQuiet P.Pages pages.old pages.new }
    {
        let mut page = self.first;
        for _ in 0..self.pages {
            if page == 0 {
                return Ok(());
            }
            steps.tick();
            let slots = fetch_slots(pages, page, kind)?;
            pages.give(page)?;
            page = slots.next();
        }
        if page != 0 {
            return Err(unended(page));
        }
        Ok(())
    }
}

// The chain goes on with this page, where it has to end.
fn unended(page: u64) -> PageError
    ensures { result ≡ PageError.Broken page 0 page }
{
    PageError::Broken {
        page,
        expected: 0,
        found: page,
    }
}
