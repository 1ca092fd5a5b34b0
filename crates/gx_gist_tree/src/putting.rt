//! Pages that an insert writes.

ghost use Rattle.std.specs.Prelude.{◌≡◌, ◌≢◌, ◌⊎◌, ℕ, ◌+◌, ◌<◌, ◌≤◌, List, [], ◌∷◌, Some, IfOk, IfErr, OnOk};
ghost use Rattle.gx_pages.specs.Footprints.{IsOutside, KeepsPages, StaysQuiet};
ghost use Rattle.gx_pages.specs.Frees.{IsFreeList, IsFull};
ghost use Rattle.gx_pages.specs.Pages.{HasCause};
ghost use Rattle.gx_slot.specs.Slots.{spelling};
ghost use Rattle.gx_gist_tree.specs.OnPages.{inner_item};
ghost use Rattle.gx_gist_tree.specs.Insertion.{HasKeysOf, IsPut, IsWritten, page_with};

use crate::change::{Arranged, Change};
use crate::items::inner_bytes;
use crate::laying::page_of;
use gx_gist::{GistClass, Items};
use gx_pages::{PageError, Pages};
use gx_slot::SlotPage;
use std::alloc::Global;

/// Puts slots on a page, and others on a page that it takes.
fn put_both<P: Pages>(
    pages: &mut P,
    page: u64,
    slots: &SlotPage,
    other: &SlotPage,
) -> Result<u64, PageError>
    requires nonzero { page ≢ 0 }
    requires below { page < P.count pages.old }
    ensures put { IfOk result (λ taken. P.tells → (free : List ℕ) → IsFreeList (P.map pages.old) (P.count pages.old) free → IsOutside page free
        → IsWritten (P.map pages.new) page slots.now × IsWritten (P.map pages.new) taken other.now
        × ((rest : List ℕ) × KeepsPages P.Pages pages.old pages.new (page ∷ []) free (page ∷ taken ∷ []) rest)) }
    ensures cause { IfErr result (HasCause (P.faults pages.old) (P.faults pages.new)
        (λ at expected found. P.tells → (free : List ℕ) → IsFreeList (P.map pages.old) (P.count pages.old) free → ⊥) (IsFull P.tells (P.map pages.new) (P.count pages.new)) (Unit {0})) }
    ensures grows { P.count pages.old ≤ P.count pages.new }
    ensures by_one { P.count pages.new ≤ P.count pages.old + 1 }
    ensures heap { P.heap_fetches pages.new ≡ P.heap_fetches pages.old }
    ensures quiet { StaysQuiet P.Pages pages.old pages.new }
{
    let taken = pages.take()?;
    pages.put(page, slots.page())?;
    pages.put(taken, other.page())?;
    Ok(taken)
}

/// Puts slots on a page.
fn put_one<P: Pages>(pages: &mut P, page: u64, slots: &SlotPage) -> Result<(), PageError>
    requires nonzero { page ≢ 0 }
    requires below { page < P.count pages.old }
    ensures put { OnOk result (P.tells → (free : List ℕ) → IsFreeList (P.map pages.old) (P.count pages.old) free → IsOutside page free
        → IsWritten (P.map pages.new) page slots.now × KeepsPages P.Pages pages.old pages.new (page ∷ []) free (page ∷ []) free) }
    ensures cause { IfErr result (HasCause (P.faults pages.old) (P.faults pages.new) (λ at expected found. ⊥) (λ _. ⊥) (Unit {0})) }
    ensures count { P.count pages.new ≡ P.count pages.old }
    ensures heap { P.heap_fetches pages.new ≡ P.heap_fetches pages.old }
    ensures quiet { StaysQuiet P.Pages pages.old pages.new }
{
    pages.put(page, slots.page())?;
    Ok(())
}

/// Puts a page whose items were arranged anew.
pub fn put_arranged<P: Pages, K: Drop>(
    pages: &mut P,
    page: u64,
    slots: &SlotPage,
    arranged: Arranged<K>,
) -> Result<Change<K>, PageError>
    requires nonzero { page ≢ 0 }
    requires below { page < P.count pages.old }
    ensures put { IfOk result (λ change. P.tells → (free : List ℕ) → IsFreeList (P.map pages.old) (P.count pages.old) free → IsOutside page free
        → (arranged ≡ Arranged.Same → P.map pages.old page ≡ Some (spelling slots.now)) → IsPut P.Pages pages.old pages.new page slots.now free arranged change) }
    ensures keys { IfOk result (HasKeysOf arranged) }
    ensures cause { IfErr result (HasCause (P.faults pages.old) (P.faults pages.new)
        (λ at expected found. P.tells → (free : List ℕ) → IsFreeList (P.map pages.old) (P.count pages.old) free → ⊥) (IsFull P.tells (P.map pages.new) (P.count pages.new)) (Unit {0})) }
    ensures grows { P.count pages.old ≤ P.count pages.new }
    ensures by_one { P.count pages.new ≤ P.count pages.old + 1 }
    ensures heap { P.heap_fetches pages.new ≡ P.heap_fetches pages.old }
    ensures quiet { StaysQuiet P.Pages pages.old pages.new }
{
    let _spelled = slots.page();
    match arranged {
        Arranged::Same => Ok(Change::Within),
        Arranged::Here => {
            put_one(pages, page, slots)?;
            Ok(Change::Within)
        }
        Arranged::Halves {
            left,
            page: other,
            right,
        } => {
            let taken = put_both(pages, page, slots, &*other)?;
            Ok(Change::Split {
                left,
                page: taken,
                right,
            })
        }
    }
}

/// A page with the items of two pages below it.
fn two_items<C: GistClass>(
    alloc: Global,
    class: &C,
    level: u8,
    first: u64,
    left: &C::Key,
    second: u64,
    right: &C::Key,
) -> Result<SlotPage, PageError>
    requires class { C.valid class.now }
    requires left { C.valid_key class.now left.now }
    requires right { C.valid_key class.now right.now }
    ensures ok { IfOk result (λ slots. slots ≡ page_with level (inner_item (C.spelling class.now) first left.now ∷ inner_item (C.spelling class.now) second right.now ∷ [])) }
    ensures err { IfErr result (λ error. error ≡ PageError.Memory) }
{
    let one = inner_bytes(alloc, class, first, left)?;
    let other = inner_bytes(alloc, class, second, right)?;
    let mut items = Items::new(alloc);
    let Ok(()) = items.push(one) else {
        return Err(PageError::Memory);
    };
    let Ok(()) = items.push(other) else {
        return Err(PageError::Memory);
    };
    let Some(slots) = page_of(items.as_slice(), level) else {
        unreachable!();
    };
    Ok(slots)
}

/// Makes a root of the next level, above both halves of the root of a level: the left one moves to a page that it takes.
pub fn grow_root<P: Pages, C: GistClass>(
    alloc: Global,
    class: &C,
    pages: &mut P,
    slots: &SlotPage,
    root: u64,
    level: u8,
    left: &C::Key,
    other: u64,
    right: &C::Key,
) -> Result<(), PageError>
    requires class { C.valid class.now }
    requires left { C.valid_key class.now left.now }
    requires right { C.valid_key class.now right.now }
    requires nonzero { root ≢ 0 }
    requires below { root < P.count pages.old }
    ensures put { OnOk result (P.tells → (free : List ℕ) → IsFreeList (P.map pages.old) (P.count pages.old) free → IsOutside root free
        → (moved : ℕ) × (rest : List ℕ) × IsWritten (P.map pages.new) moved slots.now
        × IsWritten (P.map pages.new) root (page_with (level + 1) (inner_item (C.spelling class.now) moved left.now ∷ inner_item (C.spelling class.now) other right.now ∷ []))
        × KeepsPages P.Pages pages.old pages.new (root ∷ []) free (root ∷ moved ∷ []) rest) }
    ensures cause { IfErr result (HasCause (P.faults pages.old) (P.faults pages.new)
        (λ at expected found. level < 49 → P.tells → (free : List ℕ) → IsFreeList (P.map pages.old) (P.count pages.old) free → ⊥) (IsFull P.tells (P.map pages.new) (P.count pages.new)) (Unit {0})) }
    ensures grows { P.count pages.old ≤ P.count pages.new }
    ensures by_one { P.count pages.new ≤ P.count pages.old + 1 }
    ensures heap { P.heap_fetches pages.new ≡ P.heap_fetches pages.old }
    ensures quiet { StaysQuiet P.Pages pages.old pages.new }
{
    if level >= 49 {
        return Err(PageError::Broken {
            page: root,
            expected: 49,
            found: 50,
        });
    }
    let moved = pages.take()?;
    pages.put(moved, slots.page())?;
    let above = two_items(alloc, class, level + 1, moved, left, other, right)?;
    pages.put(root, above.page())?;
    Ok(())
}
