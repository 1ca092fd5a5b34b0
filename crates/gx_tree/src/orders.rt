//! What is sought in a tree of rising keys, and what is changed there.

ghost use Rattle.std.specs.Prelude.{◌≡◌, ℕ, ◌+◌, ◌≤◌, List, [], ◌∷◌, ◌++◌, length, map, Option, Some, None, IfOk, IfSome, IfNone, MatchBool, MatchOption};
ghost use Rattle.std.specs.List.{AllByRecursion};
ghost use Rattle.gx_tree.specs.Orders.{AtMost, IsFrom, IsLawful, IsUnder, Order};
ghost use Rattle.gx_tree.specs.Paging.{replaced};

use gx_bytes::{Bytes, NoMemory};
use gx_slot::SlotPage;
use std::alloc::Global;

/// What is sought in a tree of rising keys.
pub trait Seek {
    // The order of the keys.
    ghost order: { Order };

    // The key that is sought.
    ghost sought: { Self → List ℕ };

    /// Tells whether a key is at most the one that is sought. None where the bytes are no key.
    fn reaches(&self, key: &[u8]) -> Option<bool>
        ensures found { IfSome result (λ yes. MatchBool yes (AtMost order key.now (sought self.now)) (order.Less (sought self.now) key.now)) }
        ensures none { IfNone result (order.IsKey key.now → ⊥) };

    // The order is one.
    ghost lawful: { IsLawful order };
}

/// An item of level 0 that is put in the place of none or of one.
#[derive(Debug, Drop)]
pub struct Edit {
    /// Where it comes to stand.
    pub place: u16,
    /// The item behind it.
    pub behind: u16,
    pub item: Bytes,
}

/// A change of the items of a page of level 0.
pub trait Change: Seek {
    // Which items allow it.
    ghost allows: { Self → List ℕ → Type 0 };

    // Which items become which ones.
    ghost edits: { Self → List (List ℕ) → List (List ℕ) → Type 0 };

    /// The key of what is put in.
    fn own(&self) -> &[u8]
        ensures { result.now ≡ Self.sought self.now };

    /// The change of a page with these items. None where they don't rise as they have to.
    fn edit(&self, alloc: Global, slots: &SlotPage) -> Result<Option<Edit>, NoMemory>
        ensures { IfOk result (λ found. MatchOption found
            ((least end : Option (List ℕ)) (items : List (List ℕ)) → slots.now.items ≡ map (λ item. Some item) items → Self.order.AreIn least end items → AllByRecursion (allows self.now) items → ⊥)
            (λ edit. (least end : Option (List ℕ)) (items : List (List ℕ)) → slots.now.items ≡ map (λ item. Some item) items → Self.order.AreIn least end items
            → AllByRecursion (allows self.now) items → IsFrom Self.order least (Self.sought self.now) → IsUnder Self.order end (Self.sought self.now)
            → (edit.place ≤ edit.behind) × (edit.behind ≤ edit.place + 1) × (edit.behind ≤ length items)
            × Self.order.AreIn least end (replaced items edit.place edit.behind (edit.item ∷ [])) × edits self.now items (replaced items edit.place edit.behind (edit.item ∷ [])))) };

    /// The least key of an item of level 0. None where there is none.
    fn key_of(&self, alloc: Global, item: &[u8]) -> Result<Option<Bytes>, NoMemory>
        ensures { IfOk result (λ found. MatchOption found
            ((least end : Option (List ℕ)) (front back : List (List ℕ)) → Self.order.AreIn least end (front ++ item.now ∷ back) → ⊥)
            (λ key. (least end : Option (List ℕ)) (front back : List (List ℕ)) → Self.order.AreIn least end (front ++ item.now ∷ back) → Self.order.IsLeast item.now key)) };
}
