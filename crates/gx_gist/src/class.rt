//! The trait of operator classes, with its laws.

ghost use Rattle.std.specs.Prelude.{◌≡◌, ◌≢◌, ℕ, ◌≤◌, ◌↔◌, List, length, Bool, Contains, IsTrue, IfOk, MatchOption, if◌then◌else◌};
ghost use Rattle.gx_gist.specs.Places.{IsRearrangement};
ghost use Rattle.gx_gist.specs.Spelled.{SpellsNone, IsSpelled};
ghost use Rattle.gx_gist.specs.declared.test.Test.{Test};
ghost use Rattle.gx_gist.specs.declared.test.Test.TheVariants.{No, Yes};

use crate::{Keys, Places, Test};
use gx_bytes::{Bytes, NoMemory};
use std::alloc::Global;

/// A GiST operator class.
///
/// Its calls are given valid classes, values, queries and keys, and give valid keys.
pub trait GistClass: Drop {
    /// What a column holds.
    type Value;

    /// An operator with its operand.
    type Query;

    /// What stands on a page for a value, or for all values below an item.
    type Key: Drop;

    // Which classes, values, queries and keys are valid.
    ghost valid: { Self → Type 0 };

    ghost valid_value: { Self → Self.Value → Type 0 };

    ghost valid_query: { Self → Self.Query → Type 0 };

    ghost valid_key: { Self → Self.Key → Type 0 };

    // The query holds of the value.
    ghost holds: { Self → Self.Value → Self.Query → Type 0 };

    // The key of one value, and the key of all that two keys stand for.
    ghost leaf_of: { Self → Self.Value → Self.Key };

    ghost union_of: { Self → Self.Key → Self.Key → Self.Key };

    // A key reaches at least as far as a leaf key.
    ghost over: { Self → Self.Key → Self.Key → Type 0 };

    // The tests of a leaf key and of a key above the leaves.
    ghost leaf_test: { Self → Self.Key → Self.Query → Test };

    ghost inner_test: { Self → Self.Key → Self.Query → Test };

    // The places of the keys in an order that a split may cut.
    ghost ordered: { Self → List Self.Key → List ℕ → Type 0 };

    // How much a key grows where another is united with it.
    ghost growth: { Self → Self.Key → Self.Key → ℕ };

    // The bytes of a key.
    ghost spelling: { Self → Self.Key → List ℕ };

    /// The key of a value.
    fn leaf(&self, alloc: Global, value: &Self::Value) -> Result<Self::Key, NoMemory>
        requires class { valid self.now }
        requires value { valid_value self.now value.now }
        ensures { IfOk result (λ key. key ≡ leaf_of self.now value.now) };

    /// The key of all that both keys stand for.
    fn union(&self, alloc: Global, a: &Self::Key, b: &Self::Key) -> Result<Self::Key, NoMemory>
        requires class { valid self.now }
        requires left { valid_key self.now a.now }
        requires right { valid_key self.now b.now }
        ensures { IfOk result (λ key. key ≡ union_of self.now a.now b.now) };

    /// Tests a key against a query.
    fn test(
        &self,
        alloc: Global,
        key: &Self::Key,
        at_leaf: bool,
        query: &Self::Query,
    ) -> Result<Test, NoMemory>
        requires class { valid self.now }
        requires key { valid_key self.now key.now }
        requires query { valid_query self.now query.now }
        ensures { IfOk result (λ test. test ≡ (if at_leaf then leaf_test self.now key.now query.now else inner_test self.now key.now query.now)) };

    /// How much a key grows where another is united with it. No law speaks of it: it only keeps near keys together.
    fn penalty(&self, alloc: Global, key: &Self::Key, added: &Self::Key) -> Result<u128, NoMemory>
        requires class { valid self.now }
        requires key { valid_key self.now key.now }
        requires added { valid_key self.now added.now }
        ensures { IfOk result (λ penalty. penalty ≡ growth self.now key.now added.now) };

    /// The places of the keys in an order in which near keys stand together.
    fn order(&self, alloc: Global, keys: &Keys<Self::Key>) -> Result<Places, NoMemory>
        requires class { valid self.now }
        requires keys { (key : Self.Key) → Contains keys.now key → valid_key self.now key }
        ensures { IfOk result (λ places. ordered self.now keys.now places) };

    /// Tells whether the keys are equal.
    fn same(&self, a: &Self::Key, b: &Self::Key) -> bool
        requires class { valid self.now }
        requires left { valid_key self.now a.now }
        requires right { valid_key self.now b.now }
        ensures { IsTrue result ↔ (a.now ≡ b.now) };

    /// The bytes of a key.
    fn write(&self, alloc: Global, key: &Self::Key) -> Result<Bytes, NoMemory>
        requires class { valid self.now }
        requires key { valid_key self.now key.now }
        ensures { IfOk result (λ bytes. bytes ≡ spelling self.now key.now) };

    /// The key that these bytes spell, or None where they spell no key.
    fn read(&self, alloc: Global, bytes: &[u8]) -> Result<Option<Self::Key>, NoMemory>
        requires class { valid self.now }
        ensures { IfOk result (λ found. MatchOption found (SpellsNone (valid_key self.now) (spelling self.now) bytes.now) (IsSpelled (valid_key self.now) (spelling self.now) bytes.now)) };

    // Leaf keys and unions are valid.
    ghost leaf_is_valid: { (c : Self) (v : Self.Value) → valid c → valid_value c v → valid_key c (leaf_of c v) };

    ghost union_is_valid: { (c : Self) (a b : Self.Key) → valid c → valid_key c a → valid_key c b → valid_key c (union_of c a b) };

    // A leaf key is over itself, and a union is over what either part is over.
    ghost over_itself: { (c : Self) (v : Self.Value) → valid c → valid_value c v → over c (leaf_of c v) (leaf_of c v) };

    ghost union_over_left: { (c : Self) (a b : Self.Key) (v : Self.Value) → valid c → valid_key c a → valid_key c b → valid_value c v
        → over c a (leaf_of c v) → over c (union_of c a b) (leaf_of c v) };

    ghost union_over_right: { (c : Self) (a b : Self.Key) (v : Self.Value) → valid c → valid_key c a → valid_key c b → valid_value c v
        → over c b (leaf_of c v) → over c (union_of c a b) (leaf_of c v) };

    // A key says No only where each leaf key that it is over does.
    ghost inner_sees: { (c : Self) (k : Self.Key) (v : Self.Value) (q : Self.Query) → valid c → valid_key c k → valid_value c v → valid_query c q
        → over c k (leaf_of c v) → leaf_test c (leaf_of c v) q ≢ No → inner_test c k q ≢ No };

    // A leaf key says No only where the query doesn't hold, and Yes only where it does.
    ghost leaf_sees: { (c : Self) (v : Self.Value) (q : Self.Query) → valid c → valid_value c v → valid_query c q → holds c v q → leaf_test c (leaf_of c v) q ≢ No };

    ghost leaf_is_sure: { (c : Self) (v : Self.Value) (q : Self.Query) → valid c → valid_value c v → valid_query c q → leaf_test c (leaf_of c v) q ≡ Yes → holds c v q };

    // An order has each place once.
    ghost order_rearranges: { (c : Self) (keys : List Self.Key) (places : List ℕ) → valid c → ordered c keys places → IsRearrangement places (length keys) };

    // A key has one spelling, of at most 1,900 bytes.
    ghost one_spelling: { (c : Self) (a b : Self.Key) → valid c → valid_key c a → valid_key c b → spelling c a ≡ spelling c b → a ≡ b };

    ghost short_spelling: { (c : Self) (k : Self.Key) → valid c → valid_key c k → length (spelling c k) ≤ 1900 };
}
