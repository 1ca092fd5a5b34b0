//! The trait of operator classes, with its laws.

ghost use Rattle.std.specs.Prelude.{◌≡◌, ◌≢◌, ℕ, ◌≤◌, List, length, Bool, IfOk, Contains};
ghost use Rattle.gx_gin.specs.Reach.{flags, InReach};
ghost use Rattle.gx_gin.specs.Rising.{IsRising};
ghost use Rattle.gx_gin.specs.declared.wanted.Mode.{Mode};
ghost use Rattle.gx_gist.specs.declared.test.Test.{Test};
ghost use Rattle.gx_gist.specs.declared.test.Test.TheVariants.{No, Yes};

use crate::{Items, Wanted};
use gx_bytes::NoMemory;
use gx_gist::Test;
use std::alloc::Global;

/// A GIN operator class. Its calls are given valid classes, values and queries.
pub trait GinClass: Drop {
    /// What a column holds.
    type Value;

    /// An operator with its operand.
    type Query;

    // Which classes, values and queries are valid.
    ghost valid: { Self → Type 0 };

    ghost valid_value: { Self → Self.Value → Type 0 };

    ghost valid_query: { Self → Self.Query → Type 0 };

    // The query holds of the value.
    ghost holds: { Self → Self.Value → Self.Query → Type 0 };

    // The items of a value.
    ghost items_of: { Self → Self.Value → List (List ℕ) };

    // The items that a query wants, and the rows that it looks at.
    ghost wanted_of: { Self → Self.Query → List (List ℕ) };

    ghost mode_of: { Self → Self.Query → Mode };

    // What the wanted items that a value has say of the query.
    ghost passes_of: { Self → Self.Query → List Bool → Test };

    /// The items of a value.
    fn items(&self, alloc: Global, value: &Self::Value) -> Result<Items, NoMemory>
        requires class { valid self.now }
        requires value { valid_value self.now value.now }
        ensures { IfOk result (λ items. items ≡ items_of self.now value.now) };

    /// The items that a query wants, and the rows that it looks at.
    fn wanted(&self, alloc: Global, query: &Self::Query) -> Result<Wanted, NoMemory>
        requires class { valid self.now }
        requires query { valid_query self.now query.now }
        ensures items { IfOk result (λ wanted. wanted.items ≡ wanted_of self.now query.now) }
        ensures mode { IfOk result (λ wanted. wanted.mode ≡ mode_of self.now query.now) };

    /// What is known of a row's value from a flag for each wanted item: whether the value has it.
    fn passes(&self, query: &Self::Query, found: &[bool]) -> Test
        requires class { valid self.now }
        requires query { valid_query self.now query.now }
        requires flags { length found.now ≡ length (wanted_of self.now query.now) }
        ensures { result ≡ passes_of self.now query.now found.now };

    // The items of a value rise, and so do those that a query wants.
    ghost items_rise: { (c : Self) (v : Self.Value) → valid c → valid_value c v → IsRising (items_of c v) };

    ghost wanted_rise: { (c : Self) (q : Self.Query) → valid c → valid_query c q → IsRising (wanted_of c q) };

    // No item of a value is longer than 1,900 bytes.
    ghost items_are_short: { (c : Self) (v : Self.Value) (item : List ℕ) → valid c → valid_value c v → Contains (items_of c v) item → length item ≤ 1900 };

    // Where the query holds of a value, the value is in reach, and its items don't rule it out.
    ghost reach_sees: { (c : Self) (v : Self.Value) (q : Self.Query) → valid c → valid_value c v → valid_query c q → holds c v q → InReach (mode_of c q) (wanted_of c q) (items_of c v) };

    ghost passes_sees: { (c : Self) (v : Self.Value) (q : Self.Query) → valid c → valid_value c v → valid_query c q → holds c v q → passes_of c q (flags (wanted_of c q) (items_of c v)) ≢ No };

    // Yes is said only where the query holds.
    ghost passes_is_sure: { (c : Self) (v : Self.Value) (q : Self.Query) → valid c → valid_value c v → valid_query c q → passes_of c q (flags (wanted_of c q) (items_of c v)) ≡ Yes → holds c v q };
}
