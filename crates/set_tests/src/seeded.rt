//! Classes with seeded values and queries.

ghost use Rattle.std.specs.Prelude.{IfOk, MatchOption};

use gx_gist::OnBytes;
use gx_pages::PageError;
use std::alloc::Global;

/// A class with a value for each number, and some queries.
pub trait Seeded: OnBytes {
    /// The value of a row with this number.
    fn value(&self, alloc: Global, number: u32) -> Result<Self::Value, PageError>
        requires { Self.valid self.now }
        ensures { IfOk result (Self.valid_value self.now) };

    /// The query at this place, if there are so many.
    fn query(&self, alloc: Global, place: usize) -> Result<Option<Self::Query>, PageError>
        requires { Self.valid self.now }
        ensures { IfOk result (λ found. MatchOption found (Unit {0}) (Self.valid_query self.now)) };
}
