//! The class gin__int_ops.

ghost use Rattle.std.specs.Prelude.{◌≡◌, ◌≢◌, ◌≤◌, ℕ, List, Bool, length, Contains, IfOk};
ghost use Rattle.gx_intarr.specs.Arrays.{IsArray};
ghost use Rattle.gx_gin_arrays.specs.Numbers.{items};
ghost use Rattle.gx_gin_arrays.specs.Tests.{Holds, IsQuery, wanted, mode, answer};
ghost use Rattle.gx_gin_arrays.specs.Laws.{items_rise, wanted_rise, items_are_short, reach_sees, passes_are_right};

use crate::IntQuery;
use crate::numbers::items_of;
use crate::tests_of_queries::{answer_of, wanted_of};
use gx_bytes::NoMemory;
use gx_gin::{GinClass, Items, Wanted};
use gx_gist::Test;
use gx_intarr::IntArray;
use std::alloc::Global;

/// The operator class `gin__int_ops` of int4[]. An item is an element in four bytes.
#[derive(Clone, Copy, Debug, Drop)]
pub struct GinIntClass;

impl GinClass for GinIntClass {
    type Value = IntArray;

    type Query = IntQuery;

    ghost valid = { λ _. Unit {0} };

    ghost valid_value = { λ _ v. IsArray v };

    ghost valid_query = { λ _ q. IsQuery q };

    ghost holds = { λ _ v q. Holds q v };

    ghost items_of = { λ _ v. items v };

    ghost wanted_of = { λ _ q. wanted q };

    ghost mode_of = { λ _ q. mode q };

    ghost passes_of = { λ _ q found. answer q found };

    fn items(&self, alloc: Global, value: &IntArray) -> Result<Items, NoMemory> {
        items_of(alloc, value.items())
    }

    fn wanted(&self, alloc: Global, query: &IntQuery) -> Result<Wanted, NoMemory> {
        wanted_of(alloc, query)
    }

    fn passes(&self, query: &IntQuery, found: &[bool]) -> Test {
        answer_of(query, found)
    }

    ghost items_rise = { λ _ v _ _. items_rise v };

    ghost wanted_rise = { λ _ q _ _. wanted_rise q };

    ghost items_are_short = { λ _ v item _ _ is. items_are_short v item is };

    ghost reach_sees = { λ _ v q _ _ valid holds. reach_sees v q holds };

    ghost passes_sees = { λ _ v q _ is_array valid holds. (passes_are_right v q is_array valid).sees holds };

    ghost passes_is_sure = { λ _ v q _ is_array valid sure. (passes_are_right v q is_array valid).sure sure };
}
