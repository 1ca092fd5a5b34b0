//! The class gin_hstore_ops.

ghost use Rattle.std.specs.Prelude.{◌≡◌, ◌≢◌, ◌≤◌, ℕ, List, Bool, length, Contains, IfOk};
ghost use Rattle.gx_hstore.specs.Map.{IsHstore};
ghost use Rattle.gx_gin_maps.specs.Tests.{Holds, IsQuery, items, wanted, mode, answer};
ghost use Rattle.gx_gin_maps.specs.Laws.{items_rise, wanted_rise, items_are_short, reach_sees, passes_are_right};

use crate::HstoreQuery;
use crate::items_of_maps::items_of;
use crate::tests_of_queries::{answer_of, wanted_of};
use gx_bytes::NoMemory;
use gx_gin::{GinClass, Items, Wanted};
use gx_gist::Test;
use gx_hstore::Hstore;
use std::alloc::Global;

/// The operator class `gin_hstore_ops`. The items of a map are its keys, and its keys with their values or NULL; those of more than 1,900 bytes
/// are replaced by their hash.
#[derive(Clone, Copy, Debug, Drop)]
pub struct GinHstoreClass;

impl GinClass for GinHstoreClass {
    type Value = Hstore;

    type Query = HstoreQuery;

    ghost valid = { λ _. Unit {0} };

    ghost valid_value = { λ _ v. IsHstore v };

    ghost valid_query = { λ _ q. IsQuery q };

    ghost holds = { λ _ v q. Holds q v };

    ghost items_of = { λ _ v. items v };

    ghost wanted_of = { λ _ q. wanted q };

    ghost mode_of = { λ _ q. mode q };

    ghost passes_of = { λ _ q found. answer q found };

    fn items(&self, alloc: Global, value: &Hstore) -> Result<Items, NoMemory> {
        items_of(alloc, value.pairs())
    }

    fn wanted(&self, alloc: Global, query: &HstoreQuery) -> Result<Wanted, NoMemory> {
        wanted_of(alloc, query)
    }

    fn passes(&self, query: &HstoreQuery, found: &[bool]) -> Test {
        answer_of(query, found)
    }

    ghost items_rise = { λ _ v _ _. items_rise v };

    ghost wanted_rise = { λ _ q _ _. wanted_rise q };

    ghost items_are_short = { λ _ v item _ _ is. items_are_short v item is };

    ghost reach_sees = { λ _ v q _ _ valid holds. reach_sees v q valid holds };

    ghost passes_sees = { λ _ v q _ is valid holds. (passes_are_right v q is valid).sees holds };

    ghost passes_is_sure = { λ _ v q _ is valid sure. (passes_are_right v q is valid).sure sure };
}
