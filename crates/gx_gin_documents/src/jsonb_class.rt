//! The class jsonb_ops.

ghost use Rattle.std.specs.Prelude.{◌≡◌, ◌≢◌, ◌≤◌, ℕ, List, Bool, length, Contains, IfOk};
ghost use Rattle.gx_json.specs.Tree.{data_of};
ghost use Rattle.gx_json.specs.Valid.{IsDocument};
ghost use Rattle.gx_gin_documents.specs.Items.{items};
ghost use Rattle.gx_gin_documents.specs.Tests.{Holds, IsQuery, wanted, mode, answer};
ghost use Rattle.gx_gin_documents.specs.Laws.{items_rise, wanted_rise, items_are_short, reach_sees, passes_are_right};

use crate::JsonQuery;
use crate::items_of_documents::items_of;
use crate::tests_of_queries::{answer_of, wanted_of};
use gx_bytes::NoMemory;
use gx_gin::{GinClass, Items, Wanted};
use gx_gist::Test;
use gx_json::Json;
use std::alloc::Global;

/// The operator class `jsonb_ops`. The items of a document are its keys and its scalars, wherever they stand; those of more than 1,900 bytes are
/// replaced by their hash. No test is sure.
#[derive(Clone, Copy, Debug, Drop)]
pub struct JsonbClass;

impl GinClass for JsonbClass {
    type Value = Json;

    type Query = JsonQuery;

    ghost valid = { λ _. Unit {0} };

    ghost valid_value = { λ _ v. IsDocument (data_of v) };

    ghost valid_query = { λ _ q. IsQuery q };

    ghost holds = { λ _ v q. Holds q (data_of v) };

    ghost items_of = { λ _ v. items (data_of v) };

    ghost wanted_of = { λ _ q. wanted q };

    ghost mode_of = { λ _ q. mode q };

    ghost passes_of = { λ _ q found. answer q found };

    fn items(&self, alloc: Global, value: &Json) -> Result<Items, NoMemory> {
        Items::of(items_of(alloc, value)?)
    }

    fn wanted(&self, alloc: Global, query: &JsonQuery) -> Result<Wanted, NoMemory> {
        wanted_of(alloc, query)
    }

    fn passes(&self, query: &JsonQuery, found: &[bool]) -> Test {
        answer_of(query, found)
    }

    ghost items_rise = { λ _ v _ _. items_rise (data_of v) };

    ghost wanted_rise = { λ _ q _ _. wanted_rise q };

    ghost items_are_short = { λ _ v item _ _ is. items_are_short (data_of v) item is };

    ghost reach_sees = { λ _ v q _ _ _ holds. reach_sees (data_of v) q holds };

    ghost passes_sees = { λ _ v q _ _ _ holds. (passes_are_right (data_of v) q).sees holds };

    ghost passes_is_sure = { λ _ v q _ _ _ sure. (passes_are_right (data_of v) q).sure sure };
}
