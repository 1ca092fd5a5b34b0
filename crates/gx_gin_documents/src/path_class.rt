//! The class jsonb_path_ops.

ghost use Rattle.std.specs.Prelude.{◌≡◌, ◌≢◌, ◌≤◌, ℕ, List, Bool, length, Contains, IfOk};
ghost use Rattle.gx_json.specs.Tree.{data_of};
ghost use Rattle.gx_json.specs.Valid.{IsDocument};
ghost use Rattle.gx_gin_documents.specs.Paths.{items};
ghost use Rattle.gx_gin_documents.specs.Tests.{Holds, IsPathQuery, path_wanted, path_mode, path_answer};
ghost use Rattle.gx_gin_documents.specs.Laws.{paths_rise, path_wanted_rise, paths_are_short, path_reach_sees, paths_are_right};

use crate::JsonQuery;
use crate::paths::paths_of;
use crate::tests_of_queries::{path_answer_of, path_wanted_of};
use gx_bytes::NoMemory;
use gx_gin::{GinClass, Items, Wanted};
use gx_gist::Test;
use gx_json::Json;
use std::alloc::Global;

/// The operator class `jsonb_path_ops`, which supports `@>` alone. The items of a document are the hashes of its scalars with the keys above them. No test
/// is sure.
#[derive(Clone, Copy, Debug, Drop)]
pub struct JsonbPathClass;

impl GinClass for JsonbPathClass {
    type Value = Json;

    type Query = JsonQuery;

    ghost valid = { λ _. Unit {0} };

    ghost valid_value = { λ _ v. IsDocument (data_of v) };

    ghost valid_query = { λ _ q. IsPathQuery q };

    ghost holds = { λ _ v q. Holds q (data_of v) };

    ghost items_of = { λ _ v. items (data_of v) };

    ghost wanted_of = { λ _ q. path_wanted q };

    ghost mode_of = { λ _ q. path_mode q };

    ghost passes_of = { λ _ q found. path_answer q found };

    fn items(&self, alloc: Global, value: &Json) -> Result<Items, NoMemory> {
        Items::of(paths_of(alloc, value)?)
    }

    fn wanted(&self, alloc: Global, query: &JsonQuery) -> Result<Wanted, NoMemory> {
        path_wanted_of(alloc, query)
    }

    fn passes(&self, query: &JsonQuery, found: &[bool]) -> Test {
        path_answer_of(query, found)
    }

    ghost items_rise = { λ _ v _ _. paths_rise (data_of v) };

    ghost wanted_rise = { λ _ q _ valid. path_wanted_rise q valid };

    ghost items_are_short = { λ _ v item _ _ is. paths_are_short (data_of v) item is };

    ghost reach_sees = { λ _ v q _ _ valid holds. path_reach_sees (data_of v) q valid holds };

    ghost passes_sees = { λ _ v q _ _ valid holds. (paths_are_right (data_of v) q valid).sees holds };

    ghost passes_is_sure = { λ _ v q _ _ valid sure. (paths_are_right (data_of v) q valid).sure sure };
}
