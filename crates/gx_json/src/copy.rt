//! Copies of documents.

ghost use Rattle.std.specs.Prelude.{◌≡◌, IfOk};
ghost use Rattle.gx_json.specs.Tree.{data_of, items_data, members_data};

use crate::document::{Json, JsonList, JsonPairs};
use gx_bytes::{Bytes, NoMemory};
use std::alloc::Global;

impl Json {
    /// The same document once more.
    pub fn copy(&self, alloc: Global) -> Result<Json, NoMemory>
        ensures { IfOk result (λ made. data_of made ≡ data_of self.now) }
    {
        copied(alloc, self)
    }
}

#[cycle(copy)]
fn copied(alloc: Global, value: &Json) -> Result<Json, NoMemory>
    ensures { IfOk result (λ made. data_of made ≡ data_of value.now) }
{
    match value {
        Json::Null => Ok(Json::Null),
        Json::Bool(truth) => Ok(Json::Bool(*truth)),
        Json::Number(number) => Ok(Json::Number(*number)),
        Json::Text(text) => Ok(Json::Text(text.copy(alloc)?)),
        Json::List(list) => Ok(Json::List(JsonList {
            items: copied_items(alloc, &list.items)?,
        })),
        Json::Object(pairs) => Ok(Json::Object(JsonPairs {
            items: copied_pairs(alloc, &pairs.items)?,
        })),
    }
}

#[cycle(copy)]
fn copied_items(alloc: Global, items: &[Json]) -> Result<Vec<Json>, NoMemory>
    ensures { IfOk result (λ made. items_data made.items ≡ items_data items.now) }
{
    let mut copies = Vec::with_capacity(alloc, items.len())?;
    for item in items {
        copies.push(copied(alloc, item)?)?;
    }
    Ok(copies)
}

#[cycle(copy)]
fn copied_pairs(alloc: Global, pairs: &[(Bytes, Json)]) -> Result<Vec<(Bytes, Json)>, NoMemory>
    ensures { IfOk result (λ made. members_data made.items ≡ members_data pairs.now) }
{
    let mut copies = Vec::with_capacity(alloc, pairs.len())?;
    for pair in pairs {
        let key = pair.0.copy(alloc)?;
        copies.push((key, copied(alloc, &pair.1)?))?;
    }
    Ok(copies)
}
