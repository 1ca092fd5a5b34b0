//! Seeded values and queries of the five classes. Every forty-ninth value has no items.

ghost use Rattle.std.specs.Prelude.{IfOk};
ghost use Rattle.gx_intarr.specs.Arrays.{IsArray};
ghost use Rattle.gx_json.specs.Tree.{data_of};
ghost use Rattle.gx_json.specs.Valid.{IsDocument};

use crate::arrays::{array_of, array_query, formula};
use crate::documents::{containment, document_of};
use crate::indexes::Seeded;
use crate::{documents, maps};
use gx_bytes::ValueError;
use gx_gin_arrays::{ArrayClass, GinIntClass, IntQuery};
use gx_gin_documents::{JsonQuery, JsonbClass, JsonbPathClass};
use gx_gin_maps::{GinHstoreClass, HstoreQuery};
use gx_hstore::Hstore;
use gx_intarr::IntArray;
use gx_json::Json;
use std::alloc::Global;

/// Five numbers, some of them equal, some far apart.
fn numbers_of(alloc: Global, number: u32) -> Result<IntArray, ValueError>
    ensures { IfOk result IsArray }
{
    if number % 49 == 0 {
        return array_of(alloc, "{}");
    }
    let (a, b, c) = (number % 97, number % 1009, number % 7);
    match format!(in alloc; "{{{a}, {b}, {c}00000, 1{a}, -{b}}}") {
        Ok(text) => array_of(alloc, &text),
        Err(_) => Err(ValueError::Memory),
    }
}

/// A document of a number, a list and an object.
fn record_of(alloc: Global, number: u32) -> Result<Json, ValueError>
    ensures { IfOk result (λ d. IsDocument (data_of d)) }
{
    if number % 49 == 0 {
        return document_of(alloc, "[]");
    }
    let (a, b, c) = (number % 61, number % 13, number % 5);
    match format!(in alloc;
        "{{\"key{a}\": {b}, \"list\": [{c}, \"word{a}\"], \"in\": {{\"deep\": {b}}}}}"
    ) {
        Ok(text) => document_of(alloc, &text),
        Err(_) => Err(ValueError::Memory),
    }
}

impl Seeded for ArrayClass {
    fn value(&self, alloc: Global, number: u32) -> Result<IntArray, ValueError> {
        numbers_of(alloc, number)
    }

    fn query(&self, alloc: Global, place: usize) -> Result<Option<IntQuery>, ValueError> {
        Ok(Some(match place {
            0 => array_query(alloc, "&&", "{5, 700}")?,
            1 => array_query(alloc, "@>", "{40, 300000}")?,
            2 => array_query(alloc, "@>", "{}")?,
            3 => array_query(alloc, "<@", "{1, 2, 100000, 11, -1}")?,
            4 => array_query(alloc, "=", "{1, 1, 100000, 11, -1}")?,
            5 => array_query(alloc, "=", "{}")?,
            _ => return Ok(None),
        }))
    }
}

impl Seeded for GinIntClass {
    fn value(&self, alloc: Global, number: u32) -> Result<IntArray, ValueError> {
        numbers_of(alloc, number)
    }

    fn query(&self, alloc: Global, place: usize) -> Result<Option<IntQuery>, ValueError> {
        Ok(Some(match place {
            0 => formula(alloc, "17 & !200000")?,
            1 => formula(alloc, "(3 | 500000) & 13")?,
            2 => formula(alloc, "!5")?,
            _ => return Ok(None),
        }))
    }
}

impl Seeded for GinHstoreClass {
    fn value(&self, alloc: Global, number: u32) -> Result<Hstore, ValueError> {
        if number % 49 == 0 {
            return maps::map_of(alloc, "");
        }
        let (a, b, c) = (number % 61, number % 13, number % 5);
        match format!(in alloc; "key{a}=>value{b}, both=>{c}, none{c}=>NULL") {
            Ok(text) => maps::map_of(alloc, &text),
            Err(_) => Err(ValueError::Memory),
        }
    }

    fn query(&self, alloc: Global, place: usize) -> Result<Option<HstoreQuery>, ValueError> {
        Ok(Some(match place {
            0 => maps::query_of(alloc, "@>", "key3=>value3")?,
            1 => maps::query_of(alloc, "@>", "both=>2, none2=>NULL")?,
            2 => maps::query_of(alloc, "@>", "")?,
            3 => maps::query_of(alloc, "?", "key17")?,
            4 => maps::query_of(alloc, "?&", "{key5, none1}")?,
            5 => maps::query_of(alloc, "?|", "{key60, other}")?,
            _ => return Ok(None),
        }))
    }
}

impl Seeded for JsonbClass {
    fn value(&self, alloc: Global, number: u32) -> Result<Json, ValueError> {
        record_of(alloc, number)
    }

    fn query(&self, alloc: Global, place: usize) -> Result<Option<JsonQuery>, ValueError> {
        Ok(Some(match place {
            0 => documents::query_of(alloc, "@>", "{\"key3\": 3}")?,
            1 => documents::query_of(alloc, "@>", "{\"list\": [2]}")?,
            2 => documents::query_of(alloc, "@>", "{}")?,
            3 => documents::query_of(alloc, "?", "key17")?,
            4 => documents::query_of(alloc, "?&", "{key5, list}")?,
            5 => documents::query_of(alloc, "?|", "{key60, other}")?,
            _ => return Ok(None),
        }))
    }
}

impl Seeded for JsonbPathClass {
    fn value(&self, alloc: Global, number: u32) -> Result<Json, ValueError> {
        record_of(alloc, number)
    }

    fn query(&self, alloc: Global, place: usize) -> Result<Option<JsonQuery>, ValueError> {
        Ok(Some(match place {
            0 => containment(alloc, "{\"key3\": 3}")?,
            1 => containment(alloc, "{\"list\": [2]}")?,
            2 => containment(alloc, "{}")?,
            3 => containment(alloc, "{\"in\": {\"deep\": 7}}")?,
            _ => return Ok(None),
        }))
    }
}
