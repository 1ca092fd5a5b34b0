//! Seeded maps.

ghost use Rattle.std.specs.Prelude.{IfOk};
ghost use Rattle.gx_hstore.specs.Map.{IsHstore};

use crate::seeded::Seeded;
use gx_bytes::Bytes;
use gx_class_sets::{HstoreClass, HstoreQuery};
use gx_hstore::Hstore;
use gx_intarr::Texts;
use gx_pages::PageError;
use std::alloc::Global;

fn map_of(alloc: Global, text: &str) -> Result<Hstore, PageError>
    ensures { IfOk result IsHstore }
{
    match Hstore::read(alloc, text) {
        Ok(map) => Ok(map),
        Err(_) => Err(PageError::Memory),
    }
}

fn name_of(alloc: Global, name: &[u8]) -> Result<Bytes, PageError> {
    match Bytes::from_slice(alloc, name) {
        Ok(name) => Ok(name),
        Err(_) => Err(PageError::Memory),
    }
}

fn texts_of(alloc: Global, text: &str) -> Result<Texts, PageError> {
    match Texts::read(alloc, text) {
        Ok(texts) => Ok(texts),
        Err(_) => Err(PageError::Memory),
    }
}

impl Seeded for HstoreClass<16> {
    fn value(&self, alloc: Global, number: u32) -> Result<Hstore, PageError> {
        let (a, b, c) = (number % 61, number % 13 * 7 % 13, number % 5);
        let Ok(text) = format!(in alloc; "key{a}=>value{b}, both=>{c}, none{c}=>NULL") else {
            return Err(PageError::Memory);
        };
        map_of(alloc, &text)
    }

    fn query(&self, alloc: Global, place: usize) -> Result<Option<HstoreQuery>, PageError> {
        let query = match place {
            0 => HstoreQuery::Contains(map_of(alloc, "key3=>value8")?),
            1 => HstoreQuery::Contains(map_of(alloc, "both=>2, none2=>NULL")?),
            2 => HstoreQuery::Contains(map_of(alloc, "")?),
            3 => HstoreQuery::Has(name_of(alloc, b"key17")?),
            4 => HstoreQuery::HasAll(texts_of(alloc, "{key5, none1}")?),
            5 => HstoreQuery::HasAny(texts_of(alloc, "{key60, other}")?),
            _ => return Ok(None),
        };
        Ok(Some(query))
    }
}
