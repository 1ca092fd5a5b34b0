//! Seeded sets of numbers.

ghost use Rattle.std.specs.Prelude.{IfOk, MatchOption};
ghost use Rattle.gx_intarr.specs.Arrays.{IsArray};
ghost use Rattle.gx_class_intset.specs.Tests.{IsQuery};

use crate::seeded::Seeded;
use gx_class_intset::IntClass;
use gx_class_sets::{IntQuery, IntbigClass};
use gx_intarr::{IntArray, QueryInt};
use gx_pages::PageError;
use std::alloc::Global;

fn set_of(alloc: Global, text: &str) -> Result<IntArray, PageError>
    ensures { IfOk result IsArray }
{
    match IntArray::read(alloc, text) {
        Ok(set) => Ok(set),
        Err(_) => Err(PageError::Memory),
    }
}

fn formula_of(alloc: Global, text: &str) -> Result<QueryInt, PageError> {
    match QueryInt::read(alloc, text) {
        Ok(query) => Ok(query),
        Err(_) => Err(PageError::Memory),
    }
}

/// Six numbers, some of them equal, some far apart.
fn numbers_of(alloc: Global, number: u32) -> Result<IntArray, PageError>
    ensures { IfOk result IsArray }
{
    let (a, b, c) = (number % 97, number % 1009 * 31 % 1009, number % 7);
    match format!(in alloc; "{{{a}, {b}, {c}00000, 1{a}, -{b}, 2147483{a}}}") {
        Ok(text) => set_of(alloc, &text),
        Err(_) => Err(PageError::Memory),
    }
}

fn query_at(alloc: Global, place: usize) -> Result<Option<IntQuery>, PageError>
    ensures { IfOk result (λ found. MatchOption found (Unit {0}) IsQuery) }
{
    let query = match place {
        0 => IntQuery::Overlaps(set_of(alloc, "{5, 700}")?),
        1 => IntQuery::Contains(set_of(alloc, "{40, 300000}")?),
        2 => IntQuery::Contains(set_of(alloc, "{}")?),
        3 => IntQuery::Equal(numbers_of(alloc, 1001)?),
        4 => IntQuery::Formula(formula_of(alloc, "17 & !200000")?),
        5 => IntQuery::Formula(formula_of(alloc, "(3 | 500000) & 21474833")?),
        _ => return Ok(None),
    };
    Ok(Some(query))
}

impl Seeded for IntbigClass<252> {
    fn value(&self, alloc: Global, number: u32) -> Result<IntArray, PageError> {
        numbers_of(alloc, number)
    }

    fn query(&self, alloc: Global, place: usize) -> Result<Option<IntQuery>, PageError> {
        query_at(alloc, place)
    }
}

impl Seeded for IntClass {
    fn value(&self, alloc: Global, number: u32) -> Result<IntArray, PageError> {
        numbers_of(alloc, number)
    }

    fn query(&self, alloc: Global, place: usize) -> Result<Option<IntQuery>, PageError> {
        query_at(alloc, place)
    }
}
