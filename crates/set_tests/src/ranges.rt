//! Seeded ranges.

ghost use Rattle.std.specs.Prelude.{IfOk, MatchOption};
ghost use Rattle.gx_range.specs.declared.range.RangeKind.TheVariants as kinds;
ghost use Rattle.gx_range.specs.Values.{IsRange};
ghost use Rattle.gx_class_range.specs.Tests.{IsQuery};

use crate::seeded::Seeded;
use gx_class_range::{RangeClass, RangeQuery};
use gx_pages::PageError;
use gx_range::{Range, RangeKind, RangeOp};
use std::alloc::Global;

fn range_of(alloc: Global, text: &str) -> Result<Range, PageError>
    ensures { IfOk result (IsRange kinds.Int8) }
{
    match Range::read(alloc, RangeKind::Int8, text) {
        Ok(range) => Ok(range),
        Err(_) => Err(PageError::Memory),
    }
}

/// A range of up to 60 numbers, one in eleven without a bound, one in thirteen empty.
fn range_at(alloc: Global, number: u32) -> Result<Range, PageError>
    ensures { IfOk result (IsRange kinds.Int8) }
{
    if number % 13 == 0 {
        return range_of(alloc, "empty");
    }
    let low = number % 1009 * 31 % 1009;
    let high = low + number % 60 + 1;
    let text = if number % 11 == 0 {
        format!(in alloc; "[{low},)")
    } else {
        format!(in alloc; "[{low},{high})")
    };
    match text {
        Ok(text) => range_of(alloc, &text),
        Err(_) => Err(PageError::Memory),
    }
}

fn operator_at(place: usize) -> Option<RangeOp> {
    let op = match place {
        0 => RangeOp::Overlaps,
        1 => RangeOp::Contains,
        2 => RangeOp::Within,
        3 => RangeOp::Left,
        4 => RangeOp::Right,
        5 => RangeOp::NotRight,
        6 => RangeOp::NotLeft,
        _ => return None,
    };
    Some(op)
}

fn query_at(alloc: Global, place: usize) -> Result<Option<RangeQuery>, PageError>
    ensures { IfOk result (λ found. MatchOption found (Unit {0}) IsQuery) }
{
    if place == 8 {
        let operand = range_at(alloc, 777)?;
        return Ok(Some(RangeQuery::Range {
            op: RangeOp::Equal,
            operand,
        }));
    }
    if place == 7 {
        return Ok(Some(RangeQuery::Element(500)));
    }
    let Some(op) = operator_at(place) else {
        return Ok(None);
    };
    let operand = range_of(alloc, "[400,460)")?;
    Ok(Some(RangeQuery::Range { op, operand }))
}

impl Seeded for RangeClass {
    fn value(&self, alloc: Global, number: u32) -> Result<Range, PageError> {
        range_at(alloc, number)
    }

    fn query(&self, alloc: Global, place: usize) -> Result<Option<RangeQuery>, PageError> {
        query_at(alloc, place)
    }
}
