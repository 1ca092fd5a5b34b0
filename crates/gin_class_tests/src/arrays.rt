//! Arrays: array_ops and gin__int_ops.

ghost use Rattle.std.specs.Prelude.{IfOk};
ghost use Rattle.gx_intarr.specs.Arrays.{IsArray};
ghost use Rattle.gx_gin_arrays.specs.Tests.{IsQuery, IsArrayQuery};

use crate::candidates::is_candidate;
use gx_bytes::ValueError;
use gx_gin_arrays::{ArrayClass, GinIntClass, IntQuery, PlacedQuery};
use gx_intarr::{IntArray, QueryInt};
use std::alloc::Global;
use std::test::Fail;

const VALUES: [&str; 4] = ["{}", "{1,2}", "{2,1}", "{3}"];

pub fn array_of(alloc: Global, text: &str) -> Result<IntArray, ValueError>
    ensures { IfOk result IsArray }
{
    IntArray::read(alloc, text)
}

pub fn array_query(alloc: Global, sign: &str, text: &str) -> Result<IntQuery, ValueError>
    ensures { IfOk result IsArrayQuery }
{
    let operand = array_of(alloc, text)?;
    Ok(match sign {
        "&&" => IntQuery::Overlaps(operand),
        "@>" => IntQuery::Contains(operand),
        "<@" => IntQuery::Within(operand),
        _ => IntQuery::Equal(operand),
    })
}

pub fn formula(alloc: Global, text: &str) -> Result<IntQuery, ValueError>
    ensures { IfOk result IsQuery }
{
    let query = QueryInt::read(alloc, text)?;
    match PlacedQuery::of(alloc, &query) {
        Ok(placed) => Ok(IntQuery::Formula(placed)),
        Err(_) => Err(ValueError::Memory),
    }
}

/// Whether an array is a candidate of array_ops.
fn is_found(alloc: Global, sign: &str, text: &str, value: &str) -> Result<bool, ValueError> {
    let query = array_query(alloc, sign, text)?;
    let value = array_of(alloc, value)?;
    match is_candidate(alloc, &ArrayClass, &value, &query) {
        Ok(is) => Ok(is),
        Err(_) => Err(ValueError::Memory),
    }
}

/// Whether an array is a candidate of `@@`.
fn is_found_by_formula(alloc: Global, text: &str, value: &str) -> Result<bool, ValueError> {
    let query = formula(alloc, text)?;
    let value = array_of(alloc, value)?;
    match is_candidate(alloc, &GinIntClass, &value, &query) {
        Ok(is) => Ok(is),
        Err(_) => Err(ValueError::Memory),
    }
}

#[test]
fn arrays_in_reach(rt: HostRuntime) -> Result<(), Fail> {
    let alloc = rt.alloc();
    let rows = [
        ("&&", "{1,3}", [false, true, true, true]),
        ("@>", "{1}", [false, true, true, false]),
        ("@>", "{}", [true, true, true, true]),
        ("<@", "{1}", [true, true, true, false]),
        ("<@", "{}", [true, false, false, false]),
        ("=", "{}", [true, false, false, false]),
        ("=", "{1,2}", [false, true, true, false]),
        ("=", "{2,1,2}", [false, true, true, false]),
    ];
    for (sign, text, want) in rows {
        for at in 0..4 {
            assert_eq!(rt;
                is_found(alloc, sign, text, VALUES[at])?,
                want[at],
                "{sign} {text}"
            );
        }
    }
    Ok(())
}

#[test]
fn formulas_in_reach(rt: HostRuntime) -> Result<(), Fail> {
    let alloc = rt.alloc();
    let rows = [
        ("1", [false, true, true, false]),
        ("!1", [true, false, false, true]),
        ("3|1&2", [false, true, true, true]),
        ("-2147483648|2147483647", [false, false, false, false]),
        ("!(2|3)|3", [true, false, false, true]),
    ];
    for (text, want) in rows {
        for at in 0..4 {
            assert_eq!(rt;
                is_found_by_formula(alloc, text, VALUES[at])?,
                want[at],
                "{text}"
            );
        }
    }
    Ok(())
}
