//! Worked formulas, refusals and limits.

use crate::lquery::repeated;
use gx_bytes::{NoMemory, ValueError};
use gx_lquery::{Lqueries, Lquery};
use gx_ltree::{LtreeOp, Path};
use gx_ltxtquery::{LtreeQuery, Ltxtquery};
use std::alloc::Global;
use std::test::Fail;

/// A formula, and whether the empty path, `a`, `a.b`, `A.B.c` and `b.a` match.
const FORMULAS: [(&'static str, [bool; 5]); 9] = [
    ("a", [false, true, true, false, true]),
    ("a@", [false, true, true, true, true]),
    ("a & b", [false, false, true, false, true]),
    ("!a", [true, false, false, true, false]),
    (" c | ! ( a@ ) ", [true, false, false, true, false]),
    ("c | a & b", [false, false, true, true, true]),
    ("(c | a) & b", [false, false, true, false, true]),
    ("!a & !c", [true, false, false, false, false]),
    ("!!b@*@\n|\tx", [false, false, true, true, true]),
];

/// Whether the formula is true of the path, or why a text is none.
fn matched(alloc: Global, path: &str, query: &str) -> Result<bool, ValueError> {
    let path = Path::read(alloc, path)?;
    let query = Ltxtquery::read(alloc, query)?;
    match query.matches(alloc, &path) {
        Ok(answer) => Ok(answer),
        Err(_) => Err(ValueError::Memory),
    }
}

#[test]
fn formulas_over_paths(rt: HostRuntime) {
    for (text, wants) in &FORMULAS {
        for (path, want) in ["", "a", "a.b", "A.B.c", "b.a"].iter().zip(wants.iter()) {
            assert!(rt;
                matched(rt.alloc(), path, text) == Ok(*want),
                "{path} at {text}"
            );
        }
    }
}

/// A part of a formula, how many times it stands before another, and why the whole is refused.
const FAULTS: [(&'static str, usize, &'static str, Option<ValueError>); 28] = [
    ("", 0, "", Some(ValueError::NoValue)),
    (" ", 1, "", Some(ValueError::NoValue)),
    ("a b", 1, "", Some(ValueError::NoValue)),
    ("a &", 1, "", Some(ValueError::NoValue)),
    ("& a", 1, "", Some(ValueError::NoValue)),
    ("(a", 1, "", Some(ValueError::NoValue)),
    ("a)", 1, "", Some(ValueError::NoValue)),
    ("()", 1, "", Some(ValueError::NoValue)),
    ("a%", 1, "", Some(ValueError::NoValue)),
    ("a @", 1, "", Some(ValueError::NoValue)),
    ("@", 1, "", Some(ValueError::NoValue)),
    ("a.b", 1, "", Some(ValueError::NoValue)),
    ("a!b", 1, "", Some(ValueError::NoValue)),
    ("!", 1, "", Some(ValueError::NoValue)),
    ("a & & b", 1, "", Some(ValueError::NoValue)),
    ("ä", 1, "", Some(ValueError::NoValue)),
    ("!", 64, "a", None),
    ("!", 65, "a", Some(ValueError::TooDeep)),
    ("!", 65, "%", Some(ValueError::TooDeep)),
    ("(", 64, "a", Some(ValueError::NoValue)),
    ("(", 65, "a", Some(ValueError::TooDeep)),
    ("(a)&", 1024, "a", None),
    ("a|", 1024, "a", None),
    ("a|", 1025, "a", Some(ValueError::TooDeep)),
    ("a|", 1024, "a b", Some(ValueError::NoValue)),
    ("a|", 1024, "&", Some(ValueError::NoValue)),
    ("a", 1000, "", None),
    ("a", 1001, "", Some(ValueError::NoValue)),
];

#[test]
fn refusals_and_limits(rt: HostRuntime) -> Result<(), Fail> {
    for (part, count, end, want) in &FAULTS {
        let text = repeated(rt.alloc(), part, *count, end)?;
        assert!(rt;
            Ltxtquery::read(rt.alloc(), text.as_str()).err() == *want,
            "{count} times {part}"
        );
    }
    Ok(())
}

/// Whether the query holds of `top.a.b`.
fn holds(alloc: Global, query: &LtreeQuery) -> Result<bool, ValueError> {
    let path = Path::read(alloc, "top.a.b")?;
    match query.holds(alloc, &path) {
        Ok(answer) => Ok(answer),
        Err(_) => Err(ValueError::Memory),
    }
}

fn two_queries(alloc: Global) -> Result<LtreeQuery, Fail> {
    let mut queries = Lqueries::new(alloc);
    queries.push(Lquery::read(alloc, "x.*")?)?;
    queries.push(Lquery::read(alloc, "*.b")?)?;
    Ok(LtreeQuery::Lqueries(queries))
}

#[test]
fn operators_of_every_operand(rt: HostRuntime) -> Result<(), Fail> {
    let alloc = rt.alloc();
    let above = LtreeQuery::Path {
        op: LtreeOp::Below,
        operand: Path::read(alloc, "top")?,
    };
    assert!(rt; holds(alloc, &above) == Ok(true));
    let one = LtreeQuery::Lquery(Lquery::read(alloc, "top.!a.*")?);
    assert!(rt; holds(alloc, &one) == Ok(false));
    assert!(rt; holds(alloc, &two_queries(alloc)?) == Ok(true));
    let words = Ltxtquery::read(alloc, "TOP@ & !c")?.copy(alloc)?;
    assert!(rt; holds(alloc, &LtreeQuery::Words(words)) == Ok(true));
    Ok(())
}
