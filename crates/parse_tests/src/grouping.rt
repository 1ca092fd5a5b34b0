//! How ANDs, ORs and NOTs are grouped.

use gx_bytes::{Bytes, NoMemory};
use gx_parse::{Condition, Statement, parse};
use std::alloc::Global;
use std::test::Fail;

/// Shows a condition by its columns, with the parts of each AND, OR and NOT in parentheses.
fn show(condition: &Condition, to: &mut Bytes) -> Result<(), NoMemory> {
    match condition {
        Condition::And(left, right) => {
            to.extend_from_slice(b"and(")?;
            show(left, to)?;
            to.push(b',')?;
            show(right, to)?;
            to.push(b')')
        }
        Condition::Or(left, right) => {
            to.extend_from_slice(b"or(")?;
            show(left, to)?;
            to.push(b',')?;
            show(right, to)?;
            to.push(b')')
        }
        Condition::Not(inner) => {
            to.extend_from_slice(b"not(")?;
            show(inner, to)?;
            to.push(b')')
        }
        Condition::Atom { column, .. } => to.extend_from_slice(column.as_slice()),
        Condition::IsNull { column, negated } => {
            to.extend_from_slice(if *negated { b"some " } else { b"null " })?;
            to.extend_from_slice(column.as_slice())
        }
    }
}

/// The condition of a DELETE, shown; nothing where there is none.
fn shown(alloc: Global, condition: &str) -> Result<Bytes, Fail> {
    let mut shown = Bytes::new(alloc);
    let piece = format!(in alloc; "DELETE FROM t WHERE {condition}")?;
    let statement = parse(alloc, piece.as_bytes())?;
    if let Statement::Delete { condition, .. } = &statement {
        if let Some(condition) = condition {
            show(condition, &mut shown)?;
        }
    }
    Ok(shown)
}

#[test]
fn conditions_are_grouped(rt: HostRuntime) -> Result<(), Fail> {
    let rows: [(&str, &[u8]); 16] = [
        ("a = 1 AND b = 1 OR c = 1", b"or(and(a,b),c)"),
        ("a = 1 OR b = 1 AND c = 1", b"or(a,and(b,c))"),
        ("a = 1 OR b = 1 AND c = 1 OR d = 1", b"or(or(a,and(b,c)),d)"),
        (
            "a = 1 AND b = 1 OR c = 1 AND d = 1",
            b"or(and(a,b),and(c,d))",
        ),
        ("a = 1 OR b = 1 OR c = 1 OR d = 1", b"or(or(or(a,b),c),d)"),
        ("a = 1 AND b = 1 AND c = 1", b"and(and(a,b),c)"),
        ("a = 1 AND (b = 1 AND c = 1)", b"and(a,and(b,c))"),
        ("a = 1 OR (b = 1 OR c = 1)", b"or(a,or(b,c))"),
        ("(a = 1 OR b = 1) AND c = 1", b"and(or(a,b),c)"),
        ("((a = 1))", b"a"),
        ("NOT a = 1 AND b = 1", b"and(not(a),b)"),
        ("NOT a = 1 OR b = 1", b"or(not(a),b)"),
        ("NOT (a = 1 OR b = 1)", b"not(or(a,b))"),
        ("NOT NOT a = 1 OR b = 1", b"or(not(not(a)),b)"),
        (
            "a = 1 OR NOT b IS NOT NULL AND c IS NULL",
            b"or(a,and(not(some b),null c))",
        ),
        (
            "a = 1 AND NOT (NOT b = 1 OR c = 1) OR d = 1",
            b"or(and(a,not(or(not(b),c))),d)",
        ),
    ];
    for (condition, want) in rows {
        let shown = shown(rt.alloc(), condition)?;
        assert!(rt; shown.as_slice() == want, "at {condition}");
    }
    Ok(())
}
