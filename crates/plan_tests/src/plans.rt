//! The plans of conditions.

ghost use Rattle.std.specs.Prelude.{MatchOption};
ghost use Rattle.gx_parse.specs.Said.{said_of};
ghost use Rattle.gx_parse.specs.Sound.{IsSound, TreeHasLiterals};
ghost use Rattle.gx_parse.specs.Trees.{tree_of};

use crate::catalogs::catalog_of;
use gx_bytes::{Bytes, NoMemory};
use gx_catalog::Catalog;
use gx_parse::{Condition, Statement, parse};
use gx_plan::{bind, choose_plan, print_plan};
use gx_value::Column;
use std::alloc::Global;
use std::test::Fail;

// A query of all columns of a table.
fn query_of(alloc: Global, table: &str, condition: &str) -> Result<Bytes, NoMemory> {
    let mut piece = Bytes::new(alloc);
    for part in ["SELECT * FROM ", table, " WHERE ", condition] {
        piece.extend_from_slice(part.as_bytes())?;
    }
    Ok(piece)
}

// The condition of a query.
fn condition_in(statement: &Statement) -> Option<&Condition>
    requires { IsSound (said_of statement.now) }
    ensures { MatchOption result (Unit {0}) (λ condition. TreeHasLiterals (tree_of condition.now)) }
{
    match statement {
        Statement::Select(query) => query.condition.as_ref(),
        _ => None,
    }
}

// The printed plan of a condition on the table with this number.
fn printed(
    alloc: Global,
    catalog: &Catalog,
    number: u32,
    columns: &[Column],
    condition: &Condition,
) -> Result<Bytes, Fail>
    requires { TreeHasLiterals (tree_of condition.now) }
{
    let bound = bind(alloc, columns, condition)?;
    let plan = choose_plan(alloc, catalog, number, &bound)?;
    let mut text = Bytes::new(alloc);
    print_plan(catalog, &plan, &mut text)?;
    Ok(text)
}

// The printed plan of a condition on a table, looked for on the table with this number, if one is given.
fn planned(
    alloc: Global,
    catalog: &Catalog,
    table: &str,
    number: Option<u32>,
    condition: &str,
) -> Result<Bytes, Fail> {
    let Some(info) = catalog.table(table.as_bytes()) else {
        return Err("no table".into());
    };
    let number = number.unwrap_or(info.number);
    let piece = query_of(alloc, table, condition)?;
    let statement = parse(alloc, piece.as_slice())?;
    let Some(condition) = condition_in(&statement) else {
        return Err("no condition".into());
    };
    printed(alloc, catalog, number, info.columns.as_slice(), condition)
}

// Three columns of int4 with an index each; a later one on the first column; and on another table earlier ones.
#[test]
fn conditions_on_indexed_columns(rt: HostRuntime) -> Result<(), Fail> {
    let catalog = catalog_of(
        rt.alloc(),
        &[("u", 1, &[1, 1, 1]), ("t", 2, &[1, 1, 1])],
        &[
            ("ua", 1, 0, 1, 0),
            ("uc", 1, 2, 1, 0),
            ("ta", 2, 0, 1, 0),
            ("tb", 2, 1, 1, 0),
            ("tc", 2, 2, 1, 0),
            ("ta2", 2, 0, 1, 0),
        ],
    )?;
    let rows = [
        ("a = 1", "ta"),
        ("a <> 5", "ta"),
        ("c > 1", "tc"),
        ("a = 1 OR b = 1", "or(ta,tb)"),
        ("a = 1 AND NOT b = 1", "ta"),
        ("a = 1 OR NOT b = 1", "*"),
        ("a = 1 AND b = 1 AND c = 1", "and(and(ta,tb),tc)"),
        ("a = 1 AND (b = 1 AND c = 1)", "and(ta,and(tb,tc))"),
        ("a = 2 OR b = 2 OR c = 2", "or(or(ta,tb),tc)"),
        ("a = 2 OR b = 1 AND c = 2", "or(ta,and(tb,tc))"),
        ("(a = 2 OR b = 2) AND c = 1", "and(or(ta,tb),tc)"),
        ("a = 1 AND a = 2", "and(ta,ta)"),
        ("NOT a = 1 AND b = 1", "tb"),
        ("a = NULL", "*"),
        ("a = NULL OR b = 1", "*"),
        ("a = NULL AND b = 1", "tb"),
        ("NOT (a = 1 AND b = 1)", "*"),
        ("NOT NOT a = 1", "*"),
        ("(a = 1 OR NOT b = 1) AND c = 1", "tc"),
        ("a IS NULL", "ta"),
        ("a IS NOT NULL", "*"),
        ("NOT a IS NULL", "*"),
        ("a IS NOT NULL AND NOT b = 5", "*"),
        ("a IS NULL OR b IS NULL", "or(ta,tb)"),
        ("a IS NULL AND b IS NULL", "and(ta,tb)"),
        ("a IS NULL AND b IS NOT NULL", "ta"),
        ("a IS NULL OR b IS NOT NULL", "*"),
    ];
    for (condition, want) in rows {
        let text = planned(rt.alloc(), &catalog, "t", None, condition)?;
        assert!(rt; text.as_slice() == want.as_bytes(), "at {condition}");
    }
    Ok(())
}

// A column of each table is asked with operators that not every class answers.
#[test]
fn operators_and_classes(rt: HostRuntime) -> Result<(), Fail> {
    let catalog = catalog_of(
        rt.alloc(),
        &[
            ("s", 1, &[14]),
            ("r", 7, &[14]),
            ("j", 3, &[13]),
            ("booking", 4, &[1, 9, 12]),
        ],
        &[
            ("gist_first", 1, 0, 11, 100),
            ("gin_second", 1, 0, 13, 0),
            ("gin_first", 7, 0, 13, 0),
            ("gist_second", 7, 0, 12, 252),
            ("paths", 3, 0, 17, 0),
            ("during", 4, 1, 7, 0),
            ("tags", 4, 2, 15, 0),
        ],
    )?;
    let rows = [
        ("s", "a && '{1}'", "gist_first"),
        ("s", "a <@ '{1}'", "gin_second"),
        ("s", "a @@ '1'", "gist_first"),
        ("s", "a IS NULL", "gist_first"),
        ("r", "a && '{1}'", "gin_first"),
        ("r", "a <@ '{1}'", "gin_first"),
        ("r", "a @@ '1'", "gist_second"),
        ("r", "a @@ '1' AND a IS NULL", "and(gist_second,gin_first)"),
        ("j", "a @> '{}'", "paths"),
        ("j", "a ? 'k'", "*"),
        ("j", "a ? 'k' OR a @> '{}'", "*"),
        ("j", "a ? 'k' AND a @> '{}'", "paths"),
        ("booking", "a = 1", "*"),
        (
            "booking",
            "b && '[2024-03-04,2024-03-05)' AND c ? 'vip'",
            "and(during,tags)",
        ),
        (
            "booking",
            "b && '[2024-03-04,2024-03-05)' OR c ? 'vip'",
            "or(during,tags)",
        ),
        ("booking", "b @> '2024-03-04'::date AND a = 1", "during"),
    ];
    for (table, condition, want) in rows {
        let text = planned(rt.alloc(), &catalog, table, None, condition)?;
        assert!(rt;
            text.as_slice() == want.as_bytes(),
            "at {condition} of {table}"
        );
    }
    Ok(())
}

// Where no index is, and of a table that isn't there.
#[test]
fn tables_without_indexes(rt: HostRuntime) -> Result<(), Fail> {
    let bare = catalog_of(rt.alloc(), &[("t", 1, &[1])], &[])?;
    let other = catalog_of(
        rt.alloc(),
        &[("t", 1, &[1]), ("u", 2, &[1])],
        &[("ua", 2, 0, 1, 0)],
    )?;
    for condition in [
        "a = 1",
        "a IS NULL",
        "a = 1 OR a = 2",
        "a = 1 AND a IS NULL",
    ] {
        for catalog in [&bare, &other] {
            let text = planned(rt.alloc(), catalog, "t", None, condition)?;
            assert!(rt; text.as_slice() == b"*".as_slice(), "at {condition}");
        }
        let text = planned(rt.alloc(), &other, "t", Some(9), condition)?;
        assert!(rt; text.as_slice() == b"*".as_slice(), "at {condition}");
    }
    Ok(())
}
