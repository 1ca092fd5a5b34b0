//! The tests of keys.

ghost use Rattle.std.specs.Prelude.{◌≡◌, false, IfOk};
ghost use Rattle.std.specs.List.{list_any, list_all};
ghost use Rattle.std.specs.Cmp.Lexicographic.{pointwise};
ghost use Rattle.gx_intarr.specs.Formula.{tree_of};
ghost use Rattle.gx_kleene.specs.Answers.{leaf_formula, inner_formula};
ghost use Rattle.gx_class_intset.specs.Intervals.{within, has};
ghost use Rattle.gx_class_intset.specs.Keys.{IsLimit};
ghost use Rattle.gx_class_intset.specs.Tests.{said, same_interval, same_flag, is_same, leaf_answer, inner_answer, IsQuery};

use crate::keys::leaf_of;
use crate::{IntKey, Interval};
use gx_bytes::NoMemory;
use gx_class_sets::IntQuery;
use gx_gist::Test;
use gx_intarr::{IntArray, IntFormula};
use gx_kleene::{both, either, opposite, unsure};
use std::alloc::Global;

/// What the key of one array says of a query. Memory is taken for `=` alone.
pub fn test_leaf(
    alloc: Global,
    limit: u16,
    key: &IntKey,
    query: &IntQuery,
) -> Result<Test, NoMemory>
    requires limit { IsLimit limit }
    requires query { IsQuery query.now }
    ensures { IfOk result (λ test. test ≡ leaf_answer limit key.now query.now) }
{
    match query {
        IntQuery::Overlaps(other) => Ok(said(key.exact, has_some(key, other))),
        IntQuery::Contains(other) => Ok(said(key.exact, has_each(key, other))),
        IntQuery::Equal(other) => {
            let equal = leaf_of(alloc, limit, other)?;
            Ok(said(false, same_keys(key, &equal)))
        }
        IntQuery::Formula(query) => Ok(leaf_formula(key, &query.formula)),
    }
}

/// What a key above the leaves says of a query.
pub fn test_inner(key: &IntKey, query: &IntQuery) -> Test
    ensures { result ≡ inner_answer key.now query.now }
{
    match query {
        IntQuery::Overlaps(other) => said(false, has_some(key, other)),
        IntQuery::Contains(other) => said(false, has_each(key, other)),
        IntQuery::Equal(other) => said(false, has_each(key, other)),
        IntQuery::Formula(query) => inner_formula(key, &query.formula),
    }
}

/// Tells whether the keys are equal.
pub fn same_keys(a: &IntKey, b: &IntKey) -> bool
    ensures { result ≡ is_same a.now b.now }
{
    same_flag(a.exact, b.exact) && same_lists(a.intervals.as_slice(), b.intervals.as_slice())
}

fn same_flag(a: bool, b: bool) -> bool
    ensures { result ≡ same_flag a b }
{
    a == b
}

fn same_lists(a: &[Interval], b: &[Interval]) -> bool
    ensures { result ≡ pointwise same_interval a.now b.now }
{
    a == b
}

/// Yes where an exact key has what is asked for, Maybe where another one has it, else No.
fn said(exact: bool, holds: bool) -> Test
    ensures { result ≡ said exact holds }
{
    match (exact, holds) {
        (_, false) => Test::No,
        (true, true) => Test::Yes,
        (false, true) => Test::Maybe,
    }
}

fn has(key: &IntKey, number: i32) -> bool
    ensures { result ≡ has key.now.intervals number }
{
    has_number(key.intervals.as_slice(), number)
}

fn has_number(intervals: &[Interval], number: i32) -> bool
    ensures { result ≡ has intervals.now number }
{
    intervals.iter().any(
        |interval| -> bool
            ensures { result ≡ within number interval.now }
        { within(number, *interval) },
    )
}

fn within(number: i32, interval: Interval) -> bool
    ensures { result ≡ within number interval }
{
    interval.least <= number && number <= interval.greatest
}

fn has_some(key: &IntKey, numbers: &IntArray) -> bool
    ensures { result ≡ list_any (has key.now.intervals) numbers.now }
{
    numbers.items().iter().any(
        |number| -> bool
            ensures { result ≡ has key.entry.now.intervals number.now }
        { has(key, *number) },
    )
}

fn has_each(key: &IntKey, numbers: &IntArray) -> bool
    ensures { result ≡ list_all (has key.now.intervals) numbers.now }
{
    numbers.items().iter().all(
        |number| -> bool
            ensures { result ≡ has key.entry.now.intervals number.now }
        { has(key, *number) },
    )
}

fn leaf_formula(key: &IntKey, formula: &IntFormula) -> Test
    ensures { result ≡ leaf_formula (λ n. said key.now.exact (has key.now.intervals n)) (tree_of formula.now) }
{
    match formula {
        IntFormula::Number(number) => said(key.exact, has(key, *number)),
        IntFormula::Not(inner) => opposite(leaf_formula(key, inner)),
        IntFormula::And(left, right) => both(leaf_formula(key, left), leaf_formula(key, right)),
        IntFormula::Or(left, right) => either(leaf_formula(key, left), leaf_formula(key, right)),
    }
}

fn inner_formula(key: &IntKey, formula: &IntFormula) -> Test
    ensures { result ≡ inner_formula (λ n. said false (has key.now.intervals n)) (tree_of formula.now) }
{
    match formula {
        IntFormula::Number(number) => unsure(said(false, has(key, *number))),
        IntFormula::Not(_) => Test::Maybe,
        IntFormula::And(left, right) => both(inner_formula(key, left), inner_formula(key, right)),
        IntFormula::Or(left, right) => either(inner_formula(key, left), inner_formula(key, right)),
    }
}
