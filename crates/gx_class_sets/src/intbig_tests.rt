//! Tests of signatures of numbers.

ghost use Rattle.std.specs.Prelude.{◌≡◌};
ghost use Rattle.std.specs.List.{list_any, list_all};
ghost use Rattle.gx_sig.specs.BitSets.{IsSignatureLength};
ghost use Rattle.gx_intarr.specs.Formula.{tree_of};
ghost use Rattle.gx_kleene.specs.Answers.{leaf_formula, inner_formula};
ghost use Rattle.gx_class_sets.specs.Signatures.{maybe, is_same, is_within};
ghost use Rattle.gx_class_sets.specs.IntbigTests.{leaf_key, may_have, leaf_answer, inner_answer};

use crate::IntQuery;
use crate::signing::{hash_of, sign};
use gx_gist::Test;
use gx_intarr::{IntArray, IntFormula};
use gx_kleene::{both, either, opposite, unsure};
use gx_sig::Sig;

/// Maybe where a condition on the bits holds, else No.
pub fn maybe(holds: bool) -> Test
    ensures { result ≡ maybe holds }
{
    if holds { Test::Maybe } else { Test::No }
}

/// What the key of one array says of a query.
pub fn test_leaf<const N: usize>(key: &Sig<N>, query: &IntQuery) -> Test
    requires { IsSignatureLength N }
    ensures { result ≡ leaf_answer N key.now query.now }
{
    match query {
        IntQuery::Overlaps(other) => maybe(has_some(key, other)),
        IntQuery::Contains(other) => maybe(has_each(key, other)),
        IntQuery::Equal(other) => maybe(has_same(key, other)),
        IntQuery::Formula(query) => leaf_formula(key, &query.formula),
    }
}

/// What a key above the leaves says of a query.
pub fn test_inner<const N: usize>(key: &Sig<N>, query: &IntQuery) -> Test
    requires { IsSignatureLength N }
    ensures { result ≡ inner_answer N key.now query.now }
{
    match query {
        IntQuery::Overlaps(other) => maybe(has_some(key, other)),
        IntQuery::Contains(other) => maybe(has_each(key, other)),
        IntQuery::Equal(other) => maybe(has_within(key, other)),
        IntQuery::Formula(query) => inner_formula(key, &query.formula),
    }
}

fn may_have<const N: usize>(key: &Sig<N>, number: i32) -> bool
    ensures { result ≡ may_have N key.now number }
{
    key.has(hash_of(number))
}

fn has_some<const N: usize>(key: &Sig<N>, numbers: &IntArray) -> bool
    ensures { result ≡ list_any (may_have N key.now) numbers.now }
{
    numbers.items().iter().any(
        |number| -> bool
            ensures { result ≡ may_have N key.entry.now number.now }
        { may_have(key, *number) },
    )
}

fn has_each<const N: usize>(key: &Sig<N>, numbers: &IntArray) -> bool
    ensures { result ≡ list_all (may_have N key.now) numbers.now }
{
    numbers.items().iter().all(
        |number| -> bool
            ensures { result ≡ may_have N key.entry.now number.now }
        { may_have(key, *number) },
    )
}

fn has_same<const N: usize>(key: &Sig<N>, numbers: &IntArray) -> bool
    requires { IsSignatureLength N }
    ensures { result ≡ is_same N key.now (leaf_key N numbers.now) }
{
    let other = sign(numbers.items());
    key.distance(&other) == 0
}

fn has_within<const N: usize>(key: &Sig<N>, numbers: &IntArray) -> bool
    requires { IsSignatureLength N }
    ensures { result ≡ is_within N key.now (leaf_key N numbers.now) }
{
    let other = sign(numbers.items());
    key.distance(&key.union(&other)) == 0
}

fn leaf_formula<const N: usize>(key: &Sig<N>, formula: &IntFormula) -> Test
    ensures { result ≡ leaf_formula (λ number. maybe (may_have N key.now number)) (tree_of formula.now) }
{
    match formula {
        IntFormula::Number(number) => maybe(may_have(key, *number)),
        IntFormula::Not(inner) => opposite(leaf_formula(key, inner)),
        IntFormula::And(left, right) => both(leaf_formula(key, left), leaf_formula(key, right)),
        IntFormula::Or(left, right) => either(leaf_formula(key, left), leaf_formula(key, right)),
    }
}

fn inner_formula<const N: usize>(key: &Sig<N>, formula: &IntFormula) -> Test
    ensures { result ≡ inner_formula (λ number. maybe (may_have N key.now number)) (tree_of formula.now) }
{
    match formula {
        IntFormula::Number(number) => unsure(maybe(may_have(key, *number))),
        IntFormula::Not(_) => Test::Maybe,
        IntFormula::And(left, right) => both(inner_formula(key, left), inner_formula(key, right)),
        IntFormula::Or(left, right) => either(inner_formula(key, left), inner_formula(key, right)),
    }
}
