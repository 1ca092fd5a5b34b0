//! Tests of labels by a signature.

ghost use Rattle.std.specs.Prelude.{◌≡◌};
ghost use Rattle.std.specs.List.{list_any, list_all};
ghost use Rattle.gx_kleene.specs.Answers.{leaf_formula, inner_formula};
ghost use Rattle.gx_ltxtquery.specs.Formula.{tree_of};
ghost use Rattle.gx_class_sets.specs.Signatures.{maybe};
ghost use Rattle.gx_class_ltree.specs.Tests.{variant_may, item_may, query_may};

use crate::labels::has_label;
use gx_gist::Test;
use gx_kleene::{both, either, opposite, unsure};
use gx_lquery::{Lqueries, Lquery, LqueryItem, Variant};
use gx_ltxtquery::WordFormula;
use gx_sig::Sig;

/// Maybe where a condition holds, else No.
pub fn maybe(holds: bool) -> Test
    ensures { result ≡ maybe holds }
{
    if holds { Test::Maybe } else { Test::No }
}

/// Tells whether a label that the word matches may be there.
fn variant_may<const N: usize>(sig: &Sig<N>, variant: &Variant) -> bool
    ensures { result ≡ variant_may N sig.now variant.now }
{
    variant.prefix || has_label(sig, variant.label.as_slice())
}

/// Tells whether the labels that the item takes may be there.
fn item_may<const N: usize>(sig: &Sig<N>, item: &LqueryItem) -> bool
    ensures { result ≡ item_may N sig.now item.now }
{
    item.star || item.negated || item.least == 0 || some_may(sig, item.variants.as_slice())
}

fn some_may<const N: usize>(sig: &Sig<N>, variants: &[Variant]) -> bool
    ensures { result ≡ list_any (variant_may N sig.now) variants.now }
{
    variants.iter().any(
        |variant| -> bool
            ensures { result ≡ variant_may N sig.entry.now variant.now }
        { variant_may(sig, variant) },
    )
}

/// Tells whether a path that the query matches may be there.
pub fn query_may<const N: usize>(sig: &Sig<N>, query: &Lquery) -> bool
    ensures { result ≡ query_may N sig.now query.now }
{
    query.items.as_slice().iter().all(
        |item| -> bool
            ensures { result ≡ item_may N sig.entry.now item.now }
        { item_may(sig, item) },
    )
}

/// Tells whether a path that some of the queries match may be there.
pub fn queries_may<const N: usize>(sig: &Sig<N>, queries: &Lqueries) -> bool
    ensures { result ≡ list_any (query_may N sig.now) queries.now }
{
    queries.as_slice().iter().any(
        |query| -> bool
            ensures { result ≡ query_may N sig.entry.now query.now }
        { query_may(sig, query) },
    )
}

/// What the key of one path that goes on says of a formula of words.
pub fn leaf_formula<const N: usize>(sig: &Sig<N>, formula: &WordFormula) -> Test
    ensures { result ≡ leaf_formula (λ v. maybe (variant_may N sig.now v)) (tree_of formula.now) }
{
    match formula {
        WordFormula::Word(variant) => maybe(variant_may(sig, variant)),
        WordFormula::Not(inner) => opposite(leaf_formula(sig, inner)),
        WordFormula::And(left, right) => both(leaf_formula(sig, left), leaf_formula(sig, right)),
        WordFormula::Or(left, right) => either(leaf_formula(sig, left), leaf_formula(sig, right)),
    }
}

/// What a key above the leaves says of a formula of words.
pub fn inner_formula<const N: usize>(sig: &Sig<N>, formula: &WordFormula) -> Test
    ensures { result ≡ inner_formula (λ v. maybe (variant_may N sig.now v)) (tree_of formula.now) }
{
    match formula {
        WordFormula::Word(variant) => unsure(maybe(variant_may(sig, variant))),
        WordFormula::Not(_) => Test::Maybe,
        WordFormula::And(left, right) => both(inner_formula(sig, left), inner_formula(sig, right)),
        WordFormula::Or(left, right) => either(inner_formula(sig, left), inner_formula(sig, right)),
    }
}
