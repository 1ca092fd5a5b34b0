//! Whether a formula is true of a path (`@`), and all operators of ltree.

ghost use Rattle.std.specs.Prelude.{IsTrue, ◌↔◌, Any, IfOk, IsOkAnd};
ghost use Rattle.gx_lquery.specs.Matching.{MatchesVariant};
ghost use Rattle.gx_ltxtquery.specs.Formula.{tree_of, IsTrueOf};
ghost use Rattle.gx_ltxtquery.specs.Operators.{Holds};

use crate::formula::{Ltxtquery, WordFormula};
use gx_bytes::NoMemory;
use gx_lquery::{Lqueries, Lquery, Variant};
use gx_ltree::{LtreeOp, Path};
use std::alloc::Global;

/// An operator of ltree with its operand: `< <= = >= > @> <@` and a path, `~` and a query, `?` and a list of queries, `@` and a formula of
/// words.
#[derive(Debug, Drop)]
pub enum LtreeQuery {
    Path { op: LtreeOp, operand: Path },
    Lquery(Lquery),
    Lqueries(Lqueries),
    Words(Ltxtquery),
}

impl LtreeQuery {
    /// Whether the operator holds of the path and its operand.
    pub fn holds(&self, alloc: Global, path: &Path) -> Result<bool, NoMemory>
        ensures { IfOk result (λ answer. IsTrue answer ↔ Holds self.now path.now) }
    {
        match self {
            LtreeQuery::Path { op, operand } => Ok(path.holds(*op, operand)),
            LtreeQuery::Lquery(query) => query.matches(alloc, path),
            LtreeQuery::Lqueries(queries) => queries.matches(alloc, path),
            LtreeQuery::Words(query) => query.matches(alloc, path),
        }
    }
}

impl Ltxtquery {
    /// Whether the formula is true where a word is true exactly if some label of the path matches it.
    /// No memory is taken, so it is never refused. The work is the number of words times the number of
    /// labels.
    pub fn matches(&self, _alloc: Global, path: &Path) -> Result<bool, NoMemory>
        ensures { IsOkAnd result (λ answer. IsTrue answer ↔ IsTrueOf (tree_of self.now.formula) path.now) }
    {
        Ok(is_true(&self.formula, path))
    }
}

fn is_true(formula: &WordFormula, path: &Path) -> bool
    ensures { IsTrue result ↔ IsTrueOf (tree_of formula.now) path.now }
{
    match formula {
        WordFormula::Word(variant) => some_label(variant, path),
        WordFormula::Not(inner) => !is_true(inner, path),
        WordFormula::And(left, right) => is_true(left, path) && is_true(right, path),
        WordFormula::Or(left, right) => is_true(left, path) || is_true(right, path),
    }
}

/// Whether some label of the path matches.
fn some_label(variant: &Variant, path: &Path) -> bool
    ensures { IsTrue result ↔ Any (λ label. MatchesVariant variant.now label) path.now }
{
    path.labels()
        .iter()
        .any(|label| variant.matches(label.as_slice()))
}
