//! What holds of texts of formulas and of the operators.

ghost use Rattle.std.specs.Prelude.{◌≢◌, ℕ, List, Result, Err};
ghost use Rattle.std.specs.Bool.{Decides};
ghost use Rattle.gx_bytes.specs.declared.error.ValueError.{ValueError};
ghost use Rattle.gx_formula.specs.Grammar.{AreAlike};
ghost use Rattle.gx_ltxtquery.specs.declared.formula.Ltxtquery.{Ltxtquery};
ghost use Rattle.gx_ltxtquery.specs.Formula.{tree_of};
ghost use Rattle.gx_ltxtquery.specs.declared.operators.LtreeQuery.{LtreeQuery};
ghost use Rattle.gx_ltxtquery.specs.Operators.{Holds, holds};
ghost use Rattle.gx_ltxtquery.specs.Text.{AnswersLtxtquery};

/// A text has one answer, unless memory is wanting.
pub fn one_answer()
    ensures { (text : List ℕ) (r s : Result Ltxtquery ValueError) → r ≢ Err ValueError.Memory → s ≢ Err ValueError.Memory → AnswersLtxtquery text r → AnswersLtxtquery text s → AreAlike (λ query. tree_of query.formula) r s }
{}

/// The test of an operator tells where it holds.
pub fn holds_decided()
    ensures { (query : LtreeQuery) (path : List (List ℕ)) → Decides (holds query path) (Holds query path) }
{}
