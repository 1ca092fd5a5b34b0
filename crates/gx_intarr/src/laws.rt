//! What holds of texts, bytes and operators.

ghost use Rattle.std.specs.Prelude.{◌≡◌, ◌≢◌, ℕ, ℤ, List, Result, Err};
ghost use Rattle.std.specs.Bool.{Decides};
ghost use Rattle.gx_bytes.specs.declared.error.ValueError.{ValueError};
ghost use Rattle.gx_formula.specs.Grammar.{AreAlike};
ghost use Rattle.gx_intarr.specs.declared.formula.QueryInt.{QueryInt};
ghost use Rattle.gx_intarr.specs.Formula.{tree_of};
ghost use Rattle.gx_intarr.specs.declared.operators.IntQuery.{IntQuery};
ghost use Rattle.gx_intarr.specs.Texts.{AnswersTexts};
ghost use Rattle.gx_intarr.specs.Arrays.{IsArray, IsEncoding, SpellsArray, printed, AnswersArray};
ghost use Rattle.gx_intarr.specs.Queries.{AnswersQuery};
ghost use Rattle.gx_intarr.specs.Operators.{Holds, holds};

/// A text has one answer of [`Texts::read`](crate::Texts::read), unless memory is wanting.
pub fn one_answer()
    ensures { (text : List ℕ) (r s : Result (List (List ℕ)) ValueError) → r ≢ Err ValueError.Memory → s ≢ Err ValueError.Memory → AnswersTexts text r → AnswersTexts text s → r ≡ s }
{}

/// A text has one answer of [`IntArray::read`](crate::IntArray::read), unless memory is wanting.
pub fn one_array_answer()
    ensures { (text : List ℕ) (r s : Result (List ℤ) ValueError) → r ≢ Err ValueError.Memory → s ≢ Err ValueError.Memory → AnswersArray text r → AnswersArray text s → r ≡ s }
{}

/// A text has one answer of [`QueryInt::read`](crate::QueryInt::read), unless memory is wanting.
pub fn one_query_answer()
    ensures { (text : List ℕ) (r s : Result QueryInt ValueError) → r ≢ Err ValueError.Memory → s ≢ Err ValueError.Memory → AnswersQuery text r → AnswersQuery text s → AreAlike (λ query. tree_of query.formula) r s }
{}

/// Two arrays have different bytes.
pub fn one_encoding()
    ensures { (bytes : List ℕ) (a b : List ℤ) → IsArray a → IsArray b → IsEncoding bytes a → IsEncoding bytes b → a ≡ b }
{}

/// The printed text of an array spells it.
pub fn printed_again()
    ensures { (items : List ℤ) → IsArray items → SpellsArray (printed items) items }
{}

/// The test of an operator tells where it holds.
pub fn holds_decided()
    ensures { (query : IntQuery) (items : List ℤ) → Decides (holds query items) (Holds query items) }
{}
