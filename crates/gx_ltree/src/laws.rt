//! What holds of texts of paths and of their operators.

ghost use Rattle.std.specs.Prelude.{◌≡◌, ◌≢◌, ℕ, List, Result, Err};
ghost use Rattle.std.specs.Bool.{Decides};
ghost use Rattle.gx_bytes.specs.declared.error.ValueError.{ValueError};
ghost use Rattle.gx_ltree.specs.declared.operators.LtreeOp.{LtreeOp};
ghost use Rattle.gx_ltree.specs.Path.{IsPath};
ghost use Rattle.gx_ltree.specs.Text.{printed, SpellsPath, AnswersPath};
ghost use Rattle.gx_ltree.specs.Operators.{Holds, holds};

/// A text has one answer, unless memory is wanting.
pub fn one_answer()
    ensures { (text : List ℕ) (r s : Result (List (List ℕ)) ValueError) → r ≢ Err ValueError.Memory → s ≢ Err ValueError.Memory → AnswersPath text r → AnswersPath text s → r ≡ s }
{}

/// The printed text of a path spells it.
pub fn printed_again()
    ensures { (path : List (List ℕ)) → IsPath path → SpellsPath (printed path) path }
{}

/// The test of an operator tells where it holds.
pub fn holds_decided()
    ensures { (op : LtreeOp) (value operand : List (List ℕ)) → Decides (holds op value operand) (Holds op value operand) }
{}
