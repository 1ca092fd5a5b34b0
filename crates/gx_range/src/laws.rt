//! Laws of the texts, the bytes and the operators.

ghost use Rattle.std.specs.Prelude.{◌≡◌, ◌↔◌, ℕ, ℤ, List, IsTrue, Result};
ghost use Rattle.gx_bytes.specs.declared.error.ValueError.{ValueError};
ghost use Rattle.gx_bytes.specs.Blanks.{core_of};
ghost use Rattle.gx_range.specs.declared.range.Range.{Range};
ghost use Rattle.gx_range.specs.declared.range.RangeKind.{RangeKind};
ghost use Rattle.gx_range.specs.declared.range.RangeOp.{RangeOp};
ghost use Rattle.gx_range.specs.Values.{IsRange};
ghost use Rattle.gx_range.specs.Texts.{SpellsRange, AnswersRange, printed};
ghost use Rattle.gx_range.specs.Encodings.{encoded};
ghost use Rattle.gx_range.specs.Operators.{Holds, HasElement};
ghost use Rattle.gx_range.specs.Decisions.{holds, has_element};

/// A core has one answer of [`Range::read`].
pub fn one_answer()
    ensures { (kind : RangeKind) (core : List ℕ) (r s : Result Range ValueError) → AnswersRange kind core r → AnswersRange kind core s → r ≡ s }
{}

/// The printed text spells the range.
pub fn printed_again()
    ensures { (kind : RangeKind) (range : Range) → IsRange kind range → SpellsRange kind (core_of (printed kind range)) range }
{}

/// Two valid ranges of a type have different bytes.
pub fn one_encoding()
    ensures { (kind : RangeKind) (a b : Range) → IsRange kind a → IsRange kind b → encoded a ≡ encoded b → a ≡ b }
{}

/// Each operator is decided: `holds` and `has_element` are true exactly where the relations hold.
pub fn decided()
    ensures ranges { (op : RangeOp) (a b : Range) → IsTrue (holds op a b) ↔ Holds op a b }
    ensures elements { (a : Range) (n : ℤ) → IsTrue (has_element a n) ↔ HasElement a n }
{}
