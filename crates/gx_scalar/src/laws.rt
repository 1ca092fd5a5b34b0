//! What holds of texts and bytes of scalars.

ghost use Rattle.std.specs.Prelude.{◌≡◌, ◌≢◌, ℕ, List, Result, Err};
ghost use Rattle.gx_bytes.specs.declared.error.ValueError.{ValueError};
ghost use Rattle.gx_bytes.specs.declared.error.ValueError.TheVariants.{Memory};
ghost use Rattle.gx_scalar.specs.declared.scalar.Scalar.{Scalar};
ghost use Rattle.gx_scalar.specs.declared.scalar.ScalarKind.{ScalarKind};
ghost use Rattle.gx_scalar.specs.Values.{IsScalar, IsValid};
ghost use Rattle.gx_scalar.specs.Texts.{Spells, AnswersScalar, printed};
ghost use Rattle.gx_scalar.specs.Encodings.{encoded};

/// A text has one answer of [`Scalar::read`], but for want of memory.
pub fn one_answer()
    ensures { (kind : ScalarKind) (text : List ℕ) (r s : Result Scalar ValueError) → AnswersScalar kind text r → AnswersScalar kind text s → r ≢ Err Memory → s ≢ Err Memory → r ≡ s }
{}

/// The printed text spells the scalar.
pub fn printed_again()
    ensures { (scalar : Scalar) → IsValid scalar → Spells (printed scalar) scalar }
{}

/// Two valid scalars of a type have different bytes.
pub fn one_encoding()
    ensures { (kind : ScalarKind) (a b : Scalar) → IsScalar kind a → IsScalar kind b → encoded a ≡ encoded b → a ≡ b }
{}
