//! What a type of formulas owes.

ghost use Rattle.std.specs.Prelude.{◌≡◌, ℕ, List, IfOk, MatchResult, Ok, Err};
ghost use Rattle.gx_formula.specs.Formula.{Tree, Word, Not, And, Or};
ghost use Rattle.gx_formula.specs.Tokens.{AreWords};
ghost use Rattle.gx_formula.specs.Grammar.{AnswersWord};

use gx_bytes::{NoMemory, ValueError};
use std::alloc::Global;

/// A type of formulas over words of its own, and how a word is read.
pub trait Formula: Drop {
    /// What is joined.
    type Word: Drop;

    // The formula without its boxes.
    ghost tree: { Self → Tree Self.Word };

    // A word stands at the front of a text, before a rest; a word but for its value stands there.
    ghost Takes: { List ℕ → Self.Word → List ℕ → Type 0 };

    ghost IsFar: { List ℕ → Type 0 };

    // There is a word.
    ghost some_word: { Self.Word };

    /// The word at the front of the text, and what stands behind it.
    fn take_word(alloc: Global, text: &[u8]) -> Result<(Self::Word, &[u8]), ValueError>
        ensures { MatchResult result (λ x. AnswersWord Takes IsFar text.now (Ok (x.0, x.1.now))) (λ e. AnswersWord Takes IsFar text.now (Err e)) };

    /// A word alone.
    fn word(word: Self::Word) -> Self
        ensures { tree result ≡ Word word };

    fn not(alloc: Global, inner: Self) -> Result<Self, NoMemory>
        ensures { IfOk result (λ f. tree f ≡ Not (tree inner)) };

    fn and(alloc: Global, left: Self, right: Self) -> Result<Self, NoMemory>
        ensures { IfOk result (λ f. tree f ≡ And (tree left) (tree right)) };

    fn or(alloc: Global, left: Self, right: Self) -> Result<Self, NoMemory>
        ensures { IfOk result (λ f. tree f ≡ Or (tree left) (tree right)) };

    // A word and its rest are determined by the text.
    ghost are_words: { AreWords Takes IsFar };
}
