//! Laws of the texts, the bytes and the operators.

ghost use Rattle.std.specs.Prelude.{◌≡◌, ◌≢◌, ◌↔◌, ℕ, List, IsTrue, Result, Err};
ghost use Rattle.gx_bytes.specs.declared.error.ValueError.{ValueError};
ghost use Rattle.gx_hstore.specs.Map.{Pair, IsMap};
ghost use Rattle.gx_hstore.specs.Parts.{IsMadeOf};
ghost use Rattle.gx_hstore.specs.Text.{SpellsPairs, SpellsHstore, AnswersHstore};
ghost use Rattle.gx_hstore.specs.Printing.{printed};
ghost use Rattle.gx_hstore.specs.Encoding.{IsEncoded};
ghost use Rattle.gx_hstore.specs.Operators.{Question, Holds};
ghost use Rattle.gx_hstore.specs.Decisions.{holds};

/// A text spells pairs exactly where it is made of them, as a whole: keys, `=>` and values with white space round them,
/// and commas.
pub fn made_of_pairs()
    ensures { (text : List ℕ) (pairs : List Pair) → SpellsPairs text pairs ↔ IsMadeOf text pairs }
{}

/// A text has one answer, unless memory is wanting.
pub fn one_answer()
    ensures { (text : List ℕ) (r s : Result (List Pair) ValueError) → r ≢ Err ValueError.Memory → s ≢ Err ValueError.Memory → AnswersHstore text r → AnswersHstore text s → r ≡ s }
{}

/// The printed text of a map spells it.
pub fn printed_again()
    ensures { (hstore : List Pair) → IsMap hstore → SpellsHstore (printed hstore) hstore }
{}

/// Bytes have one map, and a map has one list of bytes.
pub fn one_encoding()
    ensures maps { (bytes : List ℕ) (a b : List Pair) → IsEncoded bytes a → IsEncoded bytes b → a ≡ b }
    ensures bytes { (a b : List ℕ) (hstore : List Pair) → IsEncoded a hstore → IsEncoded b hstore → a ≡ b }
{}

/// Each operator is decided: `holds` is true exactly where the relation holds.
pub fn decided()
    ensures { (question : Question) (hstore : List Pair) → IsTrue (holds question hstore) ↔ Holds question hstore }
{}
