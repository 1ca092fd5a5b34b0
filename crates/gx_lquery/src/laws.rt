//! What holds of texts of queries and of their operators.

ghost use Rattle.std.specs.Prelude.{◌≡◌, ◌≢◌, ℕ, List, Result, Err};
ghost use Rattle.std.specs.Bool.{Decides};
ghost use Rattle.gx_bytes.specs.declared.error.ValueError.{ValueError};
ghost use Rattle.gx_lquery.specs.declared.variant.Variant.{Variant};
ghost use Rattle.gx_lquery.specs.declared.query.LqueryItem.{LqueryItem};
ghost use Rattle.gx_lquery.specs.declared.query.Lquery.{Lquery};
ghost use Rattle.gx_lquery.specs.Matching.{MatchesVariant, MatchesPath, MatchesAny};
ghost use Rattle.gx_lquery.specs.Query.{IsLquery};
ghost use Rattle.gx_lquery.specs.Tests.{matches_variant, matches_path, matches_any};
ghost use Rattle.gx_lquery.specs.Text.{SpellsLquery, AnswersLquery};

/// A text has one answer, unless memory is wanting.
pub fn one_answer()
    ensures { (text : List ℕ) (r s : Result Lquery ValueError) → r ≢ Err ValueError.Memory → s ≢ Err ValueError.Memory → AnswersLquery text r → AnswersLquery text s → r ≡ s }
{}

/// A query that a text spells is valid.
pub fn spelled_is_valid()
    ensures { (text : List ℕ) (query : Lquery) → SpellsLquery text query → IsLquery query }
{}

/// The tests of a word, of a query and of some queries tell which labels and paths they match.
pub fn matching_decided()
    ensures variant { (variant : Variant) (label : List ℕ) → Decides (matches_variant variant label) (MatchesVariant variant label) }
    ensures path { (items : List LqueryItem) (path : List (List ℕ)) → Decides (matches_path items path) (MatchesPath items path) }
    ensures any { (queries : List Lquery) (path : List (List ℕ)) → Decides (matches_any queries path) (MatchesAny queries path) }
{}
