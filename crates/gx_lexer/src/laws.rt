//! What the pieces of a script and the tokens of a piece are, said of whole texts.

ghost use Rattle.std.specs.Prelude.{◌≡◌, ◌↔◌, ℕ, List};
ghost use Rattle.std.specs.List.{AllByRecursion};
ghost use Rattle.gx_lexer.specs.declared.token.Token.{Token};
ghost use Rattle.gx_lexer.specs.Cut.{cut};
ghost use Rattle.gx_lexer.specs.Lexemes.{Spells};
ghost use Rattle.gx_lexer.specs.Names.{HasWord};
ghost use Rattle.gx_lexer.specs.Parts.{AreCut};
ghost use Rattle.gx_lexer.specs.Tokens.{tokens_of};

/// Each script is cut into pieces by what it is made of, texts, comments and other bytes, and in no other way.
pub fn one_cut()
    ensures is { (script : List ℕ) → AreCut script (cut script).pieces (cut script).rest }
    ensures only { (script : List ℕ) (pieces : List (List ℕ)) (rest : List ℕ) → AreCut script pieces rest → cut script ≡ record { pieces = pieces; rest = rest } }
{}

/// The tokens of a piece are those that it spells, and no others.
pub fn one_scan()
    ensures { (piece : List ℕ) (tokens : List (ℕ × Token)) → (tokens_of piece ≡ tokens) ↔ Spells piece tokens }
{}

/// Each word among the tokens of a piece has 1 to 63 bytes: letters in lower case, digits and `_`.
pub fn words_are_short()
    ensures { (piece : List ℕ) → AllByRecursion (λ x. HasWord x.1) (tokens_of piece) }
{}
