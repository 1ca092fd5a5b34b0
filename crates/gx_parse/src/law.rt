//! What is read of a piece, said by the grammar.

ghost use Rattle.std.specs.Prelude.{◌≡◌, ◌↔◌, ℕ, List, Some};
ghost use Rattle.gx_lexer.specs.declared.token.Token.{Token};
ghost use Rattle.gx_parse.specs.Answers as answers;
ghost use Rattle.gx_parse.specs.Faults.{IsSaid, IsWrongAt, IsTooDeep};
ghost use Rattle.gx_parse.specs.Grammar.{Says};
ghost use Rattle.gx_parse.specs.Outcomes.{Limits};
ghost use Rattle.gx_parse.specs.Runs.{statement_of};
ghost use Rattle.gx_parse.specs.Said.{Said};
ghost use Rattle.gx_parse.specs.Sound.{IsSound};

/// What is read of tokens is the statement that they say, and each statement that they say is read.
pub fn one_statement()
    ensures { (lim : Limits) (tokens : List Token) (said : Said) → (statement_of lim tokens ≡ Some said) ↔ Says lim tokens said }
{}

/// Tokens say one statement at most, whatever the limits.
pub fn one_meaning()
    ensures { (lim : Limits) (tokens : List Token) (said other : Said) → Says lim tokens said → Says lim tokens other → said ≡ other }
{}

/// A piece has one answer: the statement that it says, or its first fault, of which there is one. `answer_of` gives it.
pub fn one_answer()
    ensures says { (piece : List ℕ) (said : Said) → (answers.answer_of piece ≡ answers.says said) ↔ IsSaid piece said }
    ensures wrong { (piece : List ℕ) (at : ℕ) → (answers.answer_of piece ≡ answers.wrong_at at) ↔ IsWrongAt piece at }
    ensures deep { (piece : List ℕ) → (answers.answer_of piece ≡ answers.too_deep) ↔ IsTooDeep piece }
{}

/// Of each statement that is read, the literals are literals, and the names that it gives have 1 to 63 bytes.
pub fn sound_statements()
    ensures { (piece : List ℕ) (said : Said) → answers.answer_of piece ≡ answers.says said → IsSound said }
{
    gx_lexer::words_are_short();
}
