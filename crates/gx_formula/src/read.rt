//! The reader of formulas.

ghost use Rattle.std.specs.Prelude.{◌≡◌, ℕ, List, ◌∷◌, Some, None, Ok, Err, MatchOption, MatchResult};
ghost use Rattle.gx_formula.specs.Tokens.{sign_of};
ghost use Rattle.gx_formula.specs.Grammar.{AnswersFormula};

use crate::formula::Formula;
use crate::parser::{Parser, finished, put_sign, put_word};
use crate::sign::{Sign, sign_of};
use gx_bytes::{ValueError, without_blanks};
use std::alloc::Global;

/// Reads a formula of words, `!`, `&`, `|` and parentheses, with white space between them. The first fault by place is answered: TooDeep
/// where a 65th parenthesis or `!` would stand open, or a 1,025th `&` or `|` comes; OutOfRange for a word but for its value; NoValue for
/// every other text that spells none. No call nests: the stack that is used doesn't grow with the text.
pub fn read_formula<F: Formula>(alloc: Global, text: &[u8]) -> Result<F, ValueError>
    ensures { MatchResult result (λ f. AnswersFormula F.Takes F.IsFar text.now (Ok (F.tree f))) (λ e. AnswersFormula F.Takes F.IsFar text.now (Err e)) }
{
    let mut parser = Parser {
        stack: Vec::new(alloc),
        sum: None,
        product: None,
        operand: None,
        operators: 0,
    };
    let mut rest = text;
    'tokens: loop {
        let core = without_blanks(rest);
        if core.is_empty() {
            return finished(alloc, parser);
        }
        match take_sign(core) {
            Some((sign, after)) => {
                parser = put_sign(alloc, parser, sign)?;
                rest = after;
            }
            None => {
                let (next, after) = put_word(alloc, parser, core)?;
                parser = next;
                rest = after;
            }
        }
    }
}

/// The sign in front, and what stands behind it.
fn take_sign(core: &[u8]) -> Option<(Sign, &[u8])>
    ensures { MatchOption result ((c : ℕ) (rest : List ℕ) → core.now ≡ c ∷ rest → sign_of c ≡ None) (λ x. (c : ℕ) × (core.now ≡ c ∷ x.1.now) × (sign_of c ≡ Some x.0)) }
{
    let [first, rest @ ..] = core else {
        return None;
    };
    match sign_of(*first) {
        Some(sign) => Some((sign, rest)),
        None => None,
    }
}
