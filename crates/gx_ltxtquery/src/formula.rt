//! Formulas of words.

ghost use Rattle.std.specs.Prelude.{◌≡◌, IfOk};
ghost use Rattle.gx_ltxtquery.specs.Formula.{tree_of, no_word};
ghost use Rattle.gx_ltxtquery.specs.Words.{TakesWord};
ghost use Rattle.gx_ltxtquery.specs.Laws.{words_are};

use crate::word::take_word;
use gx_bytes::{NoMemory, ValueError};
use gx_formula::Formula;
use gx_lquery::Variant;
use std::alloc::{AllocError, Global};

/// Words joined by not, and, or.
#[derive(Debug, Drop)]
pub enum WordFormula {
    Word(Variant),
    Not(Box<WordFormula>),
    And(Box<WordFormula>, Box<WordFormula>),
    Or(Box<WordFormula>, Box<WordFormula>),
}

/// A query for the words of a path.
#[derive(Debug, Drop)]
pub struct Ltxtquery {
    pub formula: WordFormula,
}

impl Formula for WordFormula {
    type Word = Variant;

    ghost tree = { tree_of };

    ghost Takes = { TakesWord };

    ghost IsFar = { λ _. ⊥ };

    ghost some_word = { no_word };

    fn take_word(alloc: Global, text: &[u8]) -> Result<(Variant, &[u8]), ValueError> {
        match take_word(alloc, text) {
            Ok(Some(taken)) => Ok(taken),
            Ok(None) => Err(ValueError::NoValue),
            Err(_) => Err(ValueError::Memory),
        }
    }

    fn word(word: Variant) -> WordFormula {
        WordFormula::Word(word)
    }

    fn not(alloc: Global, inner: WordFormula) -> Result<WordFormula, NoMemory> {
        Ok(WordFormula::Not(boxed(alloc, inner)?))
    }

    fn and(alloc: Global, left: WordFormula, right: WordFormula) -> Result<WordFormula, NoMemory> {
        Ok(WordFormula::And(boxed(alloc, left)?, boxed(alloc, right)?))
    }

    fn or(alloc: Global, left: WordFormula, right: WordFormula) -> Result<WordFormula, NoMemory> {
        Ok(WordFormula::Or(boxed(alloc, left)?, boxed(alloc, right)?))
    }

    ghost are_words = { words_are };
}

impl WordFormula {
    /// A copy of the formula.
    pub fn copy(&self, alloc: Global) -> Result<WordFormula, NoMemory>
        ensures { IfOk result (λ copy. tree_of copy ≡ tree_of self.now) }
    {
        Ok(Box::into_inner(copied(self, alloc)?))
    }
}

impl Ltxtquery {
    /// A copy of the query.
    pub fn copy(&self, alloc: Global) -> Result<Ltxtquery, NoMemory>
        ensures { IfOk result (λ copy. tree_of copy.formula ≡ tree_of self.now.formula) }
    {
        Ok(Ltxtquery {
            formula: self.formula.copy(alloc)?,
        })
    }
}

/// A copy in a box: a step down the formula then takes little stack.
fn copied(formula: &WordFormula, alloc: Global) -> Result<Box<WordFormula>, NoMemory>
    ensures { IfOk result (λ copy. tree_of copy.value ≡ tree_of formula.now) }
{
    match formula {
        WordFormula::Word(word) => boxed(alloc, WordFormula::Word(word.copy(alloc)?)),
        WordFormula::Not(inner) => {
            let inner = copied(inner, alloc)?;
            boxed(alloc, WordFormula::Not(inner))
        }
        WordFormula::And(left, right) => {
            let left = copied(left, alloc)?;
            let right = copied(right, alloc)?;
            boxed(alloc, WordFormula::And(left, right))
        }
        WordFormula::Or(left, right) => {
            let left = copied(left, alloc)?;
            let right = copied(right, alloc)?;
            boxed(alloc, WordFormula::Or(left, right))
        }
    }
}

#[inline(never)]
fn boxed(alloc: Global, formula: WordFormula) -> Result<Box<WordFormula>, NoMemory>
    ensures { IfOk result (λ b. b.value ≡ formula) }
{
    match Box::new(alloc, formula) {
        Ok(made) => Ok(made),
        Err(_) => Err(AllocError),
    }
}
