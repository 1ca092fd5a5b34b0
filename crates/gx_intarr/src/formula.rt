//! Formulas of numbers.

ghost use Rattle.std.specs.Prelude.{◌≡◌, pos, IfOk};
ghost use Rattle.gx_intarr.specs.Formula.{tree_of, HasInt4};
ghost use Rattle.gx_intarr.specs.Numbers.{TakesInt4, IsFarNumber};
ghost use Rattle.gx_intarr.specs.Laws.{words_are};
ghost use Rattle.gx_intarr.specs.Queries.{AnswersQuery};

use crate::number::{int4_of, take_number};
use gx_bytes::{NoMemory, ValueError};
use gx_formula::{Formula, read_formula};
use std::alloc::{AllocError, Global};

/// Numbers joined by not, and, or.
#[derive(Debug, Drop)]
pub enum IntFormula {
    Number(i32),
    Not(Box<IntFormula>),
    And(Box<IntFormula>, Box<IntFormula>),
    Or(Box<IntFormula>, Box<IntFormula>),
}

/// A query for the elements of an array.
#[derive(Debug, Drop)]
pub struct QueryInt {
    pub formula: IntFormula,
}

impl Formula for IntFormula {
    type Word = i32;

    ghost tree = { tree_of };

    ghost Takes = { TakesInt4 };

    ghost IsFar = { IsFarNumber };

    ghost some_word = { pos 0 };

    fn take_word(_alloc: Global, text: &[u8]) -> Result<(i32, &[u8]), ValueError> {
        let Some((raw, rest)) = take_number(text) else {
            return Err(ValueError::NoValue);
        };
        match int4_of(raw) {
            Some(number) => Ok((number, rest)),
            None => Err(ValueError::OutOfRange),
        }
    }

    fn word(word: i32) -> IntFormula {
        IntFormula::Number(word)
    }

    fn not(alloc: Global, inner: IntFormula) -> Result<IntFormula, NoMemory> {
        Ok(IntFormula::Not(boxed(alloc, inner)?))
    }

    fn and(alloc: Global, left: IntFormula, right: IntFormula) -> Result<IntFormula, NoMemory> {
        Ok(IntFormula::And(boxed(alloc, left)?, boxed(alloc, right)?))
    }

    fn or(alloc: Global, left: IntFormula, right: IntFormula) -> Result<IntFormula, NoMemory> {
        Ok(IntFormula::Or(boxed(alloc, left)?, boxed(alloc, right)?))
    }

    ghost are_words = { words_are };
}

impl QueryInt {
    /// Reads a formula of numbers, `!`, `&`, `|` and parentheses, with white space between them. The first
    /// fault by place is answered: TooDeep where a 65th parenthesis or `!` would stand open, or a 1,025th `&` or
    /// `|` comes; OutOfRange for a number outside of int4; NoValue for every other text that spells none.
    pub fn read(alloc: Global, text: &str) -> Result<QueryInt, ValueError>
        ensures answer { AnswersQuery text.now result }
        ensures valid { IfOk result (λ query. HasInt4 (tree_of query.formula)) }
    {
        match read_formula::<IntFormula>(alloc, text.as_bytes()) {
            Ok(formula) => Ok(QueryInt { formula }),
            Err(fault) => Err(fault),
        }
    }

    /// A copy of the query.
    pub fn copy(&self, alloc: Global) -> Result<QueryInt, NoMemory>
        ensures { IfOk result (λ copy. tree_of copy.formula ≡ tree_of self.now.formula) }
    {
        Ok(QueryInt {
            formula: self.formula.copy(alloc)?,
        })
    }
}

impl IntFormula {
    /// A copy of the formula.
    pub fn copy(&self, alloc: Global) -> Result<IntFormula, NoMemory>
        ensures { IfOk result (λ copy. tree_of copy ≡ tree_of self.now) }
    {
        Ok(Box::into_inner(copied(self, alloc)?))
    }
}

/// A copy in a box: a step down the formula then takes little stack.
fn copied(formula: &IntFormula, alloc: Global) -> Result<Box<IntFormula>, NoMemory>
    ensures { IfOk result (λ copy. tree_of copy.value ≡ tree_of formula.now) }
{
    match formula {
        IntFormula::Number(number) => boxed(alloc, IntFormula::Number(*number)),
        IntFormula::Not(inner) => {
            let inner = copied(inner, alloc)?;
            boxed(alloc, IntFormula::Not(inner))
        }
        IntFormula::And(left, right) => {
            let left = copied(left, alloc)?;
            let right = copied(right, alloc)?;
            boxed(alloc, IntFormula::And(left, right))
        }
        IntFormula::Or(left, right) => {
            let left = copied(left, alloc)?;
            let right = copied(right, alloc)?;
            boxed(alloc, IntFormula::Or(left, right))
        }
    }
}

#[inline(never)]
fn boxed(alloc: Global, formula: IntFormula) -> Result<Box<IntFormula>, NoMemory>
    ensures { IfOk result (λ b. b.value ≡ formula) }
{
    match Box::new(alloc, formula) {
        Ok(made) => Ok(made),
        Err(_) => Err(AllocError),
    }
}
