//! The reader of arrays.

ghost use Rattle.std.specs.Prelude.{Ok, Err, MatchResult};
ghost use Rattle.gx_intarr.specs.Arrays.{AnswersNumbers, AnswersArray};

use crate::array::IntArray;
use crate::texts::Texts;
use gx_bytes::{ValueError, whole_of};
use std::alloc::Global;

impl IntArray {
    /// Reads an array text, and then each element as a whole number, from the left. NoValue where the text
    /// hasn't the form of an array, or the first element that is no int4 spells no number; OutOfRange where
    /// that element spells one.
    pub fn read(alloc: Global, text: &str) -> Result<IntArray, ValueError>
        ensures { AnswersArray text.now result }
    {
        let texts = Texts::read(alloc, text)?;
        IntArray::from_texts(alloc, &texts)
    }

    /// The array of the numbers that these texts spell. The first text that spells no int4 decides:
    /// OutOfRange where it spells another number, else NoValue.
    pub fn from_texts(alloc: Global, texts: &Texts) -> Result<IntArray, ValueError>
        ensures { AnswersNumbers texts.now result }
    {
        let items = numbers_of(alloc, texts)?;
        match IntArray::from_items(alloc, items) {
            Ok(array) => Ok(array),
            Err(_) => Err(ValueError::Memory),
        }
    }
}

fn numbers_of(alloc: Global, texts: &Texts) -> Result<Vec<i32>, ValueError>
    ensures { MatchResult result (λ numbers. AnswersNumbers texts.now (Ok numbers.items)) (λ e. AnswersNumbers texts.now (Err e)) }
{
    let mut numbers = Vec::new(alloc);
    for text in texts.as_slice() {
        let number = whole_of(text.as_slice(), i64::from(i32::MIN), i64::from(i32::MAX))?;
        if numbers.push(number as i32).is_err() {
            return Err(ValueError::Memory);
        }
    }
    Ok(numbers)
}
