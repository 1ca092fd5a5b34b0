//! The reader of formulas of words.

ghost use Rattle.gx_ltxtquery.specs.Text.{AnswersLtxtquery};

use crate::formula::{Ltxtquery, WordFormula};
use gx_bytes::ValueError;
use gx_formula::read_formula;
use std::alloc::Global;

impl Ltxtquery {
    /// Reads a formula of words, `!`, `&`, `|` and parentheses, with white space between them. TooDeep
    /// where a 65th parenthesis or `!` would stand open, or a 1,025th `&` or `|` comes, and nothing before
    /// it is wrong; NoValue for every other text that spells none.
    pub fn read(alloc: Global, text: &str) -> Result<Ltxtquery, ValueError>
        ensures { AnswersLtxtquery text.now result }
    {
        match read_formula::<WordFormula>(alloc, text.as_bytes()) {
            Ok(formula) => Ok(Ltxtquery { formula }),
            Err(fault) => Err(fault),
        }
    }
}
