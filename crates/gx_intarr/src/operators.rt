//! All operators of int4[].

ghost use Rattle.std.specs.Prelude.{◌≡◌, IsTrue, ◌↔◌};
ghost use Rattle.gx_intarr.specs.Formula.{tree_of, IsTrueOf};
ghost use Rattle.gx_intarr.specs.Operators.{Overlap, ContainsEach, Holds};

use crate::array::IntArray;
use crate::formula::{IntFormula, QueryInt};

/// An operator of int4[] with its operand: `&&`, `@>`, `<@` and `=` and an array, `@@` and a query.
#[derive(Debug, Drop)]
pub enum IntQuery {
    Overlaps(IntArray),
    Contains(IntArray),
    Within(IntArray),
    Equal(IntArray),
    Formula(QueryInt),
}

impl IntQuery {
    /// Whether the operator holds of the array and its operand.
    pub fn holds(&self, set: &IntArray) -> bool
        ensures { IsTrue result ↔ Holds self.now set.now }
    {
        match self {
            IntQuery::Overlaps(other) => set.overlaps(other),
            IntQuery::Contains(other) => set.contains(other),
            IntQuery::Within(other) => other.contains(set),
            IntQuery::Equal(other) => set.same(other),
            IntQuery::Formula(query) => query.holds(set),
        }
    }
}

impl IntArray {
    /// Whether some number is an element of both (`&&`).
    pub fn overlaps(&self, other: &IntArray) -> bool
        ensures { IsTrue result ↔ Overlap self.now other.now }
    {
        other.items().iter().any(|number| self.has(number))
    }

    /// Whether each element of `other` is an element of this array (`@>`).
    pub fn contains(&self, other: &IntArray) -> bool
        ensures { IsTrue result ↔ ContainsEach self.now other.now }
    {
        for number in other.items() {
            if !self.has(number) {
                return false;
            }
        }
        true
    }

    /// Whether both have the same elements in the same order (`=`).
    pub fn same(&self, other: &IntArray) -> bool
        ensures { IsTrue result ↔ (self.now ≡ other.now) }
    {
        self.items() == other.items()
    }
}

impl QueryInt {
    /// Whether the formula is true where a number is true exactly if it is an element of the array (`@@`).
    pub fn holds(&self, set: &IntArray) -> bool
        ensures { IsTrue result ↔ IsTrueOf (tree_of self.now.formula) set.now }
    {
        is_true(&self.formula, set)
    }
}

fn is_true(formula: &IntFormula, set: &IntArray) -> bool
    ensures { IsTrue result ↔ IsTrueOf (tree_of formula.now) set.now }
{
    match formula {
        IntFormula::Number(number) => set.has(number),
        IntFormula::Not(inner) => !is_true(inner, set),
        IntFormula::And(left, right) => is_true(left, set) && is_true(right, set),
        IntFormula::Or(left, right) => is_true(left, set) || is_true(right, set),
    }
}
