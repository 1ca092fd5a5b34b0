//! Formulas whose numbers have places among the items that they want.

ghost use Rattle.std.specs.Prelude.{◌≡◌, ◌++◌, [], ℕ, List, false, map, IfOk, OnOk, slice_index_or};
ghost use Rattle.gx_intarr.specs.Arrays.{IsArray};
ghost use Rattle.gx_intarr.specs.Formula as plain;
ghost use Rattle.gx_gin_arrays.specs.Numbers.{number_item, items, numbers_in};
ghost use Rattle.gx_gin_arrays.specs.Placed.{tree_of, ArePlaced, IsPlaced};
ghost use Rattle.gx_gin_arrays.specs.Tests.{is_true_of_none, is_true_of_flags};

use crate::numbers::{number_item, push_number};
use gx_bytes::NoMemory;
use gx_gin::{Items, Strings};
use gx_gin_items::place_of;
use gx_intarr::{IntFormula, QueryInt};
use std::alloc::{AllocError, Global};

/// Numbers joined by not, and, or. Beside each stands its place among the distinct numbers of the query, in the order of their items.
#[derive(Debug, Drop)]
pub enum PlacedFormula {
    Number(i32, usize),
    Not(Box<PlacedFormula>),
    And(Box<PlacedFormula>, Box<PlacedFormula>),
    Or(Box<PlacedFormula>, Box<PlacedFormula>),
}

/// A query for the elements of an array. The place of each number among the wanted items is found once, when it is made.
#[derive(Debug, Drop)]
pub struct PlacedQuery {
    pub formula: PlacedFormula,
}

impl PlacedQuery {
    /// The query with the place of each number.
    pub fn of(alloc: Global, query: &QueryInt) -> Result<PlacedQuery, NoMemory>
        ensures { IfOk result (λ made. (tree_of made.formula ≡ plain.tree_of query.now.formula) × IsPlaced made.formula) }
    {
        let mut strings = Strings::new(alloc);
        push_numbers(&mut strings, &query.formula)?;
        let items = Items::of(strings)?;
        let formula = Box::into_inner(placed(alloc, &items, &query.formula)?);
        Ok(PlacedQuery { formula })
    }

    /// The items that the query wants: those of its distinct numbers.
    pub fn wanted(&self, alloc: Global) -> Result<Items, NoMemory>
        ensures { IfOk result (λ made. made ≡ items (numbers_in (tree_of self.now.formula))) }
    {
        let mut strings = Strings::new(alloc);
        push_placed(&mut strings, &self.formula)?;
        Items::of(strings)
    }

    /// Tells whether the query is true of an array with none of its numbers.
    pub fn holds_of_none(&self) -> bool
        ensures { result ≡ is_true_of_none (tree_of self.now.formula) }
    {
        is_true_of(&self.formula, &[])
    }

    /// Tells whether the query is true, where a number is true by the flag of its item.
    pub fn holds_of(&self, found: &[bool]) -> bool
        requires { IsPlaced self.now.formula }
        ensures { result ≡ is_true_of_flags (items (numbers_in (tree_of self.now.formula))) found.now (tree_of self.now.formula) }
    {
        is_true_of(&self.formula, found)
    }
}

/// Adds the items of the numbers at the end.
fn push_numbers(to: &mut Strings, formula: &IntFormula) -> Result<(), NoMemory>
    ensures { OnOk result (to.new ≡ to.old ++ map number_item (numbers_in (plain.tree_of formula.now))) }
{
    match formula {
        IntFormula::Number(number) => push_number(to, *number),
        IntFormula::Not(inner) => push_numbers(to, inner),
        IntFormula::And(left, right) | IntFormula::Or(left, right) => {
            push_numbers(to, left)?;
            push_numbers(to, right)
        }
    }
}

/// The same of a formula with places.
fn push_placed(to: &mut Strings, formula: &PlacedFormula) -> Result<(), NoMemory>
    ensures { OnOk result (to.new ≡ to.old ++ map number_item (numbers_in (tree_of formula.now))) }
{
    match formula {
        PlacedFormula::Number(number, _) => push_number(to, *number),
        PlacedFormula::Not(inner) => push_placed(to, inner),
        PlacedFormula::And(left, right) | PlacedFormula::Or(left, right) => {
            push_placed(to, left)?;
            push_placed(to, right)
        }
    }
}

/// The formula with the place of each number among these items.
fn placed(
    alloc: Global,
    items: &Items,
    formula: &IntFormula,
) -> Result<Box<PlacedFormula>, NoMemory>
    ensures { IfOk result (λ made. (tree_of made.value ≡ plain.tree_of formula.now) × ArePlaced items.now made.value × IsArray (numbers_in (tree_of made.value))) }
{
    match formula {
        IntFormula::Number(number) => {
            let place = place_of(items, number_item(*number).as_slice());
            boxed(alloc, PlacedFormula::Number(*number, place))
        }
        IntFormula::Not(inner) => {
            let inner = placed(alloc, items, inner)?;
            boxed(alloc, PlacedFormula::Not(inner))
        }
        IntFormula::And(left, right) => {
            let left = placed(alloc, items, left)?;
            let right = placed(alloc, items, right)?;
            boxed(alloc, PlacedFormula::And(left, right))
        }
        IntFormula::Or(left, right) => {
            let left = placed(alloc, items, left)?;
            let right = placed(alloc, items, right)?;
            boxed(alloc, PlacedFormula::Or(left, right))
        }
    }
}

#[inline(never)]
fn boxed(alloc: Global, formula: PlacedFormula) -> Result<Box<PlacedFormula>, NoMemory>
    ensures { IfOk result (λ b. b.value ≡ formula) }
{
    match Box::new(alloc, formula) {
        Ok(made) => Ok(made),
        Err(_) => Err(AllocError),
    }
}

/// Tells whether the formula is true, where a number is true by the flag at its place; one without a flag isn't.
fn is_true_of(formula: &PlacedFormula, found: &[bool]) -> bool
    ensures none { found.now ≡ [] → result ≡ is_true_of_none (tree_of formula.now) }
    ensures flags { (items : List (List ℕ)) → ArePlaced items formula.now → result ≡ is_true_of_flags items found.now (tree_of formula.now) }
{
    match formula {
        PlacedFormula::Number(_, place) => flag_at(found, *place),
        PlacedFormula::Not(inner) => !is_true_of(inner, found),
        PlacedFormula::And(left, right) => is_true_of(left, found) && is_true_of(right, found),
        PlacedFormula::Or(left, right) => is_true_of(left, found) || is_true_of(right, found),
    }
}

/// The flag at a place; false where there is none.
fn flag_at(found: &[bool], place: usize) -> bool
    ensures { result ≡ slice_index_or found.now place false }
{
    place < found.len() && found[place]
}
