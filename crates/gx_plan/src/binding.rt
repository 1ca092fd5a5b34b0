//! Conditions as they are written, bound to the columns of a table.

ghost use Rattle.std.specs.Prelude.{◌≡◌, None, Some, IfOk, MatchOption, MatchResult, bytes_eq};
ghost use Rattle.gx_value.specs.Literals.{IsLiteral};
ghost use Rattle.gx_parse.specs.Sound.{TreeHasLiterals};
ghost use Rattle.gx_parse.specs.Trees.{Atom, IsNull, tree_of};
ghost use Rattle.gx_model.specs.Checks.{Find};
ghost use Rattle.gx_model.specs.Conditions.{condition_checks, Binds};
ghost use Rattle.gx_model.specs.Database.{column_named, place_of};
ghost use Rattle.gx_model.specs.Refusals.{Refuses};
ghost use Rattle.gx_model.specs.declared.refusal.Refusal.TheVariants.{Memory};
ghost use Rattle.gx_plan.specs.Bindings.{IsBinding, IsFound};
ghost use Rattle.gx_plan.specs.Bounds.{bound_of, kinds_of, IsBound};

use crate::bound::Bound;
use crate::operand::bind_operand;
use gx_model::Refusal;
use gx_parse::{Condition, Given};
use gx_value::{Column, Operator};
use std::alloc::Global;

/// The condition with its columns as places and its literals as operands. Its first fault, in the order in which it is
/// written, is E4, E6, E11, E8, E9 or E18.
pub fn bind(alloc: Global, columns: &[Column], condition: &Condition) -> Result<Bound, Refusal>
    requires literals { TreeHasLiterals (tree_of condition.now) }
    ensures answer { MatchResult result
        (λ bound. Find (condition_checks columns.now (tree_of condition.now)) None × Binds columns.now (tree_of condition.now) (bound_of bound))
        (Refuses (condition_checks columns.now (tree_of condition.now))) }
    ensures bound { IfOk result (λ bound. IsBound (kinds_of columns.now) (bound_of bound)) }
{
    match bind_tree(alloc, columns, condition) {
        Ok(bound) => Ok(Box::into_inner(bound)),
        Err(refusal) => Err(refusal),
    }
}

/// The bound condition in a box: a step down the condition then takes little stack.
fn bind_tree(
    alloc: Global,
    columns: &[Column],
    condition: &Condition,
) -> Result<Box<Bound>, Refusal>
    requires literals { TreeHasLiterals (tree_of condition.now) }
    ensures { MatchResult result
        (λ bound. IsBinding columns.now (tree_of condition.now) (bound_of bound.value))
        (Refuses (condition_checks columns.now (tree_of condition.now))) }
{
    match condition {
        Condition::And(left, right) => {
            let left = bind_tree(alloc, columns, left)?;
            let right = bind_tree(alloc, columns, right)?;
            boxed(alloc, Bound::And(left, right))
        }
        Condition::Or(left, right) => {
            let left = bind_tree(alloc, columns, left)?;
            let right = bind_tree(alloc, columns, right)?;
            boxed(alloc, Bound::Or(left, right))
        }
        Condition::Not(inner) => {
            let inner = bind_tree(alloc, columns, inner)?;
            boxed(alloc, Bound::Not(inner))
        }
        Condition::Atom { column, op, given } => {
            bind_atom(alloc, columns, column.as_slice(), *op, given)
        }
        Condition::IsNull { column, negated } => {
            bind_null(alloc, columns, column.as_slice(), *negated)
        }
    }
}

#[inline(never)]
fn bind_atom(
    alloc: Global,
    columns: &[Column],
    name: &[u8],
    op: Operator,
    given: &Given,
) -> Result<Box<Bound>, Refusal>
    requires literal { IsLiteral given.now.literal }
    ensures { MatchResult result
        (λ bound. IsBinding columns.now (Atom name.now op given.now) (bound_of bound.value))
        (Refuses (condition_checks columns.now (Atom name.now op given.now))) }
{
    match find_column(columns, name) {
        Some((place, column)) => {
            let operand = bind_operand(alloc, column, op, given)?;
            boxed(alloc, Bound::Atom { place, op, operand })
        }
        None => Err(Refusal::Fault { number: 4 }),
    }
}

#[inline(never)]
fn bind_null(
    alloc: Global,
    columns: &[Column],
    name: &[u8],
    negated: bool,
) -> Result<Box<Bound>, Refusal>
    ensures { MatchResult result
        (λ bound. IsBinding columns.now (IsNull name.now negated) (bound_of bound.value))
        (Refuses (condition_checks columns.now (IsNull name.now negated))) }
{
    match find_column(columns, name) {
        Some((place, _)) => boxed(alloc, Bound::IsNull { place, negated }),
        None => Err(Refusal::Fault { number: 4 }),
    }
}

#[inline(never)]
fn boxed(alloc: Global, bound: Bound) -> Result<Box<Bound>, Refusal>
    ensures { MatchResult result (λ made. made.value ≡ bound) (λ refusal. refusal ≡ Memory) }
{
    match Box::new(alloc, bound) {
        Ok(made) => Ok(made),
        Err(_) => Err(Refusal::Memory),
    }
}

/// The first column of this name, and its place.
fn find_column<'a>(columns: &'a [Column], name: &[u8]) -> Option<(usize, &'a Column)>
    ensures { MatchOption result (column_named columns.now name.now ≡ None) (λ found. IsFound columns.now name.now found.0 found.1.now) }
{
    match place_of(columns, name) {
        Some(place) => match columns.get(place) {
            Some(column) => Some((place, column)),
            None => None,
        },
        None => None,
    }
}

fn place_of(columns: &[Column], name: &[u8]) -> Option<usize>
    ensures { result ≡ place_of columns.now name.now }
{
    columns
        .iter()
        .position(|column| is_same(column.name.as_slice(), name))
}

fn is_same(one: &[u8], other: &[u8]) -> bool
    ensures { result ≡ bytes_eq one.now other.now }
{
    one == other
}
