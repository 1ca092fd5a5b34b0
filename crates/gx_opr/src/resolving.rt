//! Which operand a literal is taken for.

ghost use Rattle.std.specs.Prelude.{◌≡◌, true, IfOk, Some, None, MatchResult, option_and_then};
ghost use Rattle.gx_value.specs.Operators.{operands, is_operand};
ghost use Rattle.gx_opr.specs.Resolving.{element_of, is_array, fits, where_listed, first_of, uncast, named, resolve};

use gx_value::{ColumnType, Form, OperandType, Operator, is_operand, operands};
use thiserror::Error;

/// The table of operators has no such operator.
#[derive(Clone, Copy, Debug, Drop, PartialEq, Eq, Error)]
#[error("there is no such operator")]
pub struct NoOperator;

/// The type that a literal of this form is taken for, with the operator and such a column on the left. A cast has
/// to be listed in the table; without one it is the first of the table's line, and for a number the element of a
/// range of numbers where that is listed. A list fits arrays alone.
pub fn resolve(
    column: ColumnType,
    op: Operator,
    form: Form,
    cast: Option<OperandType>,
) -> Result<OperandType, NoOperator>
    ensures value { MatchResult result (λ t. resolve column op form cast ≡ Some t) (λ _. resolve column op form cast ≡ None) }
    ensures listed { IfOk result (λ t. is_operand column op t ≡ true) }
    ensures fits { IfOk result (λ t. fits form t ≡ true) }
{
    match named(column, op, form, cast) {
        Some(kind) if fits(form, kind) => Ok(kind),
        _ => Err(NoOperator),
    }
}

fn named(
    column: ColumnType,
    op: Operator,
    form: Form,
    cast: Option<OperandType>,
) -> Option<OperandType>
    ensures { result ≡ named column op form cast }
{
    match cast {
        Some(kind) => where_listed(column, op, kind),
        None => uncast(column, op, form),
    }
}

fn uncast(column: ColumnType, op: Operator, form: Form) -> Option<OperandType>
    ensures { result ≡ uncast column op form }
{
    match form {
        Form::Number => listed_element(column, op).or(first_of(operands(column, op))),
        Form::Null | Form::Text | Form::List => first_of(operands(column, op)),
    }
}

fn listed_element(column: ColumnType, op: Operator) -> Option<OperandType>
    ensures { result ≡ option_and_then (where_listed column op) (element_of column) }
{
    where_listed(column, op, element_of(column)?)
}

fn first_of(operands: &[OperandType]) -> Option<OperandType>
    ensures { result ≡ first_of operands.now }
{
    operands.first().copied()
}

fn where_listed(column: ColumnType, op: Operator, kind: OperandType) -> Option<OperandType>
    ensures { result ≡ where_listed column op kind }
{
    if is_operand(column, op, kind) {
        Some(kind)
    } else {
        None
    }
}

fn element_of(column: ColumnType) -> Option<OperandType>
    ensures { result ≡ element_of column }
{
    match column {
        ColumnType::Int4Range => Some(OperandType::Int4),
        ColumnType::Int8Range => Some(OperandType::Int8),
        _ => None,
    }
}

/// Whether a literal of this form may be one of the type.
fn fits(form: Form, kind: OperandType) -> bool
    ensures { result ≡ fits form kind }
{
    match form {
        Form::List => is_array(kind),
        Form::Null | Form::Text | Form::Number => true,
    }
}

fn is_array(kind: OperandType) -> bool
    ensures { result ≡ is_array kind }
{
    match kind {
        OperandType::Int4Array | OperandType::TextArray | OperandType::LqueryArray => true,
        _ => false,
    }
}
