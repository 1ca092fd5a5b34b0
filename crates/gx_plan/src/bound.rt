//! Conditions that are bound to a table.

ghost use Rattle.std.specs.Prelude.{◌≡◌, true, List, None, Some, map, IfOk, IsErr, IsSomeAnd, option_copied, option_map};
ghost use Rattle.gx_value.specs.Values.{datum_of, row_of, IsField, IsRow};
ghost use Rattle.gx_value.specs.declared.types.ColumnType.{ColumnType};
ghost use Rattle.gx_opr.specs.Decisions as decisions;
ghost use Rattle.gx_opr.specs.Operands.{right_of, Resolves};
ghost use Rattle.gx_opr.specs.Operators.{IsPathValue};
ghost use Rattle.gx_model.specs.Truth as model;
ghost use Rattle.gx_plan.specs.Bounds.{bound_of, operand_of, truth_of, AsksPath, IsAsked, IsBound};

use gx_bytes::NoMemory;
use gx_opr::{Operand, decided, holds};
use gx_value::{Operator, Value};
use std::alloc::Global;

/// A condition on the rows of a table. A column is named by its place, counted from 0; an operand is None for NULL.
#[derive(Debug, Drop)]
pub enum Bound {
    And(Box<Bound>, Box<Bound>),
    Or(Box<Bound>, Box<Bound>),
    Not(Box<Bound>),
    Atom {
        place: usize,
        op: Operator,
        operand: Option<Operand>,
    },
    /// IS NULL, or where it is negated IS NOT NULL.
    IsNull {
        place: usize,
        negated: bool,
    },
}

/// What a condition is of a row.
#[derive(Clone, Copy, Debug, PartialEq, Eq, Drop)]
pub enum Truth {
    False,
    Unknown,
    True,
}

impl Truth {
    fn of(so: bool) -> Truth
        ensures { truth_of result ≡ model.truth_of so }
    {
        if so { Truth::True } else { Truth::False }
    }

    fn and(self, other: Truth) -> Truth
        ensures { truth_of result ≡ model.and_of (truth_of self) (truth_of other) }
    {
        match (self, other) {
            (Truth::False, _) | (_, Truth::False) => Truth::False,
            (Truth::True, Truth::True) => Truth::True,
            _ => Truth::Unknown,
        }
    }

    fn or(self, other: Truth) -> Truth
        ensures { truth_of result ≡ model.or_of (truth_of self) (truth_of other) }
    {
        match (self, other) {
            (Truth::True, _) | (_, Truth::True) => Truth::True,
            (Truth::False, Truth::False) => Truth::False,
            _ => Truth::Unknown,
        }
    }

    fn not(self) -> Truth
        ensures { truth_of result ≡ model.not_of (truth_of self) }
    {
        match self {
            Truth::False => Truth::True,
            Truth::Unknown => Truth::Unknown,
            Truth::True => Truth::False,
        }
    }
}

impl Bound {
    /// What the condition is of a row with these fields. Only operators on paths may want memory.
    pub fn truth(&self, alloc: Global, fields: &[Option<Value>]) -> Result<Truth, NoMemory>
        requires { (kinds : List ColumnType) × IsBound kinds (bound_of self.now) × IsRow kinds (row_of fields.now) }
        ensures answer { IfOk result (λ t. truth_of t ≡ model.truth (bound_of self.now) (row_of fields.now)) }
        ensures memory { IsErr result → AsksPath (bound_of self.now) (row_of fields.now) }
    {
        match self {
            Bound::And(left, right) => match left.truth(alloc, fields)? {
                Truth::False => Ok(Truth::False),
                left => Ok(left.and(right.truth(alloc, fields)?)),
            },
            Bound::Or(left, right) => match left.truth(alloc, fields)? {
                Truth::True => Ok(Truth::True),
                left => Ok(left.or(right.truth(alloc, fields)?)),
            },
            Bound::Not(inner) => Ok(inner.truth(alloc, fields)?.not()),
            Bound::Atom { place, op, operand } => {
                truth_of_atom(alloc, *op, field_at(fields, *place), operand)
            }
            Bound::IsNull { place, negated } => {
                Ok(Truth::of(field_at(fields, *place).is_none() != *negated))
            }
        }
    }
}

fn truth_of_atom(
    alloc: Global,
    op: Operator,
    field: Option<&Value>,
    operand: &Option<Operand>,
) -> Result<Truth, NoMemory>
    requires { (kind : ColumnType) × IsField kind (option_map datum_of (option_copied field)) × IsAsked op (option_map operand_of operand.now) kind }
    ensures answer { IfOk result (λ t. truth_of t ≡ model.truth_of_atom op (option_map datum_of (option_copied field.entry)) (option_map operand_of operand.now)) }
    ensures memory { IsErr result → IsSomeAnd (option_map datum_of (option_copied field.entry)) IsPathValue }
{
    match (field, operand) {
        (Some(value), Some(operand)) => Ok(Truth::of(is_so(alloc, op, value, operand)?)),
        _ => Ok(Truth::Unknown),
    }
}

fn is_so(alloc: Global, op: Operator, value: &Value, operand: &Operand) -> Result<bool, NoMemory>
    requires { Resolves op (datum_of value.now) operand.now }
    ensures answer { IfOk result (λ so. so ≡ decisions.holds op (datum_of value.now) (right_of operand.now.part)) }
    ensures memory { IsErr result → IsPathValue (datum_of value.now) }
{
    decided();
    holds(alloc, op, value, operand)
}

/// The value at a place of a row; None is NULL.
fn field_at(fields: &[Option<Value>], place: usize) -> Option<&Value>
    ensures { option_map datum_of (option_copied result) ≡ model.field_at (row_of fields.now) place }
{
    match fields.get(place) {
        Some(Some(value)) => Some(value),
        _ => None,
    }
}
