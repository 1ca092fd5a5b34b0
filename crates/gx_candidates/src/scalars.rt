//! Queries of classes whose keys are the least and the greatest value.

ghost use Rattle.std.specs.Prelude.{IfOk};
ghost use Rattle.gx_value.specs.declared.operators.Operator.TheVariants.{Contains};
ghost use Rattle.gx_value.specs.Values.{scalar};
ghost use Rattle.gx_opr.specs.Operands.{right_of, datum};
ghost use Rattle.gx_candidates.specs.Queries.{Asks, asks_scalar, asks_range, asks_inet, is_element, IsScalarQuery, IsRangeQuery, IsInetQuery};

use gx_bytes::NoMemory;
use gx_class_inet::InetQuery;
use gx_class_range::RangeQuery;
use gx_class_scalar::ScalarQuery;
use gx_opr::{Operand, Part, inet_op, range_op, scalar_op};
use gx_scalar::Scalar;
use gx_value::{Operator, Value};
use std::alloc::Global;

/// What the classes of scalars are asked; `None` where they lack the operator with such an operand.
pub fn scalar_query(
    alloc: Global,
    op: Operator,
    operand: &Operand,
) -> Result<Option<ScalarQuery>, NoMemory>
    ensures { IfOk result (λ made. Asks (asks_scalar op (right_of operand.now.part)) (IsScalarQuery op (right_of operand.now.part)) made) }
{
    match (scalar_op(op), &operand.part) {
        (Some(op), Part::Value(Value::Scalar(scalar))) => {
            let operand = scalar.copy(alloc)?;
            Ok(Some(ScalarQuery { op, operand }))
        }
        _ => Ok(None),
    }
}

/// What the class of ranges is asked; `None` where it lacks the operator with such an operand.
pub fn range_query(op: Operator, operand: &Operand) -> Option<RangeQuery>
    ensures { Asks (asks_range op (right_of operand.now.part)) (IsRangeQuery op (right_of operand.now.part)) result }
{
    match (op, &operand.part) {
        (_, Part::Value(Value::Range(operand))) => {
            let op = range_op(op)?;
            Some(RangeQuery::Range {
                op,
                operand: *operand,
            })
        }
        (Operator::Contains, Part::Value(Value::Scalar(scalar))) => element_query(scalar),
        _ => None,
    }
}

/// The same of `@>` with a number or a day.
fn element_query(element: &Scalar) -> Option<RangeQuery>
    ensures { Asks (is_element element.now) (IsRangeQuery Contains (datum (scalar element.now))) result }
{
    match element {
        Scalar::Int4(number) => Some(RangeQuery::Element(i64::from(*number))),
        Scalar::Int8(number) => Some(RangeQuery::Element(*number)),
        Scalar::Date(day) => Some(RangeQuery::Element(i64::from(*day))),
        _ => None,
    }
}

/// What the class of addresses is asked; `None` where it lacks the operator with such an operand.
pub fn inet_query(op: Operator, operand: &Operand) -> Option<InetQuery>
    ensures { Asks (asks_inet op (right_of operand.now.part)) (IsInetQuery op (right_of operand.now.part)) result }
{
    match (inet_op(op), &operand.part) {
        (Some(op), Part::Value(Value::Inet(operand))) => Some(InetQuery {
            op,
            operand: *operand,
        }),
        _ => None,
    }
}
