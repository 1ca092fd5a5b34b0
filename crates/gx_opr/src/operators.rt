//! When an operator holds.

ghost use Rattle.std.specs.Prelude.{◌≡◌, ◌↔◌, IsTrue, IfOk, IsErr, IsSomeAnd};
ghost use Rattle.gx_inet.specs.Value.{IsInet};
ghost use Rattle.gx_json.specs.Tree.{data_of};
ghost use Rattle.gx_json.specs.Valid.{IsDocument};
ghost use Rattle.gx_ltree.specs.Operators as paths;
ghost use Rattle.gx_value.specs.Values.{datum_of};
ghost use Rattle.gx_opr.specs.Operands.{right_of, Resolves};
ghost use Rattle.gx_opr.specs.Operators.{scalar_op, range_op, inet_op, ltree_op, HoldsOfScalar, HasScalar, HoldsOfRange, HoldsOfInet, HoldsOfPath, HoldsOfHstore, HoldsOfArray, HoldsOfJson, Holds, IsPathValue, IsInetRight, IsJsonRight};

use crate::operand::{Operand, Part};
use gx_bytes::NoMemory;
use gx_hstore::Hstore;
use gx_inet::{Inet, InetOp, inet_holds};
use gx_intarr::IntArray;
use gx_json::Json;
use gx_ltree::{LtreeOp, Path};
use gx_range::{Range, RangeOp, range_holds};
use gx_scalar::{Scalar, ScalarOp};
use gx_value::{Operator, Value};
use std::alloc::Global;

/// Whether the operator holds of the value and the operand, whose types the table of operators has together. Only
/// operators on paths may want memory.
pub fn holds(
    alloc: Global,
    op: Operator,
    value: &Value,
    operand: &Operand,
) -> Result<bool, NoMemory>
    requires { Resolves op (datum_of value.now) operand.now }
    ensures answer { IfOk result (λ answer. IsTrue answer ↔ Holds op (datum_of value.now) (right_of operand.now.part)) }
    ensures refused { IsErr result → IsPathValue (datum_of value.now) }
{
    let part = &operand.part;
    match value {
        Value::Scalar(scalar) => Ok(scalar_holds(op, scalar, part)),
        Value::Range(range) => Ok(range_holds_of(op, range, part)),
        Value::Inet(inet) => Ok(inet_holds_of(op, inet, part)),
        Value::Path(path) => path_holds(alloc, op, path, part),
        Value::Hstore(hstore) => Ok(hstore_holds(op, hstore, part)),
        Value::IntArray(array) => Ok(array_holds(op, array, part)),
        Value::Json(json) => Ok(json_holds(op, json, part)),
    }
}

fn scalar_holds(op: Operator, value: &Scalar, part: &Part) -> bool
    ensures { IsTrue result ↔ HoldsOfScalar op value.now (right_of part.now) }
{
    match (scalar_op(op), part) {
        (Some(op), Part::Value(Value::Scalar(operand))) => value.holds(op, operand),
        _ => false,
    }
}

fn range_holds_of(op: Operator, value: &Range, part: &Part) -> bool
    ensures { IsTrue result ↔ HoldsOfRange op value.now (right_of part.now) }
{
    match part {
        Part::Value(Value::Range(operand)) => match range_op(op) {
            Some(op) => range_holds(op, value, operand),
            None => false,
        },
        Part::Value(Value::Scalar(operand)) => match op {
            Operator::Contains => has_scalar(value, operand),
            _ => false,
        },
        _ => false,
    }
}

/// Whether the range has the number or the day.
fn has_scalar(value: &Range, scalar: &Scalar) -> bool
    ensures { IsTrue result ↔ HasScalar value.now scalar.now }
{
    match scalar {
        Scalar::Int4(number) => value.has_element(i64::from(*number)),
        Scalar::Int8(number) => value.has_element(*number),
        Scalar::Date(day) => value.has_element(i64::from(*day)),
        _ => false,
    }
}

fn inet_holds_of(op: Operator, value: &Inet, part: &Part) -> bool
    requires value { IsInet value.now }
    requires operand { IsInetRight (right_of part.now) }
    ensures { IsTrue result ↔ HoldsOfInet op value.now (right_of part.now) }
{
    match (inet_op(op), part) {
        (Some(op), Part::Value(Value::Inet(operand))) => inet_holds(op, value, operand),
        _ => false,
    }
}

fn path_holds(alloc: Global, op: Operator, value: &Path, part: &Part) -> Result<bool, NoMemory>
    ensures { IfOk result (λ answer. IsTrue answer ↔ HoldsOfPath op value.now (right_of part.now)) }
{
    match (op, part) {
        (_, Part::Value(Value::Path(operand))) => Ok(is_so_of_paths(op, value, operand)),
        (Operator::Matches, Part::Lquery(query)) => query.matches(alloc, value),
        (Operator::Has, Part::Lqueries(queries)) => queries.matches(alloc, value),
        (Operator::Words, Part::Ltxtquery(query)) => query.matches(alloc, value),
        _ => Ok(false),
    }
}

fn is_so_of_paths(op: Operator, value: &Path, operand: &Path) -> bool
    ensures { IsTrue result ↔ IsSomeAnd (ltree_op op) (λ o. paths.Holds o value.now operand.now) }
{
    match ltree_op(op) {
        Some(op) => value.holds(op, operand),
        None => false,
    }
}

fn hstore_holds(op: Operator, value: &Hstore, part: &Part) -> bool
    ensures { IsTrue result ↔ HoldsOfHstore op value.now (right_of part.now) }
{
    match (op, part) {
        (Operator::Contains, Part::Value(Value::Hstore(operand))) => value.contains(operand),
        (Operator::Has, Part::Value(Value::Scalar(Scalar::Text(key)))) => value.has(key.as_slice()),
        (Operator::HasAll, Part::Texts(keys)) => value.has_all(keys.as_slice()),
        (Operator::HasAny, Part::Texts(keys)) => value.has_any(keys.as_slice()),
        _ => false,
    }
}

fn array_holds(op: Operator, value: &IntArray, part: &Part) -> bool
    ensures { IsTrue result ↔ HoldsOfArray op value.now (right_of part.now) }
{
    match (op, part) {
        (Operator::Overlaps, Part::Value(Value::IntArray(operand))) => value.overlaps(operand),
        (Operator::Contains, Part::Value(Value::IntArray(operand))) => value.contains(operand),
        (Operator::Within, Part::Value(Value::IntArray(operand))) => operand.contains(value),
        (Operator::Equal, Part::Value(Value::IntArray(operand))) => value.same(operand),
        (Operator::Formula, Part::QueryInt(query)) => query.holds(value),
        _ => false,
    }
}

fn json_holds(op: Operator, value: &Json, part: &Part) -> bool
    requires value { IsDocument (data_of value.now) }
    requires operand { IsJsonRight (right_of part.now) }
    ensures { IsTrue result ↔ HoldsOfJson op (data_of value.now) (right_of part.now) }
{
    match (op, part) {
        (Operator::Contains, Part::Value(Value::Json(operand))) => value.contains(operand),
        (Operator::Has, Part::Value(Value::Scalar(Scalar::Text(key)))) => {
            value.has_key(key.as_slice())
        }
        (Operator::HasAll, Part::Texts(keys)) => value.has_all(keys.as_slice()),
        (Operator::HasAny, Part::Texts(keys)) => value.has_any(keys.as_slice()),
        _ => false,
    }
}

/// The operator as scalars name it; `None` where they lack it.
pub fn scalar_op(op: Operator) -> Option<ScalarOp>
    ensures { result ≡ scalar_op op }
{
    match op {
        Operator::Equal => Some(ScalarOp::Equal),
        Operator::NotEqual => Some(ScalarOp::NotEqual),
        Operator::Less => Some(ScalarOp::Less),
        Operator::LessEqual => Some(ScalarOp::LessEqual),
        Operator::Greater => Some(ScalarOp::Greater),
        Operator::GreaterEqual => Some(ScalarOp::GreaterEqual),
        _ => None,
    }
}

/// The operator as ranges name it; `None` where they lack it.
pub fn range_op(op: Operator) -> Option<RangeOp>
    ensures { result ≡ range_op op }
{
    match op {
        Operator::Equal => Some(RangeOp::Equal),
        Operator::Overlaps => Some(RangeOp::Overlaps),
        Operator::Contains => Some(RangeOp::Contains),
        Operator::Within => Some(RangeOp::Within),
        Operator::Left => Some(RangeOp::Left),
        Operator::Right => Some(RangeOp::Right),
        Operator::NotRight => Some(RangeOp::NotRight),
        Operator::NotLeft => Some(RangeOp::NotLeft),
        Operator::Adjacent => Some(RangeOp::Adjacent),
        _ => None,
    }
}

/// The operator as addresses name it; `None` where they lack it.
pub fn inet_op(op: Operator) -> Option<InetOp>
    ensures { result ≡ inet_op op }
{
    match op {
        Operator::Equal => Some(InetOp::Equal),
        Operator::NotEqual => Some(InetOp::NotEqual),
        Operator::Less => Some(InetOp::Less),
        Operator::LessEqual => Some(InetOp::LessEqual),
        Operator::Greater => Some(InetOp::Greater),
        Operator::GreaterEqual => Some(InetOp::GreaterEqual),
        Operator::Left => Some(InetOp::Within),
        Operator::LeftEqual => Some(InetOp::WithinEqual),
        Operator::Right => Some(InetOp::Holds),
        Operator::RightEqual => Some(InetOp::HoldsEqual),
        Operator::Overlaps => Some(InetOp::Meets),
        _ => None,
    }
}

/// The operator between label paths as they name it; `None` where they lack it.
pub fn ltree_op(op: Operator) -> Option<LtreeOp>
    ensures { result ≡ ltree_op op }
{
    match op {
        Operator::Less => Some(LtreeOp::Less),
        Operator::LessEqual => Some(LtreeOp::LessEqual),
        Operator::Equal => Some(LtreeOp::Equal),
        Operator::GreaterEqual => Some(LtreeOp::GreaterEqual),
        Operator::Greater => Some(LtreeOp::Greater),
        Operator::Contains => Some(LtreeOp::Above),
        Operator::Within => Some(LtreeOp::Below),
        _ => None,
    }
}
