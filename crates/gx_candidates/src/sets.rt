//! Queries of GiST classes whose keys are signatures or intervals.

ghost use Rattle.std.specs.Prelude.{IfOk};
ghost use Rattle.gx_opr.specs.Operands.{right_of};
ghost use Rattle.gx_candidates.specs.Queries.{Asks, asks_path, asks_map, asks_set, IsPathQuery, IsMapQuery, IsSetQuery};

use gx_bytes::NoMemory;
use gx_class_ltree::LtreeQuery;
use gx_class_sets::{HstoreQuery, IntQuery};
use gx_opr::{Operand, Part, ltree_op};
use gx_scalar::Scalar;
use gx_value::{Operator, Value};
use std::alloc::Global;

/// What the class of label paths is asked; `None` where it lacks the operator with such an operand.
pub fn path_query(
    alloc: Global,
    op: Operator,
    operand: &Operand,
) -> Result<Option<LtreeQuery>, NoMemory>
    ensures { IfOk result (λ made. Asks (asks_path op (right_of operand.now.part)) (IsPathQuery op (right_of operand.now.part)) made) }
{
    match (op, &operand.part) {
        (_, Part::Value(Value::Path(path))) => match ltree_op(op) {
            Some(op) => {
                let operand = path.copy(alloc)?;
                Ok(Some(LtreeQuery::Path { op, operand }))
            }
            None => Ok(None),
        },
        (Operator::Matches, Part::Lquery(query)) => {
            Ok(Some(LtreeQuery::Lquery(query.copy(alloc)?)))
        }
        (Operator::Has, Part::Lqueries(queries)) => {
            Ok(Some(LtreeQuery::Lqueries(queries.copy(alloc)?)))
        }
        (Operator::Words, Part::Ltxtquery(query)) => {
            Ok(Some(LtreeQuery::Words(query.copy(alloc)?)))
        }
        _ => Ok(None),
    }
}

/// What the class of maps is asked; `None` where it lacks the operator with such an operand.
pub fn map_query(
    alloc: Global,
    op: Operator,
    operand: &Operand,
) -> Result<Option<HstoreQuery>, NoMemory>
    ensures { IfOk result (λ made. Asks (asks_map op (right_of operand.now.part)) (IsMapQuery op (right_of operand.now.part)) made) }
{
    match (op, &operand.part) {
        (Operator::Contains, Part::Value(Value::Hstore(map))) => {
            Ok(Some(HstoreQuery::Contains(map.copy(alloc)?)))
        }
        (Operator::Has, Part::Value(Value::Scalar(Scalar::Text(key)))) => {
            Ok(Some(HstoreQuery::Has(key.copy(alloc)?)))
        }
        (Operator::HasAll, Part::Texts(keys)) => Ok(Some(HstoreQuery::HasAll(keys.copy(alloc)?))),
        (Operator::HasAny, Part::Texts(keys)) => Ok(Some(HstoreQuery::HasAny(keys.copy(alloc)?))),
        _ => Ok(None),
    }
}

/// What the two classes of int4[] are asked; `None` where they lack the operator with such an operand.
pub fn set_query(
    alloc: Global,
    op: Operator,
    operand: &Operand,
) -> Result<Option<IntQuery>, NoMemory>
    ensures { IfOk result (λ made. Asks (asks_set op (right_of operand.now.part)) (IsSetQuery op (right_of operand.now.part)) made) }
{
    match (op, &operand.part) {
        (Operator::Overlaps, Part::Value(Value::IntArray(array))) => {
            Ok(Some(IntQuery::Overlaps(array.copy(alloc)?)))
        }
        (Operator::Contains, Part::Value(Value::IntArray(array))) => {
            Ok(Some(IntQuery::Contains(array.copy(alloc)?)))
        }
        (Operator::Equal, Part::Value(Value::IntArray(array))) => {
            Ok(Some(IntQuery::Equal(array.copy(alloc)?)))
        }
        (Operator::Formula, Part::QueryInt(query)) => {
            Ok(Some(IntQuery::Formula(query.copy(alloc)?)))
        }
        _ => Ok(None),
    }
}
