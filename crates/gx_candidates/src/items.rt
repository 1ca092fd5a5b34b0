//! Queries of GIN classes.

ghost use Rattle.std.specs.Prelude.{IfOk};
ghost use Rattle.gx_opr.specs.Operands.{right_of};
ghost use Rattle.gx_candidates.specs.Queries.{Asks, asks_array, asks_numbers, asks_map, asks_document, asks_paths, IsArrayQuery, IsNumbersQuery, IsGinMapQuery, IsDocumentQuery, IsPathsQuery};

use gx_bytes::NoMemory;
use gx_gin_arrays::{IntQuery, PlacedQuery};
use gx_gin_documents::JsonQuery;
use gx_gin_maps::HstoreQuery;
use gx_opr::{Operand, Part};
use gx_scalar::Scalar;
use gx_value::{Operator, Value};
use std::alloc::Global;

/// What array_ops is asked; `None` where it lacks the operator with such an operand.
pub fn array_query(
    alloc: Global,
    op: Operator,
    operand: &Operand,
) -> Result<Option<IntQuery>, NoMemory>
    ensures { IfOk result (λ made. Asks (asks_array op (right_of operand.now.part)) (IsArrayQuery op (right_of operand.now.part)) made) }
{
    match (op, &operand.part) {
        (Operator::Overlaps, Part::Value(Value::IntArray(array))) => {
            Ok(Some(IntQuery::Overlaps(array.copy(alloc)?)))
        }
        (Operator::Contains, Part::Value(Value::IntArray(array))) => {
            Ok(Some(IntQuery::Contains(array.copy(alloc)?)))
        }
        (Operator::Within, Part::Value(Value::IntArray(array))) => {
            Ok(Some(IntQuery::Within(array.copy(alloc)?)))
        }
        (Operator::Equal, Part::Value(Value::IntArray(array))) => {
            Ok(Some(IntQuery::Equal(array.copy(alloc)?)))
        }
        _ => Ok(None),
    }
}

/// What gin__int_ops is asked; `None` where it lacks the operator with such an operand.
pub fn numbers_query(
    alloc: Global,
    op: Operator,
    operand: &Operand,
) -> Result<Option<IntQuery>, NoMemory>
    ensures { IfOk result (λ made. Asks (asks_numbers op (right_of operand.now.part)) (IsNumbersQuery op (right_of operand.now.part)) made) }
{
    match (op, &operand.part) {
        (Operator::Formula, Part::QueryInt(query)) => {
            Ok(Some(IntQuery::Formula(PlacedQuery::of(alloc, query)?)))
        }
        _ => array_query(alloc, op, operand),
    }
}

/// What gin_hstore_ops is asked; `None` where it lacks the operator with such an operand.
pub fn gin_map_query(
    alloc: Global,
    op: Operator,
    operand: &Operand,
) -> Result<Option<HstoreQuery>, NoMemory>
    ensures { IfOk result (λ made. Asks (asks_map op (right_of operand.now.part)) (IsGinMapQuery op (right_of operand.now.part)) made) }
{
    match (op, &operand.part) {
        (Operator::Contains, Part::Value(Value::Hstore(map))) => {
            Ok(Some(HstoreQuery::Contains(map.copy(alloc)?)))
        }
        (Operator::Has, Part::Value(Value::Scalar(Scalar::Text(key)))) => {
            Ok(Some(HstoreQuery::Has(key.copy(alloc)?)))
        }
        (Operator::HasAll, Part::Texts(keys)) => Ok(Some(HstoreQuery::HasAll(keys.copy(alloc)?))),
        (Operator::HasAny, Part::Texts(keys)) => Ok(Some(HstoreQuery::HasAny(keys.copy(alloc)?))),
        _ => Ok(None),
    }
}

/// What jsonb_ops is asked; `None` where it lacks the operator with such an operand.
pub fn json_query(
    alloc: Global,
    op: Operator,
    operand: &Operand,
) -> Result<Option<JsonQuery>, NoMemory>
    ensures { IfOk result (λ made. Asks (asks_document op (right_of operand.now.part)) (IsDocumentQuery op (right_of operand.now.part)) made) }
{
    match (op, &operand.part) {
        (Operator::Contains, Part::Value(Value::Json(document))) => {
            Ok(Some(JsonQuery::Contains(document.copy(alloc)?)))
        }
        (Operator::Has, Part::Value(Value::Scalar(Scalar::Text(key)))) => {
            Ok(Some(JsonQuery::Has(key.copy(alloc)?)))
        }
        (Operator::HasAll, Part::Texts(keys)) => Ok(Some(JsonQuery::HasAll(keys.copy(alloc)?))),
        (Operator::HasAny, Part::Texts(keys)) => Ok(Some(JsonQuery::HasAny(keys.copy(alloc)?))),
        _ => Ok(None),
    }
}

/// What jsonb_path_ops is asked; `None` where it lacks the operator with such an operand.
pub fn json_path_query(
    alloc: Global,
    op: Operator,
    operand: &Operand,
) -> Result<Option<JsonQuery>, NoMemory>
    ensures { IfOk result (λ made. Asks (asks_paths op (right_of operand.now.part)) (IsPathsQuery op (right_of operand.now.part)) made) }
{
    match (op, &operand.part) {
        (Operator::Contains, Part::Value(Value::Json(document))) => {
            Ok(Some(JsonQuery::Contains(document.copy(alloc)?)))
        }
        _ => Ok(None),
    }
}
