//! What each class says of a value when it is asked the query of an operator; `None` where there is no query.

ghost use Rattle.std.specs.Prelude.{IfOk};
ghost use Rattle.gx_scalar.specs.Values.{IsValid};
ghost use Rattle.gx_range.specs.declared.range.RangeKind.TheVariants.{Int8};
ghost use Rattle.gx_range.specs.Values.{IsRange};
ghost use Rattle.gx_inet.specs.Value.{IsInet};
ghost use Rattle.gx_ltree.specs.Path.{IsPath};
ghost use Rattle.gx_hstore.specs.Map.{IsHstore};
ghost use Rattle.gx_intarr.specs.Arrays.{IsArray};
ghost use Rattle.gx_json.specs.Tree.{data_of};
ghost use Rattle.gx_json.specs.Valid.{IsDocument};
ghost use Rattle.gx_value.specs.Values.{datum_of, IsDatum};
ghost use Rattle.gx_opr.specs.Operands.{right_of};
ghost use Rattle.gx_candidates.specs.Queries.{IsValidRight};

use crate::passes::{passes_items, passes_leaf};
use gx_bytes::NoMemory;
use gx_candidates::{
    array_query, gin_map_query, inet_query, json_path_query, json_query, map_query, numbers_query,
    path_query, range_query, scalar_query, set_query,
};
use gx_class_inet::InetClass;
use gx_class_intset::IntClass;
use gx_class_ltree::LtreeClass;
use gx_class_range::RangeClass;
use gx_class_scalar::ScalarClass;
use gx_class_sets::{HstoreClass, IntbigClass};
use gx_gin_arrays::{ArrayClass, GinIntClass};
use gx_gin_documents::{JsonbClass, JsonbPathClass};
use gx_gin_maps::GinHstoreClass;
use gx_hstore::Hstore;
use gx_inet::Inet;
use gx_intarr::IntArray;
use gx_json::Json;
use gx_ltree::Path;
use gx_opr::Operand;
use gx_range::Range;
use gx_scalar::Scalar;
use gx_value::{Class, Operator, Value};
use std::alloc::Global;

/// The class is that of the scalar's type.
fn scalar_passes(
    alloc: Global,
    op: Operator,
    operand: &Operand,
    value: &Scalar,
) -> Result<Option<bool>, NoMemory>
    requires value { IsValid value.now }
    requires right { IsValidRight (right_of operand.now.part) }
{
    let class = ScalarClass { kind: value.kind() };
    match scalar_query(alloc, op, operand)? {
        Some(query) if query.operand.kind() == class.kind => {
            Ok(Some(passes_leaf(alloc, &class, value, &query)?))
        }
        _ => Ok(None),
    }
}

fn range_passes(
    alloc: Global,
    op: Operator,
    operand: &Operand,
    value: &Range,
) -> Result<Option<bool>, NoMemory>
    requires value { IsRange Int8 value.now }
    requires right { IsValidRight (right_of operand.now.part) }
{
    match range_query(op, operand) {
        Some(query) => Ok(Some(passes_leaf(alloc, &RangeClass, value, &query)?)),
        None => Ok(None),
    }
}

fn inet_passes(
    alloc: Global,
    op: Operator,
    operand: &Operand,
    value: &Inet,
) -> Result<Option<bool>, NoMemory>
    requires value { IsInet value.now }
    requires right { IsValidRight (right_of operand.now.part) }
{
    match inet_query(op, operand) {
        Some(query) => Ok(Some(passes_leaf(alloc, &InetClass, value, &query)?)),
        None => Ok(None),
    }
}

fn path_passes(
    alloc: Global,
    op: Operator,
    operand: &Operand,
    value: &Path,
) -> Result<Option<bool>, NoMemory>
    requires { IsPath value.now }
{
    match path_query(alloc, op, operand)? {
        Some(query) => {
            let class = LtreeClass::<8>;
            Ok(Some(passes_leaf(alloc, &class, value, &query)?))
        }
        None => Ok(None),
    }
}

fn map_passes(
    alloc: Global,
    class: Class,
    op: Operator,
    operand: &Operand,
    value: &Hstore,
) -> Result<Option<bool>, NoMemory>
    requires value { IsHstore value.now }
    requires right { IsValidRight (right_of operand.now.part) }
{
    if class == Class::GistHstore {
        return signed_map_passes(alloc, op, operand, value);
    }
    match gin_map_query(alloc, op, operand)? {
        Some(query) => Ok(Some(passes_items(alloc, &GinHstoreClass, value, &query)?)),
        None => Ok(None),
    }
}

fn signed_map_passes(
    alloc: Global,
    op: Operator,
    operand: &Operand,
    value: &Hstore,
) -> Result<Option<bool>, NoMemory>
    requires value { IsHstore value.now }
    requires right { IsValidRight (right_of operand.now.part) }
{
    match map_query(alloc, op, operand)? {
        Some(query) => {
            let class = HstoreClass::<16>;
            Ok(Some(passes_leaf(alloc, &class, value, &query)?))
        }
        None => Ok(None),
    }
}

fn array_passes(
    alloc: Global,
    class: Class,
    op: Operator,
    operand: &Operand,
    value: &IntArray,
) -> Result<Option<bool>, NoMemory>
    requires value { IsArray value.now }
    requires right { IsValidRight (right_of operand.now.part) }
{
    match class {
        Class::ArrayOps => match array_query(alloc, op, operand)? {
            Some(query) => Ok(Some(passes_items(alloc, &ArrayClass, value, &query)?)),
            None => Ok(None),
        },
        Class::GinInt => match numbers_query(alloc, op, operand)? {
            Some(query) => Ok(Some(passes_items(alloc, &GinIntClass, value, &query)?)),
            None => Ok(None),
        },
        _ => set_passes(alloc, class, op, operand, value),
    }
}

fn set_passes(
    alloc: Global,
    class: Class,
    op: Operator,
    operand: &Operand,
    value: &IntArray,
) -> Result<Option<bool>, NoMemory>
    requires value { IsArray value.now }
    requires right { IsValidRight (right_of operand.now.part) }
{
    let Some(query) = set_query(alloc, op, operand)? else {
        return Ok(None);
    };
    let passes = if class == Class::GistInt {
        passes_leaf(alloc, &IntClass { numranges: 100 }, value, &query)?
    } else {
        passes_leaf(alloc, &IntbigClass::<252>, value, &query)?
    };
    Ok(Some(passes))
}

fn document_passes(
    alloc: Global,
    class: Class,
    op: Operator,
    operand: &Operand,
    value: &Json,
) -> Result<Option<bool>, NoMemory>
    requires value { IsDocument (data_of value.now) }
    requires right { IsValidRight (right_of operand.now.part) }
{
    if class == Class::JsonbOps {
        return match json_query(alloc, op, operand)? {
            Some(query) => Ok(Some(passes_items(alloc, &JsonbClass, value, &query)?)),
            None => Ok(None),
        };
    }
    match json_path_query(alloc, op, operand)? {
        Some(query) => Ok(Some(passes_items(alloc, &JsonbPathClass, value, &query)?)),
        None => Ok(None),
    }
}

/// Whether a value is a candidate of the class.
pub fn passes(
    alloc: Global,
    class: Class,
    op: Operator,
    operand: &Operand,
    value: &Value,
) -> Result<Option<bool>, NoMemory>
    requires value { IsDatum (datum_of value.now) }
    requires right { IsValidRight (right_of operand.now.part) }
{
    match value {
        Value::Scalar(value) => scalar_passes(alloc, op, operand, value),
        Value::Range(value) => range_passes(alloc, op, operand, value),
        Value::Inet(value) => inet_passes(alloc, op, operand, value),
        Value::Path(value) => path_passes(alloc, op, operand, value),
        Value::Hstore(value) => map_passes(alloc, class, op, operand, value),
        Value::IntArray(value) => array_passes(alloc, class, op, operand, value),
        Value::Json(value) => document_passes(alloc, class, op, operand, value),
    }
}
