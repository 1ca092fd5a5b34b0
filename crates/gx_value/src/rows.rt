//! Rows as bytes.

ghost use Rattle.std.specs.Prelude.{◌≤◌, ℕ, List, Option, length, IfOk, MatchOption, OnOk, MatchResult, option_map};
ghost use Rattle.gx_value.specs.Values.{Datum, datum_of, row_of, IsDatum, IsOfFamily, IsSomeField, AreFields};
ghost use Rattle.gx_value.specs.Rows.{IsEncoded, AppendsValue, AppendsField, IsRowBytes, TakesPart, TakesField, SpellsRow, row_limit, RefusesRow};

use crate::fields::Fields;
use crate::types::{ColumnType, Family};
use crate::value::Value;
use gx_bytes::{Bytes, NoMemory, behind_byte, field, push_field};
use gx_hstore::Hstore;
use gx_inet::Inet;
use gx_intarr::IntArray;
use gx_json::Json;
use gx_ltree::Path;
use gx_range::Range;
use gx_scalar::Scalar;
use std::alloc::Global;
use thiserror::Error;

/// A row has at most so many bytes.
pub const ROW_LIMIT: usize = 7_900;

/// Why a row has no bytes.
#[derive(Clone, Copy, Debug, Drop, PartialEq, Eq, Error)]
pub enum RowError {
    /// It would have so many, which is above the limit.
    #[error("the row would have {bytes} bytes")]
    TooLong { bytes: u64 },
    /// The allocator had no memory.
    #[error("out of memory")]
    Memory,
}

/// The bytes of a row: for each field byte 0 for NULL, or byte 1 and the value's bytes as a field. TooLong exactly
/// where they would be more than 7,900.
pub fn encode_row(alloc: Global, values: &Fields) -> Result<Bytes, RowError>
    requires { AreFields (row_of values.now) }
    ensures { MatchResult result (λ bytes. IsRowBytes bytes (row_of values.now) × (length bytes ≤ row_limit)) (RefusesRow (row_of values.now)) }
{
    let Ok(bytes) = bytes_of_row(alloc, values.as_slice()) else {
        return Err(RowError::Memory);
    };
    if bytes.len() > ROW_LIMIT {
        return Err(RowError::TooLong {
            bytes: bytes.len() as u64,
        });
    }
    Ok(bytes)
}

fn bytes_of_row(alloc: Global, values: &[Option<Value>]) -> Result<Bytes, NoMemory>
    requires { AreFields (row_of values.now) }
    ensures { IfOk result (λ bytes. IsRowBytes bytes (row_of values.now)) }
{
    let mut bytes = Bytes::new(alloc);
    let mut scratch = Bytes::new(alloc);
    for value in values {
        push_value(value, &mut scratch, &mut bytes)?;
    }
    Ok(bytes)
}

/// Appends the bytes of a field. The value's own bytes are made in `scratch`.
fn push_value(value: &Option<Value>, scratch: &mut Bytes, to: &mut Bytes) -> Result<(), NoMemory>
    requires { IsSomeField (option_map datum_of value.now) }
    ensures { OnOk result (AppendsField to.old to.new (option_map datum_of value.now)) }
{
    match value {
        Some(value) => {
            scratch.truncate(0);
            encode_value(value, scratch)?;
            to.push(1)?;
            push_field(to, scratch.as_slice())
        }
        None => to.push(0),
    }
}

/// Appends the bytes of a value.
fn encode_value(value: &Value, to: &mut Bytes) -> Result<(), NoMemory>
    requires { IsDatum (datum_of value.now) }
    ensures { OnOk result (AppendsValue to.old to.new (datum_of value.now)) }
{
    match value {
        Value::Scalar(scalar) => scalar.encode(to),
        Value::Range(range) => range.encode(to),
        Value::Inet(inet) => inet.encode(to),
        Value::Path(path) => path.encode(to),
        Value::Hstore(hstore) => hstore.encode(to),
        Value::IntArray(array) => array.encode(to),
        Value::Json(json) => json.encode(to),
    }
}

/// The row of these types with these bytes; None where no valid row has them.
pub fn decode_row(
    alloc: Global,
    kinds: &[ColumnType],
    bytes: &[u8],
) -> Result<Option<Fields>, NoMemory>
    ensures { IfOk result (λ found. MatchOption found ((row : List (Option Datum)) → SpellsRow kinds.now bytes.now row → ⊥) (λ fields. SpellsRow kinds.now bytes.now (row_of fields))) }
{
    let mut fields = Fields::with_capacity(alloc, kinds.len())?;
    let mut rest = bytes;
    for kind in kinds {
        let Some((value, after)) = take_value(alloc, *kind, rest)? else {
            return Ok(None);
        };
        fields.push(value)?;
        rest = after;
    }
    if rest.is_empty() {
        Ok(Some(fields))
    } else {
        Ok(None)
    }
}

/// The field at the front, and the bytes behind it.
fn take_value(
    alloc: Global,
    kind: ColumnType,
    bytes: &[u8],
) -> Result<Option<(Option<Value>, &[u8])>, NoMemory>
    ensures { IfOk result (λ found. MatchOption found ((v : Option Datum) (rest : List ℕ) → TakesField kind bytes.now v rest → ⊥) (λ x. TakesField kind bytes.now (option_map datum_of x.0) x.1.now)) }
{
    if let Some(rest) = behind_byte(bytes, 0) {
        return Ok(Some((None, rest)));
    }
    let Some(more) = behind_byte(bytes, 1) else {
        return Ok(None);
    };
    let Some((part, rest)) = take_part(more) else {
        return Ok(None);
    };
    match decode_value(alloc, kind.family(), part)? {
        Some(value) => Ok(Some((Some(value), rest))),
        None => Ok(None),
    }
}

/// The part of the field at the front, and the bytes behind it.
fn take_part(bytes: &[u8]) -> Option<(&[u8], &[u8])>
    ensures { MatchOption result ((part rest : List ℕ) → TakesPart bytes.now part rest → ⊥) (λ x. TakesPart bytes.now x.0.now x.1.now) }
{
    let (part, length) = field(bytes)?;
    let (_, rest) = bytes.split_at(length);
    Some((part, rest))
}

/// The value of the family with these bytes.
fn decode_value(alloc: Global, family: Family, bytes: &[u8]) -> Result<Option<Value>, NoMemory>
    ensures { IfOk result (λ found. MatchOption found ((d : Datum) → IsOfFamily family d → IsEncoded bytes.now d → ⊥) (λ v. IsOfFamily family (datum_of v) × IsEncoded bytes.now (datum_of v))) }
{
    match family {
        Family::Scalar(kind) => Ok(Scalar::decode(alloc, kind, bytes)?.map(Value::Scalar)),
        Family::Range(kind) => Ok(Range::decode(alloc, kind, bytes)?.map(Value::Range)),
        Family::Inet => Ok(Inet::decode(alloc, bytes)?.map(Value::Inet)),
        Family::Path => Ok(Path::decode(alloc, bytes)?.map(Value::Path)),
        Family::Hstore => Ok(Hstore::decode(alloc, bytes)?.map(Value::Hstore)),
        Family::Json => Ok(Json::decode(alloc, bytes)?.map(Value::Json)),
        Family::IntArray => Ok(IntArray::decode(alloc, bytes)?.map(Value::IntArray)),
    }
}
