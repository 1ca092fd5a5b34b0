//! Scalars as bytes.

ghost use Rattle.std.specs.Prelude.{◌≡◌, ℕ, ◌^◌, ◌<◌, ◌++◌, length, IfOk, OnOk, MatchOption};
ghost use Rattle.std.specs.Int.{w32, w64, w128, to_le_bytes, to_be_bytes, cast_unsigned};
ghost use Rattle.gx_scalar.specs.declared.scalar.ScalarKind.TheVariants as kinds;
ghost use Rattle.gx_scalar.specs.Values.{IsValid};
ghost use Rattle.gx_scalar.specs.Encodings.{encoded, DecodesTo};

use crate::{Scalar, ScalarKind};
use gx_bytes::{Bytes, NoMemory};
use std::alloc::Global;

/// The day numbers of 0001-01-01 and 9999-12-31.
const FIRST_DAY: i32 = -719_162;

const LAST_DAY: i32 = 2_932_896;

impl Scalar {
    /// Appends the bytes.
    pub fn encode(&self, to: &mut Bytes) -> Result<(), NoMemory>
        requires { IsValid self.now }
        ensures { OnOk result (to.new ≡ to.old ++ encoded self.now) }
    {
        match self {
            Scalar::Int4(number) => to.extend_from_slice(&number.to_le_bytes()),
            Scalar::Int8(number) => to.extend_from_slice(&number.to_le_bytes()),
            Scalar::Text(bytes) => to.extend_from_slice(bytes.as_slice()),
            Scalar::Bytea(bytes) => to.extend_from_slice(bytes.as_slice()),
            Scalar::Date(day) => to.extend_from_slice(&day.to_le_bytes()),
            Scalar::Uuid(number) => to.extend_from_slice(&number.to_be_bytes()),
        }
    }

    /// The valid scalar of that type with these bytes.
    pub fn decode(alloc: Global, kind: ScalarKind, bytes: &[u8]) -> Result<Option<Scalar>, NoMemory>
        ensures { IfOk result (DecodesTo kind bytes.now) }
    {
        match kind {
            ScalarKind::Int4 => Ok(int4_from(bytes)),
            ScalarKind::Int8 => Ok(int8_from(bytes)),
            ScalarKind::Text => text_from(alloc, bytes),
            ScalarKind::Bytea => bytea_from(alloc, bytes),
            ScalarKind::Date => Ok(date_from(bytes)),
            ScalarKind::Uuid => Ok(uuid_from(bytes)),
        }
    }
}

fn int4_from(bytes: &[u8]) -> Option<Scalar>
    ensures { DecodesTo kinds.Int4 bytes.now result }
{
    match *bytes {
        [a, b, c, d] => Some(Scalar::Int4(i32::from_le_bytes([a, b, c, d]))),
        _ => None,
    }
}

fn int8_from(bytes: &[u8]) -> Option<Scalar>
    ensures { DecodesTo kinds.Int8 bytes.now result }
{
    match *bytes {
        [a, b, c, d, e, f, g, h] => {
            Some(Scalar::Int8(i64::from_le_bytes([a, b, c, d, e, f, g, h])))
        }
        _ => None,
    }
}

fn text_from(alloc: Global, bytes: &[u8]) -> Result<Option<Scalar>, NoMemory>
    ensures { IfOk result (DecodesTo kinds.Text bytes.now) }
{
    if str::from_utf8(bytes).is_err() {
        return Ok(None);
    }
    let copy = Bytes::from_slice(alloc, bytes)?;
    Ok(Some(Scalar::Text(copy)))
}

fn bytea_from(alloc: Global, bytes: &[u8]) -> Result<Option<Scalar>, NoMemory>
    ensures { IfOk result (DecodesTo kinds.Bytea bytes.now) }
{
    let copy = Bytes::from_slice(alloc, bytes)?;
    Ok(Some(Scalar::Bytea(copy)))
}

fn date_from(bytes: &[u8]) -> Option<Scalar>
    ensures { DecodesTo kinds.Date bytes.now result }
{
    match *bytes {
        [a, b, c, d] => day_from(i32::from_le_bytes([a, b, c, d])),
        _ => None,
    }
}

fn day_from(day: i32) -> Option<Scalar>
    ensures { DecodesTo kinds.Date (to_le_bytes w32 (cast_unsigned w32 day)) result }
{
    if day < FIRST_DAY || day > LAST_DAY {
        return None;
    }
    Some(Scalar::Date(day))
}

fn uuid_from(bytes: &[u8]) -> Option<Scalar>
    ensures { DecodesTo kinds.Uuid bytes.now result }
{
    match <[u8; 16]>::try_from(bytes) {
        Ok(octets) => Some(Scalar::Uuid(u128::from_be_bytes(octets))),
        Err(_) => None,
    }
}
