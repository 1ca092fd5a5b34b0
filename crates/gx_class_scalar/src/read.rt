//! Keys from bytes.

ghost use Rattle.std.specs.Prelude.{◌≡◌, ◌≢◌, ◌↔◌, ◌≤ℤ◌, length, IsTrue, IfOk};
ghost use Rattle.std.specs.Int.{w32, w64, w128, to_le_bytes, to_be_bytes, cast_unsigned};
ghost use Rattle.gx_bytes.specs.Days.{IsDateDay};
ghost use Rattle.gx_scalar.specs.declared.scalar.ScalarKind.TheVariants as kinds;
ghost use Rattle.gx_class_scalar.specs.Readings.{ReadsTo};

use crate::ScalarKey;
use crate::read_cut::cut_from;
use gx_bytes::NoMemory;
use gx_scalar::ScalarKind;
use std::alloc::Global;

/// The days 0001-01-01 and 9999-12-31.
const FIRST_DAY: i32 = -719_162;

const LAST_DAY: i32 = 2_932_896;

/// The key of the type with these bytes. For values of fixed size no memory is taken.
pub fn key_from(
    alloc: Global,
    kind: ScalarKind,
    bytes: &[u8],
) -> Result<Option<ScalarKey>, NoMemory>
    ensures { IfOk result (ReadsTo kind bytes.now) }
{
    match kind {
        ScalarKind::Text => cut_from(alloc, kind, bytes),
        ScalarKind::Bytea => cut_from(alloc, kind, bytes),
        _ => Ok(fixed_from(kind, bytes)),
    }
}

/// The same for values of fixed size.
pub fn fixed_from(kind: ScalarKind, bytes: &[u8]) -> Option<ScalarKey>
    requires text { kind ≢ kinds.Text }
    requires bytea { kind ≢ kinds.Bytea }
    ensures { ReadsTo kind bytes.now result }
{
    match kind {
        ScalarKind::Int4 => int4_from(bytes),
        ScalarKind::Int8 => int8_from(bytes),
        ScalarKind::Date => date_from(bytes),
        ScalarKind::Uuid => uuid_from(bytes),
        ScalarKind::Text => None,
        ScalarKind::Bytea => None,
    }
}

fn int4_from(bytes: &[u8]) -> Option<ScalarKey>
    ensures { ReadsTo kinds.Int4 bytes.now result }
{
    if bytes.len() != 8 {
        return None;
    }
    let (front, back) = bytes.split_at(4);
    let (lo, hi) = (four(front), four(back));
    if lo <= hi {
        Some(ScalarKey::Int4 { lo, hi })
    } else {
        None
    }
}

fn date_from(bytes: &[u8]) -> Option<ScalarKey>
    ensures { ReadsTo kinds.Date bytes.now result }
{
    if bytes.len() != 8 {
        return None;
    }
    let (front, back) = bytes.split_at(4);
    let (lo, hi) = (four(front), four(back));
    if are_days(lo, hi) {
        Some(ScalarKey::Date { lo, hi })
    } else {
        None
    }
}

/// Whether both are days of the years 1 to 9999 that don't fall.
fn are_days(lo: i32, hi: i32) -> bool
    ensures { IsTrue result ↔ (IsDateDay lo × IsDateDay hi × (lo ≤ℤ hi)) }
{
    FIRST_DAY <= lo && hi <= LAST_DAY && lo <= hi
}

fn int8_from(bytes: &[u8]) -> Option<ScalarKey>
    ensures { ReadsTo kinds.Int8 bytes.now result }
{
    if bytes.len() != 16 {
        return None;
    }
    let (front, back) = bytes.split_at(8);
    let (lo, hi) = (eight(front), eight(back));
    if lo <= hi {
        Some(ScalarKey::Int8 { lo, hi })
    } else {
        None
    }
}

fn uuid_from(bytes: &[u8]) -> Option<ScalarKey>
    ensures { ReadsTo kinds.Uuid bytes.now result }
{
    if bytes.len() != 32 {
        return None;
    }
    let (front, back) = bytes.split_at(16);
    let (lo, hi) = (sixteen(front), sixteen(back));
    if lo <= hi {
        Some(ScalarKey::Uuid { lo, hi })
    } else {
        None
    }
}

fn four(bytes: &[u8]) -> i32
    requires { length bytes.now ≡ 4 }
    ensures { bytes.now ≡ to_le_bytes w32 (cast_unsigned w32 result) }
{
    i32::from_le_bytes([bytes[0], bytes[1], bytes[2], bytes[3]])
}

fn eight(bytes: &[u8]) -> i64
    requires { length bytes.now ≡ 8 }
    ensures { bytes.now ≡ to_le_bytes w64 (cast_unsigned w64 result) }
{
    i64::from_le_bytes([
        bytes[0], bytes[1], bytes[2], bytes[3], bytes[4], bytes[5], bytes[6], bytes[7],
    ])
}

fn sixteen(bytes: &[u8]) -> u128
    requires { length bytes.now ≡ 16 }
    ensures { bytes.now ≡ to_be_bytes w128 result }
{
    match <[u8; 16]>::try_from(bytes) {
        Ok(octets) => u128::from_be_bytes(octets),
        Err(_) => unreachable!(),
    }
}
