//! Keys from bytes.

ghost use Rattle.std.specs.Prelude.{◌≡◌, ◌<◌, ◌≤◌, ◌∷◌, ◌++◌, ℕ, Bool, List, length, pos, IsTrue, IfOk, MatchOption};
ghost use Rattle.gx_intarr.specs.Arrays.{IsInt4, least, number_bytes};
ghost use Rattle.gx_class_intset.specs.declared.interval.Interval.{Interval};
ghost use Rattle.gx_class_intset.specs.Intervals.{rises};
ghost use Rattle.gx_class_intset.specs.Keys.{IsLimit};
ghost use Rattle.gx_class_intset.specs.Spellings.{interval_bytes, pieces, listed, flag, AreInt4s, ReadsTo};

use crate::{IntKey, Interval, Intervals};
use gx_bytes::{NoMemory, varint};
use std::alloc::Global;

/// The key with these bytes.
pub fn key_from(alloc: Global, limit: u16, bytes: &[u8]) -> Result<Option<IntKey>, NoMemory>
    requires { IsLimit limit }
    ensures { IfOk result (ReadsTo limit bytes.now) }
{
    let Some((exact, rest)) = flag_from(bytes) else {
        return Ok(None);
    };
    let Some(list) = list_from(alloc, rest)? else {
        return Ok(None);
    };
    if list.len() > usize::from(limit) || !rise(list.as_slice()) {
        return Ok(None);
    }
    Ok(Some(IntKey {
        exact,
        intervals: Intervals::from_items(list),
    }))
}

/// What the first byte says, and the bytes behind it.
fn flag_from(bytes: &[u8]) -> Option<(bool, &[u8])>
    ensures { MatchOption result ((exact : Bool) (rest : List ℕ) → bytes.now ≡ flag exact ∷ rest → ⊥) (λ x. bytes.now ≡ flag x.0 ∷ x.1.now) }
{
    match bytes {
        [0, rest @ ..] => Some((false, rest)),
        [1, rest @ ..] => Some((true, rest)),
        _ => None,
    }
}

/// The intervals that are counted and listed, and nothing behind them.
fn list_from(alloc: Global, bytes: &[u8]) -> Result<Option<Vec<Interval>>, NoMemory>
    ensures { IfOk result (λ r. MatchOption r ((is : List Interval) → AreInt4s is → length is ≤ 200 → bytes.now ≡ listed is → ⊥) (λ v. AreInt4s v.items × (bytes.now ≡ listed v.items))) }
{
    let Some((count, length)) = varint(bytes) else {
        return Ok(None);
    };
    let (_, rest) = bytes.split_at(length);
    let Some(list) = pieces_from(alloc, rest)? else {
        return Ok(None);
    };
    if list.len() as u64 != count {
        return Ok(None);
    }
    Ok(Some(list))
}

/// The intervals that the bytes are; None where some bytes are left.
fn pieces_from(alloc: Global, bytes: &[u8]) -> Result<Option<Vec<Interval>>, NoMemory>
    ensures { IfOk result (λ r. MatchOption r ((is : List Interval) → bytes.now ≡ pieces is → ⊥) (λ v. AreInt4s v.items × (bytes.now ≡ pieces v.items))) }
{
    let mut list = Vec::new(alloc);
    let mut rest = bytes;
    'intervals: while let Some((interval, after)) = take_interval(rest) {
        list.push(interval)?;
        rest = after;
    }
    if rest.is_empty() {
        Ok(Some(list))
    } else {
        Ok(None)
    }
}

/// The interval in the first eight bytes, and the bytes behind them.
fn take_interval(bytes: &[u8]) -> Option<(Interval, &[u8])>
    ensures { MatchOption result (length bytes.now < 8) (λ x. (IsInt4 x.0.least × IsInt4 x.0.greatest) × (bytes.now ≡ interval_bytes x.0 ++ x.1.now)) }
{
    if bytes.len() < 8 {
        return None;
    }
    let (front, rest) = bytes.split_at(8);
    let (low, high) = front.split_at(4);
    Some((
        Interval {
            least: number_from(low),
            greatest: number_from(high),
        },
        rest,
    ))
}

fn number_from(bytes: &[u8]) -> i32
    requires { length bytes.now ≡ 4 }
    ensures value { bytes.now ≡ number_bytes result }
    ensures fits { IsInt4 result }
{
    i32::from_le_bytes([bytes[0], bytes[1], bytes[2], bytes[3]])
}

/// Tells whether the intervals rise and are disjoint.
fn rise(intervals: &[Interval]) -> bool
    ensures { result ≡ rises least intervals.now }
{
    let mut floor = i64::from(i32::MIN);
    for interval in intervals {
        if i64::from(interval.least) < floor || interval.greatest < interval.least {
            return false;
        }
        floor = i64::from(interval.greatest) + 1;
    }
    true
}
