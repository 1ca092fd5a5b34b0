//! Arrays as bytes.

ghost use Rattle.std.specs.Prelude.{◌≡◌, ◌<◌, ℕ, ℤ, List, ◌++◌, length, OnOk, MatchOption, IfOk};
ghost use Rattle.gx_intarr.specs.Arrays.{IsArray, IsInt4, number_bytes, items_bytes, AppendsArray, DecodesTo};

use crate::array::IntArray;
use gx_bytes::{Bytes, NoMemory, push_varint, varint};
use std::alloc::Global;

impl IntArray {
    /// Appends the count as a varint, and four bytes for each element, the lowest first.
    pub fn encode(&self, to: &mut Bytes) -> Result<(), NoMemory>
        ensures { OnOk result (AppendsArray to.old to.new self.now) }
    {
        push_varint(to, self.items().len() as u64)?;
        push_items(self.items(), to)
    }

    /// The array with these bytes; None where no array has them.
    pub fn decode(alloc: Global, bytes: &[u8]) -> Result<Option<IntArray>, NoMemory>
        ensures { DecodesTo bytes.now result }
    {
        let Some((count, length)) = varint(bytes) else {
            return Ok(None);
        };
        let (_, rest) = bytes.split_at(length);
        let Some(items) = items_from(alloc, rest)? else {
            return Ok(None);
        };
        if items.len() as u64 != count {
            return Ok(None);
        }
        Ok(Some(IntArray::from_items(alloc, items)?))
    }
}

fn push_items(items: &[i32], to: &mut Bytes) -> Result<(), NoMemory>
    ensures { OnOk result (to.new ≡ to.old ++ items_bytes items.now) }
{
    for number in items {
        to.extend_from_slice(&number.to_le_bytes())?;
    }
    Ok(())
}

/// The numbers that the bytes are; None where some bytes are left.
fn items_from(alloc: Global, bytes: &[u8]) -> Result<Option<Vec<i32>>, NoMemory>
    ensures { IfOk result (λ r. MatchOption r ((items : List ℤ) → bytes.now ≡ items_bytes items → ⊥) (λ v. IsArray v.items × (bytes.now ≡ items_bytes v.items))) }
{
    let mut items = Vec::new(alloc);
    let mut rest = bytes;
    'numbers: while let Some((number, after)) = take_number(rest) {
        items.push(number)?;
        rest = after;
    }
    if rest.is_empty() {
        Ok(Some(items))
    } else {
        Ok(None)
    }
}

/// The number in the first four bytes, and the bytes behind them.
fn take_number(bytes: &[u8]) -> Option<(i32, &[u8])>
    ensures { MatchOption result (length bytes.now < 4) (λ x. IsInt4 x.0 × (bytes.now ≡ number_bytes x.0 ++ x.1.now)) }
{
    if bytes.len() < 4 {
        return None;
    }
    let (front, rest) = bytes.split_at(4);
    Some((number_from(front), rest))
}

fn number_from(bytes: &[u8]) -> i32
    requires { length bytes.now ≡ 4 }
    ensures value { bytes.now ≡ number_bytes result }
    ensures fits { IsInt4 result }
{
    i32::from_le_bytes([bytes[0], bytes[1], bytes[2], bytes[3]])
}
