//! Unsigned LEB128 numbers in their shortest spelling, and fields of a length and so many bytes.

ghost use Rattle.std.specs.Prelude.{◌≡◌, ℕ, ◌+◌, ◌<◌, ◌≤◌, ◌^◌, List, ◌++◌, length, take, IfSome, IfNone, MatchOption, OnOk, OnErr};
ghost use Rattle.gx_bytes.specs.Varints.{IsVarint, varint_bytes, AppendsVarint, IsField, field_bytes, AppendsField, Extends};

use crate::{Bytes, NoMemory};

/// No number below 2^64 has more bytes.
const LONGEST: usize = 10;

/// The number at the front of the bytes, and how many bytes it takes. Others may follow it. None where the bytes
/// don't begin with the shortest spelling of a number below 2^64.
pub fn varint(bytes: &[u8]) -> Option<(u64, usize)>
    ensures length { IfSome result (λ found. found.1 ≤ length bytes.now) }
    ensures fits { IfSome result (λ found. found.0 < 2 ^ 64) }
    ensures found { IfSome result (λ found. IsVarint (take found.1 bytes.now) found.0) }
    ensures none { IfNone result ((n len : ℕ) → n < 2 ^ 64 → IsVarint (take len bytes.now) n → ⊥) }
    ensures again { (n : ℕ) (rest : List ℕ) → n < 2 ^ 64 → bytes.now ≡ varint_bytes n ++ rest → MatchOption result ⊥ (λ found. (found.0 ≡ n) × (found.1 ≡ length (varint_bytes n))) }
{
    varint_within(&bytes[..bytes.len().min(LONGEST)])
}

/// Adds the number at the end. Without memory the bytes stay as they were.
pub fn push_varint(to: &mut Bytes, value: u64) -> Result<(), NoMemory>
    ensures ok { OnOk result (AppendsVarint to.old to.new value) }
    ensures written { OnOk result (to.new ≡ to.old ++ varint_bytes value) }
    ensures err { OnErr result (to.new ≡ to.old) }
{
    let len = to.len();
    if let Err(refused) = push_groups(to, value) {
        to.truncate(len);
        return Err(refused);
    }
    Ok(())
}

/// The part of the field at the front of the bytes, and how many bytes the field takes. Others may follow it. None
/// where the bytes don't begin with a field.
pub fn field(bytes: &[u8]) -> Option<(&[u8], usize)>
    ensures length { IfSome result (λ found. found.1 ≤ length bytes.now) }
    ensures found { IfSome result (λ found. IsField (take found.1 bytes.now) found.0.now) }
    ensures none { IfNone result ((part : List ℕ) (len : ℕ) → IsField (take len bytes.now) part → ⊥) }
    ensures again { (part rest : List ℕ) → bytes.now ≡ field_bytes part ++ rest → MatchOption result ⊥ (λ found. (found.0.now ≡ part) × (found.1 ≡ length (field_bytes part))) }
{
    let (len, count) = varint(bytes)?;
    let (_, rest) = bytes.split_at(count);
    if len > rest.len() as u64 {
        return None;
    }
    let (part, _) = rest.split_at(len as usize);
    Some((part, count + part.len()))
}

/// Adds a field of this part at the end. Without memory the bytes stay as they were.
pub fn push_field(to: &mut Bytes, part: &[u8]) -> Result<(), NoMemory>
    ensures ok { OnOk result (AppendsField to.old to.new part.now) }
    ensures written { OnOk result (to.new ≡ to.old ++ field_bytes part.now) }
    ensures err { OnErr result (to.new ≡ to.old) }
{
    let before = to.len();
    push_varint(to, part.len() as u64)?;
    if let Err(refused) = to.extend_from_slice(part) {
        to.truncate(before);
        return Err(refused);
    }
    Ok(())
}

/// Each number and each part has one spelling, and no spelling begins another one: so what was pushed is what is read,
/// whatever follows.
pub fn one_spelling()
    ensures number { (n : ℕ) → IsVarint (varint_bytes n) n }
    ensures number_only { (bytes : List ℕ) (n : ℕ) → IsVarint bytes n → bytes ≡ varint_bytes n }
    ensures part { (part : List ℕ) → IsField (field_bytes part) part }
    ensures part_only { (bytes part : List ℕ) → IsField bytes part → bytes ≡ field_bytes part }
    ensures varints { (a b x y : List ℕ) (m n : ℕ) → IsVarint a m → IsVarint b n → a ++ x ≡ b ++ y → (a ≡ b) × (m ≡ n) × (x ≡ y) }
    ensures fields { (a b x y p q : List ℕ) → IsField a p → IsField b q → a ++ x ≡ b ++ y → (a ≡ b) × (p ≡ q) × (x ≡ y) }
{}

// The number at the front of a few bytes: the recursion is as deep as they are many.
fn varint_within(bytes: &[u8]) -> Option<(u64, usize)>
    ensures length { IfSome result (λ found. found.1 ≤ length bytes.now) }
    ensures fits { IfSome result (λ found. found.0 < 2 ^ 64) }
    ensures found { IfSome result (λ found. IsVarint (take found.1 bytes.now) found.0) }
    ensures none { IfNone result ((n len : ℕ) → n < 2 ^ 64 → IsVarint (take len bytes.now) n → ⊥) }
{
    let (first, rest) = bytes.split_first()?;
    if *first < 128 {
        return Some((u64::from(*first), 1));
    }
    let (high, len) = varint_within(rest)?;
    if high == 0 || high > u64::MAX / 128 {
        return None;
    }
    Some((high * 128 + u64::from(*first - 128), len + 1))
}

// Adds the number at the end, or a part of its spelling where memory is refused.
fn push_groups(to: &mut Bytes, value: u64) -> Result<(), NoMemory>
    ensures ok { OnOk result (AppendsVarint to.old to.new value) }
    ensures err { OnErr result (Extends to.old to.new) }
{
    let mut rest = value;
    while rest >= 128 {
        to.push((rest % 128) as u8 + 128)?;
        rest /= 128;
    }
    to.push(rest as u8)?;
    Ok(())
}
