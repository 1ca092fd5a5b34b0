//! Keys of one value and unions of keys.

ghost use Rattle.std.specs.Prelude.{◌≡◌, ◌↔◌, IsTrue, IfOk, OnOk};
ghost use Rattle.std.specs.Ordering.{nat_cmp, int_cmp};
ghost use Rattle.gx_class_scalar.specs.Orders.{lesser, greater};
ghost use Rattle.gx_class_scalar.specs.Keys.{part_of, part_cmp, leaf_key, joined};
ghost use Rattle.gx_class_scalar.specs.declared.key.ScalarKey.TheVariants.{Cut};

use crate::tests_of_keys::front_of;
use crate::{Part, ScalarKey};
use gx_bytes::{Bytes, NoMemory};
use gx_scalar::Scalar;
use std::alloc::Global;
use std::cmp::Ordering;

/// The key of one value.
pub fn leaf_of(alloc: Global, value: &Scalar) -> Result<ScalarKey, NoMemory>
    ensures { IfOk result (λ key. key ≡ leaf_key value.now) }
{
    match value {
        Scalar::Int4(n) => Ok(ScalarKey::Int4 { lo: *n, hi: *n }),
        Scalar::Int8(n) => Ok(ScalarKey::Int8 { lo: *n, hi: *n }),
        Scalar::Date(n) => Ok(ScalarKey::Date { lo: *n, hi: *n }),
        Scalar::Uuid(n) => Ok(ScalarKey::Uuid { lo: *n, hi: *n }),
        Scalar::Text(bytes) => cut_key(alloc, bytes.as_slice()),
        Scalar::Bytea(bytes) => cut_key(alloc, bytes.as_slice()),
    }
}

fn cut_key(alloc: Global, bytes: &[u8]) -> Result<ScalarKey, NoMemory>
    ensures { IfOk result (λ key. key ≡ Cut (part_of bytes.now) (part_of bytes.now)) }
{
    let lo = cut(alloc, bytes)?;
    let hi = cut(alloc, bytes)?;
    Ok(ScalarKey::Cut { lo, hi })
}

fn cut(alloc: Global, bytes: &[u8]) -> Result<Part, NoMemory>
    ensures { IfOk result (λ part. part ≡ part_of bytes.now) }
{
    let front = Bytes::from_slice(alloc, front_of(bytes))?;
    Ok(Part {
        bytes: front,
        more: bytes.len() > 900,
    })
}

/// The key of all that both keys stand for.
pub fn union_of(alloc: Global, a: &ScalarKey, b: &ScalarKey) -> Result<ScalarKey, NoMemory>
    ensures { IfOk result (λ key. key ≡ joined a.now b.now) }
{
    match (a, b) {
        (ScalarKey::Int4 { lo: l, hi: h }, ScalarKey::Int4 { lo: m, hi: n }) => Ok(
            ScalarKey::Int4 {
                lo: if l > m { *m } else { *l },
                hi: if h > n { *h } else { *n },
            },
        ),
        (ScalarKey::Int8 { lo: l, hi: h }, ScalarKey::Int8 { lo: m, hi: n }) => Ok(
            ScalarKey::Int8 {
                lo: if l > m { *m } else { *l },
                hi: if h > n { *h } else { *n },
            },
        ),
        (ScalarKey::Date { lo: l, hi: h }, ScalarKey::Date { lo: m, hi: n }) => Ok(
            ScalarKey::Date {
                lo: if l > m { *m } else { *l },
                hi: if h > n { *h } else { *n },
            },
        ),
        (ScalarKey::Uuid { lo: l, hi: h }, ScalarKey::Uuid { lo: m, hi: n }) => Ok(
            ScalarKey::Uuid {
                lo: if l > m { *m } else { *l },
                hi: if h > n { *h } else { *n },
            },
        ),
        (ScalarKey::Cut { lo: l, hi: h }, ScalarKey::Cut { lo: m, hi: n }) => {
            let lo = copy_of(alloc, lesser_of(l, m))?;
            let hi = copy_of(alloc, greater_of(h, n))?;
            Ok(ScalarKey::Cut { lo, hi })
        }
        _ => copy_key(alloc, a),
    }
}

fn lesser_of<'a>(a: &'a Part, b: &'a Part) -> &'a Part
    ensures { result.now ≡ lesser part_cmp a.now b.now }
{
    if compare_parts(a, b).is_gt() { b } else { a }
}

fn greater_of<'a>(a: &'a Part, b: &'a Part) -> &'a Part
    ensures { result.now ≡ greater part_cmp a.now b.now }
{
    if compare_parts(a, b).is_gt() { a } else { b }
}

/// By bytes, then the one that goes on is the greater.
pub fn compare_parts(a: &Part, b: &Part) -> Ordering
    ensures { result ≡ part_cmp a.now b.now }
{
    a.bytes
        .as_slice()
        .cmp(b.bytes.as_slice())
        .then(a.more.cmp(&b.more))
}

fn copy_of(alloc: Global, part: &Part) -> Result<Part, NoMemory>
    ensures { IfOk result (λ copy. copy ≡ part.now) }
{
    let bytes = Bytes::from_slice(alloc, part.bytes.as_slice())?;
    Ok(Part {
        bytes,
        more: part.more,
    })
}

fn copy_key(alloc: Global, key: &ScalarKey) -> Result<ScalarKey, NoMemory>
    ensures { IfOk result (λ copy. copy ≡ key.now) }
{
    match key {
        ScalarKey::Int4 { lo, hi } => Ok(ScalarKey::Int4 { lo: *lo, hi: *hi }),
        ScalarKey::Int8 { lo, hi } => Ok(ScalarKey::Int8 { lo: *lo, hi: *hi }),
        ScalarKey::Date { lo, hi } => Ok(ScalarKey::Date { lo: *lo, hi: *hi }),
        ScalarKey::Uuid { lo, hi } => Ok(ScalarKey::Uuid { lo: *lo, hi: *hi }),
        ScalarKey::Cut { lo, hi } => {
            let low = copy_of(alloc, lo)?;
            let high = copy_of(alloc, hi)?;
            Ok(ScalarKey::Cut { lo: low, hi: high })
        }
    }
}

/// Whether the keys are equal.
pub fn same_keys(a: &ScalarKey, b: &ScalarKey) -> bool
    ensures { IsTrue result ↔ (a.now ≡ b.now) }
{
    match (a, b) {
        (ScalarKey::Int4 { lo: l, hi: h }, ScalarKey::Int4 { lo: m, hi: n }) => l == m && h == n,
        (ScalarKey::Int8 { lo: l, hi: h }, ScalarKey::Int8 { lo: m, hi: n }) => l == m && h == n,
        (ScalarKey::Date { lo: l, hi: h }, ScalarKey::Date { lo: m, hi: n }) => l == m && h == n,
        (ScalarKey::Uuid { lo: l, hi: h }, ScalarKey::Uuid { lo: m, hi: n }) => l == m && h == n,
        (ScalarKey::Cut { lo: l, hi: h }, ScalarKey::Cut { lo: m, hi: n }) => {
            same_parts(l, m) && same_parts(h, n)
        }
        _ => false,
    }
}

fn same_parts(a: &Part, b: &Part) -> bool
    ensures { IsTrue result ↔ (a.now ≡ b.now) }
{
    a.bytes.as_slice() == b.bytes.as_slice() && a.more == b.more
}
