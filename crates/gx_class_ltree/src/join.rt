//! Keys of one path, unions of keys, and how much a key grows.

ghost use Rattle.std.specs.Prelude.{◌≡◌, ◌↔◌, IsTrue, IfOk};
ghost use Rattle.gx_sig.specs.BitSets.{IsSignatureLength};
ghost use Rattle.gx_class_ltree.specs.Keys.{leaf_key, union, growth};

use crate::LtreeKey;
use crate::labels::sign_labels;
use crate::parts::{copy_of, greater_of, lesser_of, part_of, same_parts};
use gx_bytes::NoMemory;
use gx_ltree::Path;
use std::alloc::Global;

/// The key of one path.
pub fn leaf_of<const N: usize>(alloc: Global, value: &Path) -> Result<LtreeKey<N>, NoMemory>
    requires { IsSignatureLength N }
    ensures { IfOk result (λ key. key ≡ leaf_key N value.now) }
{
    let low = part_of(alloc, value)?;
    let high = copy_of(alloc, &low)?;
    let sig = sign_labels(value.labels());
    Ok(LtreeKey { low, high, sig })
}

/// The key of all that both keys stand for.
pub fn union_of<const N: usize>(
    alloc: Global,
    a: &LtreeKey<N>,
    b: &LtreeKey<N>,
) -> Result<LtreeKey<N>, NoMemory>
    ensures { IfOk result (λ key. key ≡ union a.now b.now) }
{
    let low = copy_of(alloc, lesser_of(&a.low, &b.low))?;
    let high = copy_of(alloc, greater_of(&a.high, &b.high))?;
    Ok(LtreeKey {
        low,
        high,
        sig: a.sig.union(&b.sig),
    })
}

/// How many bits the union adds to the signature.
pub fn growth_of<const N: usize>(key: &LtreeKey<N>, added: &LtreeKey<N>) -> u32
    ensures { result ≡ growth N key.now added.now }
{
    key.sig.distance(&key.sig.union(&added.sig))
}

/// Tells whether the keys are equal.
pub fn same_keys<const N: usize>(a: &LtreeKey<N>, b: &LtreeKey<N>) -> bool
    ensures { IsTrue result ↔ (a.now ≡ b.now) }
{
    same_parts(&a.low, &b.low) && same_parts(&a.high, &b.high) && a.sig.bytes() == b.sig.bytes()
}
