//! Signatures of maps.

ghost use Rattle.std.specs.Prelude.{◌≡◌, map, IfOk, OnOk};
ghost use Rattle.std.specs.List.{fold};
ghost use Rattle.gx_sig.specs.BitSets.{IsSignatureLength};
ghost use Rattle.gx_hstore_items.specs.Items.{key_item, value_item, pair_items};
ghost use Rattle.gx_class_sets.specs.Signatures.{with_hash};
ghost use Rattle.gx_class_sets.specs.HstoreTests.{item_hash, leaf_key};

use gx_bytes::{Bytes, NoMemory, fnv};
use gx_hstore::Entry;
use gx_hstore_items::push_value_item;
use gx_sig::Sig;
use std::alloc::Global;

/// Where the hash of an item begins.
const SEED: u32 = 2_166_136_261;

/// The hash of a key's item.
pub fn key_hash(key: &[u8]) -> u32
    ensures { result ≡ item_hash (key_item key.now) }
{
    fnv(fnv(SEED, b"K"), key)
}

/// The hash of the item of a key with its value, which is built in `item`.
pub fn value_hash(pair: &Entry, item: &mut Bytes) -> Result<u32, NoMemory>
    ensures { IfOk result (λ hash. hash ≡ item_hash (value_item pair.now.0 pair.now.1)) }
{
    item.truncate(0);
    match &pair.1 {
        None => push_value_item(item, pair.0.as_slice(), None)?,
        Some(value) => push_value_item(item, pair.0.as_slice(), Some(value.as_slice()))?,
    }
    Ok(fnv(SEED, item.as_slice()))
}

/// The signature of the items of these pairs.
pub fn sign_pairs<const N: usize>(alloc: Global, pairs: &[Entry]) -> Result<Sig<N>, NoMemory>
    requires { IsSignatureLength N }
    ensures { IfOk result (λ sig. sig ≡ leaf_key N pairs.now) }
{
    let mut sig = Sig::empty();
    let mut item = Bytes::new(alloc);
    for pair in pairs {
        add_pair(&mut sig, pair, &mut item)?;
    }
    Ok(sig)
}

/// Adds both items of a pair.
fn add_pair<const N: usize>(
    sig: &mut Sig<N>,
    pair: &Entry,
    item: &mut Bytes,
) -> Result<(), NoMemory>
    ensures { OnOk result (sig.new ≡ fold (with_hash N) sig.old (map item_hash (pair_items pair.now))) }
{
    sig.set(key_hash(pair.0.as_slice()));
    let hash = value_hash(pair, item)?;
    sig.set(hash);
    Ok(())
}
