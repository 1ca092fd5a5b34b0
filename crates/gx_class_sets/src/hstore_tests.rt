//! Tests of signatures of maps.

ghost use Rattle.std.specs.Prelude.{◌≡◌, IfOk};
ghost use Rattle.std.specs.List.{list_any, list_all};
ghost use Rattle.gx_class_sets.specs.HstoreTests.{may_have, may_have_pair, answer};

use crate::HstoreQuery;
use crate::intbig_tests::maybe;
use crate::pair_signing::{key_hash, value_hash};
use gx_bytes::{Bytes, NoMemory};
use gx_gist::Test;
use gx_hstore::Entry;
use gx_sig::Sig;
use std::alloc::Global;

/// What a key says of a query, at a leaf and above.
pub fn test_key<const N: usize>(
    alloc: Global,
    key: &Sig<N>,
    query: &HstoreQuery,
) -> Result<Test, NoMemory>
    ensures { IfOk result (λ test. test ≡ answer N key.now query.now) }
{
    match query {
        HstoreQuery::Contains(other) => {
            let holds = has_pairs(alloc, key, other.pairs())?;
            Ok(maybe(holds))
        }
        HstoreQuery::Has(name) => Ok(maybe(may_have(key, name.as_slice()))),
        HstoreQuery::HasAll(names) => Ok(maybe(has_each(key, names.as_slice()))),
        HstoreQuery::HasAny(names) => Ok(maybe(has_some(key, names.as_slice()))),
    }
}

fn may_have<const N: usize>(key: &Sig<N>, name: &[u8]) -> bool
    ensures { result ≡ may_have N key.now name.now }
{
    key.has(key_hash(name))
}

fn may_have_pair<const N: usize>(
    key: &Sig<N>,
    pair: &Entry,
    item: &mut Bytes,
) -> Result<bool, NoMemory>
    ensures { IfOk result (λ holds. holds ≡ may_have_pair N key.now pair.now) }
{
    let hash = value_hash(pair, item)?;
    Ok(may_have(key, pair.0.as_slice()) && key.has(hash))
}

fn has_pairs<const N: usize>(alloc: Global, key: &Sig<N>, pairs: &[Entry]) -> Result<bool, NoMemory>
    ensures { IfOk result (λ holds. holds ≡ list_all (may_have_pair N key.now) pairs.now) }
{
    let mut item = Bytes::new(alloc);
    for pair in pairs {
        if !may_have_pair(key, pair, &mut item)? {
            return Ok(false);
        }
    }
    Ok(true)
}

fn has_each<const N: usize>(key: &Sig<N>, names: &[Bytes]) -> bool
    ensures { result ≡ list_all (may_have N key.now) names.now }
{
    names.iter().all(
        |name| -> bool
            ensures { result ≡ may_have N key.entry.now name.now }
        { may_have(key, name.as_slice()) },
    )
}

fn has_some<const N: usize>(key: &Sig<N>, names: &[Bytes]) -> bool
    ensures { result ≡ list_any (may_have N key.now) names.now }
{
    names.iter().any(
        |name| -> bool
            ensures { result ≡ may_have N key.entry.now name.now }
        { may_have(key, name.as_slice()) },
    )
}
