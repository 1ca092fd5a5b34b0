//! The class gist_hstore_ops.

ghost use Rattle.std.specs.Prelude.{◌≡◌, ◌≢◌, ◌↔◌, ◌≤◌, ◌*◌, ℕ, List, Contains, IsTrue, IsOk, IfOk, MatchOption, length, if◌then◌else◌};
ghost use Rattle.gx_hstore.specs.Map.{IsHstore};
ghost use Rattle.gx_sig.specs.BitSets.{both, differing, IsSignatureLength, IsSignature};
ghost use Rattle.gx_sig.proofs.Bytes.{are_signatures};
ghost use Rattle.gx_gist.specs.Spelled.{SpellsNone, IsSpelled};
ghost use Rattle.gx_class_sets.specs.Signatures.{IsOver, growth};
ghost use Rattle.gx_class_sets.specs.Distances.{AreByDistance, order_rearranges};
ghost use Rattle.gx_class_sets.specs.HstoreTests.{Holds, IsQuery, leaf_key, answer};
ghost use Rattle.gx_class_sets.specs.SignatureLaws.{over_left, over_right, short_spelling};
ghost use Rattle.gx_class_sets.specs.HstoreLaws.{leaf_is_valid, leaf_is_right, inner_sees};

use crate::HstoreQuery;
use crate::distance::places_by_distance;
use crate::hstore_tests::test_key;
use crate::pair_signing::sign_pairs;
use gx_bytes::{Bytes, NoMemory};
use gx_gist::{GistClass, Keys, OnBytes, Places, Test};
use gx_hstore::Hstore;
use gx_sig::Sig;
use std::alloc::Global;

/// The operator class `gist_hstore_ops`, with a siglen of `N`. A key is the signature of the items of the maps below an item.
#[derive(Clone, Copy, Debug, Drop)]
pub struct HstoreClass<const N: usize>;

impl<const N: usize> GistClass for HstoreClass<N> {
    type Value = Hstore;

    type Query = HstoreQuery;

    type Key = Sig<N>;

    ghost valid = { λ _. IsSignatureLength N };

    ghost valid_value = { λ _ v. IsHstore v };

    ghost valid_query = { λ _ q. IsQuery q };

    ghost valid_key = { λ _ k. IsSignature N k };

    ghost holds = { λ _ v q. Holds q v };

    ghost leaf_of = { λ _ v. leaf_key N v };

    ghost union_of = { λ _ a b. both a b };

    ghost over = { λ _ k l. IsOver k l };

    ghost leaf_test = { λ _ k q. answer N k q };

    ghost inner_test = { λ _ k q. answer N k q };

    ghost ordered = { λ _ keys places. AreByDistance (λ a b. differing a b (8 * N)) keys places };

    ghost growth = { λ _ k l. growth N k l };

    ghost spelling = { λ _ k. k };

    fn leaf(&self, alloc: Global, value: &Hstore) -> Result<Sig<N>, NoMemory> {
        sign_pairs(alloc, value.pairs())
    }

    fn union(&self, _alloc: Global, a: &Sig<N>, b: &Sig<N>) -> Result<Sig<N>, NoMemory> {
        Ok(a.union(b))
    }

    fn test(
        &self,
        alloc: Global,
        key: &Sig<N>,
        _at_leaf: bool,
        query: &HstoreQuery,
    ) -> Result<Test, NoMemory> {
        test_key(alloc, key, query)
    }

    /// No memory is taken, so it is never refused.
    fn penalty(&self, _alloc: Global, key: &Sig<N>, added: &Sig<N>) -> Result<u128, NoMemory>
        ensures ok { IsOk result }
        ensures answer { IfOk result (λ penalty. penalty ≡ growth N key.now added.now) }
    {
        Ok(u128::from(key.distance(&key.union(added))))
    }

    fn order(&self, alloc: Global, keys: &Keys<Sig<N>>) -> Result<Places, NoMemory> {
        places_by_distance(alloc, keys.as_slice())
    }

    fn same(&self, a: &Sig<N>, b: &Sig<N>) -> bool {
        a.bytes() == b.bytes()
    }

    fn write(&self, alloc: Global, key: &Sig<N>) -> Result<Bytes, NoMemory> {
        Bytes::from_slice(alloc, key.bytes())
    }

    /// No memory is taken, so it is never refused.
    fn read(&self, _alloc: Global, bytes: &[u8]) -> Result<Option<Sig<N>>, NoMemory>
        requires class { IsSignatureLength N }
        ensures ok { IsOk result }
        ensures answer { IfOk result (λ found. MatchOption found (SpellsNone (IsSignature N) (λ k. k) bytes.now) (IsSpelled (IsSignature N) (λ k. k) bytes.now)) }
    {
        Ok(Sig::from(bytes))
    }

    ghost leaf_is_valid = { λ _ v _ _. leaf_is_valid N v };

    ghost union_is_valid = { λ _ a b _ p q. are_signatures.2 N a b p q };

    ghost over_itself = { λ _ v _ _ b has. has };

    ghost union_over_left = { λ _ a b v _ p q _ over. over_left N a b (leaf_key N v) p q over };

    ghost union_over_right = { λ _ a b v _ p q _ over. over_right N a b (leaf_key N v) p q over };

    ghost inner_sees = { λ _ k v q _ _ _ _ over some. inner_sees N k (leaf_key N v) q over some };

    ghost leaf_sees = { λ _ v q long _ valid holds. (leaf_is_right N v q long valid).sees holds };

    ghost leaf_is_sure = { λ _ v q long _ valid sure. (leaf_is_right N v q long valid).sure sure };

    ghost order_rearranges = { λ _ keys places _ ordered. order_rearranges (λ a b. differing a b (8 * N)) keys places ordered };

    ghost one_spelling = { λ _ a b _ _ _ same. same };

    ghost short_spelling = { λ _ k long valid. short_spelling N k long valid };
}

impl<const N: usize> OnBytes for HstoreClass<N> {}
