//! The class gist__intbig_ops.

ghost use Rattle.std.specs.Prelude.{◌≡◌, ◌≢◌, ◌↔◌, ◌≤◌, ◌*◌, ℕ, List, Contains, IsTrue, IsOk, IfOk, MatchOption, length, if◌then◌else◌};
ghost use Rattle.gx_intarr.specs.Arrays.{IsArray};
ghost use Rattle.gx_sig.specs.BitSets.{both, differing, IsSignatureLength, IsSignature};
ghost use Rattle.gx_gist.specs.Spelled.{SpellsNone, IsSpelled};
ghost use Rattle.gx_class_sets.specs.Signatures.{IsOver, growth};
ghost use Rattle.gx_class_sets.specs.Distances.{AreByDistance, order_rearranges};
ghost use Rattle.gx_class_sets.specs.IntQueries.{Holds};
ghost use Rattle.gx_class_sets.specs.IntbigTests.{leaf_key, leaf_answer, inner_answer};
ghost use Rattle.gx_class_sets.specs.SignatureLaws.{over_left, over_right, short_spelling};
ghost use Rattle.gx_class_sets.specs.IntbigLaws.{leaf_is_valid, leaf_is_right, inner_sees};
ghost use Rattle.gx_sig.proofs.Bytes.{are_signatures};

use crate::IntQuery;
use crate::distance::places_by_distance;
use crate::intbig_tests::{test_inner, test_leaf};
use crate::signing::sign;
use gx_bytes::{Bytes, NoMemory};
use gx_gist::{GistClass, Keys, OnBytes, Places, Test};
use gx_intarr::IntArray;
use gx_sig::Sig;
use std::alloc::Global;

/// The operator class `gist__intbig_ops` of int4[], with a siglen of `N`. A key is the signature of the elements below an item.
#[derive(Clone, Copy, Debug, Drop)]
pub struct IntbigClass<const N: usize>;

impl<const N: usize> GistClass for IntbigClass<N> {
    type Value = IntArray;

    type Query = IntQuery;

    type Key = Sig<N>;

    ghost valid = { λ _. IsSignatureLength N };

    ghost valid_value = { λ _ v. IsArray v };

    ghost valid_query = { λ _ _. Unit {0} };

    ghost valid_key = { λ _ k. IsSignature N k };

    ghost holds = { λ _ v q. Holds q v };

    ghost leaf_of = { λ _ v. leaf_key N v };

    ghost union_of = { λ _ a b. both a b };

    ghost over = { λ _ k l. IsOver k l };

    ghost leaf_test = { λ _ k q. leaf_answer N k q };

    ghost inner_test = { λ _ k q. inner_answer N k q };

    ghost ordered = { λ _ keys places. AreByDistance (λ a b. differing a b (8 * N)) keys places };

    ghost growth = { λ _ k l. growth N k l };

    ghost spelling = { λ _ k. k };

    fn leaf(&self, _alloc: Global, value: &IntArray) -> Result<Sig<N>, NoMemory> {
        Ok(sign(value.items()))
    }

    fn union(&self, _alloc: Global, a: &Sig<N>, b: &Sig<N>) -> Result<Sig<N>, NoMemory> {
        Ok(a.union(b))
    }

    /// No memory is taken, so it is never refused.
    fn test(
        &self,
        _alloc: Global,
        key: &Sig<N>,
        at_leaf: bool,
        query: &IntQuery,
    ) -> Result<Test, NoMemory>
        requires class { IsSignatureLength N }
        ensures ok { IsOk result }
        ensures answer { IfOk result (λ test. test ≡ (if at_leaf then leaf_answer N key.now query.now else inner_answer N key.now query.now)) }
    {
        if at_leaf {
            Ok(test_leaf(key, query))
        } else {
            Ok(test_inner(key, query))
        }
    }

    /// No memory is taken, so it is never refused.
    fn penalty(&self, _alloc: Global, key: &Sig<N>, added: &Sig<N>) -> Result<u128, NoMemory>
        ensures ok { IsOk result }
        ensures answer { IfOk result (λ penalty. penalty ≡ growth N key.now added.now) }
    {
        Ok(u128::from(key.distance(&key.union(added))))
    }

    fn order(&self, alloc: Global, keys: &Keys<Sig<N>>) -> Result<Places, NoMemory> {
        places_by_distance(alloc, keys.as_slice())
    }

    fn same(&self, a: &Sig<N>, b: &Sig<N>) -> bool {
        a.bytes() == b.bytes()
    }

    fn write(&self, alloc: Global, key: &Sig<N>) -> Result<Bytes, NoMemory> {
        Bytes::from_slice(alloc, key.bytes())
    }

    /// No memory is taken, so it is never refused.
    fn read(&self, _alloc: Global, bytes: &[u8]) -> Result<Option<Sig<N>>, NoMemory>
        requires class { IsSignatureLength N }
        ensures ok { IsOk result }
        ensures answer { IfOk result (λ found. MatchOption found (SpellsNone (IsSignature N) (λ k. k) bytes.now) (IsSpelled (IsSignature N) (λ k. k) bytes.now)) }
    {
        Ok(Sig::from(bytes))
    }

    ghost leaf_is_valid = { λ _ v _ _. leaf_is_valid N v };

    ghost union_is_valid = { λ _ a b _ p q. are_signatures.2 N a b p q };

    ghost over_itself = { λ _ v _ _ b has. has };

    ghost union_over_left = { λ _ a b v _ p q _ over. over_left N a b (leaf_key N v) p q over };

    ghost union_over_right = { λ _ a b v _ p q _ over. over_right N a b (leaf_key N v) p q over };

    ghost inner_sees = { λ _ k v q _ p _ _ over some. inner_sees N k (leaf_key N v) q p over some };

    ghost leaf_sees = { λ _ v q long _ _ holds. (leaf_is_right N v q long).sees holds };

    ghost leaf_is_sure = { λ _ v q long _ _ sure. (leaf_is_right N v q long).sure sure };

    ghost order_rearranges = { λ _ keys places _ ordered. order_rearranges (λ a b. differing a b (8 * N)) keys places ordered };

    ghost one_spelling = { λ _ a b _ _ _ same. same };

    ghost short_spelling = { λ _ k long valid. short_spelling N k long valid };
}

impl<const N: usize> OnBytes for IntbigClass<N> {}
