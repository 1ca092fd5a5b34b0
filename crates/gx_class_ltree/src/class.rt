//! The class.

ghost use Rattle.std.specs.Prelude.{◌≡◌, ◌≢◌, ◌↔◌, ◌≤◌, ℕ, List, Contains, IsTrue, IsOk, IfOk, MatchOption, length, if◌then◌else◌};
ghost use Rattle.gx_ltree.specs.Path.{IsPath};
ghost use Rattle.gx_ltxtquery.specs.Operators.{Holds};
ghost use Rattle.gx_sig.specs.BitSets.{IsSignatureLength};
ghost use Rattle.gx_gist.specs.Orders.{AreRanked};
ghost use Rattle.gx_gist.specs.Spelled.{SpellsNone, IsSpelled};
ghost use Rattle.gx_class_ltree.specs.Keys.{IsKey, leaf_key, union, IsOver, growth};
ghost use Rattle.gx_class_ltree.specs.Tests.{leaf_answer, inner_answer};
ghost use Rattle.gx_class_ltree.specs.Sorting.{key_cmp};
ghost use Rattle.gx_class_ltree.specs.Spellings.{spelled, one_spelling, short_spelling};
ghost use Rattle.gx_class_ltree.specs.Laws.{leaf_is_right, inner_sees};
ghost use Rattle.gx_class_ltree.specs.KeyLaws.{leaf_is_valid, union_is_valid, over_itself, over_left, over_right};

use crate::LtreeKey;
use crate::join::{growth_of, leaf_of, same_keys, union_of};
use crate::read::key_from;
use crate::spell::spell;
use crate::tests_of_keys::{test_inner, test_leaf};
use gx_bytes::{Bytes, NoMemory};
use gx_gist::{GistClass, Keys, OnBytes, Places, Test, places_by_rank};
use gx_ltree::Path;
use gx_ltxtquery::LtreeQuery;
use std::alloc::Global;

/// The operator class `gist_ltree_ops`, with a siglen of `N`. A key has the least and the greatest first labels of the paths
/// below an item, and a signature of all their labels.
#[derive(Clone, Copy, Debug, Drop)]
pub struct LtreeClass<const N: usize>;

impl<const N: usize> GistClass for LtreeClass<N> {
    type Value = Path;

    type Query = LtreeQuery;

    type Key = LtreeKey<N>;

    ghost valid = { λ _. IsSignatureLength N };

    ghost valid_value = { λ _ v. IsPath v };

    ghost valid_query = { λ _ _. Unit {0} };

    ghost valid_key = { λ _ k. IsKey N k };

    ghost holds = { λ _ v q. Holds q v };

    ghost leaf_of = { λ _ v. leaf_key N v };

    ghost union_of = { λ _ a b. union a b };

    ghost over = { λ _ k l. IsOver k l };

    ghost leaf_test = { λ _ k q. leaf_answer N k.low.path k.low.cut k.sig q };

    ghost inner_test = { λ _ k q. inner_answer N k.low.path k.high.path k.sig q };

    ghost ordered = { λ _ keys places. AreRanked key_cmp keys places };

    ghost growth = { λ _ k l. growth N k l };

    ghost spelling = { λ _ k. spelled k };

    fn leaf(&self, alloc: Global, value: &Path) -> Result<LtreeKey<N>, NoMemory> {
        leaf_of(alloc, value)
    }

    fn union(
        &self,
        alloc: Global,
        a: &LtreeKey<N>,
        b: &LtreeKey<N>,
    ) -> Result<LtreeKey<N>, NoMemory> {
        union_of(alloc, a, b)
    }

    fn test(
        &self,
        alloc: Global,
        key: &LtreeKey<N>,
        at_leaf: bool,
        query: &LtreeQuery,
    ) -> Result<Test, NoMemory> {
        if at_leaf {
            test_leaf(alloc, key, query)
        } else {
            Ok(test_inner(key, query))
        }
    }

    /// No memory is taken, so it is never refused.
    fn penalty(
        &self,
        _alloc: Global,
        key: &LtreeKey<N>,
        added: &LtreeKey<N>,
    ) -> Result<u128, NoMemory>
        ensures ok { IsOk result }
        ensures answer { IfOk result (λ penalty. penalty ≡ growth N key.now added.now) }
    {
        Ok(u128::from(growth_of(key, added)))
    }

    fn order(&self, alloc: Global, keys: &Keys<LtreeKey<N>>) -> Result<Places, NoMemory> {
        places_by_rank(alloc, keys.as_slice())
    }

    fn same(&self, a: &LtreeKey<N>, b: &LtreeKey<N>) -> bool {
        same_keys(a, b)
    }

    fn write(&self, alloc: Global, key: &LtreeKey<N>) -> Result<Bytes, NoMemory> {
        spell(alloc, key)
    }

    fn read(&self, alloc: Global, bytes: &[u8]) -> Result<Option<LtreeKey<N>>, NoMemory> {
        key_from(alloc, bytes)
    }

    ghost leaf_is_valid = { λ _ v _ p. leaf_is_valid N v p };

    ghost union_is_valid = { λ _ a b _ p q. union_is_valid N a b p q };

    ghost over_itself = { λ _ v _ _. over_itself N v };

    ghost union_over_left = { λ _ a b v _ p q _ over. over_left N a b (leaf_key N v) p q over };

    ghost union_over_right = { λ _ a b v _ p q _ over. over_right N a b (leaf_key N v) p q over };

    ghost inner_sees = { λ _ k v q long _ _ _ over some. inner_sees N k.low k.high k.sig v q long over.low over.high over.sig some };

    ghost leaf_sees = { λ _ v q long _ _ holds. (leaf_is_right N v q long).sees holds };

    ghost leaf_is_sure = { λ _ v q long _ _ sure. (leaf_is_right N v q long).sure sure };

    ghost order_rearranges = { λ _ _ _ _ ordered. ordered.all };

    ghost one_spelling = { λ _ a b _ p q same. one_spelling N a b p q same };

    ghost short_spelling = { λ _ k long p. short_spelling N k long p };
}

impl<const N: usize> OnBytes for LtreeClass<N> {}
