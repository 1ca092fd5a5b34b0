//! The class.

ghost use Rattle.std.specs.Prelude.{◌≡◌, ◌≢◌, ◌↔◌, ◌≤◌, ℕ, List, Contains, IsTrue, IfOk, MatchOption, length, if◌then◌else◌};
ghost use Rattle.gx_intarr.specs.Arrays.{IsArray};
ghost use Rattle.gx_gist.specs.Spelled.{SpellsNone, IsSpelled};
ghost use Rattle.gx_class_sets.specs.Distances.{AreByDistance, order_rearranges};
ghost use Rattle.gx_class_sets.specs.IntQueries.{Holds};
ghost use Rattle.gx_class_intset.specs.Keys.{IsLimit, IsKey, leaf_key, union, IsOver, growth, far};
ghost use Rattle.gx_class_intset.specs.Tests.{IsQuery, leaf_answer, inner_answer};
ghost use Rattle.gx_class_intset.specs.Spellings.{spelled, one_spelling, short_spelling};
ghost use Rattle.gx_class_intset.specs.Laws.{leaf_is_valid, union_is_valid, over_left, over_right, leaf_is_right, inner_sees, keys_same};

use crate::IntKey;
use crate::keys::{growth_of, leaf_of, union_of};
use crate::order::places_by_distance;
use crate::read::key_from;
use crate::spell::spell;
use crate::tests_of_keys::{same_keys, test_inner, test_leaf};
use gx_bytes::{Bytes, NoMemory};
use gx_class_sets::IntQuery;
use gx_gist::{GistClass, Keys, OnBytes, Places, Test};
use gx_intarr::IntArray;
use std::alloc::Global;

/// The operator class `gist__int_ops` of int4[]. A key has at most so many intervals, in which all elements below an item lie.
/// It is valid from 1 to 200.
#[derive(Clone, Copy, Debug, Drop)]
pub struct IntClass {
    pub numranges: u16,
}

impl GistClass for IntClass {
    type Value = IntArray;

    type Query = IntQuery;

    type Key = IntKey;

    ghost valid = { λ c. IsLimit c.numranges };

    ghost valid_value = { λ _ v. IsArray v };

    ghost valid_query = { λ _ q. IsQuery q };

    ghost valid_key = { λ c k. IsKey c.numranges k };

    ghost holds = { λ _ v q. Holds q v };

    ghost leaf_of = { λ c v. leaf_key c.numranges v };

    ghost union_of = { λ c a b. union c.numranges a b };

    ghost over = { λ _ k l. IsOver k l };

    ghost leaf_test = { λ c k q. leaf_answer c.numranges k q };

    ghost inner_test = { λ _ k q. inner_answer k q };

    ghost ordered = { λ _ keys places. AreByDistance far keys places };

    ghost growth = { λ c k l. growth c.numranges k l };

    ghost spelling = { λ _ k. spelled k };

    fn leaf(&self, alloc: Global, value: &IntArray) -> Result<IntKey, NoMemory> {
        leaf_of(alloc, self.numranges, value)
    }

    fn union(&self, alloc: Global, a: &IntKey, b: &IntKey) -> Result<IntKey, NoMemory> {
        union_of(alloc, self.numranges, a, b)
    }

    fn test(
        &self,
        alloc: Global,
        key: &IntKey,
        at_leaf: bool,
        query: &IntQuery,
    ) -> Result<Test, NoMemory> {
        if at_leaf {
            test_leaf(alloc, self.numranges, key, query)
        } else {
            Ok(test_inner(key, query))
        }
    }

    fn penalty(&self, alloc: Global, key: &IntKey, added: &IntKey) -> Result<u128, NoMemory> {
        growth_of(alloc, self.numranges, key, added)
    }

    fn order(&self, alloc: Global, keys: &Keys<IntKey>) -> Result<Places, NoMemory> {
        places_by_distance(alloc, keys.as_slice())
    }

    fn same(&self, a: &IntKey, b: &IntKey) -> bool {
        same_keys(a, b)
    }

    fn write(&self, alloc: Global, key: &IntKey) -> Result<Bytes, NoMemory> {
        spell(alloc, key)
    }

    fn read(&self, alloc: Global, bytes: &[u8]) -> Result<Option<IntKey>, NoMemory> {
        key_from(alloc, self.numranges, bytes)
    }

    ghost leaf_is_valid = { λ c v limit p. leaf_is_valid c.numranges v limit p };

    ghost union_is_valid = { λ c a b limit p q. union_is_valid c.numranges a b limit p q };

    ghost over_itself = { λ _ v _ _ n e. e };

    ghost union_over_left = { λ c a b v _ p q _ over. over_left c.numranges a b (leaf_key c.numranges v) p q over };

    ghost union_over_right = { λ c a b v _ p q _ over. over_right c.numranges a b (leaf_key c.numranges v) p q over };

    ghost inner_sees = { λ c k v q _ _ _ r over some. inner_sees c.numranges k (leaf_key c.numranges v) q over r some };

    ghost leaf_sees = { λ c v q _ p _ holds. (leaf_is_right c.numranges v q p).sees holds };

    ghost leaf_is_sure = { λ c v q _ p _ sure. (leaf_is_right c.numranges v q p).sure sure };

    ghost order_rearranges = { λ _ keys places _ ordered. order_rearranges far keys places ordered };

    ghost one_spelling = { λ c a b _ p q same. one_spelling c.numranges a b p q same };

    ghost short_spelling = { λ c k limit p. short_spelling c.numranges k limit p };
}

impl OnBytes for IntClass {}
