//! The class.

ghost use Rattle.std.specs.Prelude.{◌≡◌, ◌≢◌, ◌↔◌, ◌≤◌, ℕ, List, Contains, IsTrue, IsOk, IfOk, MatchOption, length, if◌then◌else◌};
ghost use Rattle.gx_range.specs.declared.range.RangeKind.TheVariants as kinds;
ghost use Rattle.gx_range.specs.Values.{IsRange};
ghost use Rattle.gx_gist.specs.Orders.{AreRanked};
ghost use Rattle.gx_gist.specs.Spelled.{SpellsNone, IsSpelled};
ghost use Rattle.gx_class_range.specs.Keys.{IsKey, leaf_key, joined, IsOver, spelled};
ghost use Rattle.gx_class_range.specs.Tests.{IsQuery, QueryHolds, leaf_answer, inner_answer};
ghost use Rattle.gx_class_range.specs.Growths.{growth};
ghost use Rattle.gx_class_range.specs.Sorting.{key_cmp};
ghost use Rattle.gx_class_range.specs.Laws.{leaf_is_valid, union_is_valid, over_itself, over_left, over_right, inner_sees, leaf_sees, leaf_is_sure};
ghost use Rattle.gx_class_range.specs.Spellings.{one_spelling, short_spelling};

use crate::join::{leaf_of, same_keys, union_of};
use crate::penalty::growth_of;
use crate::read::key_from;
use crate::spell::spell;
use crate::tests_of_keys::{test_inner, test_leaf};
use crate::{RangeKey, RangeQuery};
use gx_bytes::{Bytes, NoMemory};
use gx_gist::{GistClass, Keys, OnBytes, Places, Test, places_by_rank};
use gx_range::Range;
use std::alloc::Global;

/// The operator class of ranges of all three types. A key says whether an empty range is below an
/// item, and has the least span over the others.
#[derive(Clone, Copy, Debug, Drop)]
pub struct RangeClass;

impl GistClass for RangeClass {
    type Value = Range;

    type Query = RangeQuery;

    type Key = RangeKey;

    ghost valid = { λ _. Unit {0} };

    ghost valid_value = { λ _ v. IsRange kinds.Int8 v };

    ghost valid_query = { λ _ q. IsQuery q };

    ghost valid_key = { λ _ k. IsKey k };

    ghost holds = { λ _ v q. QueryHolds v q };

    ghost leaf_of = { λ _ v. leaf_key v };

    ghost union_of = { λ _ a b. joined a b };

    ghost over = { λ _ k l. IsOver k l };

    ghost leaf_test = { λ _ k q. leaf_answer k q };

    ghost inner_test = { λ _ k q. inner_answer k q };

    ghost ordered = { λ _ keys places. AreRanked key_cmp keys places };

    ghost growth = { λ _ k l. growth k l };

    ghost spelling = { λ _ k. spelled k };

    fn leaf(&self, _alloc: Global, value: &Range) -> Result<RangeKey, NoMemory> {
        Ok(leaf_of(*value))
    }

    fn union(&self, _alloc: Global, a: &RangeKey, b: &RangeKey) -> Result<RangeKey, NoMemory> {
        Ok(union_of(*a, *b))
    }

    /// No memory is taken, so it is never refused.
    fn test(
        &self,
        _alloc: Global,
        key: &RangeKey,
        at_leaf: bool,
        query: &RangeQuery,
    ) -> Result<Test, NoMemory>
        ensures ok { IsOk result }
        ensures answer { IfOk result (λ test. test ≡ (if at_leaf then leaf_answer key.now query.now else inner_answer key.now query.now)) }
    {
        if at_leaf {
            Ok(test_leaf(*key, *query))
        } else {
            Ok(test_inner(*key, *query))
        }
    }

    /// No memory is taken, so it is never refused.
    fn penalty(&self, _alloc: Global, key: &RangeKey, added: &RangeKey) -> Result<u128, NoMemory>
        ensures ok { IsOk result }
        ensures answer { IfOk result (λ penalty. penalty ≡ growth key.now added.now) }
    {
        Ok(growth_of(*key, *added))
    }

    fn order(&self, alloc: Global, keys: &Keys<RangeKey>) -> Result<Places, NoMemory> {
        places_by_rank(alloc, keys.as_slice())
    }

    fn same(&self, a: &RangeKey, b: &RangeKey) -> bool {
        same_keys(*a, *b)
    }

    fn write(&self, alloc: Global, key: &RangeKey) -> Result<Bytes, NoMemory> {
        spell(alloc, *key)
    }

    /// No memory is taken, so it is never refused.
    fn read(&self, _alloc: Global, bytes: &[u8]) -> Result<Option<RangeKey>, NoMemory>
        ensures ok { IsOk result }
        ensures answer { IfOk result (λ found. MatchOption found (SpellsNone IsKey spelled bytes.now) (IsSpelled IsKey spelled bytes.now)) }
    {
        Ok(key_from(bytes))
    }

    ghost leaf_is_valid = { λ _ v _ p. leaf_is_valid v p };

    ghost union_is_valid = { λ _ a b _ p q. union_is_valid a b p q };

    ghost over_itself = { λ _ v _ _. over_itself v };

    ghost union_over_left = { λ _ a b v _ _ _ _ over. over_left a b _ over };

    ghost union_over_right = { λ _ a b v _ _ _ _ over. over_right a b _ over };

    ghost inner_sees = { λ _ k v q _ _ p r over some. inner_sees k v q p r over some };

    ghost leaf_sees = { λ _ v q _ _ _ holds. leaf_sees v q holds };

    ghost leaf_is_sure = { λ _ v q _ _ _ sure. leaf_is_sure v q sure };

    ghost order_rearranges = { λ _ _ _ _ ordered. ordered.all };

    ghost one_spelling = { λ _ a b _ p q same. one_spelling a b p q same };

    ghost short_spelling = { λ _ k _ _. short_spelling k };
}

impl OnBytes for RangeClass {}
