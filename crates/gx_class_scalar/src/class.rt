//! The class.

ghost use Rattle.std.specs.Prelude.{◌≡◌, ◌≢◌, ◌↔◌, ◌≤◌, ℕ, Contains, IsTrue, IsOk, IfOk, MatchOption, length, if◌then◌else◌};
ghost use Rattle.gx_scalar.specs.Operators.{Holds};
ghost use Rattle.gx_scalar.specs.Values.{IsScalar};
ghost use Rattle.gx_class_scalar.specs.Keys.{leaf_key, joined, IsOver, IsKey, spelled};
ghost use Rattle.gx_class_scalar.specs.Growths.{growth};
ghost use Rattle.gx_class_scalar.specs.Tests.{leaf_answer, inner_answer, key_test};
ghost use Rattle.gx_class_scalar.specs.Laws.{leaf_is_valid, union_is_valid, over_itself, over_left, over_right, inner_sees, leaf_sees, leaf_is_sure};
ghost use Rattle.gx_gist.specs.Orders.{AreRanked};
ghost use Rattle.gx_class_scalar.specs.Sorting.{key_cmp};
ghost use Rattle.gx_class_scalar.specs.Spellings.{one_spelling, short_spelling};

use crate::join::{leaf_of, same_keys, union_of};
use crate::penalty::growth_of;
use crate::read::key_from;
use crate::spell::spell;
use crate::tests_of_keys::test_key;
use crate::{ScalarKey, ScalarQuery};
use gx_bytes::{Bytes, NoMemory};
use gx_gist::{GistClass, Keys, Places, Test, places_by_rank};
use gx_scalar::{Scalar, ScalarKind};
use std::alloc::Global;

/// The operator class of one type of scalars. Keys are the least and the greatest value below an
/// item; texts and byte strings are cut at 900 bytes in them.
#[derive(Drop)]
pub struct ScalarClass {
    pub kind: ScalarKind,
}

impl GistClass for ScalarClass {
    type Value = Scalar;

    type Query = ScalarQuery;

    type Key = ScalarKey;

    ghost valid = { λ _. Unit {0} };

    ghost valid_value = { λ c v. IsScalar c.kind v };

    ghost valid_query = { λ c q. IsScalar c.kind q.operand };

    ghost valid_key = { λ c k. IsKey c.kind k };

    ghost holds = { λ _ v q. Holds q.op v q.operand };

    ghost leaf_of = { λ _ v. leaf_key v };

    ghost union_of = { λ _ a b. joined a b };

    ghost over = { λ _ k l. IsOver k l };

    ghost leaf_test = { λ _ k q. leaf_answer q.op k q.operand };

    ghost inner_test = { λ _ k q. inner_answer q.op k q.operand };

    ghost ordered = { λ _ keys places. AreRanked key_cmp keys places };

    ghost growth = { λ _ k l. growth k l };

    ghost spelling = { λ _ k. spelled k };

    fn leaf(&self, alloc: Global, value: &Scalar) -> Result<ScalarKey, NoMemory> {
        leaf_of(alloc, value)
    }

    fn union(&self, alloc: Global, a: &ScalarKey, b: &ScalarKey) -> Result<ScalarKey, NoMemory> {
        union_of(alloc, a, b)
    }

    /// No memory is taken, so it is never refused.
    fn test(
        &self,
        _alloc: Global,
        key: &ScalarKey,
        at_leaf: bool,
        query: &ScalarQuery,
    ) -> Result<Test, NoMemory>
        ensures ok { IsOk result }
        ensures answer { IfOk result (λ test. test ≡ key_test at_leaf query.now.op key.now query.now.operand) }
    {
        Ok(test_key(at_leaf, query.op, key, &query.operand))
    }

    /// How far the ends of the key move. No memory is taken, so it is never refused.
    fn penalty(&self, _alloc: Global, key: &ScalarKey, added: &ScalarKey) -> Result<u128, NoMemory>
        ensures ok { IsOk result }
        ensures answer { IfOk result (λ penalty. penalty ≡ growth key.now added.now) }
    {
        Ok(growth_of(key, added))
    }

    fn order(&self, alloc: Global, keys: &Keys<ScalarKey>) -> Result<Places, NoMemory> {
        places_by_rank(alloc, keys.as_slice())
    }

    fn same(&self, a: &ScalarKey, b: &ScalarKey) -> bool {
        same_keys(a, b)
    }

    fn write(&self, alloc: Global, key: &ScalarKey) -> Result<Bytes, NoMemory> {
        spell(alloc, key)
    }

    fn read(&self, alloc: Global, bytes: &[u8]) -> Result<Option<ScalarKey>, NoMemory> {
        key_from(alloc, self.kind, bytes)
    }

    ghost leaf_is_valid = { λ c v _ p. leaf_is_valid c.kind v p };

    ghost union_is_valid = { λ c a b _ p q. union_is_valid c.kind a b p q };

    ghost over_itself = { λ _ v _ _. over_itself v };

    ghost union_over_left = { λ _ a b v _ _ _ _ over. over_left a b _ over };

    ghost union_over_right = { λ c a b v _ p q _ over. over_right c.kind a b _ p q over };

    ghost inner_sees = { λ c k v q _ _ p r over some. inner_sees c.kind k v q p r over some };

    ghost leaf_sees = { λ c v q _ p r holds. leaf_sees c.kind v q p r holds };

    ghost leaf_is_sure = { λ c v q _ p r sure. leaf_is_sure c.kind v q p r sure };

    ghost order_rearranges = { λ _ _ _ _ ordered. ordered.all };

    ghost one_spelling = { λ c a b _ p q same. one_spelling c.kind a b p q same };

    ghost short_spelling = { λ c k _ p. short_spelling c.kind k p };
}
