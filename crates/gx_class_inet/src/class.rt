//! The class.

ghost use Rattle.std.specs.Prelude.{◌≡◌, ◌≢◌, ◌↔◌, ◌≤◌, ℕ, List, Contains, IsTrue, IsOk, IfOk, MatchOption, length, if◌then◌else◌};
ghost use Rattle.gx_inet.specs.Value.{IsInet};
ghost use Rattle.gx_inet.specs.Operators.{Holds};
ghost use Rattle.gx_gist.specs.Orders.{AreRanked};
ghost use Rattle.gx_gist.specs.Spelled.{SpellsNone, IsSpelled};
ghost use Rattle.gx_class_inet.specs.Keys.{IsKey, leaf_key, joined, IsOver, spelled};
ghost use Rattle.gx_class_inet.specs.Tests.{leaf_answer, inner_answer, key_test};
ghost use Rattle.gx_class_inet.specs.Growths.{growth};
ghost use Rattle.gx_class_inet.specs.Sorting.{key_cmp};
ghost use Rattle.gx_class_inet.specs.Laws.{leaf_is_valid, union_is_valid, over_itself, over_left, over_right, inner_sees, leaf_sees, leaf_is_sure};
ghost use Rattle.gx_class_inet.specs.Spellings.{one_spelling, short_spelling};

use crate::join::{leaf_of, same_keys, union_of};
use crate::penalty::growth_of;
use crate::read::key_from;
use crate::spell::spell;
use crate::tests_of_keys::test_key;
use crate::{InetKey, InetQuery};
use gx_bytes::{Bytes, NoMemory};
use gx_gist::{GistClass, Keys, OnBytes, Places, Test, places_by_rank};
use gx_inet::Inet;
use std::alloc::Global;

/// The operator class of network addresses. A key has what the addresses below an item have in
/// common: the family, the least mask and the first bits.
#[derive(Clone, Copy, Debug, Drop)]
pub struct InetClass;

impl GistClass for InetClass {
    type Value = Inet;

    type Query = InetQuery;

    type Key = InetKey;

    ghost valid = { λ _. Unit {0} };

    ghost valid_value = { λ _ v. IsInet v };

    ghost valid_query = { λ _ q. IsInet q.operand };

    ghost valid_key = { λ _ k. IsKey k };

    ghost holds = { λ _ v q. Holds q.op v q.operand };

    ghost leaf_of = { λ _ v. leaf_key v };

    ghost union_of = { λ _ a b. joined a b };

    ghost over = { λ _ k l. IsOver k l };

    ghost leaf_test = { λ _ k q. leaf_answer q.op k q.operand };

    ghost inner_test = { λ _ k q. inner_answer q.op k q.operand };

    ghost ordered = { λ _ keys places. AreRanked key_cmp keys places };

    ghost growth = { λ _ k l. growth k l };

    ghost spelling = { λ _ k. spelled k };

    fn leaf(&self, _alloc: Global, value: &Inet) -> Result<InetKey, NoMemory> {
        Ok(leaf_of(*value))
    }

    fn union(&self, _alloc: Global, a: &InetKey, b: &InetKey) -> Result<InetKey, NoMemory> {
        Ok(union_of(*a, *b))
    }

    /// No memory is taken, so it is never refused.
    fn test(
        &self,
        _alloc: Global,
        key: &InetKey,
        at_leaf: bool,
        query: &InetQuery,
    ) -> Result<Test, NoMemory>
        requires key { IsKey key.now }
        requires query { IsInet query.now.operand }
        ensures ok { IsOk result }
        ensures answer { IfOk result (λ test. test ≡ key_test at_leaf query.now.op key.now query.now.operand) }
    {
        Ok(test_key(at_leaf, query.op, *key, query.operand))
    }

    /// No memory is taken, so it is never refused.
    fn penalty(&self, _alloc: Global, key: &InetKey, added: &InetKey) -> Result<u128, NoMemory>
        requires key { IsKey key.now }
        requires added { IsKey added.now }
        ensures ok { IsOk result }
        ensures answer { IfOk result (λ penalty. penalty ≡ growth key.now added.now) }
    {
        Ok(growth_of(*key, *added))
    }

    fn order(&self, alloc: Global, keys: &Keys<InetKey>) -> Result<Places, NoMemory> {
        places_by_rank(alloc, keys.as_slice())
    }

    fn same(&self, a: &InetKey, b: &InetKey) -> bool {
        same_keys(*a, *b)
    }

    fn write(&self, alloc: Global, key: &InetKey) -> Result<Bytes, NoMemory> {
        spell(alloc, *key)
    }

    /// No memory is taken, so it is never refused.
    fn read(&self, _alloc: Global, bytes: &[u8]) -> Result<Option<InetKey>, NoMemory>
        ensures ok { IsOk result }
        ensures answer { IfOk result (λ found. MatchOption found (SpellsNone IsKey spelled bytes.now) (IsSpelled IsKey spelled bytes.now)) }
    {
        Ok(key_from(bytes))
    }

    ghost leaf_is_valid = { λ _ v _ p. leaf_is_valid v p };

    ghost union_is_valid = { λ _ a b _ p q. union_is_valid a b p q };

    ghost over_itself = { λ _ v _ _. over_itself v };

    ghost union_over_left = { λ _ a b v _ p _ _ over. over_left a b _ p over };

    ghost union_over_right = { λ _ a b v _ p q _ over. over_right a b _ p q over };

    ghost inner_sees = { λ _ k v q _ p r s over some. inner_sees q.op k v q.operand p r s over some };

    ghost leaf_sees = { λ _ v q _ _ _ holds. leaf_sees q.op v q.operand holds };

    ghost leaf_is_sure = { λ _ v q _ _ _ sure. leaf_is_sure q.op v q.operand sure };

    ghost order_rearranges = { λ _ _ _ _ ordered. ordered.all };

    ghost one_spelling = { λ _ a b _ p q same. one_spelling a b p q same };

    ghost short_spelling = { λ _ k _ _. short_spelling k };
}

impl OnBytes for InetClass {}
