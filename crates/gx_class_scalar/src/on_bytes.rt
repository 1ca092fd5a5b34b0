//! Tests and penalties of keys as they stand on a page.

ghost use Rattle.std.specs.Prelude.{◌≡◌, ◌⊎◌, ◌↔◌, IsTrue, IsOk, IfOk, MatchOption};
ghost use Rattle.gx_scalar.specs.declared.scalar.ScalarKind.TheVariants as kinds;
ghost use Rattle.gx_gist.specs.Spelled.{SpellsNone, IsAnswerOf};
ghost use Rattle.gx_class_scalar.specs.Keys.{IsKey, spelled};
ghost use Rattle.gx_class_scalar.specs.Growths.{growth, cut_growth};
ghost use Rattle.gx_class_scalar.specs.Tests.{key_test, part_test, parts_test};
ghost use Rattle.gx_class_scalar.specs.Readings.{part_with};
ghost use Rattle.gx_class_scalar.specs.declared.key.Part.{Part};
ghost use Rattle.gx_class_scalar.specs.declared.key.ScalarKey.TheVariants.{Cut};

use crate::penalty::{growth_of, growth_of_cuts};
use crate::read::fixed_from;
use crate::read_cut::{Cuts, cuts_from};
use crate::tests_of_keys::{test_key, test_part, test_parts};
use crate::{ScalarClass, ScalarKey, ScalarOp, ScalarQuery};
use gx_bytes::NoMemory;
use gx_gist::{OnBytes, Test};
use gx_scalar::{Scalar, ScalarKind};
use std::alloc::Global;

impl OnBytes for ScalarClass {
    /// No memory is taken, so it is never refused.
    fn test_bytes(
        &self,
        _alloc: Global,
        bytes: &[u8],
        at_leaf: bool,
        query: &ScalarQuery,
    ) -> Result<Option<Test>, NoMemory>
        ensures ok { IsOk result }
        ensures answer { IfOk result (λ found. MatchOption found (SpellsNone (IsKey self.now.kind) spelled bytes.now)
            (IsAnswerOf (IsKey self.now.kind) spelled bytes.now (λ key. key_test at_leaf query.now.op key query.now.operand))) }
    {
        Ok(test_spelled(self.kind, bytes, at_leaf, query.op, &query.operand))
    }

    /// No memory is taken, so it is never refused.
    fn penalty_bytes(
        &self,
        _alloc: Global,
        bytes: &[u8],
        added: &ScalarKey,
    ) -> Result<Option<u128>, NoMemory>
        ensures ok { IsOk result }
        ensures answer { IfOk result (λ found. MatchOption found (SpellsNone (IsKey self.now.kind) spelled bytes.now)
            (IsAnswerOf (IsKey self.now.kind) spelled bytes.now (λ key. growth key added.now))) }
    {
        Ok(growth_of_spelled(self.kind, bytes, added))
    }
}

fn test_spelled(
    kind: ScalarKind,
    bytes: &[u8],
    at_leaf: bool,
    op: ScalarOp,
    operand: &Scalar,
) -> Option<Test>
    ensures { MatchOption result (SpellsNone (IsKey kind) spelled bytes.now) (IsAnswerOf (IsKey kind) spelled bytes.now (λ key. key_test at_leaf op key operand.now)) }
{
    if is_cut(kind) {
        let cuts = cuts_from(kind, bytes)?;
        Some(test_cuts(&cuts, at_leaf, op, operand))
    } else {
        let key = fixed_from(kind, bytes)?;
        Some(test_key(at_leaf, op, &key, operand))
    }
}

fn growth_of_spelled(kind: ScalarKind, bytes: &[u8], added: &ScalarKey) -> Option<u128>
    ensures { MatchOption result (SpellsNone (IsKey kind) spelled bytes.now) (IsAnswerOf (IsKey kind) spelled bytes.now (λ key. growth key added.now)) }
{
    if is_cut(kind) {
        let cuts = cuts_from(kind, bytes)?;
        Some(growth_with(&cuts, added))
    } else {
        let key = fixed_from(kind, bytes)?;
        Some(growth_of(&key, added))
    }
}

/// Whether values of the type are cut in keys.
fn is_cut(kind: ScalarKind) -> bool
    ensures { IsTrue result ↔ ((kind ≡ kinds.Text) ⊎ (kind ≡ kinds.Bytea)) }
{
    matches!(kind, ScalarKind::Text | ScalarKind::Bytea)
}

fn test_cuts(cuts: &Cuts<'_>, at_leaf: bool, op: ScalarOp, operand: &Scalar) -> Test
    ensures { result ≡ key_test at_leaf op (Cut (part_with cuts.now.low.now cuts.now.low_more) (part_with cuts.now.high.now cuts.now.high_more)) operand.now }
{
    let operand = match operand {
        Scalar::Text(bytes) => bytes.as_slice(),
        Scalar::Bytea(bytes) => bytes.as_slice(),
        _ => return Test::No,
    };
    if at_leaf {
        test_part(op, cuts.low, cuts.low_more, operand)
    } else {
        test_parts(op, cuts.low, cuts.high, operand)
    }
}

fn growth_with(cuts: &Cuts<'_>, added: &ScalarKey) -> u128
    ensures { result ≡ growth (Cut (part_with cuts.now.low.now cuts.now.low_more) (part_with cuts.now.high.now cuts.now.high_more)) added.now }
{
    match added {
        ScalarKey::Cut { lo, hi } => growth_of_cuts(cuts.low, cuts.high, lo, hi),
        _ => 0,
    }
}
