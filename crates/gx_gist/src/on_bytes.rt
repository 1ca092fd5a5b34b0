//! Calls on keys as they stand on a page.

ghost use Rattle.std.specs.Prelude.{◌≡◌, IfOk, MatchOption, if◌then◌else◌};
ghost use Rattle.gx_gist.specs.Spelled.{SpellsNone, IsAnswerOf};

use crate::{GistClass, Test};
use gx_bytes::NoMemory;
use std::alloc::Global;

/// Tests and penalties of keys that are given by their bytes. A class whose keys are of fixed size
/// answers from the bytes alone; the others read the key first.
pub trait OnBytes: GistClass {
    /// The test of the key that these bytes spell, or None where they spell no key.
    fn test_bytes(
        &self,
        alloc: Global,
        bytes: &[u8],
        at_leaf: bool,
        query: &Self::Query,
    ) -> Result<Option<Test>, NoMemory>
        requires class { Self.valid self.now }
        requires query { Self.valid_query self.now query.now }
        ensures { IfOk result (λ found. MatchOption found (SpellsNone (Self.valid_key self.now) (Self.spelling self.now) bytes.now)
            (IsAnswerOf (Self.valid_key self.now) (Self.spelling self.now) bytes.now (λ key. if at_leaf then Self.leaf_test self.now key query.now else Self.inner_test self.now key query.now))) }
    {
        let Some(key) = self.read(alloc, bytes)? else {
            return Ok(None);
        };
        let test = self.test(alloc, &key, at_leaf, query)?;
        Ok(Some(test))
    }

    /// How much the key that these bytes spell grows where another is united with it, or None where
    /// they spell no key.
    fn penalty_bytes(
        &self,
        alloc: Global,
        bytes: &[u8],
        added: &Self::Key,
    ) -> Result<Option<u128>, NoMemory>
        requires class { Self.valid self.now }
        requires added { Self.valid_key self.now added.now }
        ensures { IfOk result (λ found. MatchOption found (SpellsNone (Self.valid_key self.now) (Self.spelling self.now) bytes.now)
            (IsAnswerOf (Self.valid_key self.now) (Self.spelling self.now) bytes.now (λ key. Self.growth self.now key added.now))) }
    {
        let Some(key) = self.read(alloc, bytes)? else {
            return Ok(None);
        };
        let penalty = self.penalty(alloc, &key, added)?;
        Ok(Some(penalty))
    }
}
