//! Keys in the items of pages.

ghost use Rattle.std.specs.Prelude.{◌≡◌, ◌≢◌, ℕ, ◌≤◌, ◌<◌, ◌^◌, List, length, MatchBool, MatchOption};
ghost use Rattle.gx_gin_entry.specs.EntryTrees.{Entry, IsBefore, IsEntry, entry_bytes, key_bytes};

use gx_bytes::get_u16;
use gx_tree::Seek;
use std::cmp::Ordering;

/// The key and the posting of an item of level 0. None where it has none.
pub fn split_entry(item: &[u8]) -> Option<(&[u8], &[u8])>
    ensures { MatchOption result ((entry : Entry) → IsEntry entry → item.now ≢ entry_bytes entry)
        (λ found. (item.now ≡ entry_bytes (found.0.now, found.1.now)) × (length found.0.now < 2 ^ 16)) }
{
    let Some(len) = get_u16(item, 0) else {
        return None;
    };
    let (_, rest) = item.split_at(2);
    let size = len as usize;
    if rest.len() < size {
        return None;
    }
    let (key, posting) = rest.split_at(size);
    Some((key, posting))
}

/// The key in the bytes of an item above level 0. None where they are none.
fn key_in(bytes: &[u8]) -> Option<&[u8]>
    ensures { MatchOption result ((key : List ℕ) → length key ≤ 1901 → bytes.now ≢ key_bytes key) (λ found. bytes.now ≡ key_bytes found.now) }
{
    let Some((key, posting)) = split_entry(bytes) else {
        return None;
    };
    let more = posting.len();
    if more == 0 {
        return Some(key);
    }
    None
}

/// Tells whether a key comes before another, in the order of bytes.
pub fn is_before(one: &[u8], other: &[u8]) -> bool
    ensures { MatchBool result (IsBefore one.now other.now) (IsBefore one.now other.now → ⊥) }
{
    match one.cmp(other) {
        Ordering::Less => true,
        Ordering::Equal => false,
        Ordering::Greater => false,
    }
}

/// Tells whether two keys are the same.
pub fn is_same(one: &[u8], other: &[u8]) -> bool
    ensures { MatchBool result (one.now ≡ other.now) (one.now ≢ other.now) }
{
    one == other
}

/// Tells whether a key isn't behind another. None where the bytes are no key.
pub fn reaches_key(bytes: &[u8], sought: &[u8]) -> Option<bool>
    ensures { MatchOption result ((key : List ℕ) → length key ≤ 1901 → bytes.now ≢ key_bytes key)
        (λ yes. (key : List ℕ) × (bytes.now ≡ key_bytes key) × MatchBool yes (IsBefore sought.now key → ⊥) (IsBefore sought.now key)) }
{
    let Some(key) = key_in(bytes) else {
        return None;
    };
    if is_before(sought, key) {
        return Some(false);
    }
    Some(true)
}

/// A key that is sought.
#[derive(Clone, Copy, Drop)]
pub struct Sought<'a> {
    pub key: &'a [u8],
}

impl<'a> Seek for Sought<'a> {
    ghost use Rattle.gx_gin_entry.specs.EntryTrees.{by_key, key_bytes};
    ghost use Rattle.gx_gin_entry.specs.Keys.{lawful as keys_are_ordered};

    ghost order = { by_key };

    ghost sought = { λ s. key_bytes s.key.now };

    ghost lawful = { keys_are_ordered };

    fn reaches(&self, key: &[u8]) -> Option<bool> {
        reaches_key(key, self.key)
    }
}
