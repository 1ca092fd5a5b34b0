//! The keys of items, and what uniting them gives.

ghost use Rattle.std.specs.Prelude.{◌≡◌, ◌⊎◌, ℕ, ◌+◌, ◌<◌, ◌≤◌, List, [], ◌∷◌, ◌++◌, length, take, All, Contains, IfOk, IfErr};
ghost use Rattle.gx_gist_tree.specs.Insertion.{AreKeys, IsKeyOf, IsUnion, head_len, picked};

use crate::reading::no_item;
use gx_bytes::Bytes;
use gx_gist::{GistClass, Keys};
use gx_pages::PageError;
use std::alloc::Global;

/// How many bytes of an item stand before its key.
fn head_of(level: u8) -> usize
    ensures { result ≡ head_len level }
{
    if level == 0 { 18 } else { 8 }
}

/// The key of an item.
fn key_of<C: GistClass>(
    alloc: Global,
    class: &C,
    item: &[u8],
    level: u8,
    page: u64,
) -> Result<C::Key, PageError>
    requires class { C.valid class.now }
    ensures ok { IfOk result (λ key. IsKeyOf (C.valid_key class.now) (C.spelling class.now) (head_len level) item.now key) }
    ensures cause { IfErr result (λ error. (error ≡ PageError.Memory) ⊎ ((error ≡ PageError.Broken page 1 0)
        × ((key : C.Key) → IsKeyOf (C.valid_key class.now) (C.spelling class.now) (head_len level) item.now key → ⊥))) }
{
    let Some((_head, bytes)) = item.split_at_checked(head_of(level)) else {
        return Err(no_item(page));
    };
    let Ok(found) = class.read(alloc, bytes) else {
        return Err(PageError::Memory);
    };
    let Some(key) = found else {
        return Err(no_item(page));
    };
    Ok(key)
}

/// The keys of items.
pub fn keys_of<C: GistClass>(
    alloc: Global,
    class: &C,
    items: &[Bytes],
    level: u8,
    page: u64,
) -> Result<Keys<C::Key>, PageError>
    requires class { C.valid class.now }
    ensures ok { IfOk result (λ keys. AreKeys (C.valid_key class.now) (C.spelling class.now) (head_len level) items.now keys) }
    ensures cause { IfErr result (λ error. (error ≡ PageError.Memory) ⊎ ((error ≡ PageError.Broken page 1 0)
        × ((keys : List C.Key) → AreKeys (C.valid_key class.now) (C.spelling class.now) (head_len level) items.now keys → ⊥))) }
{
    let mut keys = Keys::new(alloc);
    for item in items {
        let key = key_of(alloc, class, item.as_slice(), level, page)?;
        let Ok(()) = keys.push(key) else {
            return Err(PageError::Memory);
        };
    }
    Ok(keys)
}

/// What stands at the k-th of these places.
pub fn picked_at<'a, X>(xs: &'a [X], places: &[u32], k: usize) -> &'a X
    requires places { All (λ place. place < length xs.now) places.now }
    requires within { k < length places.now }
    ensures next { picked xs.now (take (k + 1) places.now) ≡ picked xs.now (take k places.now) ++ result.now ∷ [] }
    ensures among { Contains xs.now result.now }
{
    let place = places[k] as usize;
    &xs[place]
}

/// What uniting the keys at these places one by one gives.
pub fn united_key<C: GistClass>(
    alloc: Global,
    class: &C,
    keys: &[C::Key],
    places: &[u32],
) -> Result<C::Key, PageError>
    requires class { C.valid class.now }
    requires keys { All (λ key. C.valid_key class.now key) keys.now }
    requires places { All (λ place. place < length keys.now) places.now }
    requires several { 2 ≤ length places.now }
    ensures valid { IfOk result (λ key. C.valid_key class.now key) }
    ensures union { IfOk result (IsUnion (C.union_of class.now) (picked keys.now places.now)) }
    ensures err { IfErr result (λ error. error ≡ PageError.Memory) }
{
    let first = picked_at(keys, places, 0);
    let second = picked_at(keys, places, 1);
    let Ok(both) = class.union(alloc, first, second) else {
        return Err(PageError::Memory);
    };
    let mut united = both;
    for k in 2..places.len() {
        let next = picked_at(keys, places, k);
        let Ok(more) = class.union(alloc, &united, next) else {
            return Err(PageError::Memory);
        };
        united = more;
    }
    Ok(united)
}
