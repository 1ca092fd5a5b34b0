//! Flags of items.

ghost use Rattle.std.specs.Prelude.{◌≡◌, ◌<◌, [], length, slice_index_or, bytes_eq};
ghost use Rattle.gx_gin_items.specs.Tests as tests;

use gx_gin::Items;
use gx_gist::Test;

/// Tells whether each wanted item was found.
pub fn all_found(found: &[bool]) -> bool
    ensures { result ≡ tests.all_found found.now }
{
    found.iter().all(|f| *f)
}

/// Tells whether some wanted item was found.
pub fn some_found(found: &[bool]) -> bool
    ensures { result ≡ tests.some_found found.now }
{
    found.iter().any(|f| *f)
}

/// Yes where a condition holds, else No.
pub fn sure(holds: bool) -> Test
    ensures { result ≡ tests.sure holds }
{
    if holds { Test::Yes } else { Test::No }
}

/// Maybe where a condition holds, else No.
pub fn maybe(holds: bool) -> Test
    ensures { result ≡ tests.maybe holds }
{
    if holds { Test::Maybe } else { Test::No }
}

/// The place of an item, which is the number of items where it isn't among them.
pub fn place_of(items: &Items, item: &[u8]) -> usize
    ensures { result ≡ tests.place_in items.now item.now }
{
    for at in 0..items.len() {
        if stands_at(items, at, item) {
            return at;
        }
    }
    items.len()
}

/// Tells whether the item stands at this place.
fn stands_at(items: &Items, at: usize, item: &[u8]) -> bool
    requires { at < length items.now }
    ensures { result ≡ bytes_eq (slice_index_or items.now at []) item.now }
{
    match items.get(at) {
        Some(other) => other == item,
        None => false,
    }
}
