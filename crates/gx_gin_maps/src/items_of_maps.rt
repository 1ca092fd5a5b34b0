//! Items of maps.

ghost use Rattle.std.specs.Prelude.{◌≡◌, [], ◌∷◌, ◌++◌, map, IfOk, OnOk};
ghost use Rattle.gx_gin.specs.Rising.{rising_of};
ghost use Rattle.gx_hstore_items.specs.Items.{key_item, pair_items};
ghost use Rattle.gx_gin_items.specs.Items.{shortened};
ghost use Rattle.gx_gin_maps.specs.Tests.{items, pair_item};

use gx_bytes::{Bytes, NoMemory};
use gx_gin::{Items, Strings};
use gx_gin_items::push_short;
use gx_hstore::Entry;
use gx_hstore_items::{push_key_item, push_value_item};
use std::alloc::Global;

/// The items of these pairs.
pub fn items_of(alloc: Global, pairs: &[Entry]) -> Result<Items, NoMemory>
    ensures { IfOk result (λ made. made ≡ items pairs.now) }
{
    let mut strings = Strings::new(alloc);
    let mut item = Bytes::new(alloc);
    for pair in pairs {
        push_pair(&mut strings, &mut item, pair)?;
    }
    Items::of(strings)
}

/// The items of these keys with their values.
pub fn value_items_of(alloc: Global, pairs: &[Entry]) -> Result<Items, NoMemory>
    ensures { IfOk result (λ made. made ≡ rising_of (map shortened (map pair_item pairs.now))) }
{
    let mut strings = Strings::new(alloc);
    let mut item = Bytes::new(alloc);
    for pair in pairs {
        push_value(&mut strings, &mut item, pair)?;
    }
    Items::of(strings)
}

/// The items of these keys.
pub fn key_items_of(alloc: Global, keys: &[Bytes]) -> Result<Items, NoMemory>
    ensures { IfOk result (λ made. made ≡ rising_of (map shortened (map key_item keys.now))) }
{
    let mut strings = Strings::new(alloc);
    let mut item = Bytes::new(alloc);
    for key in keys {
        push_key(&mut strings, &mut item, key.as_slice())?;
    }
    Items::of(strings)
}

/// The item of one key.
pub fn key_item_of(alloc: Global, key: &[u8]) -> Result<Items, NoMemory>
    ensures { IfOk result (λ made. made ≡ rising_of (map shortened (map key_item (key.now ∷ [])))) }
{
    let mut strings = Strings::new(alloc);
    push_key(&mut strings, &mut Bytes::new(alloc), key)?;
    Items::of(strings)
}

/// Adds both items of a pair at the end. Each is built in `item`.
fn push_pair(to: &mut Strings, item: &mut Bytes, pair: &Entry) -> Result<(), NoMemory>
    ensures { OnOk result (to.new ≡ to.old ++ map shortened (pair_items pair.now)) }
{
    push_key(to, item, pair.0.as_slice())?;
    push_value(to, item, pair)
}

/// Adds the item of a key at the end.
fn push_key(to: &mut Strings, item: &mut Bytes, key: &[u8]) -> Result<(), NoMemory>
    ensures { OnOk result (to.new ≡ to.old ++ shortened (key_item key.now) ∷ []) }
{
    item.truncate(0);
    push_key_item(item, key)?;
    push_short(to, item.as_slice())
}

/// Adds the item of a key with its value at the end.
fn push_value(to: &mut Strings, item: &mut Bytes, pair: &Entry) -> Result<(), NoMemory>
    ensures { OnOk result (to.new ≡ to.old ++ shortened (pair_item pair.now) ∷ []) }
{
    item.truncate(0);
    match &pair.1 {
        None => push_value_item(item, pair.0.as_slice(), None)?,
        Some(value) => push_value_item(item, pair.0.as_slice(), Some(value.as_slice()))?,
    }
    push_short(to, item.as_slice())
}
