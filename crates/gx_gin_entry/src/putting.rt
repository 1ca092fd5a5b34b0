//! An entry that is put.

ghost use Rattle.std.specs.Prelude.{◌≡◌, ℕ, ◌+◌, ◌≤◌, List, ◌∷◌, ◌++◌, length, map, true, false, IfOk, IfErr};
ghost use Rattle.gx_bytes.specs.Fields.{le16};
ghost use Rattle.gx_tree.specs.Trees.{IsBrokenOr};
ghost use Rattle.gx_gin_entry.specs.EntryTrees.{AreListed, AreShorter, Entry, IsReplaced, entry_bytes, key_bytes};

use crate::keys::{reaches_key, split_entry};
use crate::places::{broken, find_in};
use gx_bytes::{Bytes, NoMemory};
use gx_pages::PageError;
use gx_slot::SlotPage;
use gx_tree::{Change, Edit, Seek};
use std::alloc::Global;

/// A number in two bytes.
#[tactic(auto, unfolding(gx_bytes::specs::Fields::le16))]
fn two_bytes(alloc: Global, number: u16) -> Result<Bytes, NoMemory>
    ensures { IfOk result (λ made. made ≡ le16 number) }
{
    Bytes::from_slice(alloc, &number.to_le_bytes())
}

/// A key with its length in two bytes.
fn own_bytes(alloc: Global, key: &[u8]) -> Result<Bytes, NoMemory>
    requires { length key.now ≤ 1901 }
    ensures { IfOk result (λ made. made ≡ key_bytes key.now) }
{
    let len = key.len() as u16;
    let mut made = two_bytes(alloc, len)?;
    made.extend_from_slice(key)?;
    Ok(made)
}

/// An entry that is put: its key and its posting; its key with the length; and its item.
#[derive(Drop)]
pub struct Putting<'a> {
    pub key: &'a [u8],
    pub posting: &'a [u8],
    pub own: Bytes,
    pub item: Bytes,
    pub ghost key_fits: { length key.now ≤ 1901 },
    pub ghost posting_fits: { length posting.now ≤ 513 },
    pub ghost own_is: { own ≡ key_bytes key.now },
    pub ghost item_is: { item ≡ entry_bytes (key.now, posting.now) },
}

impl<'a> Putting<'a> {
    pub fn new(alloc: Global, key: &'a [u8], posting: &'a [u8]) -> Result<Putting<'a>, NoMemory>
        requires key { length key.now ≤ 1901 }
        requires posting { length posting.now ≤ 513 }
        ensures key { IfOk result (λ made. made.key.now ≡ key.now) }
        ensures posting { IfOk result (λ made. made.posting.now ≡ posting.now) }
    {
        let own = own_bytes(alloc, key)?;
        let mut item = Bytes::from_slice(alloc, own.as_slice())?;
        item.extend_from_slice(posting)?;
        Ok(Putting {
            key,
            posting,
            own,
            item,
        })
    }
}

/// Puts another posting at a key that is there, where it has room. False where it isn't there, or has none.
pub fn replace_in(page: u64, slots: &mut SlotPage, change: &Putting) -> Result<bool, PageError>
    ensures replaced { IfOk result (λ done. done ≡ true → (list : List Entry) → AreListed slots.old.items list → IsReplaced slots.new.items list change.now.key.now change.now.posting.now) }
    ensures same { slots.new ≡ record slots.old { items = slots.new.items } }
    ensures shorter { IfOk result (λ done. done ≡ false → (list : List Entry) → AreListed slots.old.items list → AreShorter list change.now.key.now change.now.posting.now) }
    ensures cause { IfErr result (IsBrokenOr page ((list : List Entry) → AreListed slots.old.items list → ⊥)) }
{
    let Some(place) = find_in(slots, change.key) else {
        return Err(broken(page));
    };
    if place.here {
        return match slots.replace(place.slot, change.item.as_slice()) {
            Ok(()) => Ok(true),
            Err(_) => Ok(false),
        };
    }
    Ok(false)
}

impl<'a> Seek for Putting<'a> {
    ghost use Rattle.gx_gin_entry.specs.EntryTrees.{by_key, key_bytes};
    ghost use Rattle.gx_gin_entry.specs.Keys.{lawful as keys_are_ordered};

    ghost order = { by_key };

    ghost sought = { λ s. key_bytes s.key.now };

    ghost lawful = { keys_are_ordered };

    fn reaches(&self, key: &[u8]) -> Option<bool> {
        reaches_key(key, self.key)
    }
}

impl<'a> Change for Putting<'a> {
    ghost use Rattle.gx_gin_entry.specs.EntryTrees.{Puts};

    ghost allows = { λ s item. Unit {0} };

    ghost edits = { λ s was is. Puts s.key.now s.posting.now was is };

    fn own(&self) -> &[u8] {
        self.own.as_slice()
    }

    fn edit(&self, alloc: Global, slots: &SlotPage) -> Result<Option<Edit>, NoMemory> {
        let Some(place) = find_in(slots, self.key) else {
            return Ok(None);
        };
        let item = Bytes::from_slice(alloc, self.item.as_slice())?;
        if place.here {
            return Ok(Some(Edit {
                place: place.slot,
                behind: place.slot + 1,
                item,
            }));
        }
        Ok(Some(Edit {
            place: place.slot,
            behind: place.slot,
            item,
        }))
    }

    fn key_of(&self, alloc: Global, item: &[u8]) -> Result<Option<Bytes>, NoMemory> {
        let Some((key, _)) = split_entry(item) else {
            return Ok(None);
        };
        if key.len() > 1901 {
            return Ok(None);
        }
        let own = own_bytes(alloc, key)?;
        Ok(Some(own))
    }
}
