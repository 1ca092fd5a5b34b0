//! The bytes of a slot page.

ghost use Rattle.std.specs.Prelude.{◌≡◌, ℕ, ◌+◌, ◌-◌, ◌*◌, ◌^◌, ◌<◌, ◌≤◌, [], length, take, drop, replicate, slice_set, None, Some, OnOk, OnErr, IfOk, IfErr};
ghost use Rattle.std.specs.Option.{option_map};
ghost use Rattle.gx_bytes.specs.Fields.{le16, le64, of16, of64, paste};
ghost use Rattle.gx_slot.specs.Slots.{IsSpelled, growth, item_at, packed, read, slot_of, spelling, taken, with_item};

use gx_bytes::{get_u16, get_u64, put_u16, put_u64};
use thiserror::Error;

/// There is no room for an item on the page.
#[derive(Clone, Copy, Debug, PartialEq, Eq, Error)]
#[error("no room: {free} bytes are free")]
pub struct NoRoom {
    /// How many bytes are free.
    pub free: u16,
}

/// How many slots the page has.
pub fn count_of(page: &[u8]) -> u16
    requires len { length page.now ≡ 8192 }
    requires spelled { IsSpelled page.now }
    ensures { result ≡ length (read page.now).items }
{
    match get_u16(page, 2) {
        Some(count) => count,
        None => unreachable!(),
    }
}

/// Where the items begin.
fn start_of(page: &[u8]) -> u16
    requires len { length page.now ≡ 8192 }
    requires spelled { IsSpelled page.now }
    ensures { result ≡ 8192 - length (packed (read page.now).items) }
{
    match get_u16(page, 4) {
        Some(start) => start,
        None => unreachable!(),
    }
}

/// The number of the next page, or 0.
pub fn next_of(page: &[u8]) -> u64
    requires { length page.now ≡ 8192 }
    ensures next { result ≡ (read page.now).next }
    ensures bytes { take 8 (drop 8 page.now) ≡ le64 result }
{
    match get_u64(page, 8) {
        Some(next) => next,
        None => unreachable!(),
    }
}

pub fn field_at(page: &[u8], at: usize) -> usize
    requires len { length page.now ≡ 8192 }
    requires within { at + 2 ≤ 8192 }
    ensures field { result ≡ of16 (take 2 (drop at page.now)) }
    ensures bytes { take 2 (drop at page.now) ≡ le16 result }
    ensures small { result < 2 ^ 16 }
{
    match get_u16(page, at) {
        Some(field) => field as usize,
        None => unreachable!(),
    }
}

/// The item of the slot whose entry stands at a place.
pub fn slot_at(page: &[u8], at: usize) -> Option<&[u8]>
    requires len { length page.now ≡ 8192 }
    requires within { at + 4 ≤ 8192 }
    ensures { option_map (λ item. item.now) result ≡ slot_of page.now at }
{
    let from = field_at(page, at);
    if from == 0 {
        return None;
    }
    Some(part_of(page, from, field_at(page, at + 2)))
}

/// So many bytes from a place on, or those that are there.
fn part_of(page: &[u8], from: usize, len: usize) -> &[u8]
    ensures { result.now ≡ take len (drop from page.now) }
{
    let (_, rest) = page.split_at(from.min(page.len()));
    let (part, _) = rest.split_at(len.min(rest.len()));
    part
}

fn put_bytes(into: &mut [u8], at: usize, part: &[u8])
    requires { at + length part.now ≤ length into.old }
    ensures { into.new ≡ paste into.old at part.now }
{
    into[at..at + part.len()].copy_from_slice(part);
}

/// How many bytes are free behind the table.
pub fn free_of(page: &[u8]) -> u16
    requires len { length page.now ≡ 8192 }
    requires spelled { IsSpelled page.now }
    ensures { result + taken (read page.now).items ≡ 8176 }
{
    let table = 16 + 4 * count_of(page) as usize;
    let start = start_of(page) as usize;
    start.saturating_sub(table) as u16
}

/// Adds an empty slot.
pub fn add_empty(page: &mut [u8]) -> Result<u16, NoRoom>
    requires len { length page.old ≡ 8192 }
    requires spelled { IsSpelled page.old }
    ensures place { IfOk result (λ slot. slot ≡ length (read page.old).items) }
    ensures added { OnOk result (read page.new ≡ with_item (read page.old) None) }
    ensures refused { IfErr result (λ e. (e.free + taken (read page.old).items ≡ 8176) × (e.free < 4)) }
    ensures err { OnErr result (page.new ≡ page.old) }
    ensures spelled { IsSpelled page.new }
{
    let free = free_of(page);
    if free < 4 {
        return Err(NoRoom { free });
    }
    let count = count_of(page);
    put_u16(page, 2, count + 1);
    Ok(count)
}

/// Adds an item.
pub fn add_item(page: &mut [u8], item: &[u8]) -> Result<u16, NoRoom>
    requires len { length page.old ≡ 8192 }
    requires spelled { IsSpelled page.old }
    ensures place { IfOk result (λ slot. slot ≡ length (read page.old).items) }
    ensures added { OnOk result (read page.new ≡ with_item (read page.old) (Some item.now)) }
    ensures refused { IfErr result (λ e. (e.free + taken (read page.old).items ≡ 8176) × (e.free < 4 + length item.now)) }
    ensures err { OnErr result (page.new ≡ page.old) }
    ensures spelled { IsSpelled page.new }
{
    let free = free_of(page);
    if (free as usize) < 4 || (free as usize - 4) < item.len() {
        return Err(NoRoom { free });
    }
    let count = count_of(page);
    let place = 16 + 4 * count as usize + free as usize - item.len();
    let entry = 16 + 4 * count as usize;
    put_bytes(page, place, item);
    put_u16(page, entry, place as u16);
    put_u16(page, entry + 2, item.len() as u16);
    put_u16(page, 4, place as u16);
    put_u16(page, 2, count + 1);
    Ok(count)
}

pub fn put_next(page: &mut [u8], next: u64)
    requires len { length page.old ≡ 8192 }
    requires spelled { IsSpelled page.old }
    ensures next { read page.new ≡ record (read page.old) { next = next } }
    ensures spelled { IsSpelled page.new }
{
    put_u64(page, 8, next);
}

/// How many slots the page is read as.
pub fn read_count(page: &[u8]) -> u16
    requires { length page.now ≡ 8192 }
    ensures count { result ≡ length (read page.now).items }
    ensures bytes { take 2 (drop 2 page.now) ≡ le16 result }
{
    field_at(page, 2) as u16
}

/// The item of a slot.
pub fn item_of(page: &[u8], slot: u16) -> Option<&[u8]>
    requires len { length page.now ≡ 8192 }
    requires few { length (read page.now).items ≤ 2044 }
    ensures { option_map (λ item. item.now) result ≡ item_at (read page.now).items slot }
{
    if slot >= read_count(page) {
        return None;
    }
    slot_at(page, 16 + 4 * slot as usize)
}

/// The item that a slot is to have, where another slot is to have another item or none.
pub fn part_at<'a>(page: &'a [u8], slot: u16, at: u16, item: Option<&'a [u8]>) -> Option<&'a [u8]>
    requires len { length page.now ≡ 8192 }
    requires few { length (read page.now).items ≤ 2044 }
    requires within { slot < length (read page.now).items }
    ensures { option_map (λ item. item.now) result ≡ item_at (slice_set (read page.now).items at (option_map (λ item. item.now) item.entry)) slot }
{
    if slot == at {
        item
    } else {
        item_of(page, slot)
    }
}

/// Writes the header of a page without items.
pub fn begin(page: &mut [u8], kind: u8, level: u8)
    requires { page.old ≡ replicate 8192 0 }
    ensures read { read page.new ≡ record { kind = kind; level = level; next = 0; items = [] } }
    ensures spelled { IsSpelled page.new }
{
    put_bytes(page, 0, &[kind, level]);
    put_u16(page, 4, 8192);
}
