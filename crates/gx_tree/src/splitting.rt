//! The items of a page on one page, or on two.

ghost use Rattle.std.specs.Prelude.{◌≡◌, ℕ, ◌+◌, ◌*◌, ◌^◌, ◌<◌, ◌≤◌, List, length, map, take, drop, min, slice_get, Option, Some, None, IfSome, IfNone};
ghost use Rattle.gx_tree.specs.Paging.{IsMiddle, weight};
ghost use Rattle.gx_tree.specs.Trees.{slots};

use crate::items::Items;
use gx_slot::SlotPage;

/// A page with the items from one on up to another. None where they don't fit.
pub fn page_with(kind: u8, level: u8, items: &Items, from: usize, end: usize) -> Option<SlotPage>
    ensures some { IfSome result (λ made. from ≤ end → made ≡ slots kind level (map (λ item. Some item) (drop from (take end items.now)))) }
    ensures none { IfNone result (end ≤ length items.now → 8176 < weight (drop from (take end items.now))) }
{
    let mut made = SlotPage::new(kind, level);
    for at in from..end {
        let Some(item) = items.get(at) else {
            return None;
        };
        match made.add(item) {
            Ok(_) => (),
            Err(_) => return None,
        }
    }
    Some(made)
}

/// How many bytes the first items take on a page.
fn weight_before(items: &Items, end: usize) -> u64
    ensures { end ≤ length items.now → weight (take end items.now) < 2 ^ 32 → result ≡ weight (take end items.now) }
{
    let mut sum: u64 = 0;
    for at in 0..end {
        let Some(item) = items.get(at) else {
            return sum;
        };
        let size = item.len();
        let more = sum.saturating_add(4);
        sum = more.saturating_add(size as u64);
    }
    sum
}

/// The place where half of the bytes stand before.
pub fn middle_of(items: &Items) -> usize
    ensures { weight items.now < 2 ^ 32 → 0 < length items.now → IsMiddle items.now result }
{
    let len = items.len();
    let total = weight_before(items, len);
    let mut sum: u64 = 0;
    for at in 0..len {
        let Some(item) = items.get(at) else {
            return len;
        };
        let size = item.len();
        let more = sum.saturating_add(4);
        let next = more.saturating_add(size as u64);
        let twice = next.saturating_add(next);
        if total <= twice {
            return at + 1;
        }
        sum = next;
    }
    len
}
