//! Whether bytes are those of a slot page.

ghost use Rattle.std.specs.Prelude.{◌≡◌, ◌≢◌, ℕ, ◌+◌, ◌≤◌, ◌↔◌, IsTrue, [], ◌∷◌, length, take, drop, replicate, IfSome, IfNone, IfErr, OnOk, OnErr};
ghost use Rattle.gx_slot.specs.Slots.{IsBroken, IsSlotPage, IsSpelled, entries, read, slot_of};
ghost use Rattle.gx_slot.specs.Tables.{IsEntry, IsTable};

use crate::layout::{field_at, next_of, read_count};
use gx_pages::{Page, PageError};

/// Whether the page is a slot page of this kind. Broken, with its number, where it is none.
pub fn check_page(page: &Page, number: u64, kind: u8) -> Result<(), PageError>
    ensures ok { OnOk result (IsSpelled page.now × ((read page.now).kind ≡ kind)) }
    ensures err { OnErr result (¬ IsSlotPage page.now kind) }
    ensures cause { IfErr result (λ error. IsBroken number error) }
{
    let bytes = page.bytes();
    let found = u64::from(bytes[0]);
    let expected = u64::from(kind);
    if found != expected {
        return Err(PageError::Broken {
            page: number,
            expected,
            found,
        });
    }
    let count = u64::from(read_count(bytes));
    if count > 2044 {
        return Err(PageError::Broken {
            page: number,
            expected: 2044,
            found: count,
        });
    }
    if !is_spelled(bytes) {
        return Err(PageError::Broken {
            page: number,
            expected: 1,
            found: 0,
        });
    }
    Ok(())
}

/// Whether the page is the spelling of what it is read as.
pub fn is_spelled(page: &[u8]) -> bool
    requires len { length page.now ≡ 8192 }
    requires few { length (read page.now).items ≤ 2044 }
    ensures { IsTrue result ↔ IsSpelled page.now }
{
    let count = read_count(page);
    let Some(start) = items_begin(page, count) else {
        return false;
    };
    let _next = next_of(page);
    let table = 16 + 4 * count as usize;
    if field_at(page, 4) != start || field_at(page, 6) != 0 || start < table {
        return false;
    }
    are_zeros(&page[table..start])
}

// A page of zeros, to compare with.
static ZEROS: [u8; 8192] = [0; 8192];

fn are_zeros(part: &[u8]) -> bool
    requires { length part.now ≤ 8192 }
    ensures { IsTrue result ↔ (part.now ≡ replicate (length part.now) 0) }
{
    are_equal(part, &ZEROS[..part.len()])
}

fn are_equal(one: &[u8], other: &[u8]) -> bool
    ensures { IsTrue result ↔ (one.now ≡ other.now) }
{
    one == other
}

/// Where the items of the table begin. None where an entry isn't as it has to be.
fn items_begin(page: &[u8], count: u16) -> Option<usize>
    requires len { length page.now ≡ 8192 }
    requires few { count ≤ 2044 }
    requires count { count ≡ length (read page.now).items }
    ensures some { IfSome result (λ start. IsTable page.now count start) }
    ensures none { IfNone result (¬ IsSpelled page.now) }
{
    let mut end = 8192;
    for slot in 0..count {
        let Some(start) = item_begins(page, 16 + 4 * slot as usize, end) else {
            return None;
        };
        end = start;
    }
    Some(end)
}

/// Where the item of the slot begins whose entry stands at a place, if it ends at `end`. None where the entry isn't so.
fn item_begins(page: &[u8], at: usize, end: usize) -> Option<usize>
    requires len { length page.now ≡ 8192 }
    requires within { at + 4 ≤ 8192 }
    requires end { end ≤ 8192 }
    ensures some { IfSome result (λ start. IsEntry page.now at end start) }
    ensures none { IfNone result (take 4 (drop at page.now) ≢ entries end (slot_of page.now at ∷ [])) }
{
    let place = field_at(page, at);
    let len = field_at(page, at + 2);
    if place == 0 {
        if len != 0 {
            return None;
        }
        return Some(end);
    }
    if place + len != end {
        return None;
    }
    Some(place)
}
