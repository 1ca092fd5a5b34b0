//! Free pages.

ghost use Rattle.std.specs.Prelude.{◌≡◌, ◌≢◌, ℕ, ◌^◌, ◌<◌, IfSome, IfNone};
ghost use Rattle.gx_pages.specs.Frees.{free_page_of};

use crate::page::Page;
use gx_bytes::{get_u64, put_u16, put_u64};

/// The kind of a free page.
pub const FREE: u8 = 7;

/// Where the items of a slot page without items begin: its end.
const END: u16 = 8192;

/// The page that is free, with this free page behind it in the chain, or 0.
pub fn free_page(next: u64) -> Page
    ensures { result ≡ free_page_of next }
{
    let mut page = Page::zero();
    let bytes = page.bytes_mut();
    bytes[0] = FREE;
    put_u16(bytes, 4, END);
    put_u64(bytes, 8, next);
    page
}

/// The free page behind this one in the chain, or 0. None where the page isn't a free one.
pub fn next_free(page: &Page) -> Option<u64>
    ensures some { IfSome result (λ next. page.now ≡ free_page_of next) }
    ensures fits { IfSome result (λ next. next < 2 ^ 64) }
    ensures none { IfNone result ((next : ℕ) → next < 2 ^ 64 → page.now ≢ free_page_of next) }
{
    let bytes = page.bytes();
    let next = get_u64(bytes, 8)?;
    let free = free_page(next);
    if bytes == free.bytes() {
        Some(next)
    } else {
        None
    }
}
