//! The header on page 0, and the first catalog page.

ghost use Rattle.std.specs.Prelude.{◌≡◌, ℕ, ◌^◌, ◌<◌, length};
ghost use Rattle.gx_bytes.specs.Fields.{le64, paste};
ghost use Rattle.gx_pages.specs.Databases.{header_of, catalog_page};
ghost use Rattle.gx_pages.specs.Frees.{HasCount, HasFirst};

use crate::page::Page;
use gx_bytes::{get_u64, put_u16, put_u32, put_u64};

/// The bytes PGIX.
const MAGIC: u32 = 1481197392;

/// The format of the pages.
const FORMAT: u32 = 2;

/// The kind of a catalog page.
const CATALOG: u8 = 3;

/// The page of the first catalog page.
const FIRST_CATALOG: u64 = 1;

/// The header of a database with so many pages, none of them free.
pub fn header_page(count: u64) -> Page
    ensures bytes { result ≡ header_of count }
    ensures counted { HasCount result count }
{
    let mut page = Page::zero();
    let bytes = page.bytes_mut();
    put_u32(bytes, 0, MAGIC);
    put_u32(bytes, 4, FORMAT);
    put_u64(bytes, 8, count);
    put_u64(bytes, 24, FIRST_CATALOG);
    page
}

/// An empty catalog page, with none behind it.
pub fn empty_catalog() -> Page
    ensures { result ≡ catalog_page }
{
    let mut page = Page::zero();
    let bytes = page.bytes_mut();
    bytes[0] = CATALOG;
    put_u16(bytes, 4, 8192);
    page
}

/// The first free page, or 0.
pub fn first_free(header: &Page) -> u64
    ensures first { HasFirst header.now result }
    ensures fits { result < 2 ^ 64 }
    ensures len { length header.now ≡ 8192 }
{
    match get_u64(header.bytes(), 16) {
        Some(first) => first,
        None => unreachable!(),
    }
}

/// Writes the count into a header.
pub fn set_count(header: &mut Page, count: u64)
    ensures field { header.new ≡ paste header.old 8 (le64 count) }
    ensures counted { HasCount header.new count }
    ensures len { length header.old ≡ 8192 }
{
    put_u64(header.bytes_mut(), 8, count);
}

/// Writes the first free page into a header.
pub fn set_first_free(header: &mut Page, first: u64)
    ensures field { header.new ≡ paste header.old 16 (le64 first) }
    ensures counted { (count : ℕ) → HasCount header.old count → HasCount header.new count }
    ensures len { length header.old ≡ 8192 }
{
    put_u64(header.bytes_mut(), 16, first);
}
