//! Page 0, the header.

ghost use Rattle.std.specs.Prelude.{◌≡◌, ◌≢◌, ℕ, ◌^◌, ◌<◌, ◌≤◌, take, drop, None, Some, MatchResult};
ghost use Rattle.gx_bytes.specs.Fields.{le32, le64};
ghost use Rattle.gx_pages.specs.Frees.{HasCount, HasFirst};
ghost use Rattle.gx_pager.specs.Headers.{wrong_number, wrong_field};

use gx_bytes::{get_u32, get_u64};
use gx_pages::{Page, PageError};

/// The bytes PGIX.
const MAGIC: u32 = 1481197392;

/// The format of the pages.
const FORMAT: u32 = 2;

/// The greatest count.
const MOST: u64 = 1 << 50;

/// What the header says: the format, how many pages there are, the first free page or 0, the first catalog page.
#[derive(Clone, Copy, Debug, Drop, PartialEq, Eq)]
pub struct Header {
    pub format: u32,
    pub count: u64,
    pub free: u64,
    pub catalog: u64,
}

/// The fields of page 0.
pub fn fields_of(page: &Page) -> Header
    ensures format { take 4 (drop 4 page.now) ≡ le32 result.format }
    ensures count { HasCount page.now result.count }
    ensures fits { result.count < 2 ^ 64 }
    ensures free { HasFirst page.now result.free }
    ensures catalog { take 8 (drop 24 page.now) ≡ le64 result.catalog }
{
    let bytes = page.bytes();
    let (Some(format), Some(count), Some(free), Some(catalog)) = (
        get_u32(bytes, 4),
        get_u64(bytes, 8),
        get_u64(bytes, 16),
        get_u64(bytes, 24),
    ) else {
        unreachable!()
    };
    Header {
        format,
        count,
        free,
        catalog,
    }
}

/// Tests page 0, and answers the count.
pub fn test_header(page: &Page) -> Result<u64, PageError>
    ensures { MatchResult result (λ count. HasCount page.now count × (0 < count) × (count ≤ 2 ^ 50) × (wrong_field page.now ≡ None))
        (λ error. (expected : ℕ) × (found : ℕ) × (expected ≢ found) × (error ≡ PageError.Broken 0 expected found) × (wrong_field page.now ≡ Some (expected, found))) }
{
    let bytes = page.bytes();
    let (Some(magic), Some(format), Some(count)) = (
        get_u32(bytes, 0),
        get_u32(bytes, 4),
        get_u64(bytes, 8),
    ) else {
        unreachable!()
    };
    match test_numbers(magic, format, count) {
        Ok(()) => Ok(count),
        Err(error) => Err(error),
    }
}

// Tests the numbers of a header, in this order. Of formats there is one so far.
fn test_numbers(magic: u32, format: u32, count: u64) -> Result<(), PageError>
    ensures ranges { (magic < 2 ^ 32) × (format < 2 ^ 32) × (count < 2 ^ 64) }
    ensures wrong { MatchResult result (λ _. (0 < count) × (count ≤ 2 ^ 50) × (wrong_number magic format count ≡ None))
        (λ error. (expected : ℕ) × (found : ℕ) × (expected ≢ found) × (error ≡ PageError.Broken 0 expected found) × (wrong_number magic format count ≡ Some (expected, found))) }
{
    if magic != MAGIC {
        return Err(broken(MAGIC as u64, magic as u64));
    }
    match format {
        FORMAT => (),
        other => return Err(broken(FORMAT as u64, other as u64)),
    }
    if count < 2 {
        return Err(broken(2, count));
    }
    if count > MOST {
        return Err(broken(MOST, count));
    }
    Ok(())
}

fn broken(expected: u64, found: u64) -> PageError
    ensures { result ≡ PageError.Broken 0 expected found }
{
    PageError::Broken {
        page: 0,
        expected,
        found,
    }
}
