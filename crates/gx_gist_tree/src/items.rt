//! The items of a tree's pages. One of level 0 is a row's number in eight bytes, its page in eight, its slot in two, and the
//! row's key; one of another level is the number of the page below it in eight bytes, and a key.

ghost use Rattle.std.specs.Prelude.{◌≡◌, ◌<◌, ◌^◌, ◌+◌, ◌++◌, ℕ, take, drop, length, IfOk, IfErr, IfSome, IfNone};
ghost use Rattle.gx_bytes.specs.Fields.{le16, le64};
ghost use Rattle.gx_gist_tree.specs.OnPages.{FitsFields, inner_item, leaf_item};

use gx_bytes::{Bytes, get_u16, get_u64, put_u16, put_u64};
use gx_gist::GistClass;
use gx_pages::{PageError, RowRef};
use std::alloc::Global;

/// The kind of a tree's page.
pub const GIST: u8 = 4;

/// The row and the key of an item of level 0. None where it is shorter than a row.
pub fn leaf_parts(item: &[u8]) -> Option<(RowRef, &[u8])>
    ensures number { IfSome result (λ parts. take 8 item.now ≡ le64 parts.0.number) }
    ensures page { IfSome result (λ parts. take 8 (drop 8 item.now) ≡ le64 parts.0.page) }
    ensures slot { IfSome result (λ parts. take 2 (drop 16 item.now) ≡ le16 parts.0.slot) }
    ensures key { IfSome result (λ parts. parts.1.now ≡ drop 18 item.now) }
    ensures fits { IfSome result (λ parts. FitsFields parts.0) }
    ensures none { IfNone result (length item.now < 18) }
{
    let number = get_u64(item, 0)?;
    let page = get_u64(item, 8)?;
    let slot = get_u16(item, 16)?;
    let (_, key) = item.split_at_checked(18)?;
    Some((RowRef { number, page, slot }, key))
}

/// The page below an item of another level, and its key. None where it is shorter than a page's number.
pub fn inner_parts(item: &[u8]) -> Option<(u64, &[u8])>
    ensures page { IfSome result (λ parts. take 8 item.now ≡ le64 parts.0) }
    ensures key { IfSome result (λ parts. parts.1.now ≡ drop 8 item.now) }
    ensures fits { IfSome result (λ parts. parts.0 < 2 ^ 64) }
    ensures none { IfNone result (length item.now < 8) }
{
    let page = get_u64(item, 0)?;
    let (_, key) = item.split_at_checked(8)?;
    Some((page, key))
}

/// The bytes of an item of level 0.
pub fn leaf_bytes<C: GistClass>(
    alloc: Global,
    class: &C,
    row: RowRef,
    key: &C::Key,
) -> Result<Bytes, PageError>
    requires class { C.valid class.now }
    requires key { C.valid_key class.now key.now }
    ensures ok { IfOk result (λ item. item ≡ leaf_item (C.spelling class.now) (row, key.now)) }
    ensures err { IfErr result (λ error. error ≡ PageError.Memory) }
{
    let head = row_bytes(row);
    with_key(alloc, class, &head, key)
}

/// The bytes of an item of another level.
pub fn inner_bytes<C: GistClass>(
    alloc: Global,
    class: &C,
    child: u64,
    key: &C::Key,
) -> Result<Bytes, PageError>
    requires class { C.valid class.now }
    requires key { C.valid_key class.now key.now }
    ensures ok { IfOk result (λ item. item ≡ inner_item (C.spelling class.now) child key.now) }
    ensures err { IfErr result (λ error. error ≡ PageError.Memory) }
{
    let head = page_bytes(child);
    with_key(alloc, class, &head, key)
}

fn row_bytes(row: RowRef) -> [u8; 18]
    ensures { result ≡ le64 row.number ++ le64 row.page ++ le16 row.slot }
{
    let mut head = [0; 18];
    put_u64(&mut head, 0, row.number);
    put_u64(&mut head, 8, row.page);
    put_u16(&mut head, 16, row.slot);
    head
}

fn page_bytes(page: u64) -> [u8; 8]
    ensures { result ≡ le64 page }
{
    let mut head = [0; 8];
    put_u64(&mut head, 0, page);
    head
}

/// A key's bytes behind others.
fn with_key<C: GistClass>(
    alloc: Global,
    class: &C,
    head: &[u8],
    key: &C::Key,
) -> Result<Bytes, PageError>
    requires class { C.valid class.now }
    requires key { C.valid_key class.now key.now }
    ensures ok { IfOk result (λ item. item ≡ head.now ++ C.spelling class.now key.now) }
    ensures err { IfErr result (λ error. error ≡ PageError.Memory) }
{
    let Ok(spelled) = class.write(alloc, key) else {
        return Err(PageError::Memory);
    };
    let Ok(mut item) = Bytes::from_slice(alloc, head) else {
        return Err(PageError::Memory);
    };
    let Ok(()) = item.extend_from_slice(spelled.as_slice()) else {
        return Err(PageError::Memory);
    };
    Ok(item)
}
