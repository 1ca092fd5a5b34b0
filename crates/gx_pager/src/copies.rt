//! Copies of pages.

ghost use Rattle.std.specs.Prelude.{◌≡◌, IfOk};

use gx_pages::Page;
use std::alloc::{AllocError, Global};

/// Copies a page.
pub fn copy(from: &Page, into: &mut Page)
    ensures { into.new ≡ from.now }
{
    into.bytes_mut().copy_from_slice(from.bytes());
}

/// Copies a page into a box.
pub fn copy_in(from: &Page, into: &mut Box<Page>)
    ensures { into.new.value ≡ from.now }
{
    copy(from, into.as_mut());
}

/// A copy of a page in a box of its own.
pub fn boxed(alloc: Global, from: &Page) -> Result<Box<Page>, AllocError>
    ensures { IfOk result (λ page. page.value ≡ from.now) }
{
    let mut page = Box::new(alloc, Page::zero())?;
    copy_in(from, &mut page);
    Ok(page)
}
