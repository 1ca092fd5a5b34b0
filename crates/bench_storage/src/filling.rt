//! A file with pages, to be measured.

ghost use Rattle.std.specs.Prelude.{◌≡◌, false, OnOk};

use gx_disk::Host;
use gx_pager::{Keeper, Pager};
use gx_pages::{Page, PageError, Pages, Store};
use std::alloc::Global;

/// Takes so many pages, and puts each.
fn put_pages<P: Pages>(pages: &mut P, many: u64) -> Result<(), PageError>
    ensures { P.spoiled pages.new ≡ P.spoiled pages.old }
{
    for number in 0..many {
        put_page(pages, (number % 250) as u8)?;
    }
    Ok(())
}

/// Takes a page, and fills it.
fn put_page<P: Pages>(pages: &mut P, byte: u8) -> Result<(), PageError>
    ensures { P.spoiled pages.new ≡ P.spoiled pages.old }
{
    let mut page = Page::zero();
    page.bytes_mut().fill(byte);
    let taken = pages.take()?;
    pages.put(taken, &page)
}

/// Makes the pages from 2 on so many, in one commit.
pub fn fill<S: Store>(store: &mut S, many: u64) -> Result<(), PageError>
    requires { S.spoiled store.old ≡ false }
    ensures { OnOk result (S.spoiled store.new ≡ false) }
{
    store.begin();
    put_pages(store, many)?;
    store.reserve()?;
    store.commit()
}

/// Makes an empty database on the host, and then so many pages of it.
pub fn fill_file<H: Host>(alloc: Global, host: &mut H, many: u64) -> Result<(), PageError> {
    if Pager::format(host).is_err() {
        return Err(PageError::DiskFault);
    }
    let mut pager = Pager::open(alloc, host)?;
    fill(&mut pager, many)
}

/// Writes the pages in place.
pub fn write_in_place<H: Host>(alloc: Global, host: &mut H) -> Result<(), PageError> {
    let mut pager = Pager::open(alloc, host)?;
    match pager.checkpoint() {
        Ok(()) => Ok(()),
        Err(_) => Err(PageError::DiskFault),
    }
}
