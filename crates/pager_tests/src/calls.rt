//! Each call once: what is fetched, what waits, what is answered, and which calls of the disk are made.

ghost use Rattle.std.specs.Prelude.{◌≡◌, false, OnOk};
ghost use Rattle.gx_pager.specs.Memory.{changed};

use gx_disk::{Host, MemoryHost};
use gx_pager::{Header, Keeper, Pager};
use gx_pages::{Page, PageError, Pages, Store};
use std::alloc::Global;
use std::test::Fail;

// Takes a page, if it is asked to, puts page 2, and commits.
fn take_and_put<S: Store>(store: &mut S, take: bool) -> Result<(), PageError>
    requires { S.spoiled store.old ≡ false }
    ensures { OnOk result (S.spoiled store.new ≡ false) }
{
    store.begin();
    if take {
        let _ = store.take()?;
    }
    store.put(2, &Page::zero())?;
    match store.reserve() {
        Ok(()) => (),
        Err(error) => return Err(error),
    }
    match store.commit() {
        Ok(()) => Ok(()),
        Err(error) => Err(error),
    }
}

// How many pages wait after one more commit, and then after another opening.
fn waiting_after(alloc: Global, host: &mut MemoryHost, take: bool) -> Result<(u64, u64), Fail> {
    let mut pager = Pager::open(alloc, host)?;
    take_and_put(&mut pager, take)?;
    let waiting = pager.waiting();
    let _ = pager.close();
    Ok((waiting, waiting_now(alloc, host)?))
}

fn waiting_now(alloc: Global, host: &mut MemoryHost) -> Result<u64, Fail> {
    let pager = Pager::open(alloc, host)?;
    let waiting = pager.waiting();
    let _ = pager.close();
    Ok(waiting)
}

fn header_of(alloc: Global, host: &mut MemoryHost) -> Result<Header, Fail> {
    let pager = Pager::open(alloc, host)?;
    let header = pager.header();
    let _ = pager.close();
    Ok(header)
}

// How many pages wait after a checkpoint.
fn waiting_behind(alloc: Global, host: &mut MemoryHost) -> Result<u64, Fail> {
    let mut pager = Pager::open(alloc, host)?;
    pager.checkpoint()?;
    let waiting = pager.waiting();
    let _ = pager.close();
    Ok(waiting)
}

#[test]
fn waiting_pages(rt: HostRuntime) -> Result<(), Fail> {
    let alloc = rt.alloc();
    let mut host = MemoryHost::new(alloc, &[], &[], &[], &[])?;
    Pager::format(&mut host)?;
    let mut header = Header {
        format: 2,
        count: 2,
        free: 0,
        catalog: 1,
    };
    assert_eq!(rt; header_of(alloc, &mut host)?, header);
    assert_eq!(rt; waiting_now(alloc, &mut host)?, 0);
    // Page 0 and the page that was taken, then that page alone, then both and another one that was taken.
    for (take, waiting) in [(true, 2), (false, 3), (true, 6)] {
        let found = waiting_after(alloc, &mut host, take)?;
        assert_eq!(rt; found, (waiting, waiting));
    }
    assert_eq!(rt; waiting_behind(alloc, &mut host)?, 0);
    assert_eq!(rt; waiting_now(alloc, &mut host)?, 0);
    header.count = 4;
    assert_eq!(rt; header_of(alloc, &mut host)?, header);
    Ok(())
}

// Commits where no page was changed: the host is as it was.
fn commit_unchanged<H: Host>(pager: &mut Pager<H>) -> Result<(), PageError>
    requires sound { pager.old.spoiled ≡ false }
    requires unchanged { changed pager.old.layers ≡ 0 }
    ensures { pager.new.host.now ≡ pager.old.host.now }
{
    pager.commit()
}

// Commits a unit without changes.
fn commit_nothing<H: Host>(pager: &mut Pager<H>) -> Result<(), PageError>
    requires sound { pager.old.spoiled ≡ false }
    requires unchanged { changed pager.old.layers ≡ 0 }
{
    pager.begin();
    match pager.reserve() {
        Ok(()) => (),
        Err(error) => return Err(error),
    }
    commit_unchanged(pager)
}

#[test]
fn calls_of_the_disk(rt: HostRuntime) -> Result<(), Fail> {
    let alloc = rt.alloc();
    let mut host = MemoryHost::new(alloc, &[], &[], &[], &[])?;
    Pager::format(&mut host)?;
    let start = host.calls();
    let opened = Pager::open(alloc, &mut host)?;
    let _ = opened.close();
    let opening = host.calls().saturating_sub(start);
    // A commit of nothing and a second fetch of a page make no call.
    let mut pager = Pager::open(alloc, &mut host)?;
    commit_nothing(&mut pager)?;
    let mut into = Page::zero();
    for _ in 0..3 {
        pager.fetch(1, &mut into)?;
        pager.fetch(0, &mut into)?;
    }
    let _ = pager.close();
    let two = opening.saturating_add(opening);
    assert_eq!(rt; host.calls().saturating_sub(start), two.saturating_add(1));
    Ok(())
}

#[test]
fn answers(rt: HostRuntime) -> Result<(), Fail> {
    let alloc = rt.alloc();
    let mut host = MemoryHost::new(alloc, &[], &[], &[], &[2])?;
    Pager::format(&mut host)?;
    let mut pager = Pager::open(alloc, &mut host)?;
    pager.answer(b"INIT\n")?;
    assert!(rt; pager.answer(b"again").is_err());
    let _ = pager.close();
    assert!(rt; host.answered().starts_with(b"INIT\n"));
    Ok(())
}
