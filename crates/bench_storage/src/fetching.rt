//! A million fetches: from a store in memory, from the pages since the last checkpoint, from the cache, and from a file.

use crate::filling::{fill, fill_file, write_in_place};
use gx_disk::{FilesHost, Host};
use gx_pager::Pager;
use gx_pages::{MemoryPages, Page, Pages};
use std::io;
use std::rt::{Clock, Files};
use std::time::Instant;

const ROUNDS: u64 = 1_000_000;

/// So many pages have room in the cache.
const NEAR: u64 = 200;

/// Of so many pages, fetched in turn, none is in the cache when its turn comes again.
const FAR: u64 = 1_000;

/// Fetches pages of stores, the last of them over the file at this path, which is made anew.
pub fn fetches<R: Clock + Files + Print + AllocGlobal>(rt: &R, path: &str) -> io::Result<()> {
    println!(rt; "fetches: milliseconds for {ROUNDS} fetches")?;
    in_memory(rt)?;
    let Ok(mut host) = FilesHost::new(rt, rt.alloc(), path) else {
        return Ok(());
    };
    if fill_file(rt.alloc(), &mut host, NEAR).is_ok() {
        over(rt, "of pages since the last checkpoint", &mut host, NEAR)?;
    }
    if write_in_place(rt.alloc(), &mut host).is_ok() {
        over(rt, "of pages in the cache", &mut host, NEAR)?;
    }
    if fill_file(rt.alloc(), &mut host, FAR).is_ok()
        && write_in_place(rt.alloc(), &mut host).is_ok()
    {
        over(rt, "of pages of the file", &mut host, FAR)?;
    }
    Ok(())
}

fn in_memory<R: Clock + Print + AllocGlobal>(rt: &R) -> io::Result<()> {
    let Ok(mut pages) = MemoryPages::new(rt.alloc()) else {
        return Ok(());
    };
    if fill(&mut pages, NEAR).is_ok() {
        measure(rt, "of pages in memory", &mut pages, NEAR)?;
    }
    Ok(())
}

fn over<R: Clock + Print + AllocGlobal, H: Host>(
    rt: &R,
    name: &str,
    host: &mut H,
    many: u64,
) -> io::Result<()> {
    let Ok(mut pager) = Pager::open(rt.alloc(), host) else {
        return Ok(());
    };
    measure(rt, name, &mut pager, many)
}

fn measure<R: Clock + Print, P: Pages>(
    rt: &R,
    name: &str,
    pages: &mut P,
    many: u64,
) -> io::Result<()> {
    let start = Instant::now(rt)?;
    let fetched = fetch_in_turn(pages, many);
    let took = start.elapsed(rt)?.as_millis();
    println!(rt; "{name}: {took} ({fetched} fetched)")
}

/// Fetches the pages from 2 on, so many in turn, and tells how many fetches gave a page with the byte that it is filled with.
fn fetch_in_turn<P: Pages>(pages: &mut P, many: u64) -> u64 {
    let mut into = Page::zero();
    let mut fetched = 0u64;
    for round in 0..ROUNDS {
        let number = round.checked_rem(many).unwrap_or(0);
        let found = pages.fetch(number.wrapping_add(2), &mut into).is_ok();
        let byte = into.bytes()[round as usize % 8192];
        fetched = fetched.wrapping_add(u64::from(found && byte == (number % 250) as u8));
    }
    fetched
}
