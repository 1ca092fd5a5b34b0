//! Reads of slot pages, beside plain copies of their bytes.

use gx_pages::{MemoryPages, Page, Pages};
use gx_slot::SlotPage;
use std::io;
use std::rt::Clock;
use std::time::Instant;

const ROUNDS: u32 = 1_000_000;

pub fn run<R: Clock + Print + AllocGlobal>(rt: &R) -> io::Result<()> {
    println!(rt; "pages: milliseconds for {ROUNDS} rounds")?;
    copies(rt)?;
    for items in [0, 1, 50, 100, 250] {
        let Ok(mut pages) = MemoryPages::new(rt.alloc()) else {
            return Ok(());
        };
        let Ok(page) = pages.take() else {
            return Ok(());
        };
        if pages.put(page, page_of(items).page()).is_ok() {
            reads(rt, &mut pages, page, items)?;
        }
    }
    Ok(())
}

/// A heap page with so many items of 20 bytes.
fn page_of(items: u8) -> SlotPage {
    let mut slots = SlotPage::new(2, 0);
    for number in 0..items {
        let _ = slots.add(&[number; 20]);
    }
    slots
}

fn copies<R: Clock + Print>(rt: &R) -> io::Result<()> {
    let slots = page_of(250);
    let mut into = Page::zero();
    let mut sum = 0u64;
    let start = Instant::now(rt)?;
    for round in 0..ROUNDS {
        into.bytes_mut().copy_from_slice(slots.page().bytes());
        let bytes = into.bytes();
        sum = sum.wrapping_add(u64::from(bytes[round as usize % 8192]));
    }
    let took = start.elapsed(rt)?.as_millis();
    println!(rt; "copy of a page: {took} (sum {sum})")
}

/// The time in which the page is fetched and read so often, with one item of it.
fn reads<R: Clock + Print>(
    rt: &R,
    pages: &mut MemoryPages,
    page: u64,
    items: u8,
) -> io::Result<()> {
    let mut sum = 0u64;
    let mut bytes = Page::zero();
    let start = Instant::now(rt)?;
    for round in 0..ROUNDS {
        if pages.fetch(page, &mut bytes).is_ok() {
            sum = sum.wrapping_add(len_of(&bytes, page, (round % 250) as u16));
        }
    }
    let took = start.elapsed(rt)?.as_millis();
    println!(rt; "fetch and read of {items} items: {took} (sum {sum})")
}

/// How long an item of the page is, or 0.
fn len_of(bytes: &Page, page: u64, slot: u16) -> u64 {
    let Ok(slots) = SlotPage::read(bytes, page, 2) else {
        return 0;
    };
    match slots.item(slot) {
        Some(item) => item.len() as u64,
        None => 0,
    }
}
