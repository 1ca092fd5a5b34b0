//! Items that are appended to a chain of pages.

use gx_chain::Chain;
use gx_pages::MemoryPages;
use std::io;
use std::rt::Clock;
use std::time::Instant;

const ITEMS: u32 = 100_000;

pub fn run<R: Clock + Print + AllocGlobal>(rt: &R) -> io::Result<()> {
    let Ok(mut pages) = MemoryPages::new(rt.alloc()) else {
        return Ok(());
    };
    let Ok(mut chain) = Chain::create(&mut pages, 2) else {
        return Ok(());
    };
    let mut added = 0u32;
    let start = Instant::now(rt)?;
    for _ in 0..ITEMS {
        added = added.wrapping_add(u32::from(chain.append(&mut pages, 2, &[7; 40]).is_ok()));
    }
    let took = start.elapsed(rt)?.as_millis();
    println!(rt;
        "chain: {added} appends in {took} ms, on {} pages",
        chain.pages
    )
}
