//! Broken logs, and records that are whole or absent after a stop at any moment.

ghost use Rattle.std.specs.Prelude.{◌≤◌};

use gx_disk::{Disk, Image, MemoryHost, Pick};
use gx_log::{Images, Log, LogError};
use gx_pages::Page;
use std::alloc::{AllocError, Global};
use std::test::Fail;

// The gate 1, and a count of eight bytes.
const ONE: [u8; 9] = [1, 1, 0, 0, 0, 0, 0, 0, 0];

const NONE: [u8; 9] = [1, 0, 0, 0, 0, 0, 0, 0, 0];

const GREATEST: [u8; 9] = [1, 255, 255, 255, 255, 255, 255, 255, 255];

// Whether opening and replaying this log are refused so.
fn is_refused(alloc: Global, log: &Log, bytes: &[u8], broken: LogError) -> Result<bool, Fail> {
    let mut host = MemoryHost::new(alloc, &[], bytes, &[], &[])?;
    let mut images = Images::new(alloc);
    if log.replay(&mut host, &mut images) != Err(broken) {
        return Ok(false);
    }
    match Log::open(alloc, &mut host) {
        Ok(_) => Ok(false),
        Err(fault) => Ok(fault == broken),
    }
}

#[test]
fn broken_logs(rt: HostRuntime) -> Result<(), Fail> {
    let alloc = rt.alloc();
    let mut sound = MemoryHost::new(alloc, &[], &[0], &[], &[])?;
    let log = Log::open(alloc, &mut sound)?;
    let logs: [(&[u8], u64, u64, u64); 5] = [
        (&[], 0, 1, 0),
        (&[1], 0, 9, 1),
        (&ONE, 0, 8209, 9),
        (&GREATEST, 0, u64::MAX, 9),
        (&NONE, 9, 10, 9),
    ];
    for (bytes, page, expected, found) in logs {
        let broken = LogError::Broken {
            page,
            expected,
            found,
        };
        assert!(rt; is_refused(alloc, &log, bytes, broken)?);
    }
    Ok(())
}

fn page_of(alloc: Global, byte: u8) -> Result<Box<Page>, AllocError> {
    let mut page = Page::zero();
    let bytes = page.bytes_mut();
    bytes.fill(byte);
    Ok(Box::new(alloc, page)?)
}

fn first_byte(images: &Images, page: u64) -> u8 {
    match images.get(&page) {
        Some(page) => {
            let bytes = page.bytes();
            bytes[0]
        }
        None => 0,
    }
}

// The first bytes of the pages 0 to 2, as a log's records give them, 0 where there is no image; and how many entries the
// records have.
type Found = ([u8; 3], u64);

fn pages_of(alloc: Global, image: &Image) -> Result<Found, Fail> {
    let mut host = MemoryHost::new(
        alloc,
        image.pages.as_slice(),
        image.log.as_slice(),
        &[],
        &[],
    )?;
    let log = Log::open(alloc, &mut host)?;
    let mut images = Images::new(alloc);
    let entries = log.replay(&mut host, &mut images)?;
    Ok((
        [
            first_byte(&images, 0),
            first_byte(&images, 1),
            first_byte(&images, 2),
        ],
        entries,
    ))
}

// Whether after so many calls each image gives one of these.
fn leaves(
    alloc: Global,
    host: &MemoryHost,
    calls: u64,
    one: Found,
    other: Found,
) -> Result<bool, Fail>
    requires { calls ≤ host.now.calls }
{
    for pick in [Pick::Nothing, Pick::All, Pick::Filled] {
        let found = pages_of(alloc, &host.image(alloc, calls, pick)?)?;
        if found != one && found != other {
            return Ok(false);
        }
    }
    Ok(true)
}

// The same after each number of calls from this one on, and of the second alone after all calls.
fn leaves_since(
    alloc: Global,
    host: &MemoryHost,
    from: u64,
    before: Found,
    after: Found,
) -> Result<bool, Fail> {
    let end = host.calls();
    for calls in from..end {
        if !leaves(alloc, host, calls, before, after)? {
            return Ok(false);
        }
    }
    leaves(alloc, host, end, after, after)
}

// Adds a record of two pages, each of one byte.
fn append_two(
    alloc: Global,
    host: &mut MemoryHost,
    log: &mut Log,
    pages: [(u64, u8); 2],
) -> Result<bool, Fail> {
    let mut images = Images::new(alloc);
    for (page, byte) in pages {
        images.insert(page, page_of(alloc, byte)?)?;
    }
    if images.len() > 9 || log.front() > 1_000_000 {
        return Ok(false);
    }
    log.append(host, &images)?;
    Ok(true)
}

#[test]
fn whole_or_absent(rt: HostRuntime) -> Result<(), Fail> {
    let alloc = rt.alloc();
    let mut host = MemoryHost::new(alloc, &[], &[0], &[], &[])?;
    let mut log = Log::open(alloc, &mut host)?;
    // Each record's pages, and what its log then gives.
    let records: [([(u64, u8); 2], Found); 3] = [
        ([(1, 11), (1 << 50, 12)], ([0, 11, 0], 2)),
        ([(1, 21), (2, 22)], ([0, 21, 22], 4)),
        ([(0, 30), (u64::MAX, 31)], ([30, 21, 22], 6)),
    ];
    let none = ([0, 0, 0], 0);
    let mut before = none;
    for (pages, after) in records {
        let calls = host.calls();
        assert!(rt; append_two(alloc, &mut host, &mut log, pages)?);
        assert!(rt; leaves_since(alloc, &host, calls, before, after)?);
        before = after;
    }
    let calls = host.calls();
    log.reset(&mut host)?;
    assert!(rt; log.front() == 0);
    assert!(rt; leaves_since(alloc, &host, calls, before, none)?);
    Ok(())
}

// A record is written with one call for each image, the front's gate alone behind a sync, and one sync more.
#[test]
fn calls_of_an_append(rt: HostRuntime) -> Result<(), Fail> {
    let alloc = rt.alloc();
    let mut host = MemoryHost::new(alloc, &[], &[0], &[], &[])?;
    let mut log = Log::open(alloc, &mut host)?;
    let mut images = Images::new(alloc);
    for (number, calls) in [(0, 4), (1, 4), (2, 5), (3, 6)] {
        if number > 0 {
            images.insert(number, page_of(alloc, 7)?)?;
        }
        let before = host.calls();
        assert!(rt; images.len() < 10);
        assert!(rt; log.front() < 1_000_000);
        log.append(&mut host, &images)?;
        assert!(rt; before <= host.calls());
        assert_eq!(rt; host.calls() - before, calls);
    }
    Ok(())
}

// After a call that failed the log is as it was.
#[test]
fn a_failed_append(rt: HostRuntime) -> Result<(), Fail> {
    let alloc = rt.alloc();
    let mut host = MemoryHost::new(alloc, &[], &[0], &[6], &[])?;
    let mut log = Log::open(alloc, &mut host)?;
    let images = Images::new(alloc);
    assert!(rt; log.front() < 1_000_000);
    assert!(rt; log.append(&mut host, &images).is_err());
    assert_eq!(rt; log.front(), 0);
    Ok(())
}
