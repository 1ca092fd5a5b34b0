//! Disks that can't be opened, and pages that are lacking.

use gx_disk::{MemoryHost, Pick};
use gx_pager::{Pager, read_file};
use gx_pages::{Page, PageError, Pages};
use std::alloc::Global;
use std::test::Fail;

// The area Pages of an empty database, with these bytes from the place on.
fn formatted(alloc: Global, at: usize, bytes: &[u8]) -> Result<Vec<u8>, Fail> {
    let mut host = MemoryHost::new(alloc, &[], &[], &[], &[])?;
    Pager::format(&mut host)?;
    let calls = host.calls();
    let image = host.image(alloc, calls, Pick::Nothing)?;
    let mut pages = Vec::from_slice(alloc, image.pages.as_slice())?;
    for (byte, into) in bytes.iter().zip(pages.iter_mut().skip(at)) {
        *into = *byte;
    }
    Ok(pages)
}

/// What the area Pages has: so many zeros, or an empty database with these bytes from a place on.
#[derive(Clone, Copy, Debug, Drop)]
enum Start {
    Zeros(usize),
    Formatted(usize, &'static [u8]),
}

fn pages_of(alloc: Global, start: Start) -> Result<Vec<u8>, Fail> {
    match start {
        Start::Zeros(many) => {
            let mut pages = Vec::new(alloc);
            pages.resize(many, 0)?;
            Ok(pages)
        }
        Start::Formatted(at, bytes) => formatted(alloc, at, bytes),
    }
}

const EMPTY: Start = Start::Formatted(0, &[]);

// The area Pages, the area Log, and what is expected and found.
const DISKS: [(Start, &[u8], u64, u64); 11] = [
    (Start::Zeros(100), &[0], 8192, 100),
    (Start::Zeros(16_384), &[0], 1_481_197_392, 0),
    (Start::Formatted(4, &[3]), &[0], 2, 3),
    (Start::Formatted(4, &[1]), &[0], 2, 1),
    (Start::Formatted(8, &[1]), &[0], 2, 1),
    (
        Start::Formatted(8, &[1, 0, 0, 0, 0, 0, 4, 0]),
        &[0],
        1_125_899_906_842_624,
        1_125_899_906_842_625,
    ),
    (EMPTY, &[], 1, 0),
    (EMPTY, &[1], 9, 1),
    (EMPTY, &[1, 1, 0, 0, 0, 0, 0, 0, 0], 8209, 9),
    (
        EMPTY,
        &[1, 255, 255, 255, 255, 255, 255, 255, 255],
        18_446_744_073_709_551_615,
        9,
    ),
    // The log comes before page 0.
    (Start::Zeros(100), &[1], 9, 1),
];

// Whether the disk is refused so, and left as it was.
fn is_refused(
    alloc: Global,
    pages: &[u8],
    log: &[u8],
    expected: u64,
    found: u64,
) -> Result<bool, Fail> {
    let mut host = MemoryHost::new(alloc, pages, log, &[], &[])?;
    let broken = PageError::Broken {
        page: 0,
        expected,
        found,
    };
    let refused = match read_file(alloc, &mut host) {
        Ok(_) => false,
        Err(error) => error == broken,
    };
    let left = host.image(alloc, host.calls(), Pick::Filled)?;
    Ok(refused && left.pages.as_slice() == pages && left.log.as_slice() == log)
}

#[test]
fn refused(rt: HostRuntime) -> Result<(), Fail> {
    let alloc = rt.alloc();
    for (start, log, expected, found) in DISKS {
        let pages = pages_of(alloc, start)?;
        assert!(rt;
            is_refused(alloc, pages.as_slice(), log, expected, found)?,
            "{start:?}, {log:?}"
        );
    }
    Ok(())
}

#[test]
fn lacking_pages(rt: HostRuntime) -> Result<(), Fail> {
    let alloc = rt.alloc();
    let mut pages = formatted(alloc, 8, &[5])?;
    pages.resize(16_484, 0)?;
    let mut host = MemoryHost::new(alloc, &pages, &[0], &[], &[])?;
    let mut pager = Pager::open(alloc, &mut host)?;
    // Each page, and what is expected and found.
    let rows: [(u64, u64, u64); 3] = [(2, 8192, 100), (4, 8192, 0), (5, 4, 5)];
    for (page, expected, found) in rows {
        let mut into = Page::zero();
        let broken = PageError::Broken {
            page,
            expected,
            found,
        };
        assert_eq!(rt; pager.fetch(page, &mut into), Err(broken));
    }
    let _ = pager.close();
    Ok(())
}
