//! Lists of rows, and walks over those that a test takes.

ghost use Rattle.std.specs.Prelude.{◌≡◌, ◌<◌, ◌==◌, length};

use gx_bitmap::{Rescan, RowTest, and, or};
use gx_bytes::NoMemory;
use gx_heap::Heap;
use gx_pages::{Bitmap, MemoryPages, RowRef, Steps};
use std::alloc::Global;
use std::marker::Brand;
use std::sync::ledger::{Blank, Ledger};
use std::test::Fail;

// The rows with these numbers, all on one page.
fn rows_of(alloc: Global, numbers: &[u64], page: u64) -> Result<Option<Bitmap>, Fail> {
    let mut rows = Vec::new(alloc);
    for number in numbers {
        rows.push(RowRef {
            number: *number,
            page,
            slot: 0,
        })?;
    }
    Ok(Bitmap::of(rows))
}

// Whether these are the rows, each by its number and its page.
fn are(rows: &Bitmap, wanted: &[(u64, u64)]) -> bool {
    let rows = rows.as_slice();
    rows.len() == wanted.len()
        && rows.iter().zip(wanted.iter()).all(|(row, (number, page))| row.number == *number
            && row.page == *page)
}

// The first list's rows stand on page 2, the second one's on page 3: a common row is the first one's, once.
#[test]
fn in_both_and_in_one(rt: HostRuntime) -> Result<(), Fail> {
    let alloc = rt.alloc();
    for (left, right, both, either) in [
        (&[][..], &[][..], &[][..], &[][..]),
        (&[], &[5], &[], &[(5, 3)]),
        (&[1, 2], &[], &[], &[(1, 2), (2, 2)]),
        (
            &[1, 3, 5],
            &[2, 3, 6],
            &[(3, 2)],
            &[(1, 2), (2, 3), (3, 2), (5, 2), (6, 3)],
        ),
        (
            &[9, 1, 4],
            &[4, 9, 1],
            &[(1, 2), (4, 2), (9, 2)],
            &[(1, 2), (4, 2), (9, 2)],
        ),
        (&[8], &[7, 9], &[], &[(7, 3), (8, 2), (9, 3)]),
    ] {
        let left = rows_of(alloc, left, 2)?.ok_or("a number stands twice")?;
        let right = rows_of(alloc, right, 3)?.ok_or("a number stands twice")?;
        assert!(rt; are(&and(alloc, &left, &right)?, both));
        assert!(rt; are(&or(alloc, &left, &right)?, either));
    }
    assert!(rt; rows_of(alloc, &[3, 1, 3], 2)?.is_none());
    Ok(())
}

// The test of rows of a length.
#[derive(Drop)]
struct HasLength(usize);

impl RowTest for HasLength {
    ghost passes = { λ t bytes. length bytes == t.0 };

    fn recheck(&self, bytes: &[u8]) -> Result<bool, NoMemory> {
        Ok(bytes.len() == self.0)
    }
}

// What a walk gave: the numbers, and how many pages it fetched.
struct Walked {
    numbers: Vec<u64>,
    fetches: u64,
}

#[test]
fn rows_that_pass(rt: HostRuntime) -> Result<(), Fail> {
    let alloc = rt.alloc();
    for (candidates, wanted, fetches) in [
        (&[][..], &[][..], 0),
        (&[1, 2, 3], &[1, 3], 1),
        (&[2, 4, 6, 8], &[], 3),
        (&[1, 2, 3, 4, 7, 8, 9], &[1, 3, 7, 9], 3),
        (&[5, 9], &[5, 9], 2),
        (&[1, 2, 3, 4, 5, 6, 7, 8, 9], &[1, 3, 5, 7, 9], 3),
    ] {
        let Walked {
            numbers,
            fetches: fetched,
        } = walk_over::<Brand>(alloc, candidates, Blank::new(1))?;
        assert_eq!(rt; numbers.as_slice() == wanted, true);
        assert_eq!(rt; fetched, fetches);
    }
    Ok(())
}

// Nine rows stand three to a page, those of an odd number with 2,700 bytes and the others with one fewer: the walk over
// those of these numbers gives the odd ones.
fn walk_over<L: Ledger>(alloc: Global, numbers: &[u64], blank: Blank) -> Result<Walked, Fail>
    requires name { blank.name ≡ L.name }
    requires parts { blank.parts ≡ L.parts }
    requires some { 0 < blank.parts }
{
    let mut steps = Steps::<L>::new(blank);
    let mut pages = MemoryPages::new(alloc)?;
    let mut heap = Heap::create(&mut pages)?;
    let mut candidates = Vec::new(alloc);
    for number in 1..10u64 {
        if heap.next >= 1000 {
            break;
        }
        let row = if number % 2 == 1 {
            &[7; 2700][..]
        } else {
            &[7; 2699]
        };
        let at = heap.append(alloc, &mut pages, row, &mut steps)?;
        if numbers.contains(&number) {
            candidates.push(at)?;
        }
    }
    let rows = Bitmap::of(candidates).ok_or("a number stands twice")?;
    let mut scan = Rescan::new(rows, HasLength(2700));
    let before = pages.fetches();
    let mut passed = Vec::new(alloc);
    for _ in 0..20 {
        let Some((at, row)) = scan.next(alloc, &mut pages, &heap, &mut steps)? else {
            break;
        };
        if row.len() == 2700 {
            passed.push(at.number)?;
        }
    }
    Ok(Walked {
        numbers: passed,
        fetches: pages.fetches().saturating_sub(before),
    })
}
