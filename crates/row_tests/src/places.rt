//! Where rows are put.

ghost use Rattle.std.specs.Prelude.{◌≡◌, ◌<◌};

use gx_heap::Heap;
use gx_pages::{Bitmap, MemoryPages, RowRef, Steps};
use std::alloc::Global;
use std::marker::Brand;
use std::sync::ledger::{Blank, Ledger};
use std::test::Fail;

// A row takes 12 bytes more than it has, and a page has room for 8,176.
#[test]
fn where_rows_stand(rt: HostRuntime) -> Result<(), Fail> {
    let alloc = rt.alloc();
    let (heap, places) = put_and_remove::<Brand>(alloc, Blank::new(1))?;
    let mut wanted = Vec::new(alloc);
    for (number, page, slot) in [
        // The second row fills page 2, the fourth one leaves 252 bytes on page 3.
        (1, 2, 0),
        (2, 2, 1),
        (3, 3, 0),
        (4, 3, 1),
        (5, 4, 0),
        (6, 4, 1),
        // Rows 3, 4 and 6 are gone, and page 3 is free: page 4 is the last one still, and its slots aren't used again.
        (7, 4, 2),
        // No room is left there: page 3 comes back.
        (8, 3, 0),
    ] {
        wanted.push(RowRef { number, page, slot })?;
    }
    assert_eq!(rt; places, wanted);
    assert_eq!(rt; (heap.first, heap.last, heap.next), (4, 3, 9));
    Ok(())
}

// Puts six rows, removes three and sweeps, puts two more, and removes those of the first page.
fn put_and_remove<L: Ledger>(alloc: Global, blank: Blank) -> Result<(Heap, Vec<RowRef>), Fail>
    requires name { blank.name ≡ L.name }
    requires parts { blank.parts ≡ L.parts }
    requires some { 0 < blank.parts }
{
    let mut steps = Steps::<L>::new(blank);
    let mut pages = MemoryPages::new(alloc)?;
    let mut heap = Heap::create(&mut pages)?;
    let mut places = Vec::new(alloc);
    for length in [7900, 252, 0, 7900, 241, 0] {
        put_row(
            alloc,
            &mut heap,
            &mut pages,
            length,
            &mut places,
            &mut steps,
        )?;
    }
    let gone = those_of(alloc, &places, &[3, 4, 6])?;
    heap.remove(&mut pages, &gone, &mut steps)?;
    heap.vacuum(&mut pages, &mut steps)?;
    for length in [0, 7900] {
        put_row(
            alloc,
            &mut heap,
            &mut pages,
            length,
            &mut places,
            &mut steps,
        )?;
    }
    let gone = those_of(alloc, &places, &[1, 2])?;
    heap.remove(&mut pages, &gone, &mut steps)?;
    heap.vacuum(&mut pages, &mut steps)?;
    Ok((heap, places))
}

// Puts a row of so many bytes, at most 7,900, and remembers where it stands.
fn put_row<L: Ledger>(
    alloc: Global,
    heap: &mut Heap,
    pages: &mut MemoryPages,
    length: usize,
    places: &mut Vec<RowRef>,
    steps: &mut Steps<L>,
) -> Result<(), Fail> {
    let long = [7; 7900];
    let row = long.get(..length).unwrap_or(&[]);
    if heap.next < 1000 && row.len() <= 7900 {
        places.push(heap.append(alloc, pages, row, steps)?)?;
    }
    Ok(())
}

// Those rows that have one of these numbers.
fn those_of(alloc: Global, places: &Vec<RowRef>, numbers: &[u64]) -> Result<Bitmap, Fail> {
    let mut rows = Vec::new(alloc);
    for at in places {
        if numbers.contains(&at.number) {
            rows.push(*at)?;
        }
    }
    Ok(Bitmap::of(rows).ok_or("a number stands twice")?)
}
