//! How long rows take.

ghost use Rattle.std.specs.Prelude.{◌≡◌, ◌<◌, false, IfOk, IsSome};

use crate::adding::{ROWS, add};
use crate::reading::{LOOKED_UP, look_up, scan};
use gx_disk::{FilesHost, Host};
use gx_heap::Heap;
use gx_pager::{Keeper, Pager};
use gx_pages::{MemoryPages, Pages, RowRef, Steps, Store};
use std::io;
use std::marker::Brand;
use std::rt::{Clock, Files};
use std::sync::ledger::{Blank, Ledger};
use std::time::Instant;

/// Adds and reads rows on pages in memory, and on pages of the file at this path, which is made anew.
pub fn rows<R: Clock + Files + Print + AllocGlobal>(rt: &R, path: &str) -> io::Result<()> {
    println!(rt;
        "rows: microseconds for {ROWS} rows of 40 bytes, and {LOOKED_UP} that are looked up"
    )?;
    in_memory::<_, Brand>(rt, Blank::new(1))?;
    let Ok(mut host) = FilesHost::new(rt, rt.alloc(), path) else {
        return Ok(());
    };
    if Pager::format(&mut host).is_err() {
        return Ok(());
    }
    on_file::<_, _, Brand>(rt, &mut host, Blank::new(1))
}

fn in_memory<R: Clock + Print + AllocGlobal, L: Ledger>(rt: &R, blank: Blank) -> io::Result<()>
    requires name { blank.name ≡ L.name }
    requires parts { blank.parts ≡ L.parts }
    requires some { 0 < blank.parts }
{
    let mut steps = Steps::<L>::new(blank);
    let Ok(mut pages) = MemoryPages::new(rt.alloc()) else {
        return Ok(());
    };
    if let Some((heap, places)) = adds(rt, "in memory", &mut pages, &mut steps)? {
        reads(
            rt,
            "in memory",
            &mut pages,
            &heap,
            places.as_slice(),
            &mut steps,
        )?;
    }
    Ok(())
}

fn on_file<R: Clock + Print + AllocGlobal, H: Host, L: Ledger>(
    rt: &R,
    host: &mut H,
    blank: Blank,
) -> io::Result<()>
    requires name { blank.name ≡ L.name }
    requires parts { blank.parts ≡ L.parts }
    requires some { 0 < blank.parts }
{
    let mut steps = Steps::<L>::new(blank);
    let Some((heap, places)) = add_to_file(rt, host, &mut steps)? else {
        return Ok(());
    };
    if let Ok(mut pager) = Pager::open(rt.alloc(), host) {
        reads(
            rt,
            "on a file",
            &mut pager,
            &heap,
            places.as_slice(),
            &mut steps,
        )?;
    }
    Ok(())
}

/// Adds the rows to the database on the host, and writes its pages in place.
fn add_to_file<R: Clock + Print + AllocGlobal, H: Host, L: Ledger>(
    rt: &R,
    host: &mut H,
    steps: &mut Steps<L>,
) -> io::Result<Option<(Heap, Vec<RowRef>)>> {
    let Ok(mut pager) = Pager::open(rt.alloc(), host) else {
        return Ok(None);
    };
    let Some(added) = adds(rt, "on a file", &mut pager, steps)? else {
        return Ok(None);
    };
    if pager.checkpoint().is_err() {
        return Ok(None);
    }
    Ok(Some(added))
}

/// Adds rows, and prints how long it takes.
fn adds<R: Clock + Print + AllocGlobal, S: Store, L: Ledger>(
    rt: &R,
    name: &str,
    store: &mut S,
    steps: &mut Steps<L>,
) -> io::Result<Option<(Heap, Vec<RowRef>)>>
    requires { S.spoiled store.old ≡ false }
    ensures { IfOk result (λ added. IsSome added → S.spoiled store.new ≡ false) }
{
    let start = Instant::now(rt)?;
    let Ok(added) = add(rt.alloc(), store, steps) else {
        return Ok(None);
    };
    let took = start.elapsed(rt)?.as_micros();
    println!(rt; "{name}, added and committed: {took}")?;
    Ok(Some(added))
}

/// Reads all rows, and looks up some, and prints how long it takes.
fn reads<R: Clock + Print + AllocGlobal, P: Pages, L: Ledger>(
    rt: &R,
    name: &str,
    pages: &mut P,
    heap: &Heap,
    places: &[RowRef],
    steps: &mut Steps<L>,
) -> io::Result<()> {
    let start = Instant::now(rt)?;
    let found = scan(rt.alloc(), pages, heap, steps);
    let scanned = start.elapsed(rt)?.as_micros();
    println!(rt; "{name}, scanned: {scanned} ({found} rows)")?;
    let start = Instant::now(rt)?;
    let bytes = look_up(rt.alloc(), pages, heap, places, steps);
    let took = start.elapsed(rt)?.as_micros();
    println!(rt; "{name}, looked up: {took} ({bytes} bytes)")
}
