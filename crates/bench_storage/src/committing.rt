//! Commits of one page, each on the disk when it is done.

ghost use Rattle.std.specs.Prelude.{◌≡◌, false, OnOk};

use crate::filling::fill_file;
use gx_disk::{FilesHost, Host};
use gx_pager::{Keeper, Pager};
use gx_pages::{Page, PageError};
use std::io;
use std::rt::{Clock, Files};
use std::time::Instant;

const COMMITS: u32 = 2_000;

/// Above so many waiting pages a checkpoint comes before the next commit.
const WAITING: u64 = 1_024;

/// Commits one page of the file at this path, which is made anew, again and again.
pub fn commits<R: Clock + Files + Print + AllocGlobal>(rt: &R, path: &str) -> io::Result<()> {
    let Ok(mut host) = FilesHost::new(rt, rt.alloc(), path) else {
        return Ok(());
    };
    if fill_file(rt.alloc(), &mut host, 1).is_ok() {
        measure(rt, &mut host)?;
    }
    Ok(())
}

fn measure<R: Clock + Print + AllocGlobal, H: Host>(rt: &R, host: &mut H) -> io::Result<()> {
    let Ok(mut pager) = Pager::open(rt.alloc(), host) else {
        return Ok(());
    };
    let start = Instant::now(rt)?;
    let done = commit_all(&mut pager);
    let took = start.elapsed(rt)?.as_micros();
    println!(rt; "commits: {done} of one page in {took} microseconds")
}

/// How many commits were made.
fn commit_all<K: Keeper>(store: &mut K) -> u32
    requires { K.spoiled store.old ≡ false }
{
    let mut done = 0u32;
    for round in 0..COMMITS {
        if commit_one(store, (round % 250) as u8).is_err() {
            return done;
        }
        done = done.wrapping_add(1);
    }
    done
}

fn commit_one<K: Keeper>(store: &mut K, byte: u8) -> Result<(), PageError>
    requires { K.spoiled store.old ≡ false }
    ensures { OnOk result (K.spoiled store.new ≡ false) }
{
    make_room(store)?;
    store.begin();
    let mut page = Page::zero();
    page.bytes_mut().fill(byte);
    store.put(2, &page)?;
    store.reserve()?;
    store.commit()
}

/// Makes a checkpoint where many pages wait for one.
fn make_room<K: Keeper>(store: &mut K) -> Result<(), PageError>
    requires { K.spoiled store.old ≡ false }
    ensures { OnOk result (K.spoiled store.new ≡ false) }
{
    if store.waiting() <= WAITING {
        return Ok(());
    }
    match store.checkpoint() {
        Ok(()) => Ok(()),
        Err(_) => Err(PageError::DiskFault),
    }
}
