//! Crashes at each call of the disk, and each call failing.

use crate::running::{PICKS, empty_database, host_of, image_of, read_again, run_script};
use crate::script::{PIECES, pieces_replied, reading, replies, script};
use gx_disk::{Image, MemoryHost};
use std::alloc::Global;
use std::test::Fail;

// Whether an image is read as what is committed behind so many pieces, or behind one more.
fn is_before_or_after(alloc: Global, image: &Image, pieces: usize) -> Result<bool, Fail> {
    let read = read_again(alloc, image)?;
    Ok(read.as_slice() == reading(pieces) || read.as_slice() == reading(pieces.saturating_add(1)))
}

#[test]
fn the_whole_script(rt: HostRuntime) -> Result<(), Fail> {
    let alloc = rt.alloc();
    let start = empty_database(alloc)?;
    let mut host = host_of(alloc, &start, &[], &[])?;
    assert_eq!(rt; run_script(alloc, &script(alloc)?, &mut host)?, 1);
    assert!(rt; host.answered() == replies(alloc, PIECES.len())?.as_slice());
    for pick in PICKS {
        let left = image_of(alloc, &host, u64::MAX, pick)?;
        let read = read_again(alloc, &left)?;
        assert!(rt; read.as_slice() == reading(PIECES.len()), "{pick:?}");
    }
    Ok(())
}

// A run of the script on an empty database, stopped by the failure of a disk call.
fn stopped_at(alloc: Global, start: &Image, call: u64) -> Result<(u8, MemoryHost), Fail> {
    let mut host = host_of(alloc, start, &[call], &[])?;
    let status = run_script(alloc, &script(alloc)?, &mut host)?;
    Ok((status, host))
}

#[test]
fn each_disk_call(rt: HostRuntime) -> Result<(), Fail> {
    let alloc = rt.alloc();
    let start = empty_database(alloc)?;
    let mut whole = host_of(alloc, &start, &[], &[])?;
    run_script(alloc, &script(alloc)?, &mut whole)?;
    for before in 0..whole.calls() {
        let (status, mut stopped) = stopped_at(alloc, &start, before + 1)?;
        assert_eq!(rt; status, 3);
        let Some(pieces) = pieces_replied(stopped.answered()) else {
            assert!(rt; false, "replies that end within one, at call {before}");
            continue;
        };
        for pick in PICKS {
            let crashed = image_of(alloc, &whole, before, pick)?;
            assert!(rt;
                is_before_or_after(alloc, &crashed, pieces)?,
                "{before} {pick:?}"
            );
            let failed = image_of(alloc, &stopped, u64::MAX, pick)?;
            assert!(rt;
                is_before_or_after(alloc, &failed, pieces)?,
                "failed {before} {pick:?}"
            );
        }
    }
    Ok(())
}
