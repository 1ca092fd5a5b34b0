//! Sources that give little at a time, and that fail.

use crate::portions::Portions;
use crate::running::{empty_database, host_of, image_of, read_again, run};
use crate::script::{PIECES, pieces_ended, reading, replies, script};
use gx_disk::{Image, MemoryHost, Pick};
use gx_io::MemorySource;
use std::alloc::Global;
use std::test::Fail;

// A run of the script on an empty database, with so many bytes a read, and with a read that fails.
fn run_in_portions(
    alloc: Global,
    start: &Image,
    most: usize,
    failing: u64,
) -> Result<(u8, MemoryHost), Fail> {
    let source = MemorySource::new(alloc, &script(alloc)?, &[failing])?;
    let mut portions = Portions { source, most };
    let mut host = host_of(alloc, start, &[], &[])?;
    let status = run(alloc, &["run", "db"], &mut portions, &mut host)?;
    Ok((status, host))
}

#[test]
fn portions_alike(rt: HostRuntime) -> Result<(), Fail> {
    let alloc = rt.alloc();
    let start = empty_database(alloc)?;
    let all = replies(alloc, PIECES.len())?;
    for most in [1, 7, usize::MAX] {
        let (status, host) = run_in_portions(alloc, &start, most, u64::MAX)?;
        assert_eq!(rt; status, 1);
        assert!(rt; host.answered() == all.as_slice(), "{most} bytes a read");
    }
    Ok(())
}

#[test]
fn each_read(rt: HostRuntime) -> Result<(), Fail> {
    let alloc = rt.alloc();
    let start = empty_database(alloc)?;
    let len = script(alloc)?.len();
    let mut taken = 0usize;
    for number in 1..2000 {
        let (status, host) = run_in_portions(alloc, &start, 7, number)?;
        let pieces = pieces_ended(taken);
        assert_eq!(rt; status, 4);
        assert!(rt;
            host.answered() == replies(alloc, pieces)?.as_slice(),
            "read {number}"
        );
        let left = image_of(alloc, &host, u64::MAX, Pick::Filled)?;
        let read = read_again(alloc, &left)?;
        assert!(rt; read.as_slice() == reading(pieces), "read {number}");
        if taken == len {
            return Ok(());
        }
        taken = taken.saturating_add(7).min(len);
    }
    assert!(rt; false, "the script's end wasn't read");
    Ok(())
}
