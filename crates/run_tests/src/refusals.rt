//! Words that are none, files that hold no database, and making one.

use crate::running::{PICKS, empty_database, host_of, image_of, read_again, run, run_script};
use crate::script::{READ, reading};
use gx_disk::{MemoryHost, Pick};
use gx_io::{MemorySource, Source};
use std::alloc::Global;
use std::test::Fail;

#[test]
fn other_words(rt: HostRuntime) -> Result<(), Fail> {
    let alloc = rt.alloc();
    let rows: [&[&str]; 8] = [
        &[],
        &["run"],
        &["init"],
        &["RUN", "db"],
        &["try", "db"],
        &["init", "db", "overwrite"],
        &["run", "db", "--overwrite"],
        &["init", "db", "--overwrite", "db"],
    ];
    for words in rows {
        let mut source = MemorySource::new(alloc, READ, &[])?;
        let mut host = MemoryHost::new(alloc, &[], &[0], &[], &[])?;
        assert_eq!(rt; run(alloc, words, &mut source, &mut host)?, 2);
        assert_eq!(rt; host.calls(), 0);
        assert!(rt; host.answered().is_empty());
        let mut first = [0u8; 6];
        assert_eq!(rt; source.read(&mut first), Ok(6));
        assert_eq!(rt; first.as_slice(), b"SELECT".as_slice());
    }
    Ok(())
}

// The area Pages of an empty database, with these bytes from the place on.
fn formatted(alloc: Global, at: usize, bytes: &[u8]) -> Result<Vec<u8>, Fail> {
    let image = empty_database(alloc)?;
    let mut pages = Vec::from_slice(alloc, image.pages.as_slice())?;
    for (byte, into) in bytes.iter().zip(pages.iter_mut().skip(at)) {
        *into = *byte;
    }
    Ok(pages)
}

#[test]
fn broken_files(rt: HostRuntime) -> Result<(), Fail> {
    let alloc = rt.alloc();
    // The area Pages, the area Log, and the line.
    let disks: [(Vec<u8>, &[u8], &str); 8] = [
        (Vec::new(alloc), &[0], "page 0 expected 8192 found 0"),
        (
            formatted(alloc, 0, &[0])?,
            &[0],
            "page 0 expected 1481197392 found 1481197312",
        ),
        (
            formatted(alloc, 4, &[3])?,
            &[0],
            "page 0 expected 2 found 3",
        ),
        (
            formatted(alloc, 8, &[1])?,
            &[0],
            "page 0 expected 2 found 1",
        ),
        (formatted(alloc, 0, &[])?, &[], "page 0 expected 1 found 0"),
        (formatted(alloc, 0, &[])?, &[1], "page 0 expected 9 found 1"),
        (
            formatted(alloc, 8192, &[2])?,
            &[0],
            "page 1 expected 3 found 2",
        ),
        (
            formatted(alloc, 8194, &[255, 255])?,
            &[0],
            "page 1 expected 2044 found 65535",
        ),
    ];
    for (pages, log, line) in &disks {
        let mut host = MemoryHost::new(alloc, pages, log, &[], &[])?;
        assert_eq!(rt; run_script(alloc, READ, &mut host)?, 6);
        let answer = format!(in alloc; "FATAL broken {line}\n")?;
        assert!(rt; host.answered() == answer.as_bytes(), "{line}");
        let left = image_of(alloc, &host, u64::MAX, Pick::Filled)?;
        assert!(rt; left.pages.as_slice() == pages.as_slice(), "{line}");
        assert!(rt; left.log.as_slice() == *log, "{line}");
        let mut deaf = MemoryHost::new(alloc, pages, log, &[], &[1])?;
        assert_eq!(rt; run_script(alloc, READ, &mut deaf)?, 4);
        assert!(rt; deaf.answered().is_empty());
    }
    Ok(())
}

#[test]
fn made_over_bytes(rt: HostRuntime) -> Result<(), Fail> {
    let alloc = rt.alloc();
    let zeros = [0u8; 16_384];
    let mut source = MemorySource::new(alloc, READ, &[])?;
    let mut host = MemoryHost::new(alloc, &zeros, &[7], &[], &[])?;
    assert_eq!(rt; run(alloc, &["init", "db"], &mut source, &mut host)?, 6);
    assert!(rt; host.answered() == b"FATAL size 16384\n".as_slice());
    let left = image_of(alloc, &host, u64::MAX, Pick::Filled)?;
    assert!(rt; left.pages.as_slice() == zeros.as_slice());
    assert!(rt; left.log.as_slice() == [7].as_slice());
    let mut over = MemoryHost::new(alloc, &zeros, &[7], &[], &[])?;
    assert_eq!(rt;
        run(
            alloc,
            &["init", "db", "--overwrite"],
            &mut source,
            &mut over
        )?,
        0
    );
    assert!(rt; over.answered() == b"INIT\n".as_slice());
    for pick in PICKS {
        let made = image_of(alloc, &over, u64::MAX, pick)?;
        let read = read_again(alloc, &made)?;
        assert!(rt; read.as_slice() == reading(0), "{pick:?}");
    }
    Ok(())
}

#[test]
fn making_stopped(rt: HostRuntime) -> Result<(), Fail> {
    let alloc = rt.alloc();
    let mut source = MemorySource::new(alloc, &[], &[])?;
    let mut whole = MemoryHost::new(alloc, &[], &[], &[], &[])?;
    assert_eq!(rt; run(alloc, &["init", "db"], &mut source, &mut whole)?, 0);
    for before in 0..whole.calls() {
        let mut stopped = MemoryHost::new(alloc, &[], &[], &[before + 1], &[])?;
        assert_eq!(rt; run(alloc, &["init", "db"], &mut source, &mut stopped)?, 3);
        assert!(rt; stopped.answered().is_empty());
        for pick in PICKS {
            // A database that was made in part is made again over what is there.
            let left = image_of(alloc, &stopped, u64::MAX, pick)?;
            let mut again = host_of(alloc, &left, &[], &[])?;
            assert_eq!(rt;
                run(
                    alloc,
                    &["init", "db", "--overwrite"],
                    &mut source,
                    &mut again
                )?,
                0
            );
            let made = image_of(alloc, &again, u64::MAX, pick)?;
            let read = read_again(alloc, &made)?;
            assert!(rt; read.as_slice() == reading(0), "{before} {pick:?}");
        }
    }
    Ok(())
}

#[test]
fn in_memory(rt: HostRuntime) -> Result<(), Fail> {
    let alloc = rt.alloc();
    // A read that fails, an answer that fails, the status, and what is answered.
    let rows: [(u64, u64, u8, &[u8]); 4] = [
        (0, 0, 1, reading(0)),
        (1, 0, 4, b""),
        (0, 1, 4, b""),
        (0, 2, 4, b"ERROR E2\n"),
    ];
    for (read, answer, status, answered) in rows {
        let mut source = MemorySource::new(alloc, READ, &[read])?;
        let mut host = MemoryHost::new(alloc, &[], &[], &[], &[answer])?;
        assert_eq!(rt; run(alloc, &["try"], &mut source, &mut host)?, status);
        assert_eq!(rt; host.calls(), 0);
        assert!(rt; host.answered() == answered, "{read} {answer}");
    }
    Ok(())
}
