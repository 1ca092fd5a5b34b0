//! A source in memory: its bytes in order, a read that fails, and the end.

use gx_io::{Failed, MemorySource, Source};
use std::test::Fail;

#[test]
fn a_source_in_memory(rt: HostRuntime) -> Result<(), Fail> {
    let mut source = MemorySource::new(rt.alloc(), b"abcde", &[2])?;
    let reads: [(Result<usize, Failed>, &[u8]); 5] = [
        (Ok(3), b"abc"),
        (Err(Failed), b"abc"),
        (Ok(2), b"dec"),
        (Ok(0), b"dec"),
        (Ok(0), b"dec"),
    ];
    let mut into = [0u8; 3];
    for (answer, bytes) in reads {
        assert_eq!(rt; source.read(&mut into), answer);
        assert_eq!(rt; into.as_slice(), bytes);
    }
    Ok(())
}
