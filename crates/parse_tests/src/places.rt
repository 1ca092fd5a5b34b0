//! Which fault of a condition comes first, and where it stands.

use gx_bytes::{Bytes, NoMemory};
use gx_parse::{ParseError, parse};
use std::alloc::Global;
use std::test::Fail;

/// `SELECT * FROM t WHERE` of 21 bytes, a part of the condition so many times, and a last part.
fn fault_of(
    alloc: Global,
    part: &[u8],
    many: usize,
    last: &[u8],
) -> Result<Option<ParseError>, NoMemory> {
    let mut piece = Bytes::from_slice(alloc, b"SELECT * FROM t WHERE")?;
    for _ in 0..many {
        piece.extend_from_slice(part)?;
    }
    piece.extend_from_slice(last)?;
    Ok(parse(alloc, piece.as_slice()).err())
}

fn wrong(at: u64) -> Option<ParseError> {
    Some(ParseError::Syntax { at })
}

#[test]
fn faults_of_conditions(rt: HostRuntime) -> Result<(), Fail> {
    let deep = Some(ParseError::TooDeep);
    let rows: [(&[u8], usize, &[u8], Option<ParseError>); 18] = [
        (b"(", 65, b"", deep),
        (b"(", 65, b" ? $ '", deep),
        (b"(", 64, b" $ (", wrong(86)),
        (b"(", 64, b")(", wrong(85)),
        (b"(", 64, b"a (", wrong(87)),
        (b"(", 64, b"a = (", wrong(89)),
        (b"(", 64, b"a = NOT", wrong(89)),
        (b"(", 64, b"a IS NOT NULL (", wrong(99)),
        (b"(", 64, b"a IS NOT NULL AND NOT", deep),
        (b"(", 64, b"", wrong(85)),
        (b" NOT", 64, b" NOT", deep),
        (b" NOT", 64, b"(", deep),
        (b" NOT", 64, b" a = 1 AND (b = 1", wrong(294)),
        (b" a=1 AND", 1_024, b" a=1", None),
        (b" a=1 AND", 1_024, b" a=1 OR", deep),
        (b" a=1 OR", 1_024, b" a=1 AND", deep),
        (b" a=1 AND", 1_024, b" AND", wrong(8_214)),
        (b" a=1 OR", 1_024, b" a=1 OR OR", deep),
    ];
    for (part, many, last, want) in rows {
        assert!(rt;
            fault_of(rt.alloc(), part, many, last)? == want,
            "at {last:?}"
        );
    }
    Ok(())
}
