//! How scripts are cut, in chunks of all sizes.

ghost use Rattle.std.specs.Prelude.{◌<◌};

use gx_bytes::{Bytes, NoMemory};
use gx_parse::{Cutter, Piece, Pieces};
use std::alloc::Global;
use std::test::Fail;

/// A script with tokens of all kinds.
const SCRIPT: &[u8] =
    b"SELECT * FROM t WHERE a <= 1 OR a != 'it''s;' -- no ; 'here\n AND b -|- '[1,2)'::int4range; ;\
    Insert INTO t (a) VALUES (ARRAY[+1, -2]), (NULL);-;--;'\n-'--'-;'';;CHECKPOINT; 'open; --";

const PIECES: [&[u8]; 9] = [
    b"SELECT * FROM t WHERE a <= 1 OR a != 'it''s;' -- no ; 'here\n AND b -|- '[1,2)'::int4range",
    b" ",
    b"Insert INTO t (a) VALUES (ARRAY[+1, -2]), (NULL)",
    b"-",
    b"--;'\n-'--'-",
    b"''",
    b"",
    b"CHECKPOINT",
    b" 'open; --",
];

/// The pieces of a script, whose first chunk has so many bytes, and each other one so many.
fn pieces_of(alloc: Global, script: &[u8], first: usize, size: usize) -> Result<Pieces, NoMemory>
    requires { 0 < size }
{
    let mut cutter = Cutter::new(alloc);
    let mut pieces = Pieces::new(alloc);
    let (front, rest) = script.split_at(first.min(script.len()));
    cutter.feed(front, &mut pieces)?;
    for chunk in rest.chunks(size) {
        cutter.feed(chunk, &mut pieces)?;
    }
    cutter.finish(&mut pieces)?;
    Ok(pieces)
}

/// Whether the pieces have these texts.
fn are(pieces: &[Piece], texts: &[&[u8]]) -> bool {
    for (piece, text) in pieces.iter().zip(texts) {
        let is_same = match piece {
            Piece::Text(bytes) => bytes.as_slice() == *text,
            Piece::TooLong => false,
        };
        if !is_same {
            return false;
        }
    }
    pieces.len() == texts.len()
}

#[test]
fn chunks_change_nothing(rt: HostRuntime) -> Result<(), Fail> {
    for first in 0..=SCRIPT.len() {
        for size in [1, 2, 3, 7, 1_000] {
            let pieces = pieces_of(rt.alloc(), SCRIPT, first, size)?;
            assert!(rt; are(pieces.as_slice(), &PIECES), "at {first} and {size}");
        }
    }
    for size in 1..=SCRIPT.len() {
        let pieces = pieces_of(rt.alloc(), SCRIPT, 0, size)?;
        assert!(rt; are(pieces.as_slice(), &PIECES), "at {size}");
    }
    Ok(())
}

#[test]
fn semicolons_that_cut(rt: HostRuntime) -> Result<(), Fail> {
    let rows: [(&[u8], usize); 14] = [
        (b"", 1),
        (b";", 2),
        (b"a;b", 2),
        (b"';'", 1),
        (b"';", 1),
        (b"''';'';", 1),
        (b"'';'';", 3),
        (b"-;-", 2),
        (b"--;", 1),
        (b"--;\n;", 2),
        (b"- -;", 2),
        (b"---;\r;\n;", 2),
        (b"'--';", 2),
        (b"--'\n;'", 2),
    ];
    for (script, count) in rows {
        let pieces = pieces_of(rt.alloc(), script, 0, 1)?;
        assert!(rt; pieces.as_slice().len() == count, "at {script:?}");
    }
    Ok(())
}

/// A comment and white space of so many bytes, and another piece.
fn long_script(alloc: Global, len: usize) -> Result<Bytes, NoMemory> {
    let mut script = Bytes::from_slice(alloc, b"-- SELECT\n")?;
    for _ in 10..len {
        script.push(b' ')?;
    }
    script.extend_from_slice(b";CHECKPOINT")?;
    Ok(script)
}

fn has_len(piece: &Piece, len: usize) -> bool {
    match piece {
        Piece::Text(bytes) => bytes.len() == len,
        Piece::TooLong => false,
    }
}

#[test]
fn pieces_that_are_too_long(rt: HostRuntime) -> Result<(), Fail> {
    for (len, is_kept) in [(1_048_575, true), (1_048_576, true), (1_048_577, false)] {
        let script = long_script(rt.alloc(), len)?;
        for size in [999, 1_048_576, 2_000_000] {
            let pieces = pieces_of(rt.alloc(), script.as_slice(), 10, size)?;
            let pieces = pieces.as_slice();
            assert!(rt; pieces.len() == 2);
            let kept = pieces.first().is_some_and(|piece| has_len(piece, len));
            assert!(rt; kept == is_kept, "at {len} and {size}");
            assert!(rt; pieces.last().is_some_and(|piece| has_len(piece, 10)));
        }
    }
    Ok(())
}

#[test]
fn a_cutter_that_is_sound(rt: HostRuntime) -> Result<(), Fail> {
    let mut cutter = Cutter::new(rt.alloc());
    let mut pieces = Pieces::new(rt.alloc());
    assert!(rt; !cutter.spoiled());
    cutter.feed(b"SEL", &mut pieces)?;
    cutter.feed(b"ECT;'", &mut pieces)?;
    cutter.feed(b";", &mut pieces)?;
    assert!(rt; !cutter.spoiled());
    assert!(rt; are(pieces.as_slice(), &[b"SELECT"]));
    Ok(())
}
