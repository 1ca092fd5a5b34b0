//! The cutter and the parser beside a plain pass, and scripts that are hostile to them.

ghost use Rattle.std.specs.Prelude.{◌<◌};

use gx_bytes::{Bytes, NoMemory};
use gx_lexer::{Cutter, Pieces};
use gx_parse::parse;
use std::alloc::Global;
use std::io;
use std::rt::Clock;
use std::time::Instant;

const ROUNDS: u32 = 5;

/// An INSERT up to its rows, a row with the comma behind it, and where the row's tokens stand.
const HEAD: &[u8] = b"INSERT INTO t VALUES ";

const ROW: &[u8] = b"(1, 'ab'), ";

const TOKENS: [(usize, usize); 6] = [(0, 1), (1, 2), (2, 3), (4, 8), (8, 9), (9, 10)];

/// What is done with a script.
#[derive(Clone, Copy)]
enum Work {
    /// A look whether it is UTF-8, and a copy of each token of its rows.
    Plain,
    /// It is cut, at once.
    Cut,
    /// It is cut, byte by byte.
    CutBytes,
    /// It is read as one piece.
    Parse,
}

/// A name, a text, another so many times, and a third.
type Shape = (
    &'static str,
    &'static [u8],
    &'static [u8],
    usize,
    &'static [u8],
);

const SHAPES: [Shape; 9] = [
    ("parentheses", b"", b"(", 1_048_000, b""),
    (
        "a condition of parentheses",
        b"DELETE FROM t WHERE ",
        b"(",
        1_048_000,
        b"",
    ),
    ("quotes", b"INSERT INTO t VALUES (", b"''", 524_000, b")"),
    ("hyphens", b"", b"-", 1_048_000, b""),
    ("digits", b"INSERT INTO t VALUES (", b"7", 1_048_000, b")"),
    (
        "a list",
        b"INSERT INTO t VALUES (ARRAY[1",
        b",1",
        500_000,
        b"])",
    ),
    (
        "conditions",
        b"DELETE FROM t WHERE a=1",
        b" AND a=1",
        10_000,
        b"",
    ),
    ("white space", b"", b" ", 1_048_000, b""),
    ("semicolons", b"", b";", 1_048_000, b""),
];

pub fn run<R: Clock + Print + AllocGlobal>(rt: &R) -> io::Result<()> {
    println!(rt; "language: microseconds, the least of {ROUNDS} rounds")?;
    for rows in [23_829, 47_660, 95_323] {
        inserts(rt, rows)?;
    }
    for (name, head, part, many, tail) in SHAPES {
        for many in [many / 2, many] {
            if let Ok(script) = repeated(rt.alloc(), head, part, many, tail) {
                hostile(rt, name, script.as_slice())?;
            }
        }
    }
    Ok(())
}

fn inserts<R: Clock + Print + AllocGlobal>(rt: &R, rows: usize) -> io::Result<()> {
    let Ok(mut script) = repeated(rt.alloc(), HEAD, ROW, rows, b"") else {
        return Ok(());
    };
    script.truncate(script.len().saturating_sub(2));
    let bytes = script.len();
    let script = script.as_slice();
    let plain = least(rt, Work::Plain, script)?;
    let cut = least(rt, Work::Cut, script)?;
    let parse = least(rt, Work::Parse, script)?;
    println!(rt; "INSERT of {rows} rows, {bytes} bytes: plain {plain}, cut {cut}, parse {parse}")
}

fn hostile<R: Clock + Print + AllocGlobal>(rt: &R, name: &str, script: &[u8]) -> io::Result<()> {
    let bytes = script.len();
    let cut = least(rt, Work::Cut, script)?;
    let by_bytes = least(rt, Work::CutBytes, script)?;
    let parse = least(rt, Work::Parse, script)?;
    println!(rt; "{name}, {bytes} bytes: cut {cut}, byte by byte {by_bytes}, parse {parse}")
}

fn repeated(
    alloc: Global,
    head: &[u8],
    part: &[u8],
    many: usize,
    tail: &[u8],
) -> Result<Bytes, NoMemory> {
    let mut text = Bytes::from_slice(alloc, head)?;
    for _ in 0..many {
        text.extend_from_slice(part)?;
    }
    text.extend_from_slice(tail)?;
    Ok(text)
}

/// The least time that the work takes.
fn least<R: Clock + AllocGlobal>(rt: &R, work: Work, script: &[u8]) -> io::Result<u128> {
    let mut least = u128::MAX;
    for _ in 0..ROUNDS {
        let start = Instant::now(rt)?;
        let _ = once(rt.alloc(), work, script);
        least = least.min(start.elapsed(rt)?.as_micros());
    }
    Ok(least)
}

fn once(alloc: Global, work: Work, script: &[u8]) -> bool {
    match work {
        Work::Plain => plain(alloc, script).is_ok(),
        Work::Cut => cut(alloc, script, script.len().max(1)).is_ok(),
        Work::CutBytes => cut(alloc, script, 1).is_ok(),
        Work::Parse => parse(alloc, script).is_ok(),
    }
}

/// Copies of the tokens of an INSERT's rows.
fn plain(alloc: Global, script: &[u8]) -> Result<Vec<Bytes>, NoMemory> {
    let mut copies = Vec::new(alloc);
    if str::from_utf8(script).is_err() {
        return Ok(copies);
    }
    for row in script.get(HEAD.len()..).unwrap_or(&[]).chunks(ROW.len()) {
        for (from, to) in TOKENS {
            copies.push(Bytes::from_slice(alloc, row.get(from..to).unwrap_or(&[]))?)?;
        }
    }
    Ok(copies)
}

fn cut(alloc: Global, script: &[u8], size: usize) -> Result<Pieces, NoMemory>
    requires { 0 < size }
{
    let mut cutter = Cutter::new(alloc);
    let mut pieces = Pieces::new(alloc);
    for chunk in script.chunks(size) {
        cutter.feed(chunk, &mut pieces)?;
    }
    cutter.finish(&mut pieces)?;
    Ok(pieces)
}
