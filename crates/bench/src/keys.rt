//! Keys of the operator classes of scalars.

ghost use Rattle.std.specs.Prelude.{◌≡◌, IfOk, IfSome};
ghost use Rattle.gx_class_scalar.specs.Keys.{IsKey};
ghost use Rattle.gx_scalar.specs.Values.{IsScalar};

use gx_bytes::Bytes;
use gx_class_scalar::{ScalarClass, ScalarKey, ScalarOp, ScalarQuery};
use gx_gist::{GistClass, Test};
use gx_scalar::{Scalar, ScalarKind};
use std::alloc::Global;
use std::io;
use std::rt::Clock;
use std::time::Instant;

const ROUNDS: u32 = 1_000_000;

// Keys by their bytes: of 17 and of 4711, and of two texts.
const SMALL: &[u8] = &[17, 0, 0, 0, 17, 0, 0, 0];

const LARGE: &[u8] = &[0x67, 0x12, 0, 0, 0x67, 0x12, 0, 0];

const SHORT: &[u8] = b"\x06a text\0\x06a text\0";

const LONG: &[u8] = b"\x0canother text\0\x0canother text\0";

pub fn run<R: Clock + Print + AllocGlobal>(rt: &R) -> io::Result<()> {
    println!(rt; "keys: milliseconds for {ROUNDS} rounds")?;
    of_kind(rt, ScalarKind::Int4, SMALL, LARGE, "17")?;
    of_kind(rt, ScalarKind::Text, SHORT, LONG, "a text")
}

/// The key with these bytes.
fn key_of(alloc: Global, kind: ScalarKind, bytes: &[u8]) -> Option<ScalarKey>
    ensures { IfSome result (λ key. IsKey kind key) }
{
    match (ScalarClass { kind }).read(alloc, bytes) {
        Ok(Some(key)) => Some(key),
        _ => None,
    }
}

fn of_kind<R: Clock + Print + AllocGlobal>(
    rt: &R,
    kind: ScalarKind,
    first: &[u8],
    second: &[u8],
    operand: &str,
) -> io::Result<()> {
    let class = ScalarClass { kind };
    let (Some(one), Some(two)) = (
        key_of(rt.alloc(), kind, first),
        key_of(rt.alloc(), kind, second),
    ) else {
        return Ok(());
    };
    let Ok(operand) = Scalar::read(rt.alloc(), kind, operand) else {
        return Ok(());
    };
    let query = ScalarQuery {
        op: ScalarOp::Equal,
        operand,
    };
    let Ok(bytes) = class.write(rt.alloc(), &one) else {
        return Ok(());
    };
    println!(rt; "{kind:?}: read {}", reads(rt, &class, &bytes)?)?;
    println!(rt; "{kind:?}: test {}", tests(rt, &class, &two, &query)?)?;
    println!(rt; "{kind:?}: penalty {}", penalties(rt, &class, &one, &two)?)?;
    println!(rt; "{kind:?}: union {}", unions(rt, &class, &one, &two)?)
}

fn reads<R: Clock + Print + AllocGlobal>(
    rt: &R,
    class: &ScalarClass,
    bytes: &Bytes,
) -> io::Result<u128> {
    let mut found = 0u32;
    let start = Instant::now(rt)?;
    for _ in 0..ROUNDS {
        let read = class.read(rt.alloc(), bytes.as_slice());
        found = found.wrapping_add(u32::from(matches!(read, Ok(Some(_)))));
    }
    let took = start.elapsed(rt)?.as_millis();
    println!(rt; "found {found}")?;
    Ok(took)
}

fn tests<R: Clock + Print + AllocGlobal>(
    rt: &R,
    class: &ScalarClass,
    key: &ScalarKey,
    query: &ScalarQuery,
) -> io::Result<u128>
    requires key { IsKey class.now.kind key.now }
    requires query { IsScalar class.now.kind query.now.operand }
{
    let mut found = 0u32;
    let start = Instant::now(rt)?;
    for _ in 0..ROUNDS {
        let test = class.test(rt.alloc(), key, false, query);
        found = found.wrapping_add(u32::from(matches!(test, Ok(Test::No))));
    }
    let took = start.elapsed(rt)?.as_millis();
    println!(rt; "found {found}")?;
    Ok(took)
}

fn penalties<R: Clock + Print + AllocGlobal>(
    rt: &R,
    class: &ScalarClass,
    one: &ScalarKey,
    two: &ScalarKey,
) -> io::Result<u128>
    requires one { IsKey class.now.kind one.now }
    requires two { IsKey class.now.kind two.now }
{
    let mut found = 0u32;
    let start = Instant::now(rt)?;
    for _ in 0..ROUNDS {
        let grown = class.penalty(rt.alloc(), one, two);
        found = found.wrapping_add(u32::from(matches!(grown, Ok(n) if n > 0)));
    }
    let took = start.elapsed(rt)?.as_millis();
    println!(rt; "found {found}")?;
    Ok(took)
}

fn unions<R: Clock + Print + AllocGlobal>(
    rt: &R,
    class: &ScalarClass,
    one: &ScalarKey,
    two: &ScalarKey,
) -> io::Result<u128>
    requires one { IsKey class.now.kind one.now }
    requires two { IsKey class.now.kind two.now }
{
    let mut found = 0u32;
    let start = Instant::now(rt)?;
    for _ in 0..ROUNDS {
        found = found.wrapping_add(u32::from(class.union(rt.alloc(), one, two).is_ok()));
    }
    let took = start.elapsed(rt)?.as_millis();
    println!(rt; "found {found}")?;
    Ok(took)
}
