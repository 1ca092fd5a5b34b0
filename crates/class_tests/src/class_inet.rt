//! Worked keys of addresses, and each public call with ample memory.

ghost use Rattle.std.specs.Prelude.{IfOk};
ghost use Rattle.gx_inet.specs.Value.{IsInet};
ghost use Rattle.gx_class_inet.specs.Keys.{IsKey};

use gx_bytes::{NoMemory, ValueError};
use gx_class_inet::{InetClass, InetKey, InetOp, InetQuery};
use gx_gist::{GistClass, OnBytes, Test, places_by_rank};
use gx_inet::Inet;
use std::alloc::Global;
use std::test::Fail;

fn inet_of(alloc: Global, text: &str) -> Result<Inet, ValueError>
    ensures { IfOk result IsInet }
{
    Inet::read(alloc, text)
}

/// The union of the keys of both addresses.
fn key_of(alloc: Global, first: &Inet, second: &Inet) -> Result<InetKey, NoMemory>
    requires first { IsInet first.now }
    requires second { IsInet second.now }
    ensures { IfOk result IsKey }
{
    let a = InetClass.leaf(alloc, first)?;
    let b = InetClass.leaf(alloc, second)?;
    InetClass.union(alloc, &a, &b)
}

/// What the key says of the query, also by its bytes.
fn answers(
    alloc: Global,
    key: &InetKey,
    at_leaf: bool,
    query: &InetQuery,
) -> Result<(Test, Option<Test>), NoMemory>
    requires key { IsKey key.now }
    requires query { IsInet query.now.operand }
{
    let test = InetClass.test(alloc, key, at_leaf, query)?;
    let bytes = InetClass.write(alloc, key)?;
    let spelled = InetClass.test_bytes(alloc, bytes.as_slice(), at_leaf, query)?;
    Ok((test, spelled))
}

/// Whether the key says this of an operator and its operand, also by its bytes.
fn says(alloc: Global, key: &InetKey, at_leaf: bool, op: InetOp, operand: &str, want: Test) -> bool
    requires { IsKey key.now }
{
    let Ok(operand) = inet_of(alloc, operand) else {
        return false;
    };
    let query = InetQuery { op, operand };
    match answers(alloc, key, at_leaf, &query) {
        Ok(found) => found == (want, Some(want)),
        Err(_) => false,
    }
}

fn is_written_so(alloc: Global, key: &InetKey, want: &[u8]) -> bool
    requires { IsKey key.now }
{
    match InetClass.write(alloc, key) {
        Ok(bytes) => bytes.as_slice() == want,
        Err(_) => false,
    }
}

/// An operator, its operand, and what the key of two addresses in `10.0.3.0/24` says.
const NETWORK: [(InetOp, &'static str, Test); 23] = [
    (InetOp::Within, "10.0.3.0/24", Test::Maybe),
    (InetOp::Within, "10.0.4.0/24", Test::No),
    (InetOp::WithinEqual, "10.0.0.0/16", Test::Maybe),
    (InetOp::WithinEqual, "10.0.3.0/25", Test::Maybe),
    (InetOp::Equal, "10.0.3.7/24", Test::Maybe),
    (InetOp::Equal, "10.0.4.7/24", Test::No),
    (InetOp::NotEqual, "10.0.3.7/24", Test::Maybe),
    (InetOp::Holds, "10.0.3.7", Test::Maybe),
    (InetOp::Holds, "10.0.3.0/24", Test::No),
    (InetOp::HoldsEqual, "10.0.3.0/24", Test::Maybe),
    (InetOp::HoldsEqual, "10.0.0.0/16", Test::No),
    (InetOp::Meets, "10.0.0.0/8", Test::Maybe),
    (InetOp::Meets, "11.0.0.0/8", Test::No),
    (InetOp::Less, "10.0.3.0/24", Test::Maybe),
    (InetOp::Less, "10.0.2.0/24", Test::No),
    (InetOp::LessEqual, "10.0.2.0/24", Test::No),
    (InetOp::Greater, "10.0.4.0/24", Test::No),
    (InetOp::GreaterEqual, "10.0.2.0/24", Test::Maybe),
    (InetOp::Less, "::1", Test::Maybe),
    (InetOp::Greater, "::1", Test::No),
    (InetOp::Equal, "::1", Test::No),
    (InetOp::NotEqual, "::1", Test::Maybe),
    (InetOp::Meets, "::1", Test::No),
];

#[test]
fn a_network_of_24_bits(rt: HostRuntime) -> Result<(), Fail> {
    let alloc = rt.alloc();
    let low = inet_of(alloc, "10.0.3.1/24")?;
    let high = inet_of(alloc, "10.0.3.200/24")?;
    let key = key_of(alloc, &low, &high)?;
    assert!(rt; is_written_so(alloc, &key, b"\x04\x18\x18\x0a\0\x03\0"));
    for (op, text, want) in &NETWORK {
        assert!(rt; says(alloc, &key, false, *op, text, *want), "{op:?} {text}");
    }
    Ok(())
}

/// An operator, its operand, and what the key of `10.0.3.1/24` says.
const ADDRESS: [(InetOp, &'static str, Test); 5] = [
    (InetOp::Equal, "10.0.3.1/24", Test::Yes),
    (InetOp::Equal, "10.0.3.2/24", Test::No),
    (InetOp::WithinEqual, "10.0.3.200/24", Test::Yes),
    (InetOp::Within, "10.0.3.200/24", Test::No),
    (InetOp::Less, "::1", Test::Yes),
];

#[test]
fn one_address(rt: HostRuntime) -> Result<(), Fail> {
    let alloc = rt.alloc();
    let host = inet_of(alloc, "10.0.3.1/24")?;
    let key = key_of(alloc, &host, &host)?;
    for (op, text, want) in &ADDRESS {
        assert!(rt; says(alloc, &key, true, *op, text, *want), "{op:?} {text}");
    }
    Ok(())
}

/// Whether a key grows so much by another.
fn grows_by(alloc: Global, key: &InetKey, added: &InetKey, want: u128) -> bool
    requires key { IsKey key.now }
    requires added { IsKey added.now }
{
    match InetClass.penalty(alloc, key, added) {
        Ok(penalty) => penalty == want,
        Err(_) => false,
    }
}

fn are_ranked_so(alloc: Global, keys: &[InetKey], want: &[u32]) -> bool {
    match places_by_rank(alloc, keys) {
        Ok(places) => places.as_slice() == want,
        Err(_) => false,
    }
}

#[test]
fn calls_on_keys(rt: HostRuntime) -> Result<(), Fail> {
    let alloc = rt.alloc();
    let low = inet_of(alloc, "10.0.3.1/24")?;
    let high = inet_of(alloc, "10.0.3.200/24")?;
    let other = inet_of(alloc, "::1")?;
    let leaf = key_of(alloc, &low, &low)?;
    let wide = key_of(alloc, &other, &other)?;
    let net = key_of(alloc, &low, &high)?;
    let mixed = key_of(alloc, &low, &other)?;
    assert!(rt; grows_by(alloc, &leaf, &net, 8));
    assert!(rt; grows_by(alloc, &net, &leaf, 0));
    assert!(rt; grows_by(alloc, &leaf, &wide, 128));
    assert!(rt; grows_by(alloc, &mixed, &wide, 0));
    assert!(rt; InetClass.same(&mixed, &InetKey::Mixed));
    assert!(rt; !InetClass.same(&mixed, &net));
    assert!(rt; is_written_so(alloc, &mixed, b"\0"));
    assert!(rt;
        is_written_so(
            alloc,
            &wide,
            b"\x06\x80\x80\0\0\0\0\0\0\0\0\0\0\0\0\0\0\0\x01"
        )
    );
    assert!(rt; are_ranked_so(alloc, &[wide, leaf, mixed, net], &[2, 3, 1, 0]));
    Ok(())
}

/// Bytes that spell no key.
const NO_KEYS: [&'static [u8]; 9] = [
    b"",
    b"\x01",
    b"\0\0",
    b"\x04\x18\x18\x0a\0\x03",
    b"\x04\x18\x18\x0a\0\x03\x01",
    b"\x04\x21\x18\x0a\0\x03\0",
    b"\x04\x18\x21\x0a\0\x03\0",
    b"\x05\x18\x18\x0a\0\x03\0",
    b"\x06\x18\x18\x0a\0\x03\0",
];

/// Whether the bytes spell a key. None where there is no memory.
fn spell_key(alloc: Global, bytes: &[u8]) -> Option<bool> {
    match InetClass.read(alloc, bytes) {
        Ok(key) => Some(key.is_some()),
        Err(_) => None,
    }
}

#[test]
fn bytes_that_spell_no_key(rt: HostRuntime) {
    for bytes in &NO_KEYS {
        assert!(rt; spell_key(rt.alloc(), bytes) == Some(false), "at {bytes:?}");
    }
    assert!(rt; spell_key(rt.alloc(), b"\x04\x20\0\0\0\0\0") == Some(true));
}
