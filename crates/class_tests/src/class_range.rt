//! Worked keys of ranges, and each public call with ample memory.

ghost use Rattle.std.specs.Prelude.{IfOk};
ghost use Rattle.gx_range.specs.declared.range.RangeKind.TheVariants as kinds;
ghost use Rattle.gx_range.specs.Values.{IsRange};
ghost use Rattle.gx_class_range.specs.Keys.{IsKey};
ghost use Rattle.gx_class_range.specs.Tests.{IsQuery};

use gx_bytes::{NoMemory, ValueError};
use gx_class_range::{RangeClass, RangeKey, RangeQuery};
use gx_gist::{GistClass, OnBytes, Test, places_by_rank};
use gx_range::{Range, RangeKind, RangeOp};
use std::alloc::Global;
use std::test::Fail;

fn range_of(alloc: Global, text: &str) -> Result<Range, ValueError>
    ensures { IfOk result (IsRange kinds.Int8) }
{
    Range::read(alloc, RangeKind::Int8, text)
}

/// The union of the keys of both ranges.
fn key_of(alloc: Global, first: &str, second: &str) -> Result<RangeKey, ValueError>
    ensures { IfOk result IsKey }
{
    let first = range_of(alloc, first)?;
    let second = range_of(alloc, second)?;
    match union_of(alloc, &first, &second) {
        Ok(key) => Ok(key),
        Err(_) => Err(ValueError::Memory),
    }
}

fn union_of(alloc: Global, first: &Range, second: &Range) -> Result<RangeKey, NoMemory>
    requires first { IsRange kinds.Int8 first.now }
    requires second { IsRange kinds.Int8 second.now }
    ensures { IfOk result IsKey }
{
    let a = RangeClass.leaf(alloc, first)?;
    let b = RangeClass.leaf(alloc, second)?;
    RangeClass.union(alloc, &a, &b)
}

/// What the key says of the query, also by its bytes.
fn answers(
    alloc: Global,
    key: &RangeKey,
    at_leaf: bool,
    query: &RangeQuery,
) -> Result<(Test, Option<Test>), NoMemory>
    requires key { IsKey key.now }
    requires query { IsQuery query.now }
{
    let test = RangeClass.test(alloc, key, at_leaf, query)?;
    let bytes = RangeClass.write(alloc, key)?;
    let spelled = RangeClass.test_bytes(alloc, bytes.as_slice(), at_leaf, query)?;
    Ok((test, spelled))
}

/// Whether the key says this of the query, also by its bytes.
fn says(alloc: Global, key: &RangeKey, at_leaf: bool, query: &RangeQuery, want: Test) -> bool
    requires key { IsKey key.now }
    requires query { IsQuery query.now }
{
    match answers(alloc, key, at_leaf, query) {
        Ok(found) => found == (want, Some(want)),
        Err(_) => false,
    }
}

/// Whether the key of both ranges says this of an operator and its operand.
fn union_says(
    alloc: Global,
    ranges: (&str, &str),
    at_leaf: bool,
    op: RangeOp,
    operand: &str,
    want: Test,
) -> bool {
    let Ok(key) = key_of(alloc, ranges.0, ranges.1) else {
        return false;
    };
    let Ok(operand) = range_of(alloc, operand) else {
        return false;
    };
    let query = RangeQuery::Range { op, operand };
    says(alloc, &key, at_leaf, &query, want)
}

/// Two ranges below a key, an operator, its operand, and what the key says.
const UNIONS: [(&'static str, &'static str, RangeOp, &'static str, Test); 28] = [
    ("[3,5)", "[8,9)", RangeOp::Equal, "[3,5)", Test::Maybe),
    ("[3,5)", "[8,9)", RangeOp::Equal, "[2,5)", Test::No),
    ("[3,5)", "[8,9)", RangeOp::Equal, "empty", Test::No),
    ("[3,5)", "empty", RangeOp::Equal, "empty", Test::Maybe),
    ("[3,5)", "[8,9)", RangeOp::Overlaps, "[5,6)", Test::Maybe),
    ("[3,5)", "[8,9)", RangeOp::Overlaps, "[9,)", Test::No),
    ("[3,5)", "[8,9)", RangeOp::Overlaps, "(,3)", Test::No),
    ("[3,5)", "[8,9)", RangeOp::Contains, "empty", Test::Maybe),
    ("[3,5)", "[8,9)", RangeOp::Contains, "[3,9)", Test::Maybe),
    ("[3,5)", "[8,9)", RangeOp::Contains, "[3,10)", Test::No),
    ("empty", "empty", RangeOp::Contains, "[3,10)", Test::No),
    ("empty", "empty", RangeOp::Within, "[3,10)", Test::Maybe),
    ("[3,5)", "[8,9)", RangeOp::Within, "[8,10)", Test::Maybe),
    ("[3,5)", "[8,9)", RangeOp::Within, "[9,10)", Test::No),
    ("[3,5)", "[8,9)", RangeOp::Left, "[4,)", Test::Maybe),
    ("[3,5)", "[8,9)", RangeOp::Left, "[3,)", Test::No),
    ("[3,5)", "[8,9)", RangeOp::Left, "(,9)", Test::No),
    ("[3,5)", "[8,9)", RangeOp::Right, "(,8)", Test::Maybe),
    ("[3,5)", "[8,9)", RangeOp::Right, "(,9)", Test::No),
    ("[3,5)", "[8,9)", RangeOp::NotRight, "[1,4)", Test::Maybe),
    ("[3,5)", "[8,9)", RangeOp::NotRight, "[1,3)", Test::No),
    ("[3,5)", "[8,9)", RangeOp::NotLeft, "[8,10)", Test::Maybe),
    ("[3,5)", "[8,9)", RangeOp::NotLeft, "[9,10)", Test::No),
    ("[3,5)", "[8,9)", RangeOp::NotLeft, "empty", Test::No),
    ("[3,5)", "[8,9)", RangeOp::Adjacent, "[9,10)", Test::Maybe),
    ("[3,5)", "[8,9)", RangeOp::Adjacent, "[1,3)", Test::Maybe),
    ("[3,5)", "[8,9)", RangeOp::Adjacent, "[10,11)", Test::No),
    ("[3,5)", "[8,9)", RangeOp::Adjacent, "[1,2)", Test::No),
];

#[test]
fn keys_of_two_ranges(rt: HostRuntime) {
    for (first, second, op, operand, want) in &UNIONS {
        assert!(rt;
            union_says(rt.alloc(), (first, second), false, *op, operand, *want),
            "{op:?} {operand}"
        );
    }
}

/// A range, an operator, its operand, and what the range's own key says.
const LEAVES: [(&'static str, RangeOp, &'static str, Test); 4] = [
    ("[1,5)", RangeOp::NotRight, "[3,5)", Test::Yes),
    ("[1,5)", RangeOp::Left, "[3,5)", Test::No),
    ("empty", RangeOp::Within, "[3,5)", Test::Yes),
    ("[1,5)", RangeOp::Adjacent, "[5,6)", Test::Yes),
];

/// Elements, and whether `[1,5)` has them.
const ELEMENTS: [(i64, Test); 4] = [(0, Test::No), (1, Test::Yes), (4, Test::Yes), (5, Test::No)];

#[test]
fn one_range(rt: HostRuntime) -> Result<(), Fail> {
    for (text, op, operand, want) in &LEAVES {
        assert!(rt;
            union_says(rt.alloc(), (text, text), true, *op, operand, *want),
            "{op:?}"
        );
    }
    let key = key_of(rt.alloc(), "[1,5)", "[1,5)")?;
    for (value, want) in &ELEMENTS {
        let query = RangeQuery::Element(*value);
        assert!(rt; says(rt.alloc(), &key, true, &query, *want), "at {value}");
    }
    Ok(())
}

/// How much one key grows by another.
fn grows_by(alloc: Global, key: &RangeKey, added: &RangeKey, want: u128) -> bool
    requires key { IsKey key.now }
    requires added { IsKey added.now }
{
    match RangeClass.penalty(alloc, key, added) {
        Ok(penalty) => penalty == want,
        Err(_) => false,
    }
}

fn is_written_so(alloc: Global, key: &RangeKey, want: &[u8]) -> bool
    requires { IsKey key.now }
{
    match RangeClass.write(alloc, key) {
        Ok(bytes) => bytes.as_slice() == want,
        Err(_) => false,
    }
}

fn are_ranked_so(alloc: Global, keys: &[RangeKey], want: &[u32]) -> bool {
    match places_by_rank(alloc, keys) {
        Ok(places) => places.as_slice() == want,
        Err(_) => false,
    }
}

#[test]
fn calls_on_keys(rt: HostRuntime) -> Result<(), Fail> {
    let alloc = rt.alloc();
    let span = key_of(alloc, "[3,5)", "[8,9)")?;
    let small = key_of(alloc, "[3,5)", "[3,5)")?;
    let none = key_of(alloc, "empty", "empty")?;
    let both = key_of(alloc, "[3,5)", "empty")?;
    assert!(rt; grows_by(alloc, &small, &span, 4));
    assert!(rt; grows_by(alloc, &span, &small, 0));
    assert!(rt; grows_by(alloc, &small, &none, 1));
    assert!(rt; grows_by(alloc, &both, &none, 0));
    assert!(rt; grows_by(alloc, &none, &span, 6));
    assert!(rt; RangeClass.same(&span, &span));
    assert!(rt; !RangeClass.same(&small, &both));
    assert!(rt; is_written_so(alloc, &both, b"\x0f\x03\0\0\0\0\0\0\0\x05\0\0\0\0\0\0\0"));
    assert!(rt; is_written_so(alloc, &none, b"\x01"));
    assert!(rt; are_ranked_so(alloc, &[span, none, both, small], &[1, 3, 2, 0]));
    Ok(())
}

/// Bytes that spell no key.
const NO_KEYS: [&'static [u8]; 8] = [
    b"",
    b"\0",
    b"\x01\0",
    b"\x04\x03\0\0\0\0\0\0\0",
    b"\x06\x03\0\0\0\0\0\0",
    b"\x06\x03\0\0\0\0\0\0\0\0",
    b"\x0e\x05\0\0\0\0\0\0\0\x05\0\0\0\0\0\0\0",
    b"\x12",
];

/// Whether the bytes spell a key. None where there is no memory.
fn spell_key(alloc: Global, bytes: &[u8]) -> Option<bool> {
    match RangeClass.read(alloc, bytes) {
        Ok(key) => Some(key.is_some()),
        Err(_) => None,
    }
}

#[test]
fn bytes_that_spell_no_key(rt: HostRuntime) {
    for bytes in &NO_KEYS {
        assert!(rt; spell_key(rt.alloc(), bytes) == Some(false), "at {bytes:?}");
    }
    assert!(rt; spell_key(rt.alloc(), b"\x02") == Some(true));
}
