//! Worked keys, and each public call with ample memory.

ghost use Rattle.std.specs.Prelude.{IfOk};
ghost use Rattle.gx_scalar.specs.declared.scalar.ScalarKind.TheVariants as kinds;
ghost use Rattle.gx_scalar.specs.Values.{IsScalar};
ghost use Rattle.gx_class_scalar.specs.Keys.{IsKey};

use gx_bytes::{NoMemory, ValueError};
use gx_class_scalar::{ScalarClass, ScalarKey, ScalarOp, ScalarQuery};
use gx_gist::{GistClass, OnBytes, Test};
use gx_scalar::{Scalar, ScalarKind};
use std::alloc::Global;
use std::test::Fail;

/// The key with these bytes.
fn key_of(alloc: Global, kind: ScalarKind, bytes: &[u8]) -> Result<ScalarKey, ValueError>
    ensures { IfOk result (IsKey kind) }
{
    let class = ScalarClass { kind };
    match class.read(alloc, bytes) {
        Ok(Some(key)) => Ok(key),
        Ok(None) => Err(ValueError::NoValue),
        Err(_) => Err(ValueError::Memory),
    }
}

fn query_of(
    alloc: Global,
    kind: ScalarKind,
    op: ScalarOp,
    text: &str,
) -> Result<ScalarQuery, ValueError>
    ensures { IfOk result (λ query. IsScalar kind query.operand) }
{
    let operand = Scalar::read(alloc, kind, text)?;
    Ok(ScalarQuery { op, operand })
}

const THREE_TO_SEVEN: &[u8] = b"\x03\0\0\0\x07\0\0\0";

const FIVE: &[u8] = b"\x05\0\0\0\x05\0\0\0";

/// The class of numbers of four bytes.
const INT4: ScalarClass = ScalarClass {
    kind: ScalarKind::Int4,
};

/// What the key with these bytes says of the query, also by its bytes.
fn answers(
    alloc: Global,
    kind: ScalarKind,
    bytes: &[u8],
    at_leaf: bool,
    query: &ScalarQuery,
) -> Result<(Option<Test>, Option<Test>), NoMemory>
    requires { IsScalar kind query.now.operand }
{
    let class = ScalarClass { kind };
    let spelled = class.test_bytes(alloc, bytes, at_leaf, query)?;
    let Some(key) = class.read(alloc, bytes)? else {
        return Ok((None, spelled));
    };
    let test = class.test(alloc, &key, at_leaf, query)?;
    Ok((Some(test), spelled))
}

/// Whether the key with these bytes says this of an operator and its operand, also by its bytes.
fn says(
    alloc: Global,
    kind: ScalarKind,
    bytes: &[u8],
    at_leaf: bool,
    op: ScalarOp,
    operand: &str,
    want: Test,
) -> bool {
    let Ok(query) = query_of(alloc, kind, op, operand) else {
        return false;
    };
    match answers(alloc, kind, bytes, at_leaf, &query) {
        Ok(found) => found == (Some(want), Some(want)),
        Err(_) => false,
    }
}

/// An operator, its operand, and what the key of the numbers from 3 to 7 says.
const NUMBERS: [(ScalarOp, &'static str, Test); 14] = [
    (ScalarOp::Equal, "2", Test::No),
    (ScalarOp::Equal, "3", Test::Maybe),
    (ScalarOp::Equal, "7", Test::Maybe),
    (ScalarOp::Equal, "8", Test::No),
    (ScalarOp::NotEqual, "3", Test::Maybe),
    (ScalarOp::NotEqual, "7", Test::Maybe),
    (ScalarOp::Less, "3", Test::No),
    (ScalarOp::Less, "4", Test::Maybe),
    (ScalarOp::LessEqual, "2", Test::No),
    (ScalarOp::LessEqual, "3", Test::Maybe),
    (ScalarOp::Greater, "6", Test::Maybe),
    (ScalarOp::Greater, "7", Test::No),
    (ScalarOp::GreaterEqual, "7", Test::Maybe),
    (ScalarOp::GreaterEqual, "8", Test::No),
];

#[test]
fn numbers_from_3_to_7(rt: HostRuntime) {
    for (op, text, want) in &NUMBERS {
        assert!(rt;
            says(
                rt.alloc(),
                ScalarKind::Int4,
                THREE_TO_SEVEN,
                false,
                *op,
                text,
                *want
            ),
            "{op:?} {text}"
        );
    }
}

/// An operator, its operand, whether the key of 5 is at a leaf, and what it says.
const NUMBER: [(ScalarOp, &'static str, bool, Test); 9] = [
    (ScalarOp::Equal, "5", true, Test::Yes),
    (ScalarOp::Equal, "6", true, Test::No),
    (ScalarOp::NotEqual, "5", true, Test::No),
    (ScalarOp::NotEqual, "5", false, Test::No),
    (ScalarOp::NotEqual, "6", false, Test::Maybe),
    (ScalarOp::Less, "5", true, Test::No),
    (ScalarOp::LessEqual, "5", true, Test::Yes),
    (ScalarOp::Greater, "4", true, Test::Yes),
    (ScalarOp::GreaterEqual, "6", true, Test::No),
];

#[test]
fn one_number(rt: HostRuntime) {
    for (op, text, at_leaf, want) in &NUMBER {
        assert!(rt;
            says(
                rt.alloc(),
                ScalarKind::Int4,
                FIVE,
                *at_leaf,
                *op,
                text,
                *want
            ),
            "{op:?} {text}"
        );
    }
}

/// How much one key grows by another.
fn growth(alloc: Global, key: &ScalarKey, added: &ScalarKey) -> Option<u128>
    requires key { IsKey kinds.Int4 key.now }
    requires added { IsKey kinds.Int4 added.now }
{
    INT4.penalty(alloc, key, added).ok()
}

/// How much the key with these bytes grows by another.
fn growth_of_bytes(alloc: Global, bytes: &[u8], added: &ScalarKey) -> Option<Option<u128>>
    requires { IsKey kinds.Int4 added.now }
{
    INT4.penalty_bytes(alloc, bytes, added).ok()
}

fn is_written_so(alloc: Global, key: &ScalarKey, want: &[u8]) -> bool
    requires { IsKey kinds.Int4 key.now }
{
    match INT4.write(alloc, key) {
        Ok(bytes) => bytes.as_slice() == want,
        Err(_) => false,
    }
}

/// Whether the union of both keys is that of the numbers from 3 to 7.
fn is_from_3_to_7(alloc: Global, first: &ScalarKey, second: &ScalarKey) -> bool
    requires first { IsKey kinds.Int4 first.now }
    requires second { IsKey kinds.Int4 second.now }
{
    matches!(
        INT4.union(alloc, first, second),
        Ok(ScalarKey::Int4 { lo: 3, hi: 7 })
    )
}

#[test]
fn calls_on_keys(rt: HostRuntime) -> Result<(), Fail> {
    let alloc = rt.alloc();
    let five = key_of(alloc, ScalarKind::Int4, FIVE)?;
    let span = key_of(alloc, ScalarKind::Int4, THREE_TO_SEVEN)?;
    assert!(rt; growth(alloc, &five, &span) == Some(4));
    assert!(rt; growth(alloc, &span, &five) == Some(0));
    assert!(rt; growth_of_bytes(alloc, FIVE, &span) == Some(Some(4)));
    assert!(rt; growth_of_bytes(alloc, b"\0", &span) == Some(None));
    assert!(rt; INT4.same(&five, &five));
    assert!(rt; !INT4.same(&five, &span));
    assert!(rt; is_written_so(alloc, &span, THREE_TO_SEVEN));
    assert!(rt; is_from_3_to_7(alloc, &five, &span));
    Ok(())
}

/// So many letters x, and what stands behind them.
fn letters(alloc: Global, many: u32, behind: &str) -> Result<String, NoMemory> {
    let mut text = String::new(alloc);
    for _ in 0..many {
        text.push('x')?;
    }
    text.push_str(behind)?;
    Ok(text)
}

/// The key of so many letters x, and what stands behind them.
fn leaf_of_letters(alloc: Global, many: u32, behind: &str) -> Result<ScalarKey, ValueError> {
    let Ok(text) = letters(alloc, many, behind) else {
        return Err(ValueError::Memory);
    };
    let value = Scalar::read(alloc, ScalarKind::Text, text.as_str())?;
    let class = ScalarClass {
        kind: ScalarKind::Text,
    };
    match class.leaf(alloc, &value) {
        Ok(key) => Ok(key),
        Err(_) => Err(ValueError::Memory),
    }
}

/// Whether the key of 900 letters x and what stands behind them is cut at 900 bytes at both ends, and said to be longer or not.
fn is_cut_at_900(alloc: Global, behind: &str, more: bool) -> bool {
    match leaf_of_letters(alloc, 900, behind) {
        Ok(ScalarKey::Cut { lo, hi }) => {
            (lo.bytes.len(), lo.more, hi.bytes.len(), hi.more) == (900, more, 900, more)
        }
        _ => false,
    }
}

/// The bytes of the key of a text of more than 900 letters x.
fn bytes_of_longer(alloc: Global) -> Result<Vec<u8>, NoMemory> {
    let text = letters(alloc, 900, "")?;
    let mut bytes = Vec::new(alloc);
    for _ in 0..2 {
        bytes.extend_from_slice(b"\x84\x07")?;
        bytes.extend_from_slice(text.as_bytes())?;
        bytes.push(1)?;
    }
    Ok(bytes)
}

/// Whether the key of a text of more than 900 letters x says this of an operator and so many letters with others behind them.
fn longer_says(alloc: Global, op: ScalarOp, many: u32, behind: &str, want: Test) -> bool {
    let Ok(operand) = letters(alloc, many, behind) else {
        return false;
    };
    let Ok(bytes) = bytes_of_longer(alloc) else {
        return false;
    };
    says(
        alloc,
        ScalarKind::Text,
        bytes.as_slice(),
        true,
        op,
        operand.as_str(),
        want,
    )
}

/// An operator, an operand as so many letters x and what stands behind them, and what the key of a longer text says.
const LONGER: [(ScalarOp, u32, &'static str, Test); 6] = [
    (ScalarOp::Equal, 900, "y", Test::Maybe),
    (ScalarOp::Less, 900, "y", Test::Maybe),
    (ScalarOp::Equal, 900, "", Test::No),
    (ScalarOp::Greater, 900, "", Test::Yes),
    (ScalarOp::Less, 0, "y", Test::Yes),
    (ScalarOp::LessEqual, 0, "x", Test::No),
];

#[test]
fn texts_cut_at_900_bytes(rt: HostRuntime) {
    assert!(rt; is_cut_at_900(rt.alloc(), "", false));
    assert!(rt; is_cut_at_900(rt.alloc(), "y", true));
    for (op, many, behind, want) in &LONGER {
        assert!(rt;
            longer_says(rt.alloc(), *op, *many, behind, *want),
            "{op:?}"
        );
    }
}

/// Bytes that spell no key of the type.
const NO_KEYS: [(ScalarKind, &'static [u8]); 11] = [
    (ScalarKind::Int4, b"\x03\0\0\0\x02\0\0\0"),
    (ScalarKind::Int4, b"\x03\0\0\0\x07\0\0"),
    (ScalarKind::Int8, b"\x03\0\0\0\x07\0\0\0"),
    (ScalarKind::Date, b"\0\0\0\x80\0\0\0\0"),
    (ScalarKind::Uuid, b""),
    (ScalarKind::Text, b"\x01b\0\x01a\0"),
    (ScalarKind::Text, b"\x01a\x01\x01b\0"),
    (ScalarKind::Text, b"\x01a\x02\x01b\0"),
    (ScalarKind::Text, b"\x81\0a\0\x01b\0"),
    (ScalarKind::Text, b"\x01a\0\x01b\0\0"),
    (ScalarKind::Bytea, b"\x01a\0\x01"),
];

/// Whether the bytes spell no key of the type.
fn spell_none(alloc: Global, kind: ScalarKind, bytes: &[u8]) -> bool {
    let class = ScalarClass { kind };
    match class.read(alloc, bytes) {
        Ok(key) => key.is_none(),
        Err(_) => false,
    }
}

#[test]
fn bytes_that_spell_no_key(rt: HostRuntime) {
    for (kind, bytes) in &NO_KEYS {
        assert!(rt; spell_none(rt.alloc(), *kind, bytes), "at {bytes:?}");
    }
}
