//! Worked texts, and each public call with ample memory.

ghost use Rattle.gx_scalar.specs.Values.{IsValid};

use gx_bytes::{Bytes, NoMemory, ValueError};
use gx_scalar::{Scalar, ScalarKind, ScalarOp};
use std::alloc::Global;
use std::cmp::Ordering;

/// The bytes of the value of a text.
fn encoded(alloc: Global, value: &Scalar) -> Result<Bytes, NoMemory>
    requires { IsValid value.now }
{
    let mut bytes = Bytes::new(alloc);
    value.encode(&mut bytes)?;
    Ok(bytes)
}

/// What the value with these bytes is printed as, and whether it is the value. None where it has no bytes.
fn printed(
    alloc: Global,
    kind: ScalarKind,
    bytes: &[u8],
    value: &Scalar,
) -> Result<Option<(Bytes, bool)>, NoMemory> {
    let Some(again) = Scalar::decode(alloc, kind, bytes)? else {
        return Ok(None);
    };
    let mut text = Bytes::new(alloc);
    again.print(&mut text)?;
    Ok(Some((text, again.compare(value) == Ordering::Equal)))
}

/// Whether a text is read, and comes back from its bytes as the same value, which is printed so.
fn is_printed_so(alloc: Global, kind: ScalarKind, text: &str, want: &str) -> bool {
    let Ok(value) = Scalar::read(alloc, kind, text) else {
        return false;
    };
    let Ok(bytes) = encoded(alloc, &value) else {
        return false;
    };
    match printed(alloc, kind, bytes.as_slice(), &value) {
        Ok(Some((text, same))) => same && text.as_slice() == want.as_bytes(),
        _ => false,
    }
}

/// A type, a text of it, and the text that its value is printed as.
const TEXTS: [(ScalarKind, &'static str, &'static str); 13] = [
    (ScalarKind::Int4, " +0012\n", "12"),
    (ScalarKind::Int4, "-2147483648", "-2147483648"),
    (
        ScalarKind::Int8,
        "9223372036854775807",
        "9223372036854775807",
    ),
    (ScalarKind::Text, " a\u{e9} ", " a\u{e9} "),
    (ScalarKind::Text, "", ""),
    (ScalarKind::Bytea, "\\x", "\\x"),
    (ScalarKind::Bytea, "\\xDEadbeef00", "\\xdeadbeef00"),
    (ScalarKind::Date, " 2024-02-29 ", "2024-02-29"),
    (ScalarKind::Date, "0001-01-01", "0001-01-01"),
    (
        ScalarKind::Uuid,
        "A0EEBC999C0B4EF8BB6D6BB9BD380A11",
        "a0eebc99-9c0b-4ef8-bb6d-6bb9bd380a11",
    ),
    (
        ScalarKind::Uuid,
        "a0eebc99-9c0b-4ef8-bb6d-6bb9bd380a11",
        "a0eebc99-9c0b-4ef8-bb6d-6bb9bd380a11",
    ),
    (
        ScalarKind::Uuid,
        "{a0eebc99-9c0b-4ef8-bb6d-6bb9bd380a11}",
        "a0eebc99-9c0b-4ef8-bb6d-6bb9bd380a11",
    ),
    (
        ScalarKind::Uuid,
        "URN:uuid:00000000-0000-0000-0000-0000000003de",
        "00000000-0000-0000-0000-0000000003de",
    ),
];

#[test]
fn texts(rt: HostRuntime) {
    for (kind, text, want) in &TEXTS {
        assert!(rt; is_printed_so(rt.alloc(), *kind, text, want), "at {text}");
    }
}

/// A type, a text, and its fault.
const FAULTS: [(ScalarKind, &'static str, ValueError); 14] = [
    (ScalarKind::Int4, "2147483648", ValueError::OutOfRange),
    (ScalarKind::Int4, "1.0", ValueError::NoValue),
    (
        ScalarKind::Int8,
        "9223372036854775808",
        ValueError::OutOfRange,
    ),
    (ScalarKind::Int8, "", ValueError::NoValue),
    (ScalarKind::Bytea, "\\x1", ValueError::NoValue),
    (ScalarKind::Bytea, "\\x0g", ValueError::NoValue),
    (ScalarKind::Bytea, "00", ValueError::NoValue),
    (ScalarKind::Bytea, " \\x00", ValueError::NoValue),
    (ScalarKind::Date, "2023-02-30", ValueError::OutOfRange),
    (ScalarKind::Date, "0000-12-31", ValueError::OutOfRange),
    (ScalarKind::Date, "23-02-03", ValueError::NoValue),
    (
        ScalarKind::Uuid,
        "{a0eebc999c0b4ef8bb6d6bb9bd380a11}",
        ValueError::NoValue,
    ),
    (
        ScalarKind::Uuid,
        "a0eebc99-9c0b4ef8-bb6d-6bb9bd380a11",
        ValueError::NoValue,
    ),
    (
        ScalarKind::Uuid,
        " a0eebc99-9c0b-4ef8-bb6d-6bb9bd380a11",
        ValueError::NoValue,
    ),
];

fn has_fault(alloc: Global, kind: ScalarKind, text: &str, want: ValueError) -> bool {
    match Scalar::read(alloc, kind, text) {
        Ok(_) => false,
        Err(fault) => fault == want,
    }
}

#[test]
fn faults(rt: HostRuntime) {
    for (kind, text, want) in &FAULTS {
        assert!(rt; has_fault(rt.alloc(), *kind, text, *want), "at {text}");
    }
}

/// A type, and bytes that spell no value of it.
const NO_VALUES: [(ScalarKind, &'static [u8]); 5] = [
    (ScalarKind::Int4, b"\x01\x00\x00"),
    (ScalarKind::Int8, b"\x01\x00\x00\x00"),
    (ScalarKind::Text, b"\xff"),
    (ScalarKind::Date, b"\xa1\xc0\x2c\x00"),
    (ScalarKind::Uuid, b""),
];

fn spell_none(alloc: Global, kind: ScalarKind, bytes: &[u8]) -> bool {
    match Scalar::decode(alloc, kind, bytes) {
        Ok(value) => value.is_none(),
        Err(_) => false,
    }
}

#[test]
fn bytes_that_spell_nothing(rt: HostRuntime) {
    for (kind, bytes) in &NO_VALUES {
        assert!(rt; spell_none(rt.alloc(), *kind, bytes), "at {bytes:?}");
    }
}

/// A type, and texts of a lesser and a greater value of it.
const ORDERED: [(ScalarKind, &'static str, &'static str); 7] = [
    (ScalarKind::Int4, "-1", "0"),
    (ScalarKind::Int8, "2", "10"),
    (ScalarKind::Text, "ab", "abc"),
    (ScalarKind::Text, "Z", "a"),
    (ScalarKind::Bytea, "\\x7f", "\\x80"),
    (ScalarKind::Date, "1969-12-31", "1970-01-01"),
    (
        ScalarKind::Uuid,
        "00000000000000000000000000000001",
        "10000000000000000000000000000000",
    ),
];

/// Whether the first text's value is less than the second's, and that greater.
fn is_less(alloc: Global, kind: ScalarKind, low: &str, high: &str) -> bool {
    match (
        Scalar::read(alloc, kind, low),
        Scalar::read(alloc, kind, high),
    ) {
        (Ok(low), Ok(high)) => {
            low.compare(&high) == Ordering::Less && high.compare(&low) == Ordering::Greater
        }
        _ => false,
    }
}

#[test]
fn orders(rt: HostRuntime) {
    for (kind, low, high) in &ORDERED {
        assert!(rt; is_less(rt.alloc(), *kind, low, high), "at {low}");
    }
}

/// An operator, and whether it holds of 1 and 1, of 1 and 2, of 2 and 1.
const OPERATORS: [(ScalarOp, bool, bool, bool); 6] = [
    (ScalarOp::Equal, true, false, false),
    (ScalarOp::NotEqual, false, true, true),
    (ScalarOp::Less, false, true, false),
    (ScalarOp::LessEqual, true, true, false),
    (ScalarOp::Greater, false, false, true),
    (ScalarOp::GreaterEqual, true, false, true),
];

#[test]
fn operators(rt: HostRuntime) {
    let one = Scalar::Int4(1);
    let two = Scalar::Int4(2);
    for (op, same, below, above) in &OPERATORS {
        assert!(rt; one.holds(*op, &one) == *same, "{op:?}");
        assert!(rt; one.holds(*op, &two) == *below, "{op:?}");
        assert!(rt; two.holds(*op, &one) == *above, "{op:?}");
    }
}

/// A type, and a text of it.
const COPIED: [(ScalarKind, &'static str); 6] = [
    (ScalarKind::Int4, "-5"),
    (ScalarKind::Int8, "5"),
    (ScalarKind::Text, "a text"),
    (ScalarKind::Bytea, "\\x00ff"),
    (ScalarKind::Date, "2000-01-01"),
    (ScalarKind::Uuid, "a0eebc99-9c0b-4ef8-bb6d-6bb9bd380a11"),
];

/// Whether a copy of a text's value is of the type, and equal.
fn is_copied(alloc: Global, kind: ScalarKind, text: &str) -> bool {
    let Ok(value) = Scalar::read(alloc, kind, text) else {
        return false;
    };
    match value.copy(alloc) {
        Ok(copy) => copy.kind() == kind && copy.compare(&value) == Ordering::Equal,
        Err(_) => false,
    }
}

#[test]
fn copies(rt: HostRuntime) {
    for (kind, text) in &COPIED {
        assert!(rt; is_copied(rt.alloc(), *kind, text), "at {text}");
    }
}
