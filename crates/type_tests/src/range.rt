//! Worked texts and operators, and each public call with ample memory.

use gx_bytes::{Bytes, ValueError};
use gx_range::{Range, RangeKind, RangeOp, range_holds};
use std::alloc::Global;
use std::test::Fail;

/// The printed text of what the bytes of the range of a text are decoded to.
fn through(alloc: Global, kind: RangeKind, text: &str) -> Result<Option<Bytes>, ValueError> {
    let range = Range::read(alloc, kind, text)?;
    let mut bytes = Bytes::new(alloc);
    range.encode(&mut bytes).map_err(|_| ValueError::Memory)?;
    let decoded = Range::decode(alloc, kind, bytes.as_slice());
    let Some(again) = decoded.map_err(|_| ValueError::Memory)? else {
        return Ok(None);
    };
    let mut printed = Bytes::new(alloc);
    again
        .print(kind, &mut printed)
        .map_err(|_| ValueError::Memory)?;
    Ok(Some(printed))
}

/// Whether the range of a text, which goes through its bytes, is printed so.
fn is_printed_so(alloc: Global, kind: RangeKind, text: &str, want: &str) -> bool {
    match through(alloc, kind, text) {
        Ok(Some(printed)) => printed.as_slice() == want.as_bytes(),
        _ => false,
    }
}

/// A text of a kind of ranges, and the printed text of its range.
const TEXTS: [(RangeKind, &'static str, &'static str); 16] = [
    (RangeKind::Int4, " [1,5)\n", "[1,5)"),
    (RangeKind::Int4, "(1,5]", "[2,6)"),
    (RangeKind::Int4, "[3,3]", "[3,4)"),
    (RangeKind::Int4, "[3,3)", "empty"),
    (RangeKind::Int4, "(3,4)", "empty"),
    (RangeKind::Int4, "EmPty", "empty"),
    (RangeKind::Int4, "(,)", "(,)"),
    (RangeKind::Int4, "[,7]", "(,8)"),
    (RangeKind::Int4, "[7,)", "[7,)"),
    (RangeKind::Int4, "[ 1 , +2 )", "[1,2)"),
    (RangeKind::Int4, "[\"-1\",\" 2 \"]", "[-1,3)"),
    (
        RangeKind::Int4,
        "[-2147483648,2147483646]",
        "[-2147483648,2147483647)",
    ),
    (
        RangeKind::Int8,
        "[1,9223372036854775807)",
        "[1,9223372036854775807)",
    ),
    (
        RangeKind::Date,
        "[2024-02-28,2024-02-29]",
        "[2024-02-28,2024-03-01)",
    ),
    (
        RangeKind::Date,
        "[9999-12-31,9999-12-31]",
        "[9999-12-31,10000-01-01)",
    ),
    (
        RangeKind::Date,
        "[9999-12-31,\"10000-01-01\")",
        "[9999-12-31,10000-01-01)",
    ),
];

#[test]
fn texts(rt: HostRuntime) {
    for (kind, text, want) in &TEXTS {
        assert!(rt; is_printed_so(rt.alloc(), *kind, text, want), "at {text}");
    }
}

/// A text, and why it is no range of the kind.
const FAULTS: [(RangeKind, &'static str, ValueError); 21] = [
    (RangeKind::Int4, "[5,1]", ValueError::NoValue),
    (RangeKind::Int4, "[1,5", ValueError::NoValue),
    (RangeKind::Int4, "1,5]", ValueError::NoValue),
    (RangeKind::Int4, "[1,5]x", ValueError::NoValue),
    (RangeKind::Int4, "[1]", ValueError::NoValue),
    (RangeKind::Int4, "[\"\",1]", ValueError::NoValue),
    (RangeKind::Int4, "[\"1\" ,2)", ValueError::NoValue),
    (RangeKind::Int4, "[\"1,2)", ValueError::NoValue),
    (RangeKind::Int4, "[a,2)", ValueError::NoValue),
    (RangeKind::Int4, "emptyx", ValueError::NoValue),
    (RangeKind::Int4, "[1,2147483647]", ValueError::OutOfRange),
    (RangeKind::Int4, "[1,2147483647]x", ValueError::OutOfRange),
    (RangeKind::Int4, "(2147483647,x)", ValueError::NoValue),
    (RangeKind::Int4, "[1,2147483647", ValueError::NoValue),
    (RangeKind::Int4, "[99999999999", ValueError::OutOfRange),
    (RangeKind::Int4, "[99999999999,x)", ValueError::OutOfRange),
    (RangeKind::Int4, "[1,99999999999", ValueError::OutOfRange),
    (RangeKind::Int4, "[1,2147483648)", ValueError::OutOfRange),
    (RangeKind::Date, "[2023-02-30,)", ValueError::OutOfRange),
    (
        RangeKind::Date,
        "[2023-02-28,10000-01-01]",
        ValueError::OutOfRange,
    ),
    (
        RangeKind::Date,
        "[2023-02-28, 10000-01-01)",
        ValueError::NoValue,
    ),
];

#[test]
fn faults(rt: HostRuntime) {
    for (kind, text, want) in &FAULTS {
        assert!(rt;
            Range::read(rt.alloc(), *kind, text).err() == Some(*want),
            "at {text}"
        );
    }
}

/// An operator, two ranges, and whether it holds of them.
const HELD: [(RangeOp, &'static str, &'static str, bool); 23] = [
    (RangeOp::Equal, "[1,5)", "[1,4]", true),
    (RangeOp::Equal, "empty", "[1,4]", false),
    (RangeOp::Overlaps, "[1,5)", "[4,9)", true),
    (RangeOp::Overlaps, "[1,5)", "[5,9)", false),
    (RangeOp::Overlaps, "(,)", "empty", false),
    (RangeOp::Contains, "[1,9)", "[2,3)", true),
    (RangeOp::Contains, "empty", "empty", true),
    (RangeOp::Contains, "[1,)", "(,2)", false),
    (RangeOp::Within, "[2,3)", "(,9)", true),
    (RangeOp::Within, "empty", "[1,2)", true),
    (RangeOp::Left, "[1,5)", "[5,9)", true),
    (RangeOp::Left, "[1,5)", "[4,9)", false),
    (RangeOp::Left, "[1,)", "[5,9)", false),
    (RangeOp::Right, "[5,9)", "[1,5)", true),
    (RangeOp::NotRight, "[1,5)", "[3,5)", true),
    (RangeOp::NotRight, "[1,6)", "[3,5)", false),
    (RangeOp::NotRight, "(,)", "[3,)", true),
    (RangeOp::NotLeft, "[3,9)", "[3,5)", true),
    (RangeOp::NotLeft, "(,9)", "[3,5)", false),
    (RangeOp::Adjacent, "[1,5)", "[5,9)", true),
    (RangeOp::Adjacent, "[5,9)", "[1,5)", true),
    (RangeOp::Adjacent, "[1,5)", "[6,9)", false),
    (RangeOp::Adjacent, "(,)", "(,)", false),
];

fn holds(alloc: Global, op: RangeOp, left: &str, right: &str) -> Result<bool, ValueError> {
    let left = Range::read(alloc, RangeKind::Int4, left)?;
    let right = Range::read(alloc, RangeKind::Int4, right)?;
    Ok(range_holds(op, &left, &right))
}

#[test]
fn operators(rt: HostRuntime) -> Result<(), Fail> {
    for (op, left, right, want) in &HELD {
        assert!(rt;
            holds(rt.alloc(), *op, left, right) == Ok(*want),
            "{left} {op:?} {right}"
        );
    }
    let span = Range::read(rt.alloc(), RangeKind::Int4, "[1,5)")?;
    for (value, want) in [(0, false), (1, true), (4, true), (5, false)] {
        assert!(rt; span.has_element(value) == want, "{value}");
    }
    Ok(())
}

#[test]
fn bytes_that_spell_nothing(rt: HostRuntime) -> Result<(), Fail> {
    let cases = [
        b"".as_slice(),
        b"\x01\x00".as_slice(),
        b"\x03".as_slice(),
        b"\x02\x01\x00\x00\x00".as_slice(),
        b"\x06\x05\x00\x00\x00\x00\x00\x00\x00\x05\x00\x00\x00\x00\x00\x00\x00".as_slice(),
        b"\x04\x00\x00\x00\x00\x01\x00\x00\x00".as_slice(),
    ];
    for bytes in cases {
        assert!(rt;
            Range::decode(rt.alloc(), RangeKind::Int4, bytes)?.is_none(),
            "at {bytes:?}"
        );
    }
    Ok(())
}
