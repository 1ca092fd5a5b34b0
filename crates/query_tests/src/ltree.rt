//! Worked texts, boundary values, and each call once.

use crate::lquery::repeated;
use gx_bytes::{Bytes, NoMemory, ValueError};
use gx_ltree::{LtreeOp, Path, is_label_byte, take_label};
use std::alloc::Global;
use std::cmp::Ordering;
use std::test::Fail;

/// The printed text of a copy of the path, and the bytes.
fn written(alloc: Global, path: &Path) -> Result<(Bytes, Bytes), NoMemory> {
    let mut printed = Bytes::new(alloc);
    path.copy(alloc)?.print(&mut printed)?;
    let mut bytes = Bytes::new(alloc);
    path.encode(&mut bytes)?;
    Ok((printed, bytes))
}

/// Whether the bytes are those of the path.
fn is_decoded(alloc: Global, bytes: &[u8], path: &Path) -> bool {
    match Path::decode(alloc, bytes) {
        Ok(Some(again)) => again.compare(path) == Ordering::Equal,
        _ => false,
    }
}

/// How many labels a path has that is printed as its text, and read again from its bytes.
fn count_written(alloc: Global, text: &str) -> Result<usize, ValueError> {
    let path = Path::read(alloc, text)?;
    match written(alloc, &path) {
        Ok((printed, bytes)) => if printed.as_slice() == text.as_bytes()
            && is_decoded(alloc, bytes.as_slice(), &path)
        {
            Ok(path.count())
        } else {
            Err(ValueError::TooDeep)
        },
        Err(_) => Err(ValueError::Memory),
    }
}

/// Texts, and the number of their labels or the fault.
const TEXTS: [(&'static str, Result<usize, ValueError>); 13] = [
    ("", Ok(0)),
    ("a", Ok(1)),
    ("Top.a_1.b-2.9", Ok(4)),
    ("-._.Z", Ok(3)),
    ("a..b", Err(ValueError::NoValue)),
    (".a", Err(ValueError::NoValue)),
    ("a.", Err(ValueError::NoValue)),
    (".", Err(ValueError::NoValue)),
    (" a", Err(ValueError::NoValue)),
    ("a b", Err(ValueError::NoValue)),
    ("ä", Err(ValueError::NoValue)),
    ("a.*", Err(ValueError::NoValue)),
    ("a\n", Err(ValueError::NoValue)),
];

fn decodes(alloc: Global, bytes: &[u8]) -> Result<bool, NoMemory> {
    Ok(Path::decode(alloc, bytes)?.is_some())
}

#[test]
fn texts_and_bytes(rt: HostRuntime) {
    for (text, want) in &TEXTS {
        assert!(rt; count_written(rt.alloc(), text) == *want, "at {text}");
        assert!(rt;
            decodes(rt.alloc(), text.as_bytes()) == Ok(want.is_ok()),
            "at {text}"
        );
    }
}

/// A text this many times, an end behind it, and the number of the labels or the fault.
const LONG: [(&'static str, usize, &'static str, Result<usize, ValueError>); 4] = [
    ("a", 1000, "", Ok(1)),
    ("a", 1001, "", Err(ValueError::NoValue)),
    ("a.", 65534, "a", Ok(65535)),
    ("a.", 65535, "b ", Err(ValueError::OutOfRange)),
];

fn count(alloc: Global, text: &str) -> Result<usize, ValueError> {
    Ok(Path::read(alloc, text)?.count())
}

#[test]
fn the_longest_label_and_the_longest_path(rt: HostRuntime) -> Result<(), Fail> {
    for (part, times, end, want) in &LONG {
        let text = repeated(rt.alloc(), part, *times, end)?;
        assert!(rt;
            count(rt.alloc(), text.as_str()) == *want,
            "{times} times {part}"
        );
    }
    Ok(())
}

/// Two paths in rising order, and whether the first is a prefix of the second.
const RISING: [(&'static str, &'static str, bool); 7] = [
    ("", "B", true),
    ("B", "a", false),
    ("a", "a.b", true),
    ("a.b", "a.b.c", true),
    ("a.b", "a-b", false),
    ("a-b", "b", false),
    ("a.b", "aa", false),
];

/// Whether the first path is the lesser one both ways round, and which of them is a prefix of the other.
fn order(alloc: Global, left: &str, right: &str) -> Result<(bool, bool, bool), ValueError> {
    let a = Path::read(alloc, left)?;
    let b = Path::read(alloc, right)?;
    let rises = a.compare(&b) == Ordering::Less && b.compare(&a) == Ordering::Greater;
    Ok((rises, a.above(&b), b.above(&a)))
}

#[test]
fn order_and_prefixes(rt: HostRuntime) {
    for (left, right, above) in &RISING {
        assert!(rt;
            order(rt.alloc(), left, right) == Ok((true, *above, false)),
            "{left} and {right}"
        );
        assert!(rt;
            order(rt.alloc(), left, left) == Ok((false, true, true)),
            "{left}"
        );
    }
}

#[test]
fn labels_one_by_one(rt: HostRuntime) -> Result<(), Fail> {
    let mut path = Path::new(rt.alloc());
    path.push(b"Top")?;
    path.push(b"9")?;
    let labels = [Some(b"Top".as_slice()), Some(b"9".as_slice()), None];
    for (at, want) in labels.iter().enumerate() {
        assert!(rt; path.label(at) == *want);
    }
    assert!(rt; is_label_byte(b'_') && !is_label_byte(b'.'));
    assert!(rt; take_label(b"a-1*b") == Some((b"a-1".as_slice(), b"*b".as_slice())));
    Ok(())
}

/// The operators between paths.
const OPERATORS: [LtreeOp; 7] = [
    LtreeOp::Less,
    LtreeOp::LessEqual,
    LtreeOp::Equal,
    LtreeOp::GreaterEqual,
    LtreeOp::Greater,
    LtreeOp::Above,
    LtreeOp::Below,
];

/// Two paths, and whether `< <= = >= > @> <@` hold.
const HELD: [(&'static str, &'static str, [bool; 7]); 4] = [
    ("a", "a.b", [true, true, false, false, false, true, false]),
    ("a.b", "a.b", [false, true, true, true, false, true, true]),
    ("a.b", "a", [false, false, false, true, true, false, true]),
    ("b", "a.b", [false, false, false, true, true, false, false]),
];

fn holds(alloc: Global, op: LtreeOp, left: &str, right: &str) -> Result<bool, ValueError> {
    let value = Path::read(alloc, left)?;
    let operand = Path::read(alloc, right)?;
    Ok(value.holds(op, &operand))
}

#[test]
fn operators_between_paths(rt: HostRuntime) {
    for (left, right, wants) in &HELD {
        for (op, want) in OPERATORS.iter().zip(wants.iter()) {
            assert!(rt;
                holds(rt.alloc(), *op, left, right) == Ok(*want),
                "{left} {op:?} {right}"
            );
        }
    }
}
