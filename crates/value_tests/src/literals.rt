//! Texts, numbers and lists that a type reads or refuses.

use crate::given::{literal_of, text_literal, value_of};
use gx_bytes::{Bytes, ValueError};
use gx_value::{ColumnType, Form, print_value, read_value};
use std::alloc::Global;

/// A text, and why it is no value of the type: it spells none, it is outside the type, or nested too deeply.
const REFUSED: [(ColumnType, &'static [u8], ValueError); 35] = [
    (ColumnType::Int4, b"x", ValueError::NoValue),
    (ColumnType::Int4, b"", ValueError::NoValue),
    (ColumnType::Int4, b"1\x0b", ValueError::NoValue),
    (ColumnType::Int8, b"1.5", ValueError::NoValue),
    (ColumnType::Text, b"\xff", ValueError::NoValue),
    (ColumnType::Bytea, b"\\x0", ValueError::NoValue),
    (ColumnType::Bytea, b"ab", ValueError::NoValue),
    (ColumnType::Date, b"2024-2-3", ValueError::NoValue),
    (ColumnType::Date, b"2023-02-30x", ValueError::NoValue),
    (ColumnType::Uuid, b"a0eebc99", ValueError::NoValue),
    (ColumnType::Int4Range, b"[5,1]", ValueError::NoValue),
    (ColumnType::Int8Range, b"[1,5", ValueError::NoValue),
    (ColumnType::DateRange, b"4", ValueError::NoValue),
    (ColumnType::Inet, b"1.2.3", ValueError::NoValue),
    (ColumnType::Inet, b"01.2.3.4", ValueError::NoValue),
    (ColumnType::Ltree, b"a..b", ValueError::NoValue),
    (ColumnType::Hstore, b"a=>", ValueError::NoValue),
    (ColumnType::Jsonb, b"{\"a\":01}", ValueError::NoValue),
    (ColumnType::Int4Array, b"{ }", ValueError::NoValue),
    (ColumnType::Int4Range, b"[5,1)", ValueError::NoValue),
    (ColumnType::Inet, b"1.2.3.4/33", ValueError::NoValue),
    (ColumnType::Date, b"2023-2-3", ValueError::NoValue),
    (
        ColumnType::Jsonb,
        b"[[[[[[[[[[[[[[[[[[[[[[[[[[[[[[[[[[[[[[[[[[[[[[[[[[[[[[[[[[[[[[[[",
        ValueError::NoValue,
    ),
    (ColumnType::Int4, b"2147483648", ValueError::OutOfRange),
    (ColumnType::Int4, b" -2147483649 ", ValueError::OutOfRange),
    (
        ColumnType::Int8,
        b"9223372036854775808",
        ValueError::OutOfRange,
    ),
    (ColumnType::Date, b"2023-02-29", ValueError::OutOfRange),
    (ColumnType::Date, b"0000-01-01", ValueError::OutOfRange),
    (
        ColumnType::Int4Range,
        b"[1,2147483647]",
        ValueError::OutOfRange,
    ),
    (
        ColumnType::Int8Range,
        b"(9223372036854775807,)",
        ValueError::OutOfRange,
    ),
    (
        ColumnType::DateRange,
        b"[2023-02-30,)",
        ValueError::OutOfRange,
    ),
    (
        ColumnType::Jsonb,
        b"[9223372036854775808]",
        ValueError::OutOfRange,
    ),
    (
        ColumnType::Int4Array,
        b"{2147483648,x}",
        ValueError::OutOfRange,
    ),
    (ColumnType::Date, b"2023-02-30", ValueError::OutOfRange),
    (
        ColumnType::Jsonb,
        b"[[[[[[[[[[[[[[[[[[[[[[[[[[[[[[[[[[[[[[[[[[[[[[[[[[[[[[[[[[[[[[[[{",
        ValueError::TooDeep,
    ),
];

/// Why a text is no value of the type.
fn refusal(alloc: Global, kind: ColumnType, text: &[u8]) -> Option<ValueError> {
    match text_literal(alloc, text) {
        Ok(literal) => read_value(alloc, kind, &literal).err(),
        Err(_) => None,
    }
}

#[test]
fn texts_that_are_refused(rt: HostRuntime) {
    for (kind, text, want) in &REFUSED {
        assert!(rt;
            refusal(rt.alloc(), *kind, text) == Some(*want),
            "at {kind:?} {text:?}"
        );
    }
}

/// A text of a type, and the printed text of its value.
const PRINTED: [(ColumnType, &'static str, &'static str); 21] = [
    (ColumnType::Int4, " +5\n", "5"),
    (
        ColumnType::Int8,
        "-9223372036854775808",
        "-9223372036854775808",
    ),
    (ColumnType::Text, " it's ", " it's "),
    (ColumnType::Bytea, "\\xFF00", "\\xff00"),
    (ColumnType::Date, " 2024-02-29 ", "2024-02-29"),
    (
        ColumnType::Uuid,
        "{A0EEBC99-9C0B-4EF8-BB6D-6BB9BD380A11}",
        "a0eebc99-9c0b-4ef8-bb6d-6bb9bd380a11",
    ),
    (ColumnType::Int4Range, "(1,5]", "[2,6)"),
    (ColumnType::Int8Range, "(,5]", "(,6)"),
    (
        ColumnType::DateRange,
        "[2024-02-28,2024-02-29]",
        "[2024-02-28,2024-03-01)",
    ),
    (ColumnType::Inet, "0:0:1::2:0", "0:0:1::2:0"),
    (ColumnType::Inet, "::ffff:1.2.3.4/128", "::ffff:102:304"),
    (ColumnType::Ltree, "A.b", "A.b"),
    (
        ColumnType::Hstore,
        "bb=>1, a=>null",
        "\"a\"=>NULL, \"bb\"=>\"1\"",
    ),
    (
        ColumnType::Jsonb,
        "{\"bb\":1,\"a\":[true,null]}",
        "{\"a\": [true, null], \"bb\": 1}",
    ),
    (ColumnType::Int4Array, "{ 1 ,\"-2\"}", "{1,-2}"),
    (ColumnType::Int4Range, "[1,10]", "[1,11)"),
    (ColumnType::Bytea, "\\xDEad", "\\xdead"),
    (
        ColumnType::DateRange,
        "[2024-01-01,9999-12-31]",
        "[2024-01-01,10000-01-01)",
    ),
    (ColumnType::Inet, "0:0:1:0:0:0:2:0", "0:0:1::2:0"),
    (ColumnType::Inet, "1.2.3.4/32", "1.2.3.4"),
    (ColumnType::Inet, "::/0", "::/0"),
];

/// The printed text of the value that a text is.
fn printed(alloc: Global, kind: ColumnType, text: &str) -> Result<Bytes, ValueError> {
    let value = value_of(alloc, kind, text)?;
    let mut to = Bytes::new(alloc);
    match print_value(kind, &value, &mut to) {
        Ok(()) => Ok(to),
        Err(_) => Err(ValueError::Memory),
    }
}

fn is_printed_so(alloc: Global, kind: ColumnType, text: &str, want: &str) -> bool {
    match printed(alloc, kind, text) {
        Ok(found) => found.as_slice() == want.as_bytes(),
        Err(_) => false,
    }
}

#[test]
fn values_are_printed(rt: HostRuntime) {
    for (kind, text, want) in &PRINTED {
        assert!(rt; is_printed_so(rt.alloc(), *kind, text, want), "at {text}");
    }
}

/// A literal, and whether it is a value of the type and not NULL, or why it is neither.
const LITERALS: [(ColumnType, Form, &'static str, Result<bool, ValueError>); 12] = [
    (ColumnType::Int4Array, Form::List, "2 +3 -4", Ok(true)),
    (ColumnType::Int4Array, Form::List, "", Ok(true)),
    (
        ColumnType::Int4,
        Form::List,
        "2 +3 -4",
        Err(ValueError::NoValue),
    ),
    (
        ColumnType::Text,
        Form::List,
        "2 +3 -4",
        Err(ValueError::NoValue),
    ),
    (
        ColumnType::Int4Array,
        Form::List,
        "2147483648 x",
        Err(ValueError::OutOfRange),
    ),
    (
        ColumnType::Int4Array,
        Form::List,
        "x 2147483648",
        Err(ValueError::NoValue),
    ),
    (ColumnType::Int4, Form::Number, "+007", Ok(true)),
    (
        ColumnType::Int4,
        Form::Number,
        "2147483648",
        Err(ValueError::OutOfRange),
    ),
    (ColumnType::Text, Form::Number, "+007", Ok(true)),
    (
        ColumnType::Jsonb,
        Form::Number,
        "+007",
        Err(ValueError::NoValue),
    ),
    (ColumnType::Int4, Form::Null, "", Ok(false)),
    (ColumnType::Jsonb, Form::Null, "", Ok(false)),
];

/// Whether a literal is a value of the type, and not NULL.
fn is_value(alloc: Global, kind: ColumnType, form: Form, text: &str) -> Result<bool, ValueError> {
    let Ok(literal) = literal_of(alloc, form, text) else {
        return Err(ValueError::Memory);
    };
    Ok(read_value(alloc, kind, &literal)?.is_some())
}

#[test]
fn lists_numbers_and_null(rt: HostRuntime) {
    for (kind, form, text, want) in &LITERALS {
        assert!(rt;
            is_value(rt.alloc(), *kind, *form, text) == *want,
            "at {kind:?} {text}"
        );
    }
}
