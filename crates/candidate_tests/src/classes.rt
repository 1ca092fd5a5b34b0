//! An operator of each class, with a value that is a candidate and one that isn't.

use crate::asked::passes;
use crate::given::{operand_of, value_of};
use gx_bytes::ValueError;
use gx_value::{Class, ColumnType, Operator};
use std::alloc::Global;
use std::test::Fail;

/// Whether the value of a text is a candidate of the class for an operator with the operand of another text; `None` where
/// there is no query.
fn is_found(
    alloc: Global,
    class: Class,
    column: ColumnType,
    op: Operator,
    operand: &str,
    value: &str,
) -> Result<Option<bool>, ValueError> {
    let operand = operand_of(alloc, column, op, operand)?;
    let value = value_of(alloc, column, value)?;
    match passes(alloc, class, op, &operand, &value) {
        Ok(found) => Ok(found),
        Err(_) => Err(ValueError::Memory),
    }
}

/// A class, its column, an operator, the operand, a value that is a candidate, and one that isn't.
const ROWS: [(
    Class,
    ColumnType,
    Operator,
    &'static str,
    &'static str,
    &'static str,
); 17] = [
    (
        Class::GistInt4,
        ColumnType::Int4,
        Operator::Less,
        "5",
        "4",
        "5",
    ),
    (
        Class::GistInt8,
        ColumnType::Int8,
        Operator::Equal,
        "-7",
        "-7",
        "7",
    ),
    (
        Class::GistText,
        ColumnType::Text,
        Operator::Greater,
        "b",
        "ba",
        "b",
    ),
    (
        Class::GistBytea,
        ColumnType::Bytea,
        Operator::LessEqual,
        "\\x01ff",
        "\\x01ff",
        "\\x02",
    ),
    (
        Class::GistDate,
        ColumnType::Date,
        Operator::GreaterEqual,
        "2024-02-29",
        "2024-02-29",
        "2024-02-28",
    ),
    (
        Class::GistUuid,
        ColumnType::Uuid,
        Operator::NotEqual,
        "a0eebc99-9c0b-4ef8-bb6d-6bb9bd380a11",
        "a0eebc99-9c0b-4ef8-bb6d-6bb9bd380a12",
        "A0EEBC999C0B4EF8BB6D6BB9BD380A11",
    ),
    (
        Class::RangeOps,
        ColumnType::Int4Range,
        Operator::Contains,
        "[3,5)",
        "[1,5)",
        "[4,9)",
    ),
    (
        Class::InetOps,
        ColumnType::Inet,
        Operator::LeftEqual,
        "10.0.0.0/8",
        "10.1.2.3",
        "11.1.2.3",
    ),
    (
        Class::GistLtree,
        ColumnType::Ltree,
        Operator::Within,
        "a.b",
        "a.b.c",
        "a.c",
    ),
    (
        Class::GistHstore,
        ColumnType::Hstore,
        Operator::Has,
        "a",
        "a=>1",
        "",
    ),
    (
        Class::GistInt,
        ColumnType::Int4Array,
        Operator::Overlaps,
        "{5,700}",
        "{1,700}",
        "{1,6}",
    ),
    (
        Class::GistIntbig,
        ColumnType::Int4Array,
        Operator::Contains,
        "{7}",
        "{7,8}",
        "{}",
    ),
    (
        Class::ArrayOps,
        ColumnType::Int4Array,
        Operator::Within,
        "{1,2}",
        "{2,3}",
        "{3}",
    ),
    (
        Class::GinInt,
        ColumnType::Int4Array,
        Operator::Formula,
        "1 & !2",
        "{1,3}",
        "{1,2}",
    ),
    (
        Class::GinHstore,
        ColumnType::Hstore,
        Operator::HasAll,
        "{a,b}",
        "a=>1,b=>2",
        "a=>1",
    ),
    (
        Class::JsonbOps,
        ColumnType::Jsonb,
        Operator::Has,
        "k",
        r#"{"k":1}"#,
        r#"{"a":1}"#,
    ),
    (
        Class::JsonbPathOps,
        ColumnType::Jsonb,
        Operator::Contains,
        r#"{"a":{"b":1}}"#,
        r#"{"a":{"b":1},"c":2}"#,
        r#"{"a":{"b":2}}"#,
    ),
];

#[test]
fn candidates_of_classes(rt: HostRuntime) -> Result<(), Fail> {
    let alloc = rt.alloc();
    for (class, column, op, operand, found, other) in &ROWS {
        assert!(rt;
            is_found(alloc, *class, *column, *op, operand, found)? == Some(true),
            "at {class:?} {found}"
        );
        assert!(rt;
            is_found(alloc, *class, *column, *op, operand, other)? == Some(false),
            "at {class:?} {other}"
        );
    }
    Ok(())
}

/// A class, its column, an operator that the class lacks, the operand and a value.
const UNASKED: [(Class, ColumnType, Operator, &'static str, &'static str); 3] = [
    (
        Class::GistInt,
        ColumnType::Int4Array,
        Operator::Within,
        "{1}",
        "{1}",
    ),
    (
        Class::ArrayOps,
        ColumnType::Int4Array,
        Operator::Formula,
        "1",
        "{1}",
    ),
    (
        Class::JsonbPathOps,
        ColumnType::Jsonb,
        Operator::Has,
        "k",
        r#"{"k":1}"#,
    ),
];

#[test]
fn operators_that_a_class_lacks(rt: HostRuntime) -> Result<(), Fail> {
    for (class, column, op, operand, value) in &UNASKED {
        assert!(rt;
            is_found(rt.alloc(), *class, *column, *op, operand, value)? == None,
            "at {class:?} {op:?}"
        );
    }
    Ok(())
}
