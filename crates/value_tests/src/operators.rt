//! Every line of the table of operators.

ghost use Rattle.std.specs.Prelude.{◌≡◌, true, IfOk};
ghost use Rattle.gx_opr.specs.Operands.{IsOperand};
ghost use Rattle.gx_value.specs.Literals.{IsLiteral};
ghost use Rattle.gx_value.specs.Operators.{is_operand};

use crate::given::{literal_of, value_of};
use gx_bytes::ValueError;
use gx_opr::{Operand, holds, read_operand, resolve};
use gx_value::{ColumnType, Form, Literal, OperandType, Operator};
use std::alloc::Global;

/// Why a literal is no operand.
#[derive(Clone, Copy, Debug, Drop, PartialEq, Eq)]
enum Fault {
    NoOperator,
    Null,
    Value(ValueError),
}

/// The operand that a literal with its cast is beside the operator.
fn operand_of(
    alloc: Global,
    column: ColumnType,
    op: Operator,
    cast: Option<OperandType>,
    literal: &Literal,
) -> Result<Operand, Fault>
    requires { IsLiteral literal.now }
    ensures listed { IfOk result (λ o. is_operand column op o.kind ≡ true) }
    ensures valid { IfOk result (λ o. IsOperand o) }
{
    let Ok(kind) = resolve(column, op, literal.form, cast) else {
        return Err(Fault::NoOperator);
    };
    match read_operand(alloc, kind, literal) {
        Ok(Some(operand)) => Ok(operand),
        Ok(None) => Err(Fault::Null),
        Err(fault) => Err(Fault::Value(fault)),
    }
}

/// Whether the operator holds of the value of a text and an operand that the table lists.
fn is_so(
    alloc: Global,
    column: ColumnType,
    op: Operator,
    text: &str,
    operand: &Operand,
) -> Result<bool, ValueError>
    requires listed { is_operand column op operand.now.kind ≡ true }
    requires valid { IsOperand operand.now }
{
    let value = value_of(alloc, column, text)?;
    match holds(alloc, op, &value, operand) {
        Ok(answer) => Ok(answer),
        Err(_) => Err(ValueError::Memory),
    }
}

/// Whether the operator holds of the value of a text and a literal, or why the literal is no operand.
fn answer(
    alloc: Global,
    column: ColumnType,
    op: Operator,
    value: &str,
    cast: Option<OperandType>,
    literal: &Literal,
) -> Result<bool, Fault>
    requires { IsLiteral literal.now }
{
    let operand = operand_of(alloc, column, op, cast, literal)?;
    match is_so(alloc, column, op, value, &operand) {
        Ok(answer) => Ok(answer),
        Err(fault) => Err(Fault::Value(fault)),
    }
}

/// The same with a literal of this form.
fn answer_to(
    alloc: Global,
    column: ColumnType,
    op: Operator,
    value: &str,
    form: Form,
    text: &str,
    cast: Option<OperandType>,
) -> Result<bool, Fault> {
    match literal_of(alloc, form, text) {
        Ok(literal) => answer(alloc, column, op, value, cast, &literal),
        Err(_) => Err(Fault::Value(ValueError::Memory)),
    }
}

/// A column, an operator, a value, a text on the right, and whether the operator holds.
const TEXTS: [(ColumnType, Operator, &'static str, &'static str, bool); 63] = [
    (ColumnType::Int4, Operator::Less, "-5", "5", true),
    (ColumnType::Int4, Operator::GreaterEqual, "5", "5", true),
    (
        ColumnType::Int8,
        Operator::NotEqual,
        "2147483648",
        "2147483648",
        false,
    ),
    (ColumnType::Text, Operator::Less, "a", "ab", true),
    (ColumnType::Text, Operator::Greater, "b", "B", true),
    (
        ColumnType::Bytea,
        Operator::LessEqual,
        "\\xff",
        "\\xff00",
        true,
    ),
    (
        ColumnType::Date,
        Operator::Greater,
        "2024-03-01",
        "2024-02-29",
        true,
    ),
    (
        ColumnType::Uuid,
        Operator::Equal,
        "a0eebc99-9c0b-4ef8-bb6d-6bb9bd380a11",
        "A0EEBC999C0B4EF8BB6D6BB9BD380A11",
        true,
    ),
    (
        ColumnType::Inet,
        Operator::Equal,
        "10.0.0.0/8",
        "10.0.0.0/8",
        true,
    ),
    (
        ColumnType::Inet,
        Operator::NotEqual,
        "10.0.0.0/8",
        "10.0.0.0/16",
        true,
    ),
    (
        ColumnType::Inet,
        Operator::Less,
        "9.255.0.0",
        "10.0.0.0/16",
        true,
    ),
    (
        ColumnType::Inet,
        Operator::LessEqual,
        "10.0.0.1/16",
        "10.0.0.0/16",
        false,
    ),
    (
        ColumnType::Inet,
        Operator::Greater,
        "::",
        "255.255.255.255",
        true,
    ),
    (
        ColumnType::Inet,
        Operator::GreaterEqual,
        "10.0.0.1/16",
        "10.0.0.1/16",
        true,
    ),
    (
        ColumnType::Inet,
        Operator::Left,
        "10.0.0.0/16",
        "10.0.0.0/8",
        true,
    ),
    (
        ColumnType::Inet,
        Operator::LeftEqual,
        "10.0.0.0/8",
        "10.0.0.0/8",
        true,
    ),
    (
        ColumnType::Inet,
        Operator::Right,
        "10.0.0.0/8",
        "10.0.0.7",
        true,
    ),
    (
        ColumnType::Inet,
        Operator::RightEqual,
        "10.0.0.0/16",
        "10.0.0.0/8",
        false,
    ),
    (
        ColumnType::Inet,
        Operator::Overlaps,
        "10.0.0.0/8",
        "10.128.0.0/9",
        true,
    ),
    (ColumnType::Ltree, Operator::Less, "a", "a.b", true),
    (ColumnType::Ltree, Operator::LessEqual, "a.b", "a.b", true),
    (ColumnType::Ltree, Operator::Equal, "A", "a", false),
    (ColumnType::Ltree, Operator::GreaterEqual, "b", "a.b", true),
    (ColumnType::Ltree, Operator::Greater, "b", "b", false),
    (ColumnType::Ltree, Operator::Contains, "a", "a.b", true),
    (ColumnType::Ltree, Operator::Within, "a.b", "a", true),
    (
        ColumnType::Ltree,
        Operator::Matches,
        "A.B.c",
        "a@.*{1}.c",
        true,
    ),
    (ColumnType::Ltree, Operator::Matches, "a.b", "!b.a", false),
    (
        ColumnType::Ltree,
        Operator::Has,
        "a.b",
        "{a,\"*{2}\"}",
        true,
    ),
    (ColumnType::Ltree, Operator::Has, "a.b", "{}", false),
    (ColumnType::Ltree, Operator::Words, "a.b", "a & !c", true),
    (ColumnType::Ltree, Operator::Words, "Abc", "ab@*", true),
    (
        ColumnType::Hstore,
        Operator::Contains,
        "a=>1,b=>NULL",
        "b=>NULL",
        true,
    ),
    (
        ColumnType::Hstore,
        Operator::Contains,
        "a=>1,b=>NULL",
        "a=>NULL",
        false,
    ),
    (ColumnType::Hstore, Operator::Contains, "", "", true),
    (ColumnType::Hstore, Operator::Has, "a=>1,b=>NULL", "b", true),
    (
        ColumnType::Hstore,
        Operator::HasAll,
        "a=>1,b=>NULL",
        "{a,b}",
        true,
    ),
    (ColumnType::Hstore, Operator::HasAll, "a=>2", "{a,b}", false),
    (
        ColumnType::Hstore,
        Operator::HasAny,
        "a=>2",
        "{b,\"a\"}",
        true,
    ),
    (ColumnType::Hstore, Operator::HasAny, "a=>2", "{}", false),
    (
        ColumnType::Jsonb,
        Operator::Contains,
        "{\"a\":[1,{\"b\":2}],\"c\":null}",
        "{\"a\":[{\"b\":2}]}",
        true,
    ),
    (
        ColumnType::Jsonb,
        Operator::Contains,
        "{\"a\":[1]}",
        "{\"a\":1}",
        false,
    ),
    (ColumnType::Jsonb, Operator::Contains, "[1,2]", "2", true),
    (ColumnType::Jsonb, Operator::Contains, "1", "[1]", false),
    (ColumnType::Jsonb, Operator::Has, "[\"a\",\"b\"]", "a", true),
    (ColumnType::Jsonb, Operator::Has, "\"a\"", "a", true),
    (ColumnType::Jsonb, Operator::Has, "1", "1", false),
    (
        ColumnType::Jsonb,
        Operator::HasAll,
        "{\"a\":1,\"b\":2}",
        "{a,b}",
        true,
    ),
    (ColumnType::Jsonb, Operator::HasAll, "1", "{}", true),
    (
        ColumnType::Jsonb,
        Operator::HasAny,
        "{\"a\":1}",
        "{b,c}",
        false,
    ),
    (
        ColumnType::Int4Array,
        Operator::Overlaps,
        "{1,2}",
        "{2,9}",
        true,
    ),
    (
        ColumnType::Int4Array,
        Operator::Overlaps,
        "{1,2}",
        "{}",
        false,
    ),
    (
        ColumnType::Int4Array,
        Operator::Contains,
        "{1,2}",
        "{2,1,1}",
        true,
    ),
    (
        ColumnType::Int4Array,
        Operator::Within,
        "{2,2,1}",
        "{3,2,1}",
        true,
    ),
    (
        ColumnType::Int4Array,
        Operator::Equal,
        "{2,2,1}",
        "{1,2}",
        false,
    ),
    (ColumnType::Int4Array, Operator::Equal, "{}", "{}", true),
    (
        ColumnType::Int4Array,
        Operator::Formula,
        "{-5,3}",
        "1 & !3 | -5",
        true,
    ),
    (
        ColumnType::Int4Array,
        Operator::Formula,
        "{1,2}",
        "(1|3)&!2",
        false,
    ),
    (
        ColumnType::DateRange,
        Operator::Equal,
        "[2024-02-28,2024-02-29]",
        "[2024-02-28,2024-03-01)",
        true,
    ),
    (
        ColumnType::DateRange,
        Operator::Overlaps,
        "[2024-02-28,2024-03-01)",
        "[2024-03-01,)",
        false,
    ),
    (
        ColumnType::DateRange,
        Operator::Adjacent,
        "[2024-02-28,2024-03-01)",
        "[2024-03-01,)",
        true,
    ),
    (
        ColumnType::DateRange,
        Operator::Contains,
        "[2024-02-28,2024-03-01)",
        "[2024-02-29,2024-02-29]",
        true,
    ),
    (
        ColumnType::Int8,
        Operator::LessEqual,
        "2147483648",
        "9223372036854775807",
        true,
    ),
];

/// The same of ranges of numbers.
const RANGES: [(Operator, &'static str, &'static str, bool); 10] = [
    (Operator::Equal, "[1,5)", "[1,4]", true),
    (Operator::Overlaps, "[1,5)", "[4,9)", true),
    (Operator::Contains, "[1,9)", "empty", true),
    (Operator::Within, "[2,3)", "[1,9)", true),
    (Operator::Left, "[1,5)", "[5,9)", true),
    (Operator::Right, "[5,9)", "[1,6)", false),
    (Operator::NotRight, "[1,5)", "[3,5)", true),
    (Operator::NotLeft, "[3,5)", "[1,5)", true),
    (Operator::Adjacent, "[1,5)", "[5,9)", true),
    (Operator::Adjacent, "empty", "[5,9)", false),
];

#[test]
fn operators_and_texts(rt: HostRuntime) {
    for (column, op, value, text, want) in &TEXTS {
        let found = answer_to(rt.alloc(), *column, *op, value, Form::Text, text, None);
        assert!(rt; found == Ok(*want), "at {value} {op:?} {text}");
    }
    for (op, value, text, want) in &RANGES {
        for column in [ColumnType::Int4Range, ColumnType::Int8Range] {
            let found = answer_to(rt.alloc(), column, *op, value, Form::Text, text, None);
            assert!(rt; found == Ok(*want), "at {value} {op:?} {text}");
        }
    }
}

/// A column, an operator, a value, a literal with its cast, and whether the operator holds or why the literal is
/// no operand.
const LITERALS: [(
    ColumnType,
    Operator,
    &'static str,
    Form,
    &'static str,
    Option<OperandType>,
    Result<bool, Fault>,
); 30] = [
    (
        ColumnType::Int4Array,
        Operator::Formula,
        "{}",
        Form::Text,
        "",
        None,
        Err(Fault::Value(ValueError::NoValue)),
    ),
    (
        ColumnType::Int4Array,
        Operator::Formula,
        "{}",
        Form::Text,
        "+1",
        None,
        Err(Fault::Value(ValueError::NoValue)),
    ),
    (
        ColumnType::Int4Array,
        Operator::Formula,
        "{}",
        Form::Text,
        "2147483648",
        None,
        Err(Fault::Value(ValueError::OutOfRange)),
    ),
    (
        ColumnType::Hstore,
        Operator::HasAll,
        "",
        Form::Text,
        "{a,NULL}",
        None,
        Err(Fault::Value(ValueError::NoValue)),
    ),
    (
        ColumnType::Ltree,
        Operator::Has,
        "",
        Form::Text,
        "{a,!}",
        None,
        Err(Fault::Value(ValueError::NoValue)),
    ),
    (
        ColumnType::Ltree,
        Operator::Words,
        "",
        Form::Text,
        "a &",
        None,
        Err(Fault::Value(ValueError::NoValue)),
    ),
    (
        ColumnType::Ltree,
        Operator::Matches,
        "",
        Form::Text,
        "a{2,1}",
        None,
        Err(Fault::Value(ValueError::NoValue)),
    ),
    (
        ColumnType::Int8,
        Operator::Equal,
        "1",
        Form::Text,
        "9223372036854775808",
        None,
        Err(Fault::Value(ValueError::OutOfRange)),
    ),
    (
        ColumnType::Int4,
        Operator::Formula,
        "1",
        Form::Text,
        "1",
        None,
        Err(Fault::NoOperator),
    ),
    (
        ColumnType::Int4Range,
        Operator::Contains,
        "[1,5)",
        Form::Number,
        "4",
        None,
        Ok(true),
    ),
    (
        ColumnType::Int4Range,
        Operator::Contains,
        "[1,4)",
        Form::Number,
        "4",
        None,
        Ok(false),
    ),
    (
        ColumnType::Int4Range,
        Operator::Contains,
        "[1,5)",
        Form::Text,
        "4",
        Some(OperandType::Int4),
        Ok(true),
    ),
    (
        ColumnType::Int8Range,
        Operator::Contains,
        "(,)",
        Form::Number,
        "2147483648",
        None,
        Ok(true),
    ),
    (
        ColumnType::Int4Range,
        Operator::Contains,
        "(,)",
        Form::Number,
        "2147483648",
        None,
        Err(Fault::Value(ValueError::OutOfRange)),
    ),
    (
        ColumnType::DateRange,
        Operator::Contains,
        "(,)",
        Form::Number,
        "4",
        None,
        Err(Fault::Value(ValueError::NoValue)),
    ),
    (
        ColumnType::DateRange,
        Operator::Contains,
        "[2024-02-28,2024-03-01)",
        Form::Text,
        "2024-02-29",
        Some(OperandType::Date),
        Ok(true),
    ),
    (
        ColumnType::DateRange,
        Operator::Contains,
        "[2024-02-28,2024-03-01)",
        Form::Text,
        "2024-03-01",
        Some(OperandType::Date),
        Ok(false),
    ),
    (
        ColumnType::Int8Range,
        Operator::Contains,
        "[1,9)",
        Form::Text,
        "5",
        None,
        Err(Fault::Value(ValueError::NoValue)),
    ),
    (
        ColumnType::Int8Range,
        Operator::Contains,
        "[1,9)",
        Form::Number,
        "5",
        Some(OperandType::Int4),
        Err(Fault::NoOperator),
    ),
    (
        ColumnType::Int4,
        Operator::Contains,
        "1",
        Form::Number,
        "1",
        None,
        Err(Fault::NoOperator),
    ),
    (
        ColumnType::Int4,
        Operator::Contains,
        "1",
        Form::Null,
        "",
        None,
        Err(Fault::NoOperator),
    ),
    (
        ColumnType::Int4,
        Operator::Equal,
        "1",
        Form::Null,
        "",
        None,
        Err(Fault::Null),
    ),
    (
        ColumnType::Ltree,
        Operator::Has,
        "a.b",
        Form::List,
        "b.* *.b",
        None,
        Ok(true),
    ),
    (
        ColumnType::Hstore,
        Operator::HasAny,
        "b=>1",
        Form::List,
        "x b",
        None,
        Ok(true),
    ),
    (
        ColumnType::Hstore,
        Operator::HasAll,
        "a=>1",
        Form::List,
        "",
        None,
        Ok(true),
    ),
    (
        ColumnType::Hstore,
        Operator::Contains,
        "a=>1",
        Form::List,
        "a",
        None,
        Err(Fault::NoOperator),
    ),
    (
        ColumnType::Jsonb,
        Operator::HasAll,
        "[\"a\",\"b\"]",
        Form::List,
        "a b",
        None,
        Ok(true),
    ),
    (
        ColumnType::Int4Array,
        Operator::Equal,
        "{2,2,1}",
        Form::List,
        "2 2 1",
        None,
        Ok(true),
    ),
    (
        ColumnType::Int4Array,
        Operator::Formula,
        "{1}",
        Form::Text,
        "!!!!!!!!!!!!!!!!!!!!!!!!!!!!!!!!!!!!!!!!!!!!!!!!!!!!!!!!!!!!!!!!",
        None,
        Err(Fault::Value(ValueError::NoValue)),
    ),
    (
        ColumnType::Int4Array,
        Operator::Formula,
        "{1}",
        Form::Text,
        "!!!!!!!!!!!!!!!!!!!!!!!!!!!!!!!!!!!!!!!!!!!!!!!!!!!!!!!!!!!!!!!!(",
        None,
        Err(Fault::Value(ValueError::TooDeep)),
    ),
];

#[test]
fn operators_and_literals(rt: HostRuntime) {
    for (column, op, value, form, text, cast, want) in &LITERALS {
        let found = answer_to(rt.alloc(), *column, *op, value, *form, text, *cast);
        assert!(rt; found == *want, "at {value} {op:?} {text}");
    }
}
