//! The operator classes.

ghost use Rattle.std.specs.Prelude.{◌≡◌, ◌==◌, ◌&&◌, true, bytes_eq, option_map, None, Some, IfSome, IfOk, MatchResult};
ghost use Rattle.std.specs.List.{list_any};
ghost use Rattle.gx_value.specs.Classes.{Line, line, IsLine, class_number, class_numbered, method_named, same_method, takes, is_for, class_named, default_class, class_for, allowed, allows, IsAllowed, parameter_word, default_of, parameter_for, has_operand, lacks, supports};

use crate::operators::{Operator, is_operand};
use crate::types::{ColumnType, OperandType};
use thiserror::Error;

/// The index methods.
#[derive(Clone, Copy, Debug, PartialEq, Eq)]
pub enum Method {
    Gist,
    Gin,
}

/// The operator classes, in the order of their numbers, from 1.
#[derive(Clone, Copy, Debug, PartialEq, Eq)]
pub enum Class {
    GistInt4,
    GistInt8,
    GistText,
    GistBytea,
    GistDate,
    GistUuid,
    RangeOps,
    InetOps,
    GistLtree,
    GistHstore,
    GistInt,
    GistIntbig,
    ArrayOps,
    GinInt,
    GinHstore,
    JsonbOps,
    JsonbPathOps,
}

/// Why there is no class.
#[derive(Clone, Copy, Debug, Drop, PartialEq, Eq, Error)]
pub enum ClassFault {
    /// None is given, and the method has no default for the type.
    #[error("the type has no default class")]
    NoDefault,
    /// No class of this name is one of the method for the type.
    #[error("the class isn't one for the type")]
    NotFor,
}

/// The class has no such parameter, or doesn't allow the number.
#[derive(Clone, Copy, Debug, Drop, PartialEq, Eq, Error)]
#[error("the parameter isn't one of the class")]
pub struct BadParameter;

/// What can be given with a class, and the number that counts where nothing is.
#[derive(Clone, Copy, Debug, PartialEq, Eq)]
pub enum Parameter {
    Absent,
    /// The bytes of a signature.
    Siglen(u16),
    /// The greatest number of intervals in a key.
    Numranges(u16),
}

/// A line of the table of classes: the index method, the class's name, the column types that it is for,
/// whether it is their default, and its parameter.
#[derive(Clone, Copy, Debug)]
pub struct ClassLine {
    pub method: Method,
    pub word: &'static str,
    pub kinds: &'static [ColumnType],
    pub is_default: bool,
    pub parameter: Parameter,
}

impl Method {
    /// The method with this name.
    pub fn named(word: &str) -> Option<Method>
        ensures { result ≡ method_named word.now }
    {
        if word == "gist" {
            Some(Method::Gist)
        } else if word == "gin" {
            Some(Method::Gin)
        } else {
            None
        }
    }
}

impl Class {
    /// The classes in the order of their numbers.
    const ALL: [Class; 17] = [
        Class::GistInt4,
        Class::GistInt8,
        Class::GistText,
        Class::GistBytea,
        Class::GistDate,
        Class::GistUuid,
        Class::RangeOps,
        Class::InetOps,
        Class::GistLtree,
        Class::GistHstore,
        Class::GistInt,
        Class::GistIntbig,
        Class::ArrayOps,
        Class::GinInt,
        Class::GinHstore,
        Class::JsonbOps,
        Class::JsonbPathOps,
    ];

    /// The class's number in the catalog.
    pub fn number(self) -> u8
        ensures { result ≡ class_number self }
    {
        match self {
            Class::GistInt4 => 1,
            Class::GistInt8 => 2,
            Class::GistText => 3,
            Class::GistBytea => 4,
            Class::GistDate => 5,
            Class::GistUuid => 6,
            Class::RangeOps => 7,
            Class::InetOps => 8,
            Class::GistLtree => 9,
            Class::GistHstore => 10,
            Class::GistInt => 11,
            Class::GistIntbig => 12,
            Class::ArrayOps => 13,
            Class::GinInt => 14,
            Class::GinHstore => 15,
            Class::JsonbOps => 16,
            Class::JsonbPathOps => 17,
        }
    }

    /// The class with this number.
    pub fn numbered(number: u8) -> Option<Class>
        ensures { result ≡ class_numbered number }
    {
        Self::ALL
            .iter()
            .copied()
            .find(|class| class.number() == number)
    }

    /// Whether the class is for columns of the type.
    pub fn takes(self, kind: ColumnType) -> bool
        ensures { result ≡ takes self kind }
    {
        self.line().kinds.iter().any(|listed| kind.is_same(*listed))
    }

    /// Whether the number may be the class's parameter. A class without one has 0.
    pub fn allows(self, number: u64) -> bool
        ensures { result ≡ allows self number }
    {
        is_allowed(self.line().parameter, number)
    }

    /// Whether its type has the operator with an operand of the type.
    fn has_operand(self, op: Operator, operand: OperandType) -> bool
        ensures { result ≡ has_operand self op operand }
    {
        self.line()
            .kinds
            .iter()
            .any(|kind| is_operand(*kind, op, operand))
    }

    /// Whether the class lacks an operator of its type.
    fn lacks(self, op: Operator) -> bool
        ensures { result ≡ lacks self op }
    {
        match self {
            Class::GistInt | Class::GistIntbig => op.is_same(Operator::Within),
            Class::ArrayOps => op.is_same(Operator::Formula),
            Class::JsonbPathOps => !op.is_same(Operator::Contains),
            _ => false,
        }
    }

    fn is_for(self, method: Method, kind: ColumnType) -> bool
        ensures { result ≡ is_for method kind self }
    {
        is_same_method(self.line().method, method) && self.takes(kind)
    }

    fn is_named(self, word: &str) -> bool
        ensures { result ≡ bytes_eq (line self).word word.now }
    {
        self.line().word == word
    }
    /// The class's line of the table.
    pub fn line(self) -> ClassLine
        ensures { IsLine result (line self) }
    {
        match self {
            Class::GistInt4 => plain_line("gist_int4_ops", &[ColumnType::Int4]),
            Class::GistInt8 => plain_line("gist_int8_ops", &[ColumnType::Int8]),
            Class::GistText => plain_line("gist_text_ops", &[ColumnType::Text]),
            Class::GistBytea => plain_line("gist_bytea_ops", &[ColumnType::Bytea]),
            Class::GistDate => plain_line("gist_date_ops", &[ColumnType::Date]),
            Class::GistUuid => plain_line("gist_uuid_ops", &[ColumnType::Uuid]),
            Class::RangeOps => plain_line(
                "range_ops",
                &[
                    ColumnType::Int4Range,
                    ColumnType::Int8Range,
                    ColumnType::DateRange,
                ],
            ),
            Class::InetOps => ClassLine {
                method: Method::Gist,
                word: "inet_ops",
                kinds: &[ColumnType::Inet],
                is_default: false,
                parameter: Parameter::Absent,
            },
            Class::GistLtree => ClassLine {
                method: Method::Gist,
                word: "gist_ltree_ops",
                kinds: &[ColumnType::Ltree],
                is_default: true,
                parameter: Parameter::Siglen(8),
            },
            Class::GistHstore => ClassLine {
                method: Method::Gist,
                word: "gist_hstore_ops",
                kinds: &[ColumnType::Hstore],
                is_default: true,
                parameter: Parameter::Siglen(16),
            },
            Class::GistInt => ClassLine {
                method: Method::Gist,
                word: "gist__int_ops",
                kinds: &[ColumnType::Int4Array],
                is_default: true,
                parameter: Parameter::Numranges(100),
            },
            Class::GistIntbig => ClassLine {
                method: Method::Gist,
                word: "gist__intbig_ops",
                kinds: &[ColumnType::Int4Array],
                is_default: false,
                parameter: Parameter::Siglen(252),
            },
            Class::ArrayOps => gin_line("array_ops", &[ColumnType::Int4Array], true),
            Class::GinInt => gin_line("gin__int_ops", &[ColumnType::Int4Array], false),
            Class::GinHstore => gin_line("gin_hstore_ops", &[ColumnType::Hstore], true),
            Class::JsonbOps => gin_line("jsonb_ops", &[ColumnType::Jsonb], true),
            Class::JsonbPathOps => gin_line("jsonb_path_ops", &[ColumnType::Jsonb], false),
        }
    }
}

/// A GiST class that is a default and has no parameter.
fn plain_line(word: &'static str, kinds: &'static [ColumnType]) -> ClassLine
    ensures { IsLine result (record { method = Method.Gist; word = word.now; kinds = kinds.now; is_default = true; parameter = Parameter.Absent }) }
{
    ClassLine {
        method: Method::Gist,
        word,
        kinds,
        is_default: true,
        parameter: Parameter::Absent,
    }
}

/// A GIN class.
fn gin_line(word: &'static str, kinds: &'static [ColumnType], is_default: bool) -> ClassLine
    ensures { IsLine result (record { method = Method.Gin; word = word.now; kinds = kinds.now; is_default = is_default; parameter = Parameter.Absent }) }
{
    ClassLine {
        method: Method::Gin,
        word,
        kinds,
        is_default,
        parameter: Parameter::Absent,
    }
}

fn is_same_method(a: Method, b: Method) -> bool
    ensures { result ≡ same_method a b }
{
    match (a, b) {
        (Method::Gist, Method::Gist) | (Method::Gin, Method::Gin) => true,
        _ => false,
    }
}

/// The class of the method for columns of the type: the one of this name, or without a name the default.
pub fn class_for(method: Method, kind: ColumnType, word: Option<&str>) -> Result<Class, ClassFault>
    ensures found { result ≡ class_for method kind (option_map (λ w. w.now) word.entry) }
    ensures fits { IfOk result (λ class. is_for method kind class ≡ true) }
{
    match word {
        Some(word) => class_named(method, kind, word).ok_or(ClassFault::NotFor),
        None => default_class(method, kind).ok_or(ClassFault::NoDefault),
    }
}

fn class_named(method: Method, kind: ColumnType, word: &str) -> Option<Class>
    ensures found { result ≡ class_named method kind word.now }
    ensures fits { IfSome result (λ class. is_for method kind class ≡ true) }
{
    Class::ALL
        .iter()
        .copied()
        .find(|class| class.is_for(method, kind) && class.is_named(word))
}

fn default_class(method: Method, kind: ColumnType) -> Option<Class>
    ensures found { result ≡ default_class method kind }
    ensures fits { IfSome result (λ class. is_for method kind class ≡ true) }
{
    Class::ALL.iter().copied().find(|class| class.is_for(method, kind) && class.line().is_default)
}

fn is_allowed(parameter: Parameter, number: u64) -> bool
    ensures { result ≡ allowed parameter number }
{
    match parameter {
        Parameter::Absent => number == 0,
        Parameter::Siglen(_) => is_among(&SIGLENS, number),
        Parameter::Numranges(_) => number >= 1 && number <= 200,
    }
}

fn is_among(numbers: &[u64], number: u64) -> bool
    ensures { result ≡ list_any (λ m. m == number) numbers.now }
{
    numbers.iter().any(|listed| *listed == number)
}

fn is_parameter_word(parameter: Parameter, word: &str) -> bool
    ensures { result ≡ parameter_word parameter word.now }
{
    match parameter {
        Parameter::Absent => false,
        Parameter::Siglen(_) => word == "siglen",
        Parameter::Numranges(_) => word == "numranges",
    }
}

/// The parameter of a class where this word and number are given with it, or nothing.
pub fn parameter_for(class: Class, given: Option<(&str, u64)>) -> Result<u16, BadParameter>
    ensures found { MatchResult result (λ n. parameter_for class (option_map (λ g. (g.0.now, g.1)) given.entry) ≡ Some n) (λ _. parameter_for class (option_map (λ g. (g.0.now, g.1)) given.entry) ≡ None) }
    ensures allowed { IfOk result (λ n. IsAllowed class n) }
{
    let parameter = class.line().parameter;
    match given {
        Some((word, number)) => {
            if is_parameter_word(parameter, word) && is_allowed(parameter, number) {
                Ok(number as u16)
            } else {
                Err(BadParameter)
            }
        }
        None => Ok(default_of(parameter)),
    }
}

fn default_of(parameter: Parameter) -> u16
    ensures { result ≡ default_of parameter }
{
    match parameter {
        Parameter::Absent => 0,
        Parameter::Siglen(number) | Parameter::Numranges(number) => number,
    }
}

/// Whether an index of the class answers the operator with an operand of the type.
pub fn supports(class: Class, op: Operator, operand: OperandType) -> bool
    ensures { result ≡ supports class op operand }
{
    class.has_operand(op, operand) && !class.lacks(op)
}

/// The numbers of bytes that a signature may have.
const SIGLENS: [u64; 8] = [4, 8, 16, 28, 32, 64, 128, 252];
