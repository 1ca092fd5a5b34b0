//! The types of columns and of operands: their words, and the numbers of column types.

ghost use Rattle.std.specs.Prelude.{◌≡◌, map};
ghost use Rattle.gx_value.specs.Types.{type_number, same_type, operand_number, same_operand, as_operand, as_column, family_of, operand_named, column_named, type_numbered, kind_among, line_of};

use gx_range::RangeKind;
use gx_scalar::ScalarKind;

/// The types that a column may have, in the order of their numbers, from 1.
#[derive(Clone, Copy, Debug, PartialEq, Eq)]
pub enum ColumnType {
    Int4,
    Int8,
    Text,
    Bytea,
    Date,
    Uuid,
    Int4Range,
    Int8Range,
    DateRange,
    Inet,
    Ltree,
    Hstore,
    Jsonb,
    Int4Array,
}

/// The types that the right side of an operator may have: those of columns, and text[], lquery, lquery[],
/// ltxtquery and query_int.
#[derive(Clone, Copy, Debug, PartialEq, Eq)]
pub enum OperandType {
    Int4,
    Int8,
    Text,
    Bytea,
    Date,
    Uuid,
    Int4Range,
    Int8Range,
    DateRange,
    Inet,
    Ltree,
    Hstore,
    Jsonb,
    Int4Array,
    TextArray,
    Lquery,
    LqueryArray,
    Ltxtquery,
    QueryInt,
}

/// A word of a type.
struct TypeWord {
    word: &'static str,
    kind: OperandType,
}

/// The words of types.
const WORDS: [TypeWord; 19] = [
    TypeWord {
        word: "int4",
        kind: OperandType::Int4,
    },
    TypeWord {
        word: "int",
        kind: OperandType::Int4,
    },
    TypeWord {
        word: "integer",
        kind: OperandType::Int4,
    },
    TypeWord {
        word: "int8",
        kind: OperandType::Int8,
    },
    TypeWord {
        word: "bigint",
        kind: OperandType::Int8,
    },
    TypeWord {
        word: "text",
        kind: OperandType::Text,
    },
    TypeWord {
        word: "bytea",
        kind: OperandType::Bytea,
    },
    TypeWord {
        word: "date",
        kind: OperandType::Date,
    },
    TypeWord {
        word: "uuid",
        kind: OperandType::Uuid,
    },
    TypeWord {
        word: "int4range",
        kind: OperandType::Int4Range,
    },
    TypeWord {
        word: "int8range",
        kind: OperandType::Int8Range,
    },
    TypeWord {
        word: "daterange",
        kind: OperandType::DateRange,
    },
    TypeWord {
        word: "inet",
        kind: OperandType::Inet,
    },
    TypeWord {
        word: "ltree",
        kind: OperandType::Ltree,
    },
    TypeWord {
        word: "hstore",
        kind: OperandType::Hstore,
    },
    TypeWord {
        word: "jsonb",
        kind: OperandType::Jsonb,
    },
    TypeWord {
        word: "lquery",
        kind: OperandType::Lquery,
    },
    TypeWord {
        word: "ltxtquery",
        kind: OperandType::Ltxtquery,
    },
    TypeWord {
        word: "query_int",
        kind: OperandType::QueryInt,
    },
];

/// The words of types behind which `[]` stands.
const LIST_WORDS: [TypeWord; 5] = [
    TypeWord {
        word: "int4",
        kind: OperandType::Int4Array,
    },
    TypeWord {
        word: "int",
        kind: OperandType::Int4Array,
    },
    TypeWord {
        word: "integer",
        kind: OperandType::Int4Array,
    },
    TypeWord {
        word: "text",
        kind: OperandType::TextArray,
    },
    TypeWord {
        word: "lquery",
        kind: OperandType::LqueryArray,
    },
];

/// The crate of types that has a column type's values, and which of its kinds they are.
#[derive(Clone, Copy, Debug, PartialEq, Eq)]
pub enum Family {
    Scalar(ScalarKind),
    Range(RangeKind),
    Inet,
    Path,
    Hstore,
    Json,
    IntArray,
}

impl ColumnType {
    /// The types in the order of their numbers.
    const ALL: [ColumnType; 14] = [
        ColumnType::Int4,
        ColumnType::Int8,
        ColumnType::Text,
        ColumnType::Bytea,
        ColumnType::Date,
        ColumnType::Uuid,
        ColumnType::Int4Range,
        ColumnType::Int8Range,
        ColumnType::DateRange,
        ColumnType::Inet,
        ColumnType::Ltree,
        ColumnType::Hstore,
        ColumnType::Jsonb,
        ColumnType::Int4Array,
    ];

    /// The type with this word, behind which `[]` stands where `list` is true.
    pub fn named(word: &str, list: bool) -> Option<ColumnType>
        ensures { result ≡ column_named word.now list }
    {
        OperandType::named(word, list)?.as_column()
    }

    /// The type's number in the catalog.
    pub fn number(self) -> u8
        ensures { result ≡ type_number self }
    {
        match self {
            ColumnType::Int4 => 1,
            ColumnType::Int8 => 2,
            ColumnType::Text => 3,
            ColumnType::Bytea => 4,
            ColumnType::Date => 5,
            ColumnType::Uuid => 6,
            ColumnType::Int4Range => 7,
            ColumnType::Int8Range => 8,
            ColumnType::DateRange => 9,
            ColumnType::Inet => 10,
            ColumnType::Ltree => 11,
            ColumnType::Hstore => 12,
            ColumnType::Jsonb => 13,
            ColumnType::Int4Array => 14,
        }
    }

    /// The type with this number.
    pub fn numbered(number: u8) -> Option<ColumnType>
        ensures { result ≡ type_numbered number }
    {
        Self::ALL
            .iter()
            .copied()
            .find(|kind| kind.number() == number)
    }

    /// Whether both are one type.
    pub(crate) fn is_same(self, other: ColumnType) -> bool
        ensures { result ≡ same_type self other }
    {
        self.number() == other.number()
    }

    /// The same type as that of an operand.
    pub fn as_operand(self) -> OperandType
        ensures { result ≡ as_operand self }
    {
        match self {
            ColumnType::Int4 => OperandType::Int4,
            ColumnType::Int8 => OperandType::Int8,
            ColumnType::Text => OperandType::Text,
            ColumnType::Bytea => OperandType::Bytea,
            ColumnType::Date => OperandType::Date,
            ColumnType::Uuid => OperandType::Uuid,
            ColumnType::Int4Range => OperandType::Int4Range,
            ColumnType::Int8Range => OperandType::Int8Range,
            ColumnType::DateRange => OperandType::DateRange,
            ColumnType::Inet => OperandType::Inet,
            ColumnType::Ltree => OperandType::Ltree,
            ColumnType::Hstore => OperandType::Hstore,
            ColumnType::Jsonb => OperandType::Jsonb,
            ColumnType::Int4Array => OperandType::Int4Array,
        }
    }

    /// Which values the type has.
    pub fn family(self) -> Family
        ensures { result ≡ family_of self }
    {
        match self {
            ColumnType::Int4 => Family::Scalar(ScalarKind::Int4),
            ColumnType::Int8 => Family::Scalar(ScalarKind::Int8),
            ColumnType::Text => Family::Scalar(ScalarKind::Text),
            ColumnType::Bytea => Family::Scalar(ScalarKind::Bytea),
            ColumnType::Date => Family::Scalar(ScalarKind::Date),
            ColumnType::Uuid => Family::Scalar(ScalarKind::Uuid),
            ColumnType::Int4Range => Family::Range(RangeKind::Int4),
            ColumnType::Int8Range => Family::Range(RangeKind::Int8),
            ColumnType::DateRange => Family::Range(RangeKind::Date),
            ColumnType::Inet => Family::Inet,
            ColumnType::Ltree => Family::Path,
            ColumnType::Hstore => Family::Hstore,
            ColumnType::Jsonb => Family::Json,
            ColumnType::Int4Array => Family::IntArray,
        }
    }
}

impl OperandType {
    /// The type with this word, behind which `[]` stands where `list` is true.
    pub fn named(word: &str, list: bool) -> Option<OperandType>
        ensures { result ≡ operand_named word.now list }
    {
        if list {
            kind_among(&LIST_WORDS, word)
        } else {
            kind_among(&WORDS, word)
        }
    }

    /// The same type as that of a column, if columns have it.
    pub fn as_column(self) -> Option<ColumnType>
        ensures { result ≡ as_column self }
    {
        match self {
            OperandType::Int4 => Some(ColumnType::Int4),
            OperandType::Int8 => Some(ColumnType::Int8),
            OperandType::Text => Some(ColumnType::Text),
            OperandType::Bytea => Some(ColumnType::Bytea),
            OperandType::Date => Some(ColumnType::Date),
            OperandType::Uuid => Some(ColumnType::Uuid),
            OperandType::Int4Range => Some(ColumnType::Int4Range),
            OperandType::Int8Range => Some(ColumnType::Int8Range),
            OperandType::DateRange => Some(ColumnType::DateRange),
            OperandType::Inet => Some(ColumnType::Inet),
            OperandType::Ltree => Some(ColumnType::Ltree),
            OperandType::Hstore => Some(ColumnType::Hstore),
            OperandType::Jsonb => Some(ColumnType::Jsonb),
            OperandType::Int4Array => Some(ColumnType::Int4Array),
            OperandType::TextArray
            | OperandType::Lquery
            | OperandType::LqueryArray
            | OperandType::Ltxtquery
            | OperandType::QueryInt => None,
        }
    }

    fn number(self) -> u8
        ensures { result ≡ operand_number self }
    {
        match self {
            OperandType::Int4 => 1,
            OperandType::Int8 => 2,
            OperandType::Text => 3,
            OperandType::Bytea => 4,
            OperandType::Date => 5,
            OperandType::Uuid => 6,
            OperandType::Int4Range => 7,
            OperandType::Int8Range => 8,
            OperandType::DateRange => 9,
            OperandType::Inet => 10,
            OperandType::Ltree => 11,
            OperandType::Hstore => 12,
            OperandType::Jsonb => 13,
            OperandType::Int4Array => 14,
            OperandType::TextArray => 15,
            OperandType::Lquery => 16,
            OperandType::LqueryArray => 17,
            OperandType::Ltxtquery => 18,
            OperandType::QueryInt => 19,
        }
    }

    /// Whether both are one type.
    pub(crate) fn is_same(self, other: OperandType) -> bool
        ensures { result ≡ same_operand self other }
    {
        self.number() == other.number()
    }
}

fn kind_among(lines: &[TypeWord], word: &str) -> Option<OperandType>
    ensures { result ≡ kind_among (map line_of lines.now) word.now }
{
    for line in lines {
        if line.word == word {
            return Some(line.kind);
        }
    }
    None
}
