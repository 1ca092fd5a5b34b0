//! The operators, and the types of their right sides.

ghost use Rattle.std.specs.Prelude.{◌≡◌, map};
ghost use Rattle.std.specs.List.{list_any};
ghost use Rattle.gx_value.specs.Operators.{operator_number, same_operator, line_of, lines, operands_among, operands, is_operand};

use crate::types::{ColumnType, OperandType};

/// The operators `= <> < <= > >=`, `&& @> <@ << >> &< &> -|-`, `<<= >>=`, `~ ? @` and `?& ?| @@`, in
/// this order.
#[derive(Clone, Copy, Debug, PartialEq, Eq)]
pub enum Operator {
    Equal,
    NotEqual,
    Less,
    LessEqual,
    Greater,
    GreaterEqual,
    Overlaps,
    Contains,
    Within,
    Left,
    Right,
    NotRight,
    NotLeft,
    Adjacent,
    LeftEqual,
    RightEqual,
    Matches,
    Has,
    Words,
    HasAll,
    HasAny,
    Formula,
}

/// A line of the table of operators: operators, and the types that their right side may have.
#[derive(Clone, Copy, Debug)]
struct OperatorLine {
    operators: &'static [Operator],
    operands: &'static [OperandType],
}

impl Operator {
    fn number(self) -> u8
        ensures { result ≡ operator_number self }
    {
        match self {
            Operator::Equal => 1,
            Operator::NotEqual => 2,
            Operator::Less => 3,
            Operator::LessEqual => 4,
            Operator::Greater => 5,
            Operator::GreaterEqual => 6,
            Operator::Overlaps => 7,
            Operator::Contains => 8,
            Operator::Within => 9,
            Operator::Left => 10,
            Operator::Right => 11,
            Operator::NotRight => 12,
            Operator::NotLeft => 13,
            Operator::Adjacent => 14,
            Operator::LeftEqual => 15,
            Operator::RightEqual => 16,
            Operator::Matches => 17,
            Operator::Has => 18,
            Operator::Words => 19,
            Operator::HasAll => 20,
            Operator::HasAny => 21,
            Operator::Formula => 22,
        }
    }

    pub(crate) fn is_same(self, other: Operator) -> bool
        ensures { result ≡ same_operator self other }
    {
        self.number() == other.number()
    }
}

/// The types that the right side of an operator may have with such a column on the left, of which the first is
/// taken for a literal without a cast. None where there is no such operator.
pub fn operands(column: ColumnType, op: Operator) -> &'static [OperandType]
    ensures { result.now ≡ operands column op }
{
    operands_among(lines(column), op)
}

/// Whether the operator takes an operand of the type.
pub fn is_operand(column: ColumnType, op: Operator, operand: OperandType) -> bool
    ensures { result ≡ is_operand column op operand }
{
    operands(column, op)
        .iter()
        .any(|listed| operand.is_same(*listed))
}

fn operands_among(lines: &'static [OperatorLine], op: Operator) -> &'static [OperandType]
    ensures { result.now ≡ operands_among (map line_of lines.now) op }
{
    for line in lines {
        if has_operator(line.operators, op) {
            return line.operands;
        }
    }
    &[]
}

fn has_operator(operators: &[Operator], op: Operator) -> bool
    ensures { result ≡ list_any (same_operator op) operators.now }
{
    operators.iter().any(|listed| op.is_same(*listed))
}

/// The lines of a column type.
fn lines(column: ColumnType) -> &'static [OperatorLine]
    ensures { map line_of result.now ≡ lines column }
{
    match column {
        ColumnType::Int4 => &[OperatorLine {
            operators: &COMPARISONS,
            operands: &[OperandType::Int4],
        }],
        ColumnType::Int8 => &[OperatorLine {
            operators: &COMPARISONS,
            operands: &[OperandType::Int8],
        }],
        ColumnType::Text => &[OperatorLine {
            operators: &COMPARISONS,
            operands: &[OperandType::Text],
        }],
        ColumnType::Bytea => &[OperatorLine {
            operators: &COMPARISONS,
            operands: &[OperandType::Bytea],
        }],
        ColumnType::Date => &[OperatorLine {
            operators: &COMPARISONS,
            operands: &[OperandType::Date],
        }],
        ColumnType::Uuid => &[OperatorLine {
            operators: &COMPARISONS,
            operands: &[OperandType::Uuid],
        }],
        ColumnType::Int4Range => &[
            OperatorLine {
                operators: &OF_RANGES,
                operands: &[OperandType::Int4Range],
            },
            OperatorLine {
                operators: &[Operator::Contains],
                operands: &[OperandType::Int4Range, OperandType::Int4],
            },
        ],
        ColumnType::Int8Range => &[
            OperatorLine {
                operators: &OF_RANGES,
                operands: &[OperandType::Int8Range],
            },
            OperatorLine {
                operators: &[Operator::Contains],
                operands: &[OperandType::Int8Range, OperandType::Int8],
            },
        ],
        ColumnType::DateRange => &[
            OperatorLine {
                operators: &OF_RANGES,
                operands: &[OperandType::DateRange],
            },
            OperatorLine {
                operators: &[Operator::Contains],
                operands: &[OperandType::DateRange, OperandType::Date],
            },
        ],
        ColumnType::Inet => &[OperatorLine {
            operators: &[
                Operator::Equal,
                Operator::NotEqual,
                Operator::Less,
                Operator::LessEqual,
                Operator::Greater,
                Operator::GreaterEqual,
                Operator::Left,
                Operator::LeftEqual,
                Operator::Right,
                Operator::RightEqual,
                Operator::Overlaps,
            ],
            operands: &[OperandType::Inet],
        }],
        ColumnType::Ltree => &[
            OperatorLine {
                operators: &[
                    Operator::Less,
                    Operator::LessEqual,
                    Operator::Equal,
                    Operator::GreaterEqual,
                    Operator::Greater,
                    Operator::Contains,
                    Operator::Within,
                ],
                operands: &[OperandType::Ltree],
            },
            OperatorLine {
                operators: &[Operator::Matches],
                operands: &[OperandType::Lquery],
            },
            OperatorLine {
                operators: &[Operator::Has],
                operands: &[OperandType::LqueryArray],
            },
            OperatorLine {
                operators: &[Operator::Words],
                operands: &[OperandType::Ltxtquery],
            },
        ],
        ColumnType::Hstore => &[
            OperatorLine {
                operators: &[Operator::Contains],
                operands: &[OperandType::Hstore],
            },
            OperatorLine {
                operators: &[Operator::Has],
                operands: &[OperandType::Text],
            },
            OperatorLine {
                operators: &[Operator::HasAll, Operator::HasAny],
                operands: &[OperandType::TextArray],
            },
        ],
        ColumnType::Jsonb => &[
            OperatorLine {
                operators: &[Operator::Contains],
                operands: &[OperandType::Jsonb],
            },
            OperatorLine {
                operators: &[Operator::Has],
                operands: &[OperandType::Text],
            },
            OperatorLine {
                operators: &[Operator::HasAll, Operator::HasAny],
                operands: &[OperandType::TextArray],
            },
        ],
        ColumnType::Int4Array => &[
            OperatorLine {
                operators: &[
                    Operator::Overlaps,
                    Operator::Contains,
                    Operator::Within,
                    Operator::Equal,
                ],
                operands: &[OperandType::Int4Array],
            },
            OperatorLine {
                operators: &[Operator::Formula],
                operands: &[OperandType::QueryInt],
            },
        ],
    }
}

const COMPARISONS: [Operator; 6] = [
    Operator::Equal,
    Operator::NotEqual,
    Operator::Less,
    Operator::LessEqual,
    Operator::Greater,
    Operator::GreaterEqual,
];

const OF_RANGES: [Operator; 8] = [
    Operator::Equal,
    Operator::Overlaps,
    Operator::Within,
    Operator::Left,
    Operator::Right,
    Operator::NotRight,
    Operator::NotLeft,
    Operator::Adjacent,
];
