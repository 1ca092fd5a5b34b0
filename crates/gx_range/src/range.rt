//! The values.

/// A range from its lower bound, which is in it, up to its upper bound, which isn't. None is no
/// bound. In a Span the lower bound is below the upper.
#[derive(Clone, Copy, Debug, PartialEq, Eq)]
pub enum Range {
    Empty,
    Span {
        lower: Option<i64>,
        upper: Option<i64>,
    },
}

/// The types of ranges: int4range, int8range and daterange, whose elements are day numbers with 0
/// for 1970-01-01.
#[derive(Clone, Copy, Debug, PartialEq, Eq)]
pub enum RangeKind {
    Int4,
    Int8,
    Date,
}

/// The operators `= && @> <@ << >> &< &> -|-`, in this order.
#[derive(Clone, Copy, Debug, PartialEq, Eq)]
pub enum RangeOp {
    Equal,
    Overlaps,
    Contains,
    Within,
    Left,
    Right,
    NotRight,
    NotLeft,
    Adjacent,
}
