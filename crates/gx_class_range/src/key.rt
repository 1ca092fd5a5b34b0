//! Keys.

/// The bounds of a span: the lower is in it, the upper isn't, None is no bound.
#[derive(Clone, Copy, Debug, PartialEq, Eq)]
pub struct Bounds {
    pub lower: Option<i64>,
    pub upper: Option<i64>,
}

/// Whether an empty range is below an item, and the least span over the other ranges below it.
#[derive(Clone, Copy, Debug, PartialEq, Eq)]
pub struct RangeKey {
    pub empty: bool,
    pub span: Option<Bounds>,
}
