//! Intervals and keys.

ghost use Rattle.std.specs.Prelude.{◌≡◌, List};
ghost use Rattle.gx_class_intset.specs.declared.interval.Interval.{Interval};

use std::marker::Model;

/// The whole numbers from the least to the greatest.
#[derive(Clone, Copy, Debug, PartialEq, Eq)]
pub struct Interval {
    pub least: i32,
    pub greatest: i32,
}

/// Intervals that rise and are disjoint.
#[derive(Debug, Drop)]
pub struct Intervals {
    items: Vec<Interval>,
}

impl Model for Intervals {
    ghost Value = { List Interval };

    ghost view = { λ l. l.items.items };
}

/// Intervals with the numbers below an item, and whether they have no other numbers.
#[derive(Debug, Drop)]
pub struct IntKey {
    pub exact: bool,
    pub intervals: Intervals,
}

impl Intervals {
    /// The list of these intervals.
    pub fn from_items(items: Vec<Interval>) -> Intervals
        ensures { result ≡ items.items }
    {
        Intervals { items }
    }

    pub fn as_slice(&self) -> &[Interval]
        ensures { result.now ≡ self.now }
    {
        self.items.as_slice()
    }
}
