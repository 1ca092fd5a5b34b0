//! Neighbours joined until few intervals are left.

ghost use Rattle.std.specs.Prelude.{◌≡◌, suc, ◌+◌, ◌<◌, ◌≤◌, length, drop, slice_get, Option, Some};
ghost use Rattle.gx_class_intset.specs.Intervals.{gap, gaps, first_least, across, join_at, join_closest, reduced};

use crate::Interval;

/// Joins the neighbours with the least gap until there are at most so many intervals.
pub fn reduce(intervals: &mut Vec<Interval>, limit: usize)
    requires { 1 ≤ limit }
    ensures { intervals.new.items ≡ reduced limit intervals.old.items }
{
    let many = intervals.len().saturating_sub(limit);
    for done in 0..many {
        join_closest(intervals);
    }
}

/// Joins the two neighbours with the least gap, the first of such pairs.
fn join_closest(intervals: &mut Vec<Interval>)
    requires { 2 ≤ length intervals.old.items }
    ensures { intervals.new.items ≡ join_closest intervals.old.items }
{
    let at = closest(intervals.as_slice());
    join_at(intervals, at);
}

/// Joins the interval at a place with its neighbour.
fn join_at(intervals: &mut Vec<Interval>, at: usize)
    requires { at + 1 < length intervals.old.items }
    ensures { intervals.new.items ≡ join_at at intervals.old.items }
{
    let first = intervals[at];
    let next = intervals.remove(at + 1);
    intervals[at] = across(first, next);
}

/// From the least of one to the greatest of another.
fn across(a: Interval, b: Interval) -> Interval
    ensures { result ≡ across a b }
{
    Interval {
        least: a.least,
        greatest: b.greatest,
    }
}

/// The place of the first interval whose gap to the next is the least.
fn closest(intervals: &[Interval]) -> usize
    requires { 2 ≤ length intervals.now }
    ensures place { result ≡ first_least (gaps intervals.now) }
    ensures within { result + 1 < length intervals.now }
{
    let last = intervals.len() - 2;
    let mut best = last;
    for at in (0..last).rev() {
        best = better(intervals, at, best);
    }
    best
}

/// The better of a place and the best behind it.
fn better(intervals: &[Interval], at: usize, best: usize) -> usize
    requires below { at < best }
    requires within { best + 1 < length intervals.now }
    requires best { best ≡ suc at + first_least (drop (suc at) (gaps intervals.now)) }
    ensures place { result ≡ at + first_least (drop at (gaps intervals.now)) }
    ensures within { result + 1 < length intervals.now }
{
    if gap_at(intervals, best) < gap_at(intervals, at) {
        best
    } else {
        at
    }
}

fn gap_at(intervals: &[Interval], at: usize) -> u32
    requires { at + 1 < length intervals.now }
    ensures { slice_get (gaps intervals.now) at ≡ Some result }
{
    let interval = intervals[at];
    let next = intervals[at + 1];
    gap(interval, next)
}

/// From the last number of an interval to the first of the next.
fn gap(a: Interval, b: Interval) -> u32
    ensures { result ≡ gap a b }
{
    b.least.abs_diff(a.greatest)
}
