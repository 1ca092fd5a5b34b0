//! Keys of one array, unions of keys, and how much a key grows.

ghost use Rattle.std.specs.Prelude.{◌≡◌, ◌≤◌, ◌+◌, ◌*◌, ◌^◌, length, IfOk};
ghost use Rattle.gx_intarr.specs.Arrays.{IsArray};
ghost use Rattle.gx_class_intset.specs.Intervals.{size, total};
ghost use Rattle.gx_class_intset.specs.Keys.{IsLimit, leaf_key, union, growth};

use crate::join::reduce;
use crate::points::points_of;
use crate::put::together_of;
use crate::{IntKey, Interval, Intervals};
use gx_bytes::NoMemory;
use gx_intarr::IntArray;
use std::alloc::Global;

/// The key of one array.
pub fn leaf_of(alloc: Global, limit: u16, value: &IntArray) -> Result<IntKey, NoMemory>
    requires limit { IsLimit limit }
    requires value { IsArray value.now }
    ensures { IfOk result (λ key. key ≡ leaf_key limit value.now) }
{
    let mut intervals = points_of(alloc, value)?;
    let exact = intervals.len() <= usize::from(limit);
    reduce(&mut intervals, usize::from(limit));
    Ok(IntKey {
        exact,
        intervals: Intervals::from_items(intervals),
    })
}

/// The key of all that both keys stand for.
pub fn union_of(alloc: Global, limit: u16, a: &IntKey, b: &IntKey) -> Result<IntKey, NoMemory>
    requires { IsLimit limit }
    ensures { IfOk result (λ key. key ≡ union limit a.now b.now) }
{
    let mut intervals = together_of(alloc, a.intervals.as_slice(), b.intervals.as_slice())?;
    reduce(&mut intervals, usize::from(limit));
    Ok(IntKey {
        exact: false,
        intervals: Intervals::from_items(intervals),
    })
}

/// How many more numbers the union's intervals have.
pub fn growth_of(alloc: Global, limit: u16, key: &IntKey, added: &IntKey) -> Result<u128, NoMemory>
    requires { IsLimit limit }
    ensures { IfOk result (λ penalty. penalty ≡ growth limit key.now added.now) }
{
    let union = union_of(alloc, limit, key, added)?;
    let more = total(union.intervals.as_slice());
    Ok(more.saturating_sub(total(key.intervals.as_slice())))
}

/// How many numbers the intervals have together.
fn total(intervals: &[Interval]) -> u128
    ensures { result ≡ total intervals.now }
{
    let mut sum = 0;
    for interval in intervals {
        sum += u128::from(size(*interval));
    }
    sum
}

/// How many numbers the interval has.
fn size(interval: Interval) -> u64
    ensures value { result ≡ size interval }
    ensures small { result ≤ 2 ^ 32 }
{
    u64::from(interval.greatest.abs_diff(interval.least)) + 1
}
