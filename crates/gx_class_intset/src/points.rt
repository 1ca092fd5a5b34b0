//! The distinct elements of an array as intervals.

ghost use Rattle.std.specs.Prelude.{◌≡◌, map, IfOk};
ghost use Rattle.gx_intarr.specs.Arrays.{IsArray};
ghost use Rattle.gx_class_intset.specs.Intervals.{single, distinct};

use crate::Interval;
use gx_bytes::NoMemory;
use gx_intarr::IntArray;
use std::alloc::Global;

/// Each distinct element as an interval.
pub fn points_of(alloc: Global, value: &IntArray) -> Result<Vec<Interval>, NoMemory>
    requires { IsArray value.now }
    ensures { IfOk result (λ made. made.items ≡ map single (distinct value.now)) }
{
    let numbers = value.distinct(alloc)?;
    singles_of(alloc, numbers.as_slice())
}

fn singles_of(alloc: Global, numbers: &[i32]) -> Result<Vec<Interval>, NoMemory>
    ensures { IfOk result (λ made. made.items ≡ map single numbers.now) }
{
    let mut made = Vec::new(alloc);
    for number in numbers {
        made.push(single(*number))?;
    }
    Ok(made)
}

/// The interval of one number.
fn single(number: i32) -> Interval
    ensures { result ≡ single number }
{
    Interval {
        least: number,
        greatest: number,
    }
}
