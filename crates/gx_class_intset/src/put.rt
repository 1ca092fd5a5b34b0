//! Intervals of two lists together.

ghost use Rattle.std.specs.Prelude.{◌≡◌, ◌≢◌, List, ◌∷◌, ◌++◌, true, int_lt, IfOk, OnOk};
ghost use Rattle.gx_class_intset.specs.declared.interval.Interval.{Interval};
ghost use Rattle.gx_class_intset.specs.Intervals.{hull, put, together};

use crate::Interval;
use gx_bytes::NoMemory;
use std::alloc::Global;

/// All intervals of both lists, overlapping ones joined.
pub fn together_of(alloc: Global, a: &[Interval], b: &[Interval]) -> Result<Vec<Interval>, NoMemory>
    ensures { IfOk result (λ made. made.items ≡ together a.now b.now) }
{
    let mut made = Vec::from_slice(alloc, a)?;
    for interval in b {
        made = put_in(alloc, *interval, made.as_slice())?;
    }
    Ok(made)
}

/// One more interval, joined with those that it overlaps.
fn put_in(alloc: Global, interval: Interval, others: &[Interval]) -> Result<Vec<Interval>, NoMemory>
    ensures { IfOk result (λ made. made.items ≡ put interval others.now) }
{
    let mut made = Vec::new(alloc);
    let mut added = interval;
    for (at, other) in others.iter().enumerate() {
        if added.greatest < other.least {
            made.push(added)?;
            made.extend_from_slice(&others[at..])?;
            return Ok(made);
        }
        added = put_past(&mut made, added, *other)?;
    }
    made.push(added)?;
    Ok(made)
}

/// Goes past an interval behind which the added one doesn't end: it comes before, or both are joined.
fn put_past(
    made: &mut Vec<Interval>,
    added: Interval,
    other: Interval,
) -> Result<Interval, NoMemory>
    requires { int_lt added.greatest other.least ≢ true }
    ensures { IfOk result (λ more. (rest : List Interval) → made.old.items ++ put added (other ∷ rest) ≡ made.new.items ++ put more rest) }
{
    if other.greatest < added.least {
        made.push(other)?;
        Ok(added)
    } else {
        Ok(hull(added, other))
    }
}

/// The least interval over both.
fn hull(a: Interval, b: Interval) -> Interval
    ensures { result ≡ hull a b }
{
    Interval {
        least: a.least.min(b.least),
        greatest: a.greatest.max(b.greatest),
    }
}
