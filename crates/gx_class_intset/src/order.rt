//! Keys in the order in which they begin away from the first one.

ghost use Rattle.std.specs.Prelude.{◌≡◌, ℕ, IfOk};
ghost use Rattle.std.specs.Ordering.{nat_cmp};
ghost use Rattle.std.proofs.lemmas.Cmp.{nat_cmp_total};
ghost use Rattle.gx_class_sets.specs.Distances.{distances, AreByDistance};
ghost use Rattle.gx_class_intset.specs.Keys.{begins, far};

use crate::{IntKey, Interval};
use gx_bytes::NoMemory;
use gx_gist::{Places, Ranked, places_by_rank};
use std::alloc::Global;
use std::cmp::Ordering;
use std::marker::Model;

/// How far a key begins from the first one.
#[derive(Debug, Drop)]
pub struct Distance {
    far: u32,
}

impl Model for Distance {
    ghost Value = { ℕ };

    ghost view = { λ d. d.far };
}

impl Ranked for Distance {
    ghost rank_cmp = { nat_cmp };

    fn compare_rank(&self, other: &Distance) -> Ordering {
        self.far.cmp(&other.far)
    }

    ghost ranks = { nat_cmp_total };
}

/// The places of keys, by how far each begins from the first one.
pub fn places_by_distance(alloc: Global, keys: &[IntKey]) -> Result<Places, NoMemory>
    ensures { IfOk result (λ places. AreByDistance far keys.now places) }
{
    let distances = distances_of(alloc, keys)?;
    places_by_rank(alloc, distances.as_slice())
}

fn distances_of(alloc: Global, keys: &[IntKey]) -> Result<Vec<Distance>, NoMemory>
    ensures { IfOk result (λ made. made.items ≡ distances far keys.now) }
{
    let mut distances = Vec::new(alloc);
    let Some(first) = keys.first() else {
        return Ok(distances);
    };
    for key in keys {
        distances.push(Distance {
            far: far(first, key),
        })?;
    }
    Ok(distances)
}

fn far(a: &IntKey, b: &IntKey) -> u32
    ensures { result ≡ far a.now b.now }
{
    begins(a.intervals.as_slice()).abs_diff(begins(b.intervals.as_slice()))
}

/// Where the first interval begins, 0 where there is none.
fn begins(intervals: &[Interval]) -> i32
    ensures { result ≡ begins intervals.now }
{
    match intervals {
        [] => 0,
        [first, ..] => first.least,
    }
}
