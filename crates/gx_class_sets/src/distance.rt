//! Keys in the order in which they are away from the first one.

ghost use Rattle.std.specs.Prelude.{◌≡◌, ◌*◌, ℕ, IfOk, map};
ghost use Rattle.std.specs.Ordering.{nat_cmp};
ghost use Rattle.std.proofs.lemmas.Cmp.{nat_cmp_total};
ghost use Rattle.gx_sig.specs.BitSets.{differing};
ghost use Rattle.gx_class_sets.specs.Distances.{distances, AreByDistance};

use gx_bytes::NoMemory;
use gx_gist::{Places, Ranked, places_by_rank};
use gx_sig::Sig;
use std::alloc::Global;
use std::cmp::Ordering;
use std::marker::Model;

/// How far a key is from the first one.
#[derive(Debug, Drop)]
pub struct Distance {
    far: u32,
}

impl Model for Distance {
    ghost Value = { ℕ };

    ghost view = { λ d. d.far };
}

impl Ranked for Distance {
    ghost rank_cmp = { nat_cmp };

    fn compare_rank(&self, other: &Distance) -> Ordering {
        self.far.cmp(&other.far)
    }

    ghost ranks = { nat_cmp_total };
}

/// The places of signatures, by the number of bits in which each differs from the first one.
pub fn places_by_distance<const N: usize>(
    alloc: Global,
    keys: &[Sig<N>],
) -> Result<Places, NoMemory>
    ensures { IfOk result (λ places. AreByDistance (λ a b. differing a b (8 * N)) keys.now places) }
{
    let distances = distances_of(alloc, keys)?;
    places_by_rank(alloc, distances.as_slice())
}

fn distances_of<const N: usize>(alloc: Global, keys: &[Sig<N>]) -> Result<Vec<Distance>, NoMemory>
    ensures { IfOk result (λ made. made.items ≡ distances (λ a b. differing a b (8 * N)) keys.now) }
{
    let mut distances = Vec::new(alloc);
    let Some(first) = keys.first() else {
        return Ok(distances);
    };
    for key in keys {
        distances.push(Distance {
            far: first.distance(key),
        })?;
    }
    Ok(distances)
}
