//! Places in the order of their keys.

ghost use Rattle.std.specs.Prelude.{◌≡◌, IfOk};
ghost use Rattle.std.specs.List.{range_with_len, slice_get};
ghost use Rattle.std.specs.Option.{option_cmp};
ghost use Rattle.std.specs.Cmp.{IsTotalOrder};
ghost use Rattle.std.specs.declared.cmp.Ordering.{Ordering};
ghost use Rattle.gx_gist.specs.Orders.{place_cmp, AreRanked};

use crate::Places;
use gx_bytes::NoMemory;
use std::alloc::{AllocError, Global};
use std::cmp::Ordering;

/// Keys with an order in which near keys stand together.
pub trait Ranked {
    ghost rank_cmp: { Self → Self → Ordering };

    fn compare_rank(&self, other: &Self) -> Ordering
        ensures { result ≡ rank_cmp self.now other.now };

    // The order is total.
    ghost ranks: { IsTotalOrder rank_cmp };
}

/// The places of the keys from the least, ties by place.
pub fn places_by_rank<K: Ranked>(alloc: Global, keys: &[K]) -> Result<Places, NoMemory>
    ensures { IfOk result (AreRanked K.rank_cmp keys.now) }
{
    let mut places = places_of(alloc, keys.len())?;
    places.sort_by(|a, b| compare_places(keys, *a, *b))?;
    Places::from_slice(alloc, places.as_slice())
}

fn places_of(alloc: Global, count: usize) -> Result<Vec<u32>, NoMemory>
    ensures { IfOk result (λ places. places.items ≡ range_with_len 0 count) }
{
    let Ok(count) = u32::try_from(count) else {
        return Err(AllocError);
    };
    let mut places = Vec::new(alloc);
    for place in 0..count {
        places.push(place)?;
    }
    Ok(places)
}

fn compare_places<K: Ranked>(keys: &[K], a: u32, b: u32) -> Ordering
    ensures { result ≡ place_cmp K.rank_cmp keys.now a b }
{
    compare_at(keys, a as usize, b as usize).then(a.cmp(&b))
}

fn compare_at<K: Ranked>(keys: &[K], a: usize, b: usize) -> Ordering
    ensures { result ≡ option_cmp K.rank_cmp (slice_get keys.now a) (slice_get keys.now b) }
{
    if a < keys.len() {
        if b < keys.len() {
            keys[a].compare_rank(&keys[b])
        } else {
            Ordering::Greater
        }
    } else if b < keys.len() {
        Ordering::Less
    } else {
        Ordering::Equal
    }
}
