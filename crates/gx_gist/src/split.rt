//! Splitting a full page.

ghost use Rattle.std.specs.Prelude.{◌≡◌, ◌⊎◌, ℕ, ◌+◌, ◌-◌, ◌*◌, ◌<◌, ◌≤◌, ◌++◌, length, take, drop, sum, Contains, IfOk};
ghost use Rattle.gx_gist.specs.Places.{IsRearrangement};
ghost use Rattle.gx_gist.specs.Split.{AreSizes, IsCutAtHalf, AreSides, size_of};

use crate::{GistClass, Keys, Places, Sizes};
use gx_bytes::NoMemory;
use std::alloc::Global;

/// The places of the items that go to each of two pages.
#[derive(Drop)]
pub struct Sides {
    pub left: Places,
    pub right: Places,
}

/// Shares the items of a full page between two: the class's order of their keys, cut where half of the bytes is reached.
///
/// The sizes are those of the items with their slots. Where they are together above a page, each side has two items or more.
pub fn picksplit<C: GistClass>(
    alloc: Global,
    class: &C,
    keys: &Keys<C::Key>,
    sizes: &Sizes,
) -> Result<Sides, NoMemory>
    requires class { C.valid class.now }
    requires keys { (key : C.Key) → Contains keys.now key → C.valid_key class.now key }
    requires sizes { AreSizes (length keys.now) sizes.now }
    ensures order { IfOk result (λ sides. C.ordered class.now keys.now (sides.left ++ sides.right)) }
    ensures cut { IfOk result (λ sides. IsCutAtHalf sizes.now sides.left sides.right) }
    ensures fit { IfOk result (λ sides. AreSides sizes.now sides.left sides.right) }
{
    let order = class.order(alloc, keys)?;
    let (left, right) = cut_at_half(order.as_slice(), sizes.as_slice());
    Ok(Sides {
        left: Places::from_slice(alloc, left)?,
        right: Places::from_slice(alloc, right)?,
    })
}

/// The places up to that with which half of the bytes is reached, and the others.
fn cut_at_half<'a>(places: &'a [u32], sizes: &[u32]) -> (&'a [u32], &'a [u32])
    requires places { IsRearrangement places.now (length sizes.now) }
    requires sizes { AreSizes (length sizes.now) sizes.now }
    ensures parts { result.0.now ++ result.1.now ≡ places.now }
    ensures cut { IsCutAtHalf sizes.now result.0.now result.1.now }
    ensures fit { AreSides sizes.now result.0.now result.1.now }
{
    let last = places.len() - 1;
    let total = sum_of(sizes);
    let mut taken = 0;
    for k in 0..last {
        taken += sizes[places[k] as usize];
        if 2 * taken >= total {
            return places.split_at(k + 1);
        }
    }
    places.split_at(last)
}

fn sum_of(sizes: &[u32]) -> u32
    requires { sum sizes.now ≤ 12000 }
    ensures { result ≡ sum sizes.now }
{
    sizes.iter().sum()
}
