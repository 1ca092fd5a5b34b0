//! The order of keys that a split may cut.

ghost use Rattle.std.specs.Prelude.{◌≡◌};
ghost use Rattle.gx_class_inet.specs.Sorting.{family_of, address_of, mask_of, bits_of, key_cmp, key_total};

use crate::{InetKey, Net};
use gx_gist::Ranked;
use std::cmp::Ordering;

impl Ranked for InetKey {
    ghost rank_cmp = { key_cmp };

    fn compare_rank(&self, other: &InetKey) -> Ordering {
        compare_keys(*self, *other)
    }

    ghost ranks = { key_total };
}

fn compare_keys(a: InetKey, b: InetKey) -> Ordering
    ensures { result ≡ key_cmp a b }
{
    let front = family_of(a)
        .cmp(&family_of(b))
        .then(address_of(a).cmp(&address_of(b)));
    let back = mask_of(a)
        .cmp(&mask_of(b))
        .then(bits_of(a).cmp(&bits_of(b)));
    front.then(back)
}

fn family_of(key: InetKey) -> u8
    ensures { result ≡ family_of key }
{
    match key {
        InetKey::Mixed => 0,
        InetKey::Family(Net { v6, .. }) => { if v6 { 2 } else { 1 } }
    }
}

fn address_of(key: InetKey) -> u128
    ensures { result ≡ address_of key }
{
    match key {
        InetKey::Mixed => 0,
        InetKey::Family(key) => key.address,
    }
}

fn mask_of(key: InetKey) -> u8
    ensures { result ≡ mask_of key }
{
    match key {
        InetKey::Mixed => 0,
        InetKey::Family(key) => key.mask,
    }
}

fn bits_of(key: InetKey) -> u8
    ensures { result ≡ bits_of key }
{
    match key {
        InetKey::Mixed => 0,
        InetKey::Family(key) => key.common,
    }
}
