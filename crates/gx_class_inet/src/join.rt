//! Keys of one address and unions of keys.

ghost use Rattle.std.specs.Prelude.{◌≡◌, ◌≤◌, ◌<◌, ◌-◌, ◌*◌, ◌/◌, ◌^◌, ◌↔◌, min, IsTrue};
ghost use Rattle.gx_inet.specs.Value.{width, IsInet};
ghost use Rattle.gx_class_inet.specs.Keys.{first, IsNet, IsKey, leaf_key, shared, common_of, cut_at, joined};

use crate::{InetKey, Net};
use gx_inet::Inet;

/// How many bits an address has.
pub fn width_of(v6: bool) -> u8
    ensures { result ≡ width v6 }
{
    if v6 { 128 } else { 32 }
}

/// The key of one address.
pub fn leaf_of(value: Inet) -> InetKey
    ensures { result ≡ leaf_key value }
{
    InetKey::Family(Net {
        v6: value.v6,
        mask: value.mask,
        common: width_of(value.v6),
        address: value.address,
    })
}

/// The key of all that both keys stand for.
pub fn union_of(a: InetKey, b: InetKey) -> InetKey
    requires left { IsKey a }
    requires right { IsKey b }
    ensures { result ≡ joined a b }
{
    match (a, b) {
        (InetKey::Family(a), InetKey::Family(b)) => {
            if a.v6 == b.v6 {
                let common = common_of(a, b);
                InetKey::Family(cut_at(a, a.mask.min(b.mask), common))
            } else {
                InetKey::Mixed
            }
        }
        _ => InetKey::Mixed,
    }
}

/// How many bits both keys have in common. They are of one family.
pub fn common_of(a: Net, b: Net) -> u8
    requires left { IsNet a }
    requires right { IsNet b }
    requires family { a.v6 ≡ b.v6 }
    ensures value { result ≡ common_of a b }
    ensures few { result ≤ min a.common b.common }
{
    shared(width_of(a.v6), a.address, b.address, a.common.min(b.common))
}

/// The greatest number of first bits, up to a limit, that both addresses share.
fn shared(width: u8, x: u128, y: u128, limit: u8) -> u8
    requires width { width ≤ 128 }
    requires limit { limit ≤ width }
    requires left { x < 2 ^ width }
    requires right { y < 2 ^ width }
    ensures value { result ≡ shared width x y limit }
    ensures few { result ≤ limit }
{
    for lost in 0..limit {
        let count = limit - lost;
        if bits(x, width, count) == bits(y, width, count) {
            return count;
        }
    }
    0
}

/// The first bits of an address of this width.
pub fn bits(address: u128, width: u8, count: u8) -> u128
    requires width { width ≤ 128 }
    requires inside { count ≤ width }
    requires small { address < 2 ^ width }
    ensures { result ≡ address / 2 ^ (width - count) }
{
    if count == 0 {
        return 0;
    }
    address >> (width - count)
}

/// The first bits of a key, with zeros behind them.
fn cut_at(key: Net, mask: u8, count: u8) -> Net
    requires key { IsNet key }
    requires inside { count ≤ width key.v6 }
    ensures { result ≡ cut_at key mask count }
{
    let width = width_of(key.v6);
    Net {
        v6: key.v6,
        mask,
        common: count,
        address: behind(bits(key.address, width, count), width, count),
    }
}

/// These first bits, with zeros behind them.
pub fn behind(bits: u128, width: u8, count: u8) -> u128
    requires width { width ≤ 128 }
    requires inside { count ≤ width }
    requires small { bits < 2 ^ count }
    ensures { result ≡ bits * 2 ^ (width - count) }
{
    if count == 0 {
        return 0;
    }
    bits << (width - count)
}

/// Tells whether the keys are equal.
pub fn same_keys(a: InetKey, b: InetKey) -> bool
    ensures { IsTrue result ↔ (a ≡ b) }
{
    match (a, b) {
        (InetKey::Mixed, InetKey::Mixed) => true,
        (InetKey::Family(a), InetKey::Family(b)) => same_nets(a, b),
        _ => false,
    }
}

fn same_nets(a: Net, b: Net) -> bool
    ensures { IsTrue result ↔ (a ≡ b) }
{
    a.v6 == b.v6 && a.mask == b.mask && a.common == b.common && a.address == b.address
}
