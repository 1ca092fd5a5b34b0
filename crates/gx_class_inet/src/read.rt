//! Keys from bytes.

ghost use Rattle.std.specs.Prelude.{◌≡◌, ◌≢◌, ◌∷◌, ◌^◌, ◌<◌, ◌↔◌, ℕ, length, IsTrue, MatchOption};
ghost use Rattle.std.specs.Int.{w32, w128, to_be_bytes};
ghost use Rattle.gx_inet.specs.Value.{width};
ghost use Rattle.gx_inet.specs.Encoding.{family, address_bytes};
ghost use Rattle.gx_class_inet.specs.Keys.{IsNet};
ghost use Rattle.gx_class_inet.specs.Spellings.{ReadsTo};

use crate::join::{behind, bits, width_of};
use crate::{InetKey, Net};

/// The key with these bytes.
pub fn key_from(bytes: &[u8]) -> Option<InetKey>
    ensures { ReadsTo bytes.now result }
{
    match bytes {
        [0] => Some(InetKey::Mixed),
        [4, mask, common, rest @ ..] => net_from(false, *mask, *common, rest),
        [6, mask, common, rest @ ..] => net_from(true, *mask, *common, rest),
        _ => None,
    }
}

fn net_from(v6: bool, mask: u8, common: u8, rest: &[u8]) -> Option<InetKey>
    ensures { ReadsTo (family v6 ∷ mask ∷ common ∷ rest.now) result }
{
    let Some(address) = address_from(v6, rest) else {
        return None;
    };
    let net = Net {
        v6,
        mask,
        common,
        address,
    };
    if is_net(net) {
        Some(InetKey::Family(net))
    } else {
        None
    }
}

/// The masks are at most the width, and zeros stand behind the bits in common.
fn is_net(net: Net) -> bool
    requires { net.address < 2 ^ width net.v6 }
    ensures { IsTrue result ↔ IsNet net }
{
    let width = width_of(net.v6);
    if net.mask > width || net.common > width {
        return false;
    }
    net.address == behind(bits(net.address, width, net.common), width, net.common)
}

/// The address that these bytes write, the highest first.
fn address_from(v6: bool, bytes: &[u8]) -> Option<u128>
    ensures { MatchOption result ((n : ℕ) → bytes.now ≢ address_bytes v6 n) (λ n. (n < 2 ^ width v6) × (bytes.now ≡ address_bytes v6 n)) }
{
    if v6 { wide(bytes) } else { narrow(bytes) }
}

fn narrow(bytes: &[u8]) -> Option<u128>
    ensures { MatchOption result (length bytes.now ≢ 4) (λ n. (n < 2 ^ 32) × (bytes.now ≡ to_be_bytes w32 n)) }
{
    match *bytes {
        [a, b, c, d] => Some(u128::from(u32::from_be_bytes([a, b, c, d]))),
        _ => None,
    }
}

fn wide(bytes: &[u8]) -> Option<u128>
    ensures { MatchOption result (length bytes.now ≢ 16) (λ n. (n < 2 ^ 128) × (bytes.now ≡ to_be_bytes w128 n)) }
{
    match <[u8; 16]>::try_from(bytes) {
        Ok(octets) => Some(u128::from_be_bytes(octets)),
        Err(_) => None,
    }
}
