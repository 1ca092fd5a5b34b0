//! The bytes of an address in a row.

ghost use Rattle.std.specs.Prelude.{◌≡◌, ◌≢◌, ◌^◌, ◌<◌, ◌++◌, length, Ok, OnOk, MatchOption};
ghost use Rattle.std.specs.Int.{w128, to_be_bytes};
ghost use Rattle.gx_inet.specs.declared.inet.Inet.{Inet};
ghost use Rattle.gx_inet.specs.Value.{IsInet};
ghost use Rattle.gx_inet.specs.Encoding.{family, address_bytes, encoded, DecodesTo};

use crate::inet::Inet;
use gx_bytes::{Bytes, NoMemory};
use std::alloc::Global;

impl Inet {
    /// Appends the family (4 or 6), the mask, and the address in 4 or 16 bytes, the highest first.
    pub fn encode(&self, to: &mut Bytes) -> Result<(), NoMemory>
        requires { IsInet self.now }
        ensures { OnOk result (to.new ≡ to.old ++ encoded self.now) }
    {
        to.push(family_of(self.v6))?;
        to.push(self.mask)?;
        encode_address(self, to)
    }

    /// The address with these bytes. No memory is taken, so it is never refused.
    pub fn decode(_alloc: Global, bytes: &[u8]) -> Result<Option<Inet>, NoMemory>
        ensures { DecodesTo bytes.now result }
    {
        Ok(decoded(bytes))
    }
}

fn family_of(v6: bool) -> u8
    ensures { result ≡ family v6 }
{
    if v6 { 6 } else { 4 }
}

fn encode_address(inet: &Inet, to: &mut Bytes) -> Result<(), NoMemory>
    requires { IsInet inet.now }
    ensures { OnOk result (to.new ≡ to.old ++ address_bytes inet.now.v6 inet.now.address) }
{
    if inet.v6 {
        to.extend_from_slice(&inet.address.to_be_bytes())
    } else {
        to.extend_from_slice(&(inet.address as u32).to_be_bytes())
    }
}

fn decoded(bytes: &[u8]) -> Option<Inet>
    ensures { DecodesTo bytes.now (Ok result) }
{
    match *bytes {
        [4, mask, a, b, c, d] if mask <= 32 => Some(Inet {
            v6: false,
            mask,
            address: u128::from(u32::from_be_bytes([a, b, c, d])),
        }),
        [6, mask, ..] if mask <= 128 => Some(Inet {
            v6: true,
            mask,
            address: wide(&bytes[2..])?,
        }),
        _ => None,
    }
}

/// The number that sixteen bytes write, the highest first.
fn wide(bytes: &[u8]) -> Option<u128>
    ensures { MatchOption result (length bytes.now ≢ 16) (λ n. (n < 2 ^ 128) × (bytes.now ≡ to_be_bytes w128 n)) }
{
    match <[u8; 16]>::try_from(bytes) {
        Ok(octets) => Some(u128::from_be_bytes(octets)),
        Err(_) => None,
    }
}
