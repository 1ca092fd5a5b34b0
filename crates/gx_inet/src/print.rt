//! The printed text of an address.

ghost use Rattle.std.specs.Prelude.{◌≡◌, ◌++◌, IfOk, OnOk, true, false};
ghost use Rattle.std.specs.String.{string_bytes};
ghost use Rattle.gx_inet.specs.Value.{IsInet};
ghost use Rattle.gx_inet.specs.Text.{address_text, printed};

use crate::inet::Inet;
use crate::text::width_of;
use gx_bytes::{Bytes, NoMemory};
use std::alloc::Global;
use std::net::{Ipv4Addr, Ipv6Addr};

impl Inet {
    /// Appends the text that stands for the address, as PostgreSQL writes it but without a dotted tail.
    pub fn print(&self, to: &mut Bytes) -> Result<(), NoMemory>
        requires { IsInet self.now }
        ensures { OnOk result (to.new ≡ to.old ++ printed self.now) }
    {
        print_address(self, to)?;
        if self.mask == width_of(self.v6) {
            return Ok(());
        }
        let digits = self.mask.to_string(to.allocator())?;
        to.push(b'/')?;
        to.extend_from_slice(digits.as_bytes())
    }
}

/// Appends the address alone.
fn print_address(inet: &Inet, to: &mut Bytes) -> Result<(), NoMemory>
    requires { IsInet inet.now }
    ensures { OnOk result (to.new ≡ to.old ++ address_text inet.now.v6 inet.now.address) }
{
    let text = if inet.v6 {
        groups_of(to.allocator(), inet.address)?
    } else {
        dotted_of(to.allocator(), inet.address as u32)?
    };
    to.extend_from_slice(text.as_bytes())
}

/// The text of an IPv4 address.
fn dotted_of(alloc: Global, address: u32) -> Result<String, NoMemory>
    ensures { IfOk result (λ text. string_bytes text ≡ address_text false address) }
{
    Ipv4Addr::from_bits(address).to_string(alloc)
}

/// The text of an IPv6 address, without a dotted tail.
fn groups_of(alloc: Global, address: u128) -> Result<String, NoMemory>
    ensures { IfOk result (λ text. string_bytes text ≡ address_text true address) }
{
    Ipv6Addr::from_bits(address).hex_groups().to_string(alloc)
}
