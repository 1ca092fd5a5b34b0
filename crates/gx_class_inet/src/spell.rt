//! Keys as bytes.

ghost use Rattle.std.specs.Prelude.{◌≡◌, ◌++◌, ◌<◌, ◌^◌, IfOk, OnOk};
ghost use Rattle.gx_inet.specs.Value.{width};
ghost use Rattle.gx_inet.specs.Encoding.{address_bytes};
ghost use Rattle.gx_class_inet.specs.Keys.{IsKey, spelled};

use crate::InetKey;
use gx_bytes::{Bytes, NoMemory};
use std::alloc::Global;

/// The bytes of a key.
pub fn spell(alloc: Global, key: InetKey) -> Result<Bytes, NoMemory>
    requires { IsKey key }
    ensures { IfOk result (λ bytes. bytes ≡ spelled key) }
{
    let mut to = Bytes::new(alloc);
    match key {
        InetKey::Mixed => to.push(0)?,
        InetKey::Family(key) => {
            to.push(if key.v6 { 6 } else { 4 })?;
            to.push(key.mask)?;
            to.push(key.common)?;
            push_address(&mut to, key.v6, key.address)?;
        }
    }
    Ok(to)
}

fn push_address(to: &mut Bytes, v6: bool, address: u128) -> Result<(), NoMemory>
    requires { address < 2 ^ width v6 }
    ensures { OnOk result (to.new ≡ to.old ++ address_bytes v6 address) }
{
    if v6 {
        to.extend_from_slice(&address.to_be_bytes())
    } else {
        to.extend_from_slice(&(address as u32).to_be_bytes())
    }
}
