//! Keys as bytes.

ghost use Rattle.std.specs.Prelude.{◌≡◌, ◌++◌, IfOk, OnOk};
ghost use Rattle.gx_class_ltree.specs.Spellings.{part_bytes, spelled};

use crate::{LtreeKey, Part};
use gx_bytes::{Bytes, NoMemory, push_field};
use std::alloc::Global;

/// The bytes of a key.
pub fn spell<const N: usize>(alloc: Global, key: &LtreeKey<N>) -> Result<Bytes, NoMemory>
    ensures { IfOk result (λ bytes. bytes ≡ spelled key.now) }
{
    let mut to = Bytes::new(alloc);
    push_part(alloc, &mut to, &key.low)?;
    push_part(alloc, &mut to, &key.high)?;
    to.extend_from_slice(key.sig.bytes())?;
    Ok(to)
}

/// Adds the text of the path as a field, and a byte 1 where the path goes on, else 0.
fn push_part(alloc: Global, to: &mut Bytes, part: &Part) -> Result<(), NoMemory>
    ensures { OnOk result (to.new ≡ to.old ++ part_bytes part.now) }
{
    let mut text = Bytes::new(alloc);
    part.path.encode(&mut text)?;
    push_field(to, text.as_slice())?;
    to.push(u8::from(part.cut))
}
