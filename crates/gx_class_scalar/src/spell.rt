//! Keys as bytes.

ghost use Rattle.std.specs.Prelude.{◌≡◌, ◌≢◌, ◌≤◌, ℕ, ◌++◌, List, length, IfOk, OnOk, MatchOption};
ghost use Rattle.gx_scalar.specs.declared.scalar.ScalarKind.{ScalarKind};
ghost use Rattle.gx_class_scalar.specs.declared.key.ScalarKey.{ScalarKey};
ghost use Rattle.gx_class_scalar.specs.declared.key.Part.{Part};
ghost use Rattle.gx_class_scalar.specs.Keys.{IsPart, IsKey, size_bytes, part_bytes, spelled};

use crate::{Part, ScalarKey};
use gx_bytes::{Bytes, NoMemory};
use std::alloc::Global;

/// The bytes of a key.
pub fn spell(alloc: Global, key: &ScalarKey) -> Result<Bytes, NoMemory>
    requires { (kind : ScalarKind) × IsKey kind key.now }
    ensures { IfOk result (λ bytes. bytes ≡ spelled key.now) }
{
    let mut to = Bytes::new(alloc);
    match key {
        ScalarKey::Int4 { lo, hi } => {
            to.extend_from_slice(&lo.to_le_bytes())?;
            to.extend_from_slice(&hi.to_le_bytes())?;
        }
        ScalarKey::Int8 { lo, hi } => {
            to.extend_from_slice(&lo.to_le_bytes())?;
            to.extend_from_slice(&hi.to_le_bytes())?;
        }
        ScalarKey::Date { lo, hi } => {
            to.extend_from_slice(&lo.to_le_bytes())?;
            to.extend_from_slice(&hi.to_le_bytes())?;
        }
        ScalarKey::Uuid { lo, hi } => {
            to.extend_from_slice(&lo.to_be_bytes())?;
            to.extend_from_slice(&hi.to_be_bytes())?;
        }
        ScalarKey::Cut { lo, hi } => {
            push_part(&mut to, lo)?;
            push_part(&mut to, hi)?;
        }
    }
    Ok(to)
}

fn push_part(to: &mut Bytes, part: &Part) -> Result<(), NoMemory>
    requires { IsPart part.now }
    ensures { OnOk result (to.new ≡ to.old ++ part_bytes part.now) }
{
    push_size(to, part.bytes.len())?;
    to.extend_from_slice(part.bytes.as_slice())?;
    to.push(u8::from(part.more))?;
    Ok(())
}

fn push_size(to: &mut Bytes, size: usize) -> Result<(), NoMemory>
    requires { size ≤ 900 }
    ensures { OnOk result (to.new ≡ to.old ++ size_bytes size) }
{
    if size < 128 {
        to.push(size as u8)?;
    } else {
        to.push((128 + size % 128) as u8)?;
        to.push((size / 128) as u8)?;
    }
    Ok(())
}
