//! Keys as bytes.

ghost use Rattle.std.specs.Prelude.{◌≡◌, ◌++◌, is_some, IfOk, OnOk};
ghost use Rattle.gx_range.specs.Encodings.{bound_bytes};
ghost use Rattle.gx_class_range.specs.Keys.{flag, span_flags, spelled};

use crate::RangeKey;
use gx_bytes::{Bytes, NoMemory};
use std::alloc::Global;

/// The bytes of a key.
pub fn spell(alloc: Global, key: RangeKey) -> Result<Bytes, NoMemory>
    ensures { IfOk result (λ bytes. bytes ≡ spelled key) }
{
    let mut to = Bytes::new(alloc);
    match key.span {
        None => to.push(flag(1, key.empty))?,
        Some(s) => {
            to.push(flags_of(key.empty, s.lower.is_some(), s.upper.is_some()))?;
            push_bound(&mut to, s.lower)?;
            push_bound(&mut to, s.upper)?;
        }
    }
    Ok(to)
}

/// The first byte of a key with a span.
fn flags_of(empty: bool, lower: bool, upper: bool) -> u8
    ensures { result ≡ span_flags empty lower upper }
{
    (if empty { 1 } else { 0 }) + 2 + (if lower { 4 } else { 0 }) + (if upper { 8 } else { 0 })
}

fn flag(value: u8, there: bool) -> u8
    ensures { result ≡ flag value there }
{
    if there { value } else { 0 }
}

fn push_bound(to: &mut Bytes, bound: Option<i64>) -> Result<(), NoMemory>
    ensures { OnOk result (to.new ≡ to.old ++ bound_bytes bound) }
{
    match bound {
        Some(number) => to.extend_from_slice(&number.to_le_bytes()),
        None => Ok(()),
    }
}
