//! Keys as bytes.

ghost use Rattle.std.specs.Prelude.{◌≡◌, ◌++◌, IfOk, OnOk};
ghost use Rattle.gx_class_intset.specs.Spellings.{interval_bytes, pieces, listed, flag, spelled};

use crate::{IntKey, Interval};
use gx_bytes::{Bytes, NoMemory, push_varint};
use std::alloc::Global;

/// The bytes of a key.
pub fn spell(alloc: Global, key: &IntKey) -> Result<Bytes, NoMemory>
    ensures { IfOk result (λ bytes. bytes ≡ spelled key.now) }
{
    let mut to = Bytes::new(alloc);
    to.push(flag(key.exact))?;
    push_listed(&mut to, key.intervals.as_slice())?;
    Ok(to)
}

fn flag(exact: bool) -> u8
    ensures { result ≡ flag exact }
{
    if exact { 1 } else { 0 }
}

/// Adds how many intervals there are, and each of them.
fn push_listed(to: &mut Bytes, intervals: &[Interval]) -> Result<(), NoMemory>
    ensures { OnOk result (to.new ≡ to.old ++ listed intervals.now) }
{
    push_varint(to, intervals.len() as u64)?;
    push_pieces(to, intervals)
}

fn push_pieces(to: &mut Bytes, intervals: &[Interval]) -> Result<(), NoMemory>
    ensures { OnOk result (to.new ≡ to.old ++ pieces intervals.now) }
{
    for interval in intervals {
        push_interval(to, *interval)?;
    }
    Ok(())
}

fn push_interval(to: &mut Bytes, interval: Interval) -> Result<(), NoMemory>
    ensures { OnOk result (to.new ≡ to.old ++ interval_bytes interval) }
{
    to.extend_from_slice(&interval.least.to_le_bytes())?;
    to.extend_from_slice(&interval.greatest.to_le_bytes())?;
    Ok(())
}
