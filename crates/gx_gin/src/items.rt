//! A rising list of byte strings.

ghost use Rattle.std.specs.Prelude.{◌≡◌, ◌≤◌, ℕ, List, [], length, map, slice_get, Some, IfSome, IfNone, IfOk, OnOk};
ghost use Rattle.gx_gin.specs.Parts.{cut};
ghost use Rattle.gx_gin.specs.Rising.{IsRising, rising_of};

use crate::strings::{Part, Strings, part_at};
use gx_bytes::NoMemory;
use std::alloc::Global;
use std::marker::Model;

/// Byte strings in one buffer, each before the next in the order of bytes.
#[derive(Debug, Drop)]
pub struct Items {
    parts: Vec<Part>,
    bytes: Vec<u8>,
}

impl Model for Items {
    ghost use Rattle.std.specs.Prelude.{List, ℕ, map};
    ghost use Rattle.gx_gin.specs.Parts.{cut};
    ghost use Rattle.gx_gin.specs.Rising.{IsRising};

    ghost Value = { List (List ℕ) };

    ghost view = { λ l. map (cut l.bytes.items) l.parts.items };

    ghost invariant = { λ l. IsRising (map (cut l.bytes.items) l.parts.items) };
}

impl Items {
    /// No items.
    pub fn new(alloc: Global) -> Items
        ensures { result ≡ [] }
    {
        Items {
            parts: Vec::new(alloc),
            bytes: Vec::new(alloc),
        }
    }

    /// These strings in rising order, each once.
    pub fn of(strings: Strings) -> Result<Items, NoMemory>
        ensures { IfOk result (λ items. items ≡ rising_of strings) }
    {
        let Strings { mut parts, bytes } = strings;
        arrange(&mut parts, bytes.as_slice())?;
        Ok(Items { parts, bytes })
    }

    /// The item at this place. None where there are no more.
    pub fn get(&self, at: usize) -> Option<&[u8]>
        ensures some { IfSome result (λ item. slice_get self.now at ≡ Some item.now) }
        ensures none { IfNone result (length self.now ≤ at) }
    {
        if at >= self.parts.len() {
            return None;
        }
        Some(part_at(self.bytes.as_slice(), self.parts[at]))
    }

    pub fn len(&self) -> usize
        ensures value { result ≡ length self.now }
        ensures rising { IsRising self.now }
    {
        self.parts.len()
    }
}

/// Brings parts into the order of their strings, each string once.
fn arrange(parts: &mut Vec<Part>, bytes: &[u8]) -> Result<(), NoMemory>
    ensures rising { OnOk result (IsRising (map (cut bytes.now) parts.new.items)) }
    ensures value { OnOk result (map (cut bytes.now) parts.new.items ≡ rising_of (map (cut bytes.now) parts.old.items)) }
{
    parts.sort_by(|a, b| part_at(bytes, *a).cmp(part_at(bytes, *b)))?;
    parts.dedup_by(|a, b| part_at(bytes, *a) == part_at(bytes, *b));
    Ok(())
}
