//! The first labels of paths.

ghost use Rattle.std.specs.Prelude.{◌≡◌, ◌↔◌, length, nat_le, IsTrue, IfOk};
ghost use Rattle.gx_ltree.specs.Operators.{order};
ghost use Rattle.gx_class_ltree.specs.Keys.{front, room_of, part, part_cmp, lesser, greater};

use crate::Part;
use gx_bytes::{Bytes, NoMemory};
use gx_ltree::{LtreeOp, Path};
use std::alloc::Global;
use std::cmp::Ordering;

/// The bytes for which a part has room. Each label takes two more than it has.
const ROOM: usize = 600;

/// How many of the first labels there is room for.
fn front_count(labels: &[Bytes]) -> usize
    ensures { result ≡ length (front 600 labels.now) }
{
    let mut room = ROOM;
    let mut count = 0;
    for label in labels {
        let taken = label.len().saturating_add(2);
        if taken > room {
            return count;
        }
        room -= taken;
        count += 1;
    }
    count
}

/// Tells whether a part has room for all labels.
pub fn is_short(path: &Path) -> bool
    ensures { result ≡ nat_le (room_of path.now) 600 }
{
    front_count(path.labels()) == path.count()
}

/// The part of a path.
pub fn part_of(alloc: Global, path: &Path) -> Result<Part, NoMemory>
    ensures { IfOk result (λ made. made ≡ part path.now) }
{
    let count = front_count(path.labels());
    let (labels, rest) = path.labels().split_at(count);
    let front = path_of(alloc, labels)?;
    Ok(Part {
        path: front,
        cut: !rest.is_empty(),
    })
}

/// The path of these labels.
fn path_of(alloc: Global, labels: &[Bytes]) -> Result<Path, NoMemory>
    ensures { IfOk result (λ path. path ≡ labels.now) }
{
    let mut path = Path::new(alloc);
    for label in labels {
        path.push(label.as_slice())?;
    }
    Ok(path)
}

/// A copy of the part.
pub fn copy_of(alloc: Global, part: &Part) -> Result<Part, NoMemory>
    ensures { IfOk result (λ copy. copy ≡ part.now) }
{
    let path = part.path.copy(alloc)?;
    Ok(Part {
        path,
        cut: part.cut,
    })
}

/// As paths, then the one that goes on is the greater.
pub fn compare_parts(a: &Part, b: &Part) -> Ordering
    ensures { result ≡ part_cmp a.now b.now }
{
    a.path.compare(&b.path).then(a.cut.cmp(&b.cut))
}

pub fn lesser_of<'a>(a: &'a Part, b: &'a Part) -> &'a Part
    ensures { result.now ≡ lesser a.now b.now }
{
    if compare_parts(a, b).is_le() { a } else { b }
}

pub fn greater_of<'a>(a: &'a Part, b: &'a Part) -> &'a Part
    ensures { result.now ≡ greater a.now b.now }
{
    if compare_parts(b, a).is_le() { a } else { b }
}

/// Tells whether the parts are equal.
pub fn same_parts(a: &Part, b: &Part) -> bool
    ensures { IsTrue result ↔ (a.now ≡ b.now) }
{
    a.path.holds(LtreeOp::Equal, &b.path) && a.cut == b.cut
}
