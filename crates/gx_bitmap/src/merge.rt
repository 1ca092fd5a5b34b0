//! The rows that two bitmaps have in common, and those of both.

ghost use Rattle.std.specs.Prelude.{◌≡◌, ◌++◌, [], not, filter, IfOk, IfSome, IfNone};
ghost use Rattle.std.specs.List.Sorted.{IsPermutation};
ghost use Rattle.gx_pages.specs.Rows.{IsRising};
ghost use Rattle.gx_bitmap.specs.Merges.{Takes, is_among};

use gx_bytes::NoMemory;
use gx_pages::{Bitmap, RowRef};
use std::alloc::Global;

/// The rows of `a` whose number is in `b`, by rising numbers.
pub fn and(alloc: Global, a: &Bitmap, b: &Bitmap) -> Result<Bitmap, NoMemory>
    ensures { IfOk result (λ rows. rows ≡ filter (λ row. is_among row b.now) a.now) }
{
    let mut rows = Bitmap::new(alloc);
    let mut left = a.as_slice();
    let mut right = b.as_slice();
    while let Some(taken) = take_lesser(left, right) {
        if taken.common {
            rows.push(taken.row)?;
        }
        left = taken.left;
        right = taken.right;
    }
    Ok(rows)
}

/// The rows of `a`, and those of `b` whose number isn't in `a`, by rising numbers.
pub fn or(alloc: Global, a: &Bitmap, b: &Bitmap) -> Result<Bitmap, NoMemory>
    ensures all { IfOk result (λ rows. IsPermutation rows (a.now ++ filter (λ row. not (is_among row a.now)) b.now)) }
    ensures rising { IfOk result (λ rows. IsRising rows) }
{
    let mut rows = Bitmap::new(alloc);
    let mut left = a.as_slice();
    let mut right = b.as_slice();
    while let Some(taken) = take_lesser(left, right) {
        rows.push(taken.row)?;
        left = taken.left;
        right = taken.right;
    }
    let _rising = rows.as_slice();
    Ok(rows)
}

// A row that was taken off the front of one of two lists, or of both, and what is left of each.
#[derive(Drop)]
struct Taken<'a> {
    row: RowRef,
    // whether its number was in both
    common: bool,
    left: &'a [RowRef],
    right: &'a [RowRef],
}

// Takes the row with the least number of both lists; where both begin with that number, the first one's, and off both.
fn take_lesser<'a>(left: &'a [RowRef], right: &'a [RowRef]) -> Option<Taken<'a>>
    requires left { IsRising left.now }
    requires right { IsRising right.now }
    ensures some { IfSome result (λ taken. Takes left.now right.now taken.row taken.common taken.left.now taken.right.now) }
    ensures none { IfNone result ((left.now ≡ []) × (right.now ≡ [])) }
{
    let Some((first, more)) = left.split_first() else {
        let (row, others) = right.split_first()?;
        return Some(Taken {
            row: *row,
            common: false,
            left,
            right: others,
        });
    };
    let Some((other, others)) = right.split_first() else {
        return Some(Taken {
            row: *first,
            common: false,
            left: more,
            right,
        });
    };
    if other.number < first.number {
        return Some(Taken {
            row: *other,
            common: false,
            left,
            right: others,
        });
    }
    if other.number == first.number {
        return Some(Taken {
            row: *first,
            common: true,
            left: more,
            right: others,
        });
    }
    Some(Taken {
        row: *first,
        common: false,
        left: more,
        right,
    })
}
