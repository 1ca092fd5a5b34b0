//! The printed text of a range.

ghost use Rattle.std.specs.Prelude.{◌≡◌, ◌++◌, Some, OnOk, true};
ghost use Rattle.gx_range.specs.Values.{IsRange, fits};
ghost use Rattle.gx_range.specs.Texts.{bound_text, element_text, printed};

use crate::{Range, RangeKind};
use gx_bytes::{Bytes, NoMemory, print_day, print_whole};

impl Range {
    /// Appends `empty`, or the bounds as `[1,5)`, with `(` where there is no lower bound.
    pub fn print(&self, kind: RangeKind, to: &mut Bytes) -> Result<(), NoMemory>
        requires { IsRange kind self.now }
        ensures { OnOk result (to.new ≡ to.old ++ printed kind self.now) }
    {
        match *self {
            Range::Empty => to.extend_from_slice(b"empty"),
            Range::Span { lower, upper } => {
                to.push(if lower.is_some() { b'[' } else { b'(' })?;
                print_bound(kind, lower, to)?;
                to.push(b',')?;
                print_bound(kind, upper, to)?;
                to.push(b')')
            }
        }
    }
}

fn print_bound(kind: RangeKind, bound: Option<i64>, to: &mut Bytes) -> Result<(), NoMemory>
    requires { fits kind bound ≡ true }
    ensures { OnOk result (to.new ≡ to.old ++ bound_text kind bound) }
{
    match bound {
        Some(number) => print_element(kind, number, to),
        None => Ok(()),
    }
}

fn print_element(kind: RangeKind, number: i64, to: &mut Bytes) -> Result<(), NoMemory>
    requires { fits kind (Some number) ≡ true }
    ensures { OnOk result (to.new ≡ to.old ++ element_text kind number) }
{
    match kind {
        RangeKind::Int4 => print_whole(number, to),
        RangeKind::Int8 => print_whole(number, to),
        RangeKind::Date => {
            if number == 2_932_897 {
                to.extend_from_slice(b"10000-01-01")
            } else {
                print_day(number as i32, to)
            }
        }
    }
}
