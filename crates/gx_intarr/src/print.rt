//! The text of an array.

ghost use Rattle.std.specs.Prelude.{◌≡◌, ◌++◌, map, OnOk};
ghost use Rattle.std.specs.Fmt.{signed_decimal};
ghost use Rattle.gx_intarr.specs.Texts.{closed};
ghost use Rattle.gx_intarr.specs.Arrays.{printed};

use crate::array::IntArray;
use gx_bytes::{Bytes, NoMemory, print_whole};

impl IntArray {
    /// Appends the elements, as `{1,2,3}`.
    pub fn print(&self, to: &mut Bytes) -> Result<(), NoMemory>
        ensures { OnOk result (to.new ≡ to.old ++ printed self.now) }
    {
        print_items(self.items(), to)
    }
}

fn print_items(items: &[i32], to: &mut Bytes) -> Result<(), NoMemory>
    ensures { OnOk result (to.new ≡ to.old ++ printed items.now) }
{
    let [first, rest @ ..] = items else {
        return to.extend_from_slice(b"{}");
    };
    to.push(b'{')?;
    print_whole(i64::from(*first), to)?;
    print_more(rest, to)
}

/// Appends the numbers with a comma before each, and the closing brace.
fn print_more(items: &[i32], to: &mut Bytes) -> Result<(), NoMemory>
    ensures { OnOk result (to.new ≡ to.old ++ closed (map signed_decimal items.now)) }
{
    for number in items {
        to.push(b',')?;
        print_whole(i64::from(*number), to)?;
    }
    to.push(b'}')
}
