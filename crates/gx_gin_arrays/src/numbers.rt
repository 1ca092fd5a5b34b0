//! Numbers as items.

ghost use Rattle.std.specs.Prelude.{◌≡◌, [], ◌∷◌, ◌++◌, map, IfOk, OnOk};
ghost use Rattle.gx_gin_arrays.specs.Numbers.{number_item, items};

use byteorder::{BigEndian, ByteOrder};
use gx_bytes::NoMemory;
use gx_gin::{Items, Strings};
use std::alloc::Global;

/// The sign bit of a number.
const SIGN: u32 = 2_147_483_648;

/// Four bytes, the highest first, with the sign bit turned.
pub fn number_item(number: i32) -> [u8; 4]
    ensures { result ≡ number_item number }
{
    let mut item = [0; 4];
    BigEndian::write_u32(&mut item, number.cast_unsigned().wrapping_add(SIGN));
    item
}

/// The items of these numbers.
pub fn items_of(alloc: Global, numbers: &[i32]) -> Result<Items, NoMemory>
    ensures { IfOk result (λ made. made ≡ items numbers.now) }
{
    let mut strings = Strings::new(alloc);
    for number in numbers {
        push_number(&mut strings, *number)?;
    }
    Items::of(strings)
}

/// Adds the item of a number at the end.
pub fn push_number(to: &mut Strings, number: i32) -> Result<(), NoMemory>
    ensures { OnOk result (to.new ≡ to.old ++ map number_item (number ∷ [])) }
{
    to.push(number_item(number).as_slice())
}
