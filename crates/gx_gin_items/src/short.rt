//! Items that are kept short.

ghost use Rattle.std.specs.Prelude.{◌≡◌, ◌∷◌, ◌++◌, [], true, OnOk};
ghost use Rattle.gx_gin_items.specs.Items.{is_long, hashed, shortened};

use byteorder::{BigEndian, ByteOrder};
use gx_bytes::{NoMemory, fnv};
use gx_gin::Strings;

/// The longest item, in bytes.
const LONGEST: usize = 1_900;

/// Where a hash begins.
const SEED: u32 = 2_166_136_261;

/// Adds an item at the end. An item of more than 1,900 bytes is replaced by `H`, its first byte and its hash.
pub fn push_short(to: &mut Strings, item: &[u8]) -> Result<(), NoMemory>
    ensures { OnOk result (to.new ≡ to.old ++ shortened item.now ∷ []) }
{
    if item.len() > LONGEST {
        to.push(hashed(item).as_slice())
    } else {
        to.push(item)
    }
}

/// What stands for a long item.
fn hashed(item: &[u8]) -> [u8; 6]
    requires { is_long item.now ≡ true }
    ensures { result ≡ hashed item.now }
{
    let mut short = [b'H', item[0], 0, 0, 0, 0];
    BigEndian::write_u32(&mut short[2..], fnv(SEED, item));
    short
}
