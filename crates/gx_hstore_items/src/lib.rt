//! The strings by which index classes know a map.
#![tactic(auto)]

ghost use Rattle.std.specs.Prelude.{◌≡◌, ◌∷◌, ◌++◌, option_map, OnOk};
ghost use Rattle.gx_bytes.specs.Varints.{field_bytes};
ghost use Rattle.gx_hstore_items.specs.Items.{key_item, value_item};

use gx_bytes::{Bytes, NoMemory, push_field};

/// Adds the item of a key at the end.
pub fn push_key_item(to: &mut Bytes, key: &[u8]) -> Result<(), NoMemory>
    ensures { OnOk result (to.new ≡ to.old ++ key_item key.now) }
{
    to.push(b'K')?;
    to.extend_from_slice(key)
}

/// Adds the item of a key with its value at the end; None is NULL.
pub fn push_value_item(to: &mut Bytes, key: &[u8], value: Option<&[u8]>) -> Result<(), NoMemory>
    ensures { OnOk result (to.new ≡ to.old ++ value_item key.now (option_map (λ v. v.now) value.entry)) }
{
    match value {
        None => {
            to.push(b'N')?;
            to.extend_from_slice(key)
        }
        Some(bytes) => push_pair_item(to, key, bytes),
    }
}

fn push_pair_item(to: &mut Bytes, key: &[u8], value: &[u8]) -> Result<(), NoMemory>
    ensures { OnOk result (to.new ≡ to.old ++ (80 ∷ (field_bytes key.now ++ value.now))) }
{
    to.push(b'P')?;
    push_field(to, key)?;
    to.extend_from_slice(value)
}
