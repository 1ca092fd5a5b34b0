//! The printed text of a document.

ghost use Rattle.std.specs.Prelude.{◌≡◌, ◌++◌, OnOk, IfOk, map, IsPermutation};
ghost use Rattle.serde_json.specs.Data.{array, object};
ghost use Rattle.gx_json.specs.Tree.{data_of, items_data, members_data};
ghost use Rattle.gx_json.specs.Print.{printed, separator, shorter_first, entries_of};

use crate::document::Json;
use crate::quoted::push_quoted;
use gx_bytes::{Bytes, NoMemory, print_whole};
use std::alloc::Global;

impl Json {
    /// Appends the text with a space behind each comma and each colon, and with shorter keys first.
    pub fn print(&self, to: &mut Bytes) -> Result<(), NoMemory>
        ensures { OnOk result (to.new ≡ to.old ++ printed (data_of self.now)) }
    {
        print_value(self, to)
    }
}

#[cycle(print)]
fn print_value(value: &Json, to: &mut Bytes) -> Result<(), NoMemory>
    ensures { OnOk result (to.new ≡ to.old ++ printed (data_of value.now)) }
{
    match value {
        Json::Null => to.extend_from_slice(b"null")?,
        Json::Bool(true) => to.extend_from_slice(b"true")?,
        Json::Bool(false) => to.extend_from_slice(b"false")?,
        Json::Number(number) => print_whole(*number, to)?,
        Json::Text(text) => push_quoted(text.as_slice(), to)?,
        Json::List(list) => print_items(&list.items, to)?,
        Json::Object(pairs) => print_pairs(&pairs.items, to)?,
    }
    Ok(())
}

#[cycle(print)]
fn print_items(items: &[Json], to: &mut Bytes) -> Result<(), NoMemory>
    ensures { OnOk result (to.new ≡ to.old ++ printed (array (items_data items.now))) }
{
    to.push(b'[')?;
    let mut later = false;
    for item in items {
        push_separator(later, to)?;
        print_value(item, to)?;
        later = true;
    }
    to.push(b']')?;
    Ok(())
}

/// The members with shorter keys first, and those with keys of one length by their bytes, as they stand.
#[cycle(print)]
fn print_pairs(pairs: &[(Bytes, Json)], to: &mut Bytes) -> Result<(), NoMemory>
    ensures { OnOk result (to.new ≡ to.old ++ printed (object (members_data pairs.now))) }
{
    let order = by_length(to.allocator(), pairs)?;
    to.push(b'{')?;
    let mut later = false;
    for pair in &order {
        push_separator(later, to)?;
        push_quoted(pair.0.as_slice(), to)?;
        to.extend_from_slice(b": ")?;
        print_value(&pair.1, to)?;
        later = true;
    }
    to.push(b'}')?;
    Ok(())
}

/// The members with shorter keys first.
fn by_length(alloc: Global, pairs: &[(Bytes, Json)]) -> Result<Vec<&(Bytes, Json)>, NoMemory>
    ensures same { IfOk result (λ v. IsPermutation pairs.now (map (λ r. r.now) v.items)) }
    ensures sorted { IfOk result (λ v. entries_of (members_data (map (λ r. r.now) v.items)) ≡ shorter_first (entries_of (members_data pairs.now))) }
{
    let mut order = Vec::with_capacity(alloc, pairs.len())?;
    for pair in pairs {
        order.push(pair)?;
    }
    order.sort_by_key(|pair| pair.0.len())?;
    Ok(order)
}

fn push_separator(later: bool, to: &mut Bytes) -> Result<(), NoMemory>
    ensures { OnOk result (to.new ≡ to.old ++ separator later) }
{
    if later {
        to.extend_from_slice(b", ")?;
    }
    Ok(())
}
