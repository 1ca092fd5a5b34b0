//! The printed text of a map.

ghost use Rattle.std.specs.Prelude.{◌≡◌, ◌++◌, OnOk, flat_map, codes};
ghost use Rattle.gx_hstore.specs.Printing.{escaped, in_quotes, printed_pair, printed};

use crate::hstore::{Entry, Hstore};
use gx_bytes::{Bytes, NoMemory};

impl Hstore {
    /// Appends the pairs as `"key"=>"value"` or `"key"=>NULL` with `, ` between them, and with a backslash
    /// before quotes and backslashes.
    pub fn print(&self, to: &mut Bytes) -> Result<(), NoMemory>
        ensures { OnOk result (to.new ≡ to.old ++ printed self.now) }
    {
        let [first, rest @ ..] = self.pairs() else {
            return Ok(());
        };
        print_pair(first, to)?;
        print_more(rest, to)
    }
}

/// Appends the pairs with a comma and a space before each.
fn print_more(pairs: &[Entry], to: &mut Bytes) -> Result<(), NoMemory>
    ensures { OnOk result (to.new ≡ to.old ++ flat_map (λ pair. codes ", " ++ printed_pair pair) pairs.now) }
{
    for pair in pairs {
        to.extend_from_slice(b", ")?;
        print_pair(pair, to)?;
    }
    Ok(())
}

fn print_pair(pair: &Entry, to: &mut Bytes) -> Result<(), NoMemory>
    ensures { OnOk result (to.new ≡ to.old ++ printed_pair pair.now) }
{
    print_string(pair.0.as_slice(), to)?;
    to.extend_from_slice(b"=>")?;
    match &pair.1 {
        Some(value) => print_string(value.as_slice(), to),
        None => to.extend_from_slice(b"NULL"),
    }
}

fn print_string(bytes: &[u8], to: &mut Bytes) -> Result<(), NoMemory>
    ensures { OnOk result (to.new ≡ to.old ++ in_quotes bytes.now) }
{
    to.push(b'"')?;
    print_escaped(bytes, to)?;
    to.push(b'"')
}

fn print_escaped(bytes: &[u8], to: &mut Bytes) -> Result<(), NoMemory>
    ensures { OnOk result (to.new ≡ to.old ++ flat_map escaped bytes.now) }
{
    for byte in bytes {
        print_byte(*byte, to)?;
    }
    Ok(())
}

fn print_byte(byte: u8, to: &mut Bytes) -> Result<(), NoMemory>
    ensures { OnOk result (to.new ≡ to.old ++ escaped byte) }
{
    if byte == b'"' || byte == b'\\' {
        to.push(b'\\')?;
    }
    to.push(byte)
}
