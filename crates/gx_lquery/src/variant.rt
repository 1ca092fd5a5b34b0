//! One word of a query, and whether a label matches it.

ghost use Rattle.std.specs.Prelude.{◌≡◌, ◌++◌, ◌∷◌, [], IfOk, OnOk, OnErr, IsTrue, ◌↔◌};
ghost use Rattle.gx_lquery.specs.Matching.{folded, MatchesVariant};

use gx_bytes::{Bytes, NoMemory};
use std::alloc::Global;
use std::marker::Model;

/// A label with its marks: `prefix` (`*`) also takes longer labels, `caseless` (`@`) compares letters
/// without case.
#[derive(Debug, Drop)]
pub struct Variant {
    pub label: Bytes,
    pub prefix: bool,
    pub caseless: bool,
}

/// A list of variants.
#[derive(Debug, Drop)]
pub struct Variants {
    items: Vec<Variant>,
}

impl Model for Variants {
    ghost use Rattle.std.specs.Prelude.{List};
    ghost use Rattle.gx_lquery.specs.declared.variant.Variant.{Variant};

    ghost Value = { List Variant };

    ghost view = { λ v. v.items.items };
}

impl Variants {
    /// No variants.
    pub fn new(alloc: Global) -> Variants
        ensures { result ≡ [] }
    {
        Variants {
            items: Vec::new(alloc),
        }
    }

    /// Adds a variant at the end.
    pub fn push(&mut self, variant: Variant) -> Result<(), NoMemory>
        ensures ok { OnOk result (self.new ≡ self.old ++ variant ∷ []) }
        ensures err { OnErr result (self.new ≡ self.old) }
    {
        self.items.push(variant)?;
        Ok(())
    }

    pub fn as_slice(&self) -> &[Variant]
        ensures { result.now ≡ self.now }
    {
        self.items.as_slice()
    }

    /// A copy of the list.
    pub fn copy(&self, alloc: Global) -> Result<Variants, NoMemory>
        ensures { IfOk result (λ copy. copy ≡ self.now) }
    {
        let mut copy = Variants::new(alloc);
        for variant in self.as_slice() {
            copy.push(variant.copy(alloc)?)?;
        }
        Ok(copy)
    }
}

impl Variant {
    /// Whether the label is the variant's, begins with it where it is a prefix.
    pub fn matches(&self, label: &[u8]) -> bool
        ensures { IsTrue result ↔ MatchesVariant self.now label.now }
    {
        variant_matches(self, label)
    }

    /// A copy of the variant.
    pub fn copy(&self, alloc: Global) -> Result<Variant, NoMemory>
        ensures { IfOk result (λ copy. copy ≡ self.now) }
    {
        Ok(Variant {
            label: self.label.copy(alloc)?,
            prefix: self.prefix,
            caseless: self.caseless,
        })
    }
}

fn variant_matches(variant: &Variant, label: &[u8]) -> bool
    ensures { IsTrue result ↔ MatchesVariant variant.now label.now }
{
    let wanted = variant.label.as_slice();
    if label.len() < wanted.len() || (!variant.prefix && label.len() != wanted.len()) {
        return false;
    }
    same_letters(&label[..wanted.len()], wanted, variant.caseless)
}

fn same_letters(left: &[u8], right: &[u8], caseless: bool) -> bool
    ensures { IsTrue result ↔ (folded caseless left.now ≡ folded caseless right.now) }
{
    if caseless {
        left.eq_ignore_ascii_case(right)
    } else {
        left == right
    }
}
