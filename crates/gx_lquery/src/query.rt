//! A query: a list of items.

ghost use Rattle.std.specs.Prelude.{◌≡◌, ◌++◌, ◌∷◌, [], IfOk, OnOk, OnErr};

use crate::variant::Variants;
use gx_bytes::NoMemory;
use std::alloc::Global;
use std::marker::Model;

/// What some consecutive labels of a path match: `*` matches every label, another item a label that
/// one of its variants matches, or with `!` one that none does. It takes at least `least` labels, and
/// at most `most` where there is such a limit.
/// Valid where an item with a star has no variants and isn't negated, and any other has a variant.
#[derive(Debug, Drop)]
pub struct LqueryItem {
    pub star: bool,
    pub negated: bool,
    pub variants: Variants,
    pub least: u16,
    pub most: Option<u16>,
}

impl LqueryItem {
    /// A copy of the item.
    pub fn copy(&self, alloc: Global) -> Result<LqueryItem, NoMemory>
        ensures { IfOk result (λ copy. copy ≡ self.now) }
    {
        Ok(LqueryItem {
            star: self.star,
            negated: self.negated,
            variants: self.variants.copy(alloc)?,
            least: self.least,
            most: self.most,
        })
    }
}

/// A list of items.
#[derive(Debug, Drop)]
pub struct LqueryItems {
    items: Vec<LqueryItem>,
}

impl Model for LqueryItems {
    ghost use Rattle.std.specs.Prelude.{List};
    ghost use Rattle.gx_lquery.specs.declared.query.LqueryItem.{LqueryItem};

    ghost Value = { List LqueryItem };

    ghost view = { λ q. q.items.items };
}

impl LqueryItems {
    /// No items.
    pub fn new(alloc: Global) -> LqueryItems
        ensures { result ≡ [] }
    {
        LqueryItems {
            items: Vec::new(alloc),
        }
    }

    /// Adds an item at the end.
    pub fn push(&mut self, item: LqueryItem) -> Result<(), NoMemory>
        ensures ok { OnOk result (self.new ≡ self.old ++ item ∷ []) }
        ensures err { OnErr result (self.new ≡ self.old) }
    {
        self.items.push(item)?;
        Ok(())
    }

    pub fn as_slice(&self) -> &[LqueryItem]
        ensures { result.now ≡ self.now }
    {
        self.items.as_slice()
    }

    /// A copy of the list.
    pub fn copy(&self, alloc: Global) -> Result<LqueryItems, NoMemory>
        ensures { IfOk result (λ copy. copy ≡ self.now) }
    {
        let mut copy = LqueryItems::new(alloc);
        for item in self.as_slice() {
            copy.push(item.copy(alloc)?)?;
        }
        Ok(copy)
    }
}

/// A query over label paths.
#[derive(Debug, Drop)]
pub struct Lquery {
    pub items: LqueryItems,
}

impl Lquery {
    /// A copy of the query.
    pub fn copy(&self, alloc: Global) -> Result<Lquery, NoMemory>
        ensures { IfOk result (λ copy. copy ≡ self.now) }
    {
        Ok(Lquery {
            items: self.items.copy(alloc)?,
        })
    }
}

/// A list of queries.
#[derive(Debug, Drop)]
pub struct Lqueries {
    items: Vec<Lquery>,
}

impl Model for Lqueries {
    ghost use Rattle.std.specs.Prelude.{List};
    ghost use Rattle.gx_lquery.specs.declared.query.Lquery.{Lquery};

    ghost Value = { List Lquery };

    ghost view = { λ q. q.items.items };
}

impl Lqueries {
    /// No queries.
    pub fn new(alloc: Global) -> Lqueries
        ensures { result ≡ [] }
    {
        Lqueries {
            items: Vec::new(alloc),
        }
    }

    /// Adds a query at the end.
    pub fn push(&mut self, query: Lquery) -> Result<(), NoMemory>
        ensures ok { OnOk result (self.new ≡ self.old ++ query ∷ []) }
        ensures err { OnErr result (self.new ≡ self.old) }
    {
        self.items.push(query)?;
        Ok(())
    }

    pub fn as_slice(&self) -> &[Lquery]
        ensures { result.now ≡ self.now }
    {
        self.items.as_slice()
    }

    /// A copy of the list.
    pub fn copy(&self, alloc: Global) -> Result<Lqueries, NoMemory>
        ensures { IfOk result (λ copy. copy ≡ self.now) }
    {
        let mut copy = Lqueries::new(alloc);
        for query in self.as_slice() {
            copy.push(query.copy(alloc)?)?;
        }
        Ok(copy)
    }
}
