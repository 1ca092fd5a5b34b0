//! Small lists.

ghost use Rattle.std.specs.Prelude.{◌≡◌, List, [], ◌∷◌, ◌++◌, length, slice_get, option_map, IfOk, OnOk, OnErr};

use gx_bytes::NoMemory;
use std::alloc::Global;
use std::marker::Model;

/// A growing list. It keeps the allocator that it was made with.
#[derive(Drop)]
pub struct Items<T> {
    items: Vec<T>,
}

/// A list of keys.
pub type Keys<K> = Items<K>;

/// A list of places in another list, from 0.
pub type Places = Items<u32>;

/// A list of sizes in bytes.
pub type Sizes = Items<u32>;

impl<T> Model for Items<T> {
    ghost Value = { List T };

    ghost view = { λ l. l.items.items };
}

impl<T> Items<T> {
    /// The empty list.
    pub fn new(alloc: Global) -> Items<T>
        ensures { result ≡ [] }
    {
        Items {
            items: Vec::new(alloc),
        }
    }

    pub fn as_slice(&self) -> &[T]
        ensures { result.now ≡ self.now }
    {
        self.items.as_slice()
    }

    pub fn len(&self) -> usize
        ensures { result ≡ length self.now }
    {
        self.items.len()
    }
}

impl Items<u32> {
    /// A copy of these numbers.
    pub fn from_slice(alloc: Global, items: &[u32]) -> Result<Items<u32>, NoMemory>
        ensures { IfOk result (λ made. made ≡ items.now) }
    {
        Ok(Items {
            items: Vec::from_slice(alloc, items)?,
        })
    }
}

impl<T: Drop> Items<T> {
    /// Adds an item at the end; where there is no memory, it is dropped.
    pub fn push(&mut self, item: T) -> Result<(), NoMemory>
        ensures ok { OnOk result (self.new ≡ self.old ++ item ∷ []) }
        ensures err { OnErr result (self.new ≡ self.old) }
    {
        self.items.push(item)?;
        Ok(())
    }
}
