//! An array of int4.

ghost use Rattle.std.specs.Prelude.{◌≡◌, ℤ, List, Contains, IsTrue, ◌↔◌, IfOk};
ghost use Rattle.gx_intarr.specs.Arrays.{IsSortedCopy, IsDistinctCopy};

use gx_bytes::NoMemory;
use std::alloc::Global;
use std::marker::Model;

/// A list of numbers. The allocator that it was made with stays with it.
#[derive(Debug, Drop)]
pub struct IntArray {
    items: Vec<i32>,
    /// The same numbers in rising order, for look-ups.
    sorted: Vec<i32>,
}

impl Model for IntArray {
    ghost Value = { List ℤ };

    ghost view = { λ a. a.items.items };

    ghost invariant = { λ a. IsSortedCopy a.items.items a.sorted.items };
}

impl IntArray {
    /// The array with these elements.
    pub fn from_items(alloc: Global, items: Vec<i32>) -> Result<IntArray, NoMemory>
        ensures { IfOk result (λ array. array ≡ items.items) }
    {
        let mut sorted = Vec::from_slice(alloc, items.as_slice())?;
        sorted.sort_unstable();
        Ok(IntArray { items, sorted })
    }

    /// The elements in order, each as often as it stands there.
    pub fn items(&self) -> &[i32]
        ensures { result.now ≡ self.now }
    {
        self.items.as_slice()
    }

    /// The elements, each once, in rising order.
    pub fn distinct(&self, alloc: Global) -> Result<Vec<i32>, NoMemory>
        ensures { IfOk result (λ items. IsDistinctCopy self.now items.items) }
    {
        let mut items = Vec::from_slice(alloc, self.sorted.as_slice())?;
        items.dedup();
        Ok(items)
    }

    /// A copy of the array.
    pub fn copy(&self, alloc: Global) -> Result<IntArray, NoMemory>
        ensures { IfOk result (λ array. array ≡ self.now) }
    {
        IntArray::from_items(alloc, Vec::from_slice(alloc, self.items.as_slice())?)
    }

    /// Whether the number is an element. The work grows with the logarithm of the array's length.
    pub(crate) fn has(&self, number: &i32) -> bool
        ensures { IsTrue result ↔ Contains self.now number.now }
    {
        self.sorted.binary_search(number).is_ok()
    }
}
