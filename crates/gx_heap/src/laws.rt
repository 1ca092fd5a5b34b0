//! Laws of heaps.

ghost use Rattle.std.specs.Prelude.{◌≡◌, ℕ, List, [], ◌∷◌, ◌++◌, length};
ghost use Rattle.std.specs.List.{filter};
ghost use Rattle.gx_pages.specs.declared.row.RowRef.{RowRef};
ghost use Rattle.gx_pages.specs.Footprints.{KeepsPages};
ghost use Rattle.gx_pages.specs.Frees.{IsApart};
ghost use Rattle.gx_pages.specs.Rows.{IsRising};
ghost use Rattle.gx_heap.specs.declared.heap.Heap.{Heap};
ghost use Rattle.gx_heap.specs.Heaps.{Row, HoldsHeap, AreRows, is_on, rows_in, runs};

use gx_pages::Pages;

/// The pages hold at most one heap with this first page.
pub fn one_heap<P: Pages>(_pages: &P)
    ensures { (pages : P) (heap other : Heap) (rows others : List Row) (feet free more rest : List ℕ) → heap.first ≡ other.first → HoldsHeap P.Pages pages heap rows feet free
        → HoldsHeap P.Pages pages other others more rest → (rows ≡ others) × (feet ≡ more) }
{
    gx_chain::one_chain();
}

/// The rows of the heap's pages, page by page, are all its rows in order.
pub fn whole_scan<P: Pages>(_pages: &P)
    ensures { (pages : P) (heap : Heap) (rows : List Row) (feet free : List ℕ) → HoldsHeap P.Pages pages heap rows feet free → rows_in feet rows ≡ rows }
{}

/// Rows of the heap by rising numbers stand in one run on each page: there are as many runs as pages with one of them.
pub fn one_run_a_page<P: Pages>(_pages: &P)
    ensures { (pages : P) (heap : Heap) (rows : List Row) (feet free : List ℕ) (some : List RowRef) → HoldsHeap P.Pages pages heap rows feet free → IsRising some → AreRows some rows
        → runs some ≡ length (filter (λ page. is_on page some) feet) }
{}

/// Another structure on other pages was changed: the heap is held as before, beside the pages that are free then.
pub fn heap_stays<P: Pages>(_pages: &P)
    ensures { (old new : P) (heap : Heap) (rows : List Row) (feet free before after rest : List ℕ) → HoldsHeap P.Pages old heap rows feet free
        → KeepsPages P.Pages old new before free after rest → IsApart (before ++ feet) → HoldsHeap P.Pages new heap rows feet rest }
{}

/// Nothing was changed: the heap is held as before.
pub fn heap_same<P: Pages>(_pages: &P)
    ensures { (old new : P) (heap : Heap) (rows : List Row) (feet free : List ℕ) → P.map new ≡ P.map old → P.count new ≡ P.count old
        → HoldsHeap P.Pages old heap rows feet free → HoldsHeap P.Pages new heap rows feet free }
{}

/// The heap's pages begin with its first page and end with its last one.
pub fn heap_ends<P: Pages>(_pages: &P)
    ensures first { (pages : P) (heap : Heap) (rows : List Row) (feet free : List ℕ) → HoldsHeap P.Pages pages heap rows feet free → (back : List ℕ) × (feet ≡ heap.first ∷ back) }
    ensures last { (pages : P) (heap : Heap) (rows : List Row) (feet free : List ℕ) → HoldsHeap P.Pages pages heap rows feet free → (front : List ℕ) × (feet ≡ front ++ heap.last ∷ []) }
{}
