//! Laws of candidates.

ghost use Rattle.std.specs.Prelude.{◌≡◌, List};
ghost use Rattle.gx_pages.specs.declared.row.RowRef.{RowRef};
ghost use Rattle.gx_pages.specs.Rows.{IsRising};
ghost use Rattle.gx_heap.specs.Heaps.{Row, AreRows, refs};
ghost use Rattle.gx_bitmap.specs.Scans.{AreCandidates};

/// Rows of a heap have their bytes, and only one list of them; and all of its rows are the candidates of all.
pub fn one_list()
    ensures some { (left : List RowRef) (rows : List Row) → AreRows left rows → (candidates : List Row) × AreCandidates left rows candidates }
    ensures one { (left : List RowRef) (rows candidates others : List Row) → IsRising (refs rows) → AreCandidates left rows candidates → AreCandidates left rows others → candidates ≡ others }
    ensures all { (rows : List Row) → AreCandidates (refs rows) rows rows }
{}
