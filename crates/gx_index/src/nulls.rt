//! The rows of an index whose value is NULL: a posting tree of their own, and no page where there are none.

ghost use Rattle.std.specs.Prelude.{◌≡◌, ◌≢◌, ℕ, ◌+◌, ◌<◌, ◌≤◌, List, [], ◌∷◌, ◌++◌, length, true, IfOk, IfErr, OnOk};
ghost use Rattle.std.specs.List.{AllByRecursion};
ghost use Rattle.gx_words.specs.PageMap.{PageMap};
ghost use Rattle.gx_pages.specs.declared.row.RowRef.{RowRef};
ghost use Rattle.gx_pages.specs.Footprints.{KeepsPages, StaysQuiet};
ghost use Rattle.gx_pages.specs.Frees.{IsApart, IsFull};
ghost use Rattle.gx_pages.specs.Pages.{HasCause};
ghost use Rattle.gx_pages.specs.Rows.{AreBelow};
ghost use Rattle.gx_chain.specs.Chains.{IsSound};
ghost use Rattle.gx_posting_tree.specs.PostingTrees.{without};
ghost use Rattle.gx_index.specs.Beside.{Beside};
ghost use Rattle.gx_index.specs.Nulls.{HoldsNulls};

use gx_pages::{Bitmap, PageError, Pages, RowRef};
use gx_posting_tree::PostingTree;
use gx_tree::tree_stays;
use std::alloc::Global;

/// A list of one row.
fn one_row(alloc: Global, row: RowRef) -> Result<Bitmap, PageError>
    ensures one { IfOk result (λ rows. rows ≡ row ∷ []) }
    ensures err { IfErr result (λ error. error ≡ PageError.Memory) }
{
    let mut rows = Bitmap::new(alloc);
    match rows.push(row) {
        Ok(()) => Ok(rows),
        Err(_) => Err(PageError::Memory),
    }
}

/// Makes a posting tree of one row, and gives its root page.
fn first_null<P: Pages>(alloc: Global, pages: &mut P, row: RowRef) -> Result<u64, PageError>
    ensures put { IfOk result (λ root. P.tells → (free : List ℕ) → Beside P.Pages (λ map count at. HoldsNulls map count 0 [] at) pages.old [] free
        → (later : List ℕ) × (rest : List ℕ) × Beside P.Pages (λ map count at. HoldsNulls map count root (row ∷ []) at) pages.new later rest
        × KeepsPages P.Pages pages.old pages.new [] free later rest) }
    ensures grows { P.count pages.old ≤ P.count pages.new }
    ensures few { P.count pages.new ≤ P.count pages.old + 61 }
    ensures cause { IfErr result (HasCause (P.faults pages.old) (P.faults pages.new)
        (λ at expected found. P.tells → (free : List ℕ) → Beside P.Pages (λ map count at. HoldsNulls map count 0 [] at) pages.old [] free → ⊥)
        (IsFull P.tells (P.map pages.new) (P.count pages.new)) (Unit {0})) }
    ensures heap { IsSound result → P.heap_fetches pages.new ≡ P.heap_fetches pages.old }
    ensures quiet { StaysQuiet P.Pages pages.old pages.new }
{
    let rows = one_row(alloc, row)?;
    let tree = PostingTree::create(alloc, pages, &rows)?;
    Ok(tree.root())
}

/// The rows below this root page, which is 0 where there are none.
pub fn find_nulls<P: Pages>(alloc: Global, pages: &mut P, nulls: u64) -> Result<Bitmap, PageError>
    ensures found { IfOk result (λ found. P.tells → (rows : List RowRef) (feet : List ℕ) → HoldsNulls (P.map pages.old) (P.count pages.old) nulls rows feet → found ≡ rows) }
    ensures fetches { OnOk result (P.tells → (rows : List RowRef) (feet : List ℕ) → HoldsNulls (P.map pages.old) (P.count pages.old) nulls rows feet
        → P.fetches pages.new ≤ P.fetches pages.old + length feet) }
    ensures cause { IfErr result (HasCause (P.faults pages.old) (P.faults pages.new)
        (λ at expected found. P.tells → (rows : List RowRef) (feet : List ℕ) → HoldsNulls (P.map pages.old) (P.count pages.old) nulls rows feet → ⊥) (λ _. ⊥) (Unit {0})) }
    ensures map { P.map pages.new ≡ P.map pages.old }
    ensures count { P.count pages.new ≡ P.count pages.old }
    ensures heap { IsSound result → P.heap_fetches pages.new ≡ P.heap_fetches pages.old }
    ensures quiet { StaysQuiet P.Pages pages.old pages.new }
{
    if nulls == 0 {
        return Ok(Bitmap::new(alloc));
    }
    PostingTree::at(nulls).rows(alloc, pages)
}

/// Adds a row, whose number is above all that stand, and gives the root page. At most 61 pages more are taken.
pub fn put_null<P: Pages>(
    alloc: Global,
    pages: &mut P,
    nulls: u64,
    row: RowRef,
) -> Result<u64, PageError>
    ensures put { IfOk result (λ root. P.tells → (rows : List RowRef) (feet free : List ℕ) → Beside P.Pages (λ map count at. HoldsNulls map count nulls rows at) pages.old feet free → AreBelow rows row.number
        → (later : List ℕ) × (rest : List ℕ) × Beside P.Pages (λ map count at. HoldsNulls map count root (rows ++ row ∷ []) at) pages.new later rest
        × KeepsPages P.Pages pages.old pages.new feet free later rest) }
    ensures grows { P.count pages.old ≤ P.count pages.new }
    ensures few { P.count pages.new ≤ P.count pages.old + 61 }
    ensures cause { IfErr result (HasCause (P.faults pages.old) (P.faults pages.new)
        (λ at expected found. P.tells → (rows : List RowRef) (feet free : List ℕ)
        → Beside P.Pages (λ map count at. HoldsNulls map count nulls rows at) pages.old feet free → AreBelow rows row.number → ⊥)
        (IsFull P.tells (P.map pages.new) (P.count pages.new)) (Unit {0})) }
    ensures heap { IsSound result → P.heap_fetches pages.new ≡ P.heap_fetches pages.old }
    ensures quiet { StaysQuiet P.Pages pages.old pages.new }
{
    if nulls == 0 {
        return first_null(alloc, pages, row);
    }
    let mut tree = PostingTree::at(nulls);
    tree.insert(alloc, pages, row)?;
    Ok(nulls)
}

/// Takes out the rows with these numbers, and gives the root page: 0 where none is left.
pub fn remove_nulls<P: Pages>(
    alloc: Global,
    pages: &mut P,
    nulls: u64,
    gone: &Bitmap,
) -> Result<u64, PageError>
    ensures removed { IfOk result (λ root. P.tells → (rows : List RowRef) (feet free : List ℕ) → Beside P.Pages (λ map count at. HoldsNulls map count nulls rows at) pages.old feet free
        → (later : List ℕ) × (rest : List ℕ) × Beside P.Pages (λ map count at. HoldsNulls map count root (without gone.now rows) at) pages.new later rest
        × KeepsPages P.Pages pages.old pages.new feet free later rest) }
    ensures count { P.count pages.new ≡ P.count pages.old }
    ensures cause { IfErr result (HasCause (P.faults pages.old) (P.faults pages.new)
        (λ at expected found. P.tells → (rows : List RowRef) (feet free : List ℕ)
        → Beside P.Pages (λ map count at. HoldsNulls map count nulls rows at) pages.old feet free → ⊥) (λ _. ⊥) (Unit {0})) }
    ensures heap { IsSound result → P.heap_fetches pages.new ≡ P.heap_fetches pages.old }
    ensures quiet { StaysQuiet P.Pages pages.old pages.new }
{
    if nulls == 0 {
        return Ok(0);
    }
    let mut tree = PostingTree::at(nulls);
    match tree.remove_rows(alloc, pages, gone) {
        Ok(true) => match tree.drop_all(alloc, pages) {
            Ok(()) => Ok(0),
            Err(error) => Err(error),
        },
        Ok(false) => Ok(nulls),
        Err(error) => Err(error),
    }
}

/// Gives every page back.
pub fn drop_nulls<P: Pages>(alloc: Global, pages: &mut P, nulls: u64) -> Result<(), PageError>
    ensures dropped { OnOk result (P.tells → (rows : List RowRef) (feet free : List ℕ) → Beside P.Pages (λ map count at. HoldsNulls map count nulls rows at) pages.old feet free
        → (rest : List ℕ) × KeepsPages P.Pages pages.old pages.new feet free [] rest) }
    ensures count { P.count pages.new ≡ P.count pages.old }
    ensures cause { IfErr result (HasCause (P.faults pages.old) (P.faults pages.new)
        (λ at expected found. P.tells → (rows : List RowRef) (feet free : List ℕ)
        → Beside P.Pages (λ map count at. HoldsNulls map count nulls rows at) pages.old feet free → ⊥) (λ _. ⊥) (Unit {0})) }
    ensures heap { IsSound result → P.heap_fetches pages.new ≡ P.heap_fetches pages.old }
    ensures quiet { StaysQuiet P.Pages pages.old pages.new }
{
    if nulls == 0 {
        return Ok(());
    }
    PostingTree::at(nulls).drop_all(alloc, pages)
}

/// The pages of the NULL rows are below the count. The rows stay where another structure changes, whose pages lie apart from theirs.
pub fn nulls_stay<P: Pages>(pages: &P)
    ensures below { (nulls : ℕ) (rows : List RowRef) (map : PageMap) (count : ℕ) (feet : List ℕ) → HoldsNulls map count nulls rows feet → AllByRecursion (λ page. page < count) feet }
    ensures stays { (old new : P) (nulls : ℕ) (rows : List RowRef) (feet before free after rest : List ℕ) → HoldsNulls (P.map old) (P.count old) nulls rows feet
        → KeepsPages P.Pages old new before free after rest → IsApart (before ++ free ++ feet) → HoldsNulls (P.map new) (P.count new) nulls rows feet }
{
    tree_stays(pages);
}
