//! A posting with a row more.

ghost use Rattle.std.specs.Prelude.{◌≡◌, ℕ, ◌+◌, ◌<◌, ◌≤◌, ◌^◌, List, [], ◌∷◌, ◌++◌, length, IfSome, IfOk, IfErr, OnOk};
ghost use Rattle.gx_bytes.specs.Fields.{le64};
ghost use Rattle.gx_chain.specs.Chains.{IsSound};
ghost use Rattle.gx_pages.specs.declared.row.RowRef.{RowRef};
ghost use Rattle.gx_pages.specs.Footprints.{KeepsPages, StaysQuiet};
ghost use Rattle.gx_pages.specs.Frees.{IsFreeList, IsFull};
ghost use Rattle.gx_pages.specs.Pages.{HasCause};
ghost use Rattle.gx_pages.specs.Rows.{AreBelow};
ghost use Rattle.gx_posting.specs.Postings.{Spells, last_of};
ghost use Rattle.gx_tree.specs.Trees.{IsBrokenOr};
ghost use Rattle.gx_gin_scan.specs.Gins.{IsPosting};

use crate::postings::{TREE, broken, rows_of_list};
use gx_bytes::{Bytes, NoMemory};
use gx_pages::{PageError, Pages, RowRef};
use gx_posting::{last_posting, push_posting};
use gx_posting_tree::PostingTree;
use std::alloc::Global;

/// A posting list in an entry has no more bytes.
pub const LONGEST: usize = 512;

/// The posting of a posting tree.
#[tactic(auto, unfolding(gx_bytes::specs::Fields::le64))]
fn tree_posting(alloc: Global, root: u64) -> Result<Bytes, NoMemory>
    ensures tree { IfOk result (λ posting. posting ≡ 1 ∷ le64 root) }
    ensures short { IfOk result (λ posting. length posting ≡ 9) }
{
    let mut posting = Bytes::from_slice(alloc, &[TREE])?;
    posting.extend_from_slice(&root.to_le_bytes())?;
    Ok(posting)
}

/// A list with a row more, behind byte 0. The last row of the list is `last`, or None where it is empty.
fn longer_posting(
    alloc: Global,
    list: &[u8],
    last: Option<RowRef>,
    row: RowRef,
) -> Result<Bytes, NoMemory>
    requires { IfSome last (λ before. before.number < row.number) }
    ensures posting { IfOk result (λ posting. (rows : List RowRef) → Spells list.now rows → last_of rows ≡ last → (later : List ℕ) × (posting ≡ 0 ∷ later) × Spells later (rows ++ row ∷ [])) }
    ensures few { IfOk result (λ posting. length posting ≤ length list.now + 31) }
{
    let mut posting = Bytes::from_slice(alloc, &[0])?;
    posting.extend_from_slice(list)?;
    push_posting(&mut posting, last, row)?;
    Ok(posting)
}

/// The last row of a list in which a row may be put: None where the list is empty.
fn last_in(page: u64, list: &[u8], row: RowRef) -> Result<Option<RowRef>, PageError>
    ensures last { IfOk result (λ last. (rows : List RowRef) → Spells list.now rows → last_of rows ≡ last) }
    ensures below { IfOk result (λ last. IfSome last (λ before. before.number < row.number)) }
    ensures cause { IfErr result (IsBrokenOr page ((rows : List RowRef) → Spells list.now rows → AreBelow rows row.number → ⊥)) }
{
    match last_posting(list) {
        Some(last) if last.number < row.number => Ok(Some(last)),
        None if list.is_empty() => Ok(None),
        _ => Err(broken(page)),
    }
}

/// A posting tree of the rows of a list. Where the list has at most 1,024 bytes, it takes one page.
fn tree_of<P: Pages>(
    alloc: Global,
    pages: &mut P,
    page: u64,
    list: &[u8],
) -> Result<Bytes, PageError>
    ensures made { IfOk result (λ posting. P.tells → (rows : List RowRef) (free : List ℕ) → Spells list.now rows → IsFreeList (P.map pages.old) (P.count pages.old) free
        → (own : List ℕ) × (rest : List ℕ) × IsPosting (P.map pages.new) (P.count pages.new) posting rows own × KeepsPages P.Pages pages.old pages.new [] free own rest) }
    ensures short { IfOk result (λ posting. length posting ≤ 513) }
    ensures grows { P.count pages.old ≤ P.count pages.new }
    ensures by { length list.now ≤ 1024 → P.count pages.new ≤ P.count pages.old + 1 }
    ensures cause { IfErr result (HasCause (P.faults pages.old) (P.faults pages.new)
        (λ at expected found. P.tells → (rows : List RowRef) (free : List ℕ) → Spells list.now rows → IsFreeList (P.map pages.old) (P.count pages.old) free → ⊥)
        (IsFull P.tells (P.map pages.new) (P.count pages.new)) (Unit {0})) }
    ensures heap { IsSound result → P.heap_fetches pages.new ≡ P.heap_fetches pages.old }
    ensures quiet { StaysQuiet P.Pages pages.old pages.new }
{
    let rows = rows_of_list(alloc, page, list)?;
    let tree = PostingTree::create(alloc, pages, &rows)?;
    match tree_posting(alloc, tree.root()) {
        Ok(posting) => Ok(posting),
        Err(_) => Err(PageError::Memory),
    }
}

/// The posting of a list with a row more, whose number is above all that stand: a list again, or a posting tree where it would have
/// more than 512 bytes. At most one page more is taken.
pub fn grown_posting<P: Pages>(
    alloc: Global,
    pages: &mut P,
    page: u64,
    list: &[u8],
    row: RowRef,
) -> Result<Bytes, PageError>
    ensures grown { IfOk result (λ posting. P.tells → (rows : List RowRef) (free : List ℕ) → Spells list.now rows → AreBelow rows row.number → IsFreeList (P.map pages.old) (P.count pages.old) free
        → (own : List ℕ) × (rest : List ℕ) × IsPosting (P.map pages.new) (P.count pages.new) posting (rows ++ row ∷ []) own × KeepsPages P.Pages pages.old pages.new [] free own rest) }
    ensures short { IfOk result (λ posting. length posting ≤ 513) }
    ensures grows { P.count pages.old ≤ P.count pages.new }
    ensures by_one { P.count pages.new ≤ P.count pages.old + 1 }
    ensures cause { IfErr result (HasCause (P.faults pages.old) (P.faults pages.new)
        (λ at expected found. P.tells → (rows : List RowRef) (free : List ℕ) → length list.now ≤ 512 → Spells list.now rows → AreBelow rows row.number → IsFreeList (P.map pages.old) (P.count pages.old) free → ⊥)
        (IsFull P.tells (P.map pages.new) (P.count pages.new)) (Unit {0})) }
    ensures heap { IsSound result → P.heap_fetches pages.new ≡ P.heap_fetches pages.old }
    ensures quiet { StaysQuiet P.Pages pages.old pages.new }
{
    if list.len() > LONGEST {
        return Err(broken(page));
    }
    let last = last_in(page, list, row)?;
    let Ok(longer) = longer_posting(alloc, list, last, row) else {
        return Err(PageError::Memory);
    };
    if longer.len() <= LONGEST + 1 {
        return Ok(longer);
    }
    tree_of(alloc, pages, page, &longer.as_slice()[1..])
}
