//! A row at the end of a posting tree.

ghost use Rattle.std.specs.Prelude.{◌≡◌, ℕ, ◌+◌, ◌<◌, ◌≤◌, ◌^◌, List, [], ◌∷◌, ◌++◌, length, Some, None, IfOk, IfSome, IfNone};
ghost use Rattle.gx_bytes.specs.Fields.{le64};
ghost use Rattle.gx_pages.specs.declared.row.RowRef.{RowRef};
ghost use Rattle.gx_pages.specs.Rows.{AreBelow, IsRising};
ghost use Rattle.gx_posting.specs.Postings.{Spells, last_of};

use gx_bytes::{Bytes, NoMemory, get_u64, varint};
use gx_pages::RowRef;
use gx_posting::{last_posting, push_posting};
use gx_slot::SlotPage;
use gx_tree::{Change, Edit, Seek};
use std::alloc::Global;

/// A posting list has no more bytes.
pub const LONGEST: usize = 512;

/// A row that is put behind all others, and its number as a key.
#[derive(Drop)]
pub struct Appending {
    pub row: RowRef,
    pub key: Bytes,
    pub ghost number: { key ≡ le64 row.number },
}

impl Appending {
    #[tactic(auto, unfolding(gx_bytes::specs::Fields::le64))]
    pub fn new(alloc: Global, row: RowRef) -> Result<Appending, NoMemory>
        ensures made { IfOk result (λ made. made.row ≡ row) }
        ensures fits { IfOk result (λ made. made.row.number < 2 ^ 64) }
    {
        fits(row.number);
        let key = Bytes::from_slice(alloc, &row.number.to_le_bytes())?;
        Ok(Appending { row, key })
    }
}

/// A number of eight bytes is below what they hold.
fn fits(number: u64)
    ensures { number < 2 ^ 64 }
{}

/// The number in a key. None where the bytes are no key.
fn number_in(key: &[u8]) -> Option<u64>
    ensures some { IfSome result (λ number. key.now ≡ le64 number) }
    ensures none { IfNone result ((number : ℕ) → key.now ≡ le64 number → ⊥) }
{
    let Some(number) = get_u64(key, 0) else {
        return None;
    };
    let more = key.len() - 8;
    if more == 0 {
        return Some(number);
    }
    None
}

/// A list of one row.
fn new_list(alloc: Global, row: RowRef) -> Result<Bytes, NoMemory>
    ensures spelled { IfOk result (λ item. Spells item (row ∷ [])) }
    ensures short { IfOk result (λ item. length item ≤ 512) }
{
    let mut item = Bytes::new(alloc);
    push_posting(&mut item, None, row)?;
    Ok(item)
}

/// A list with one more row.
fn longer_list(alloc: Global, list: &[u8], last: RowRef, row: RowRef) -> Result<Bytes, NoMemory>
    requires { last.number < row.number }
    ensures { IfOk result (λ item. (rows : List RowRef) → Spells list.now rows → last_of rows ≡ Some last → Spells item (rows ++ row ∷ [])) }
{
    let mut item = Bytes::from_slice(alloc, list)?;
    push_posting(&mut item, Some(last), row)?;
    Ok(item)
}

impl Seek for Appending {
    ghost use Rattle.gx_bytes.specs.Fields.{le64};
    ghost use Rattle.gx_posting_tree.specs.PostingTrees.{by_number};
    ghost use Rattle.gx_posting_tree.specs.Numbers.{lawful as numbers_are_ordered};

    ghost order = { by_number };

    ghost sought = { λ a. le64 a.row.number };

    ghost lawful = { numbers_are_ordered };

    fn reaches(&self, key: &[u8]) -> Option<bool> {
        let Some(number) = number_in(key) else {
            return None;
        };
        let own = self.row.number;
        if number <= own {
            return Some(true);
        }
        Some(false)
    }
}

impl Change for Appending {
    ghost use Rattle.std.specs.Prelude.{List, [], ◌∷◌, ◌++◌};
    ghost use Rattle.gx_pages.specs.declared.row.RowRef.{RowRef};
    ghost use Rattle.gx_pages.specs.Rows.{AreBelow};
    ghost use Rattle.gx_posting.specs.Postings.{Spells};
    ghost use Rattle.gx_posting_tree.specs.PostingTrees.{Allows, Appends};

    ghost allows = { λ a item. Allows a.row item };

    ghost edits = { λ a was is. Appends a.row was is };

    fn own(&self) -> &[u8] {
        self.key.as_slice()
    }

    fn edit(&self, alloc: Global, slots: &SlotPage) -> Result<Option<Edit>, NoMemory> {
        let count = slots.count();
        if count == 0 {
            let item = new_list(alloc, self.row)?;
            return Ok(Some(Edit {
                place: 0,
                behind: 0,
                item,
            }));
        }
        let Some(list) = slots.item(count - 1) else {
            return Ok(None);
        };
        let Some(last) = last_posting(list) else {
            return Ok(None);
        };
        let before = last.number;
        let number = self.row.number;
        if number <= before {
            return Ok(None);
        }
        let longer = longer_list(alloc, list, last, self.row)?;
        let size = longer.len();
        if size <= LONGEST {
            return Ok(Some(Edit {
                place: count - 1,
                behind: count,
                item: longer,
            }));
        }
        let fresh = new_list(alloc, self.row)?;
        Ok(Some(Edit {
            place: count,
            behind: count,
            item: fresh,
        }))
    }

    #[tactic(auto, unfolding(gx_bytes::specs::Fields::le64))]
    fn key_of(&self, alloc: Global, item: &[u8]) -> Result<Option<Bytes>, NoMemory> {
        let Some((number, _)) = varint(item) else {
            return Ok(None);
        };
        let key = Bytes::from_slice(alloc, &number.to_le_bytes())?;
        Ok(Some(key))
    }
}
