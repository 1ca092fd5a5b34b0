//! The first page of a new posting tree.

ghost use Rattle.std.specs.Prelude.{◌≡◌, ◌⊎◌, ℕ, ◌+◌, ◌*◌, ◌<◌, ◌≤◌, length, take, IfOk, IfErr};
ghost use Rattle.gx_pages.specs.Rows.{IsRising};
ghost use Rattle.gx_posting.specs.Postings.{Spells};
ghost use Rattle.gx_posting_tree.specs.PostingTrees.{HasFirst};

use crate::appending::LONGEST;
use crate::reading::KIND;
use gx_bytes::{Bytes, NoMemory};
use gx_pages::{PageError, RowRef};
use gx_posting::push_posting;
use gx_slot::SlotPage;
use std::alloc::Global;

/// The list of the first of some rows, and how many they are.
#[derive(Drop)]
struct FirstList {
    item: Bytes,
    count: usize,
}

/// The longest list of the first of some rows.
fn first_list(alloc: Global, rows: &[RowRef]) -> Result<FirstList, NoMemory>
    requires some { 0 < length rows.now }
    requires rising { IsRising rows.now }
    ensures spells { IfOk result (λ first. Spells first.item (take first.count rows.now)) }
    ensures some { IfOk result (λ first. 0 < first.count) }
    ensures within { IfOk result (λ first. first.count ≤ length rows.now) }
    ensures short { IfOk result (λ first. length first.item ≤ 512) }
    ensures small { IfOk result (λ first. length first.item ≤ 23 * first.count) }
    ensures many { IfOk result (λ first. (first.count ≡ length rows.now) ⊎ (22 ≤ first.count)) }
{
    let mut item = Bytes::new(alloc);
    let mut last = None;
    for at in 0..rows.len() {
        let row = rows[at];
        let size = item.len();
        push_posting(&mut item, last, row)?;
        if item.len() > LONGEST {
            item.truncate(size);
            return Ok(FirstList { item, count: at });
        }
        last = Some(row);
    }
    let count = rows.len();
    Ok(FirstList { item, count })
}

/// A page of level 0, and how many rows it has.
#[derive(Drop)]
pub struct FilledPage {
    pub slots: SlotPage,
    pub count: usize,
}

/// A page of level 0 with as many of the first rows as it has room for.
pub fn fill_page(alloc: Global, rows: &[RowRef]) -> Result<FilledPage, PageError>
    requires { IsRising rows.now }
    ensures filled { IfOk result (λ filled. HasFirst rows.now filled.slots filled.count) }
    ensures whole { IfOk result (λ filled. length rows.now ≤ 341 → filled.count ≡ length rows.now) }
    ensures err { IfErr result (λ error. error ≡ PageError.Memory) }
{
    let mut slots = SlotPage::new(KIND, 0);
    let mut count = 0;
    'lists: while count < rows.len() {
        let Ok(first) = first_list(alloc, &rows[count..]) else {
            return Err(PageError::Memory);
        };
        match slots.add(first.item.as_slice()) {
            Ok(_) => count += first.count,
            Err(_) => return Ok(FilledPage { slots, count }),
        }
    }
    Ok(FilledPage { slots, count })
}
