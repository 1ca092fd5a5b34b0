//! A slot page that is read where its bytes stand.

ghost use Rattle.std.specs.Prelude.{◌≡◌, ℕ, length, IfOk, IfErr, OnErr};
ghost use Rattle.std.specs.Option.{option_map};
ghost use Rattle.gx_slot.specs.Slots.{Slots, Fits, IsBroken, IsSlotPage, item_at, spelling};

use crate::checking::check_page;
use crate::layout::{count_of, item_of, next_of};
use gx_pages::{Page, PageError};
use std::marker::Model;

/// A slot page that is read where its bytes stand, without a copy: its items are slices of the page.
#[derive(Drop)]
pub struct SlotView<'a> {
    page: &'a Page,
}

impl<'a> Model for SlotView<'a> {
    ghost use Rattle.gx_slot.specs.Slots.{Slots, read, IsSpelled};

    ghost Value = { Slots };

    ghost view = { λ s. read s.page.now };

    ghost invariant = { λ s. IsSpelled s.page.now };
}

impl<'a> SlotView<'a> {
    /// The slot page that the bytes spell. Broken, with the page's number, where they spell none of this kind.
    pub fn read(page: &'a Page, number: u64, kind: u8) -> Result<SlotView<'a>, PageError>
        ensures ok { IfOk result (λ slots. (page.now ≡ spelling slots) × (slots.kind ≡ kind) × Fits slots) }
        ensures err { OnErr result (¬ IsSlotPage page.now kind) }
        ensures cause { IfErr result (λ error. IsBroken number error) }
    {
        check_page(page, number, kind)?;
        Ok(SlotView { page })
    }

    /// How many slots there are, empty ones too.
    pub fn count(&self) -> u16
        ensures { result ≡ length self.now.items }
    {
        count_of(self.page.bytes())
    }

    /// The item of a slot. None where it is empty, or past the last one.
    pub fn item(&self, slot: u16) -> Option<&'a [u8]>
        ensures { option_map (λ item. item.now) result ≡ item_at self.now.items slot }
    {
        item_of(self.page.bytes(), slot)
    }

    /// The number of the next page, or 0.
    pub fn next(&self) -> u64
        ensures { result ≡ self.now.next }
    {
        next_of(self.page.bytes())
    }

    pub fn level(&self) -> u8
        ensures { result ≡ self.now.level }
    {
        self.page.bytes()[1]
    }
}
