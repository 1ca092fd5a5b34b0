//! A page as a list of items.

ghost use Rattle.std.specs.Prelude.{◌≡◌, ℕ, ◌+◌, ◌<◌, ◌≤◌, [], length, None, Some, IsSome, slice_set, IfOk, IfErr, IfSome, IfNone, OnOk, OnErr};
ghost use Rattle.std.specs.Option.{option_map};
ghost use Rattle.gx_slot.specs.Slots.{Slots, Fits, GrowsBy, IsBroken, IsSlotPage, growth, item_at, read, spelling, taken, with_item, with_slot};

use crate::checking::check_page;
use crate::layout::{
    NoRoom, add_empty, add_item, begin, count_of, free_of, item_of, next_of, part_at, put_next,
    read_count,
};
use gx_pages::{Page, PageError};
use std::marker::Model;

/// A page as a list of items, each in a slot. Its layout: the kind, the level, u16 how many slots there are, u16 where the
/// items begin, u16 zero, u64 the number of the next page or 0; from byte 16 on for each slot u16 the place of its item and
/// u16 its length, and 0 and 0 for an empty slot; zeros; and the items against the page's end, the first slot's last.
#[derive(Drop)]
pub struct SlotPage {
    page: Page,
}

impl Model for SlotPage {
    ghost use Rattle.gx_slot.specs.Slots.{Slots, read, IsSpelled};

    ghost Value = { Slots };

    ghost view = { λ s. read s.page };

    ghost invariant = { λ s. IsSpelled s.page };
}

impl SlotPage {
    /// A page without items.
    pub fn new(kind: u8, level: u8) -> SlotPage
        ensures { result ≡ record { kind = kind; level = level; next = 0; items = [] } }
    {
        let mut page = Page::zero();
        begin(page.bytes_mut(), kind, level);
        SlotPage { page }
    }

    /// The slot page that the bytes spell, in a copy of them. Broken, with the page's number, where they spell none of this
    /// kind.
    pub fn read(page: &Page, number: u64, kind: u8) -> Result<SlotPage, PageError>
        ensures ok { IfOk result (λ slots. (page.now ≡ spelling slots) × (slots.kind ≡ kind)) }
        ensures err { OnErr result (¬ IsSlotPage page.now kind) }
        ensures cause { IfErr result (λ error. IsBroken number error) }
    {
        check_page(page, number, kind)?;
        let mut copy = Page::zero();
        copy.bytes_mut().copy_from_slice(page.bytes());
        Ok(SlotPage { page: copy })
    }

    /// The slot page that these bytes spell. Broken, with the page's number, where they spell none of this kind.
    pub fn of(page: Page, number: u64, kind: u8) -> Result<SlotPage, PageError>
        ensures ok { IfOk result (λ slots. (page ≡ spelling slots) × (slots.kind ≡ kind)) }
        ensures err { OnErr result (¬ IsSlotPage page kind) }
        ensures cause { IfErr result (λ error. IsBroken number error) }
    {
        check_page(&page, number, kind)?;
        Ok(SlotPage { page })
    }

    /// The page's bytes.
    pub fn page(&self) -> &Page
        ensures spelled { result.now ≡ spelling self.now }
        ensures fits { Fits self.now }
    {
        &self.page
    }

    /// How many slots there are, empty ones too.
    pub fn count(&self) -> u16
        ensures { result ≡ length self.now.items }
    {
        count_of(self.page.bytes())
    }

    /// The item of a slot. None where it is empty, or past the last one.
    pub fn item(&self, slot: u16) -> Option<&[u8]>
        ensures { option_map (λ item. item.now) result ≡ item_at self.now.items slot }
    {
        item_of(self.page.bytes(), slot)
    }

    /// How many bytes are free.
    pub fn free(&self) -> u16
        ensures { result + taken self.now.items ≡ 8176 }
    {
        free_of(self.page.bytes())
    }

    /// The number of the next page, or 0.
    pub fn next(&self) -> u64
        ensures { result ≡ self.now.next }
    {
        next_of(self.page.bytes())
    }

    pub fn set_next(&mut self, page: u64)
        ensures { self.new ≡ record self.old { next = page } }
    {
        put_next(self.page.bytes_mut(), page);
    }

    pub fn level(&self) -> u8
        ensures { result ≡ self.now.level }
    {
        self.page.bytes()[1]
    }

    /// Adds an item behind the last slot, and gives its slot. It takes 4 bytes and its length.
    pub fn add(&mut self, item: &[u8]) -> Result<u16, NoRoom>
        ensures place { IfOk result (λ slot. slot ≡ length self.old.items) }
        ensures added { OnOk result (self.new ≡ with_item self.old (Some item.now)) }
        ensures refused { IfErr result (λ e. (e.free + taken self.old.items ≡ 8176) × (e.free < 4 + length item.now)) }
        ensures err { OnErr result (self.new ≡ self.old) }
    {
        add_item(self.page.bytes_mut(), item)
    }

    /// Puts another item into a slot.
    pub fn replace(&mut self, slot: u16, item: &[u8]) -> Result<(), NoRoom>
        requires { IsSome (item_at self.old.items slot) }
        ensures ok { OnOk result (self.new ≡ with_slot self.old slot (Some item.now)) }
        ensures refused { IfErr result (λ e. (e.free + taken self.old.items ≡ 8176) × GrowsBy (item_at self.old.items slot) (length item.now) e.free) }
        ensures err { OnErr result (self.new ≡ self.old) }
    {
        let Some(slots) = rebuilt(self.page.bytes(), slot, Some(item)) else {
            return Err(NoRoom { free: self.free() });
        };
        *self = slots;
        Ok(())
    }

    /// Empties a slot.
    pub fn remove(&mut self, slot: u16)
        requires { IsSome (item_at self.old.items slot) }
        ensures { self.new ≡ with_slot self.old slot None }
    {
        let Some(slots) = rebuilt(self.page.bytes(), slot, None) else {
            unreachable!();
        };
        *self = slots;
    }

    /// Adds an item or an empty slot.
    fn put(&mut self, part: Option<&[u8]>) -> Result<u16, NoRoom>
        ensures added { OnOk result (self.new ≡ with_item self.old (option_map (λ item. item.now) part.entry)) }
        ensures refused { OnErr result (8176 < taken self.old.items + growth (option_map (λ item. item.now) part.entry)) }
    {
        match part {
            Some(item) => add_item(self.page.bytes_mut(), item),
            None => add_empty(self.page.bytes_mut()),
        }
    }
}

/// The slots that the bytes are read as, with another item in one of them or none there. None where they fit no page.
fn rebuilt(page: &[u8], at: u16, item: Option<&[u8]>) -> Option<SlotPage>
    requires len { length page.now ≡ 8192 }
    requires few { length (read page.now).items ≤ 2044 }
    ensures some { IfSome result (λ slots. slots ≡ with_slot (read page.now) at (option_map (λ item. item.now) item.entry)) }
    ensures none { IfNone result (8176 < taken (with_slot (read page.now) at (option_map (λ item. item.now) item.entry)).items) }
{
    let mut slots = SlotPage::new(page[0], page[1]);
    slots.set_next(next_of(page));
    for slot in 0..read_count(page) {
        if slots.put(part_at(page, slot, at, item)).is_err() {
            return None;
        }
    }
    Some(slots)
}
