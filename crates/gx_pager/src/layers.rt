//! The pages of the unit, and those since the last checkpoint.

ghost use Rattle.std.specs.Prelude.{◌≡◌, ◌≢◌, ℕ, ◌+◌, ◌^◌, ◌<◌, ◌≤◌, ◌==◌, if◌then◌else◌, true, is_some, IfSome, IfNone, OnOk, OnErr, Some, None};
ghost use Rattle.std.specs.BTreeMap.{get, btree_map_len};
ghost use Rattle.std.specs.Ordering.{nat_cmp};
ghost use Rattle.gx_words.specs.PageMap.{with_page};
ghost use Rattle.gx_log.specs.Records.{page_in};
ghost use Rattle.gx_pages.specs.Frees.{HasCount};
ghost use Rattle.gx_pager.specs.Layers.{over, shown, map_over, header_over};

use crate::copies::{boxed, copy, copy_in};
use gx_log::Images;
use gx_pages::Page;
use std::alloc::{AllocError, Global};
use std::collections::BTreeMap;

/// Places for the pages since the last checkpoint.
pub type Places = BTreeMap<u64, Option<Box<Page>>>;

/// The pages of the unit, those since the last checkpoint, page 0 as committed, and both counts. Each page of the unit
/// has a place among those since the last checkpoint, so that a commit takes no memory.
#[derive(Drop)]
pub struct Layers {
    pub unit: Images,
    pub kept: Places,
    pub header: Page,
    pub count: u64,
    pub committed_count: u64,
    pub ghost some: { 0 < count },
    pub ghost committed_some: { 0 < committed_count },
    pub ghost bounded: { count ≤ 2 ^ 50 },
    pub ghost committed_bounded: { committed_count ≤ 2 ^ 50 },
    pub ghost counted: { HasCount (header_over (page_in (get nat_cmp unit 0)) header) count },
    pub ghost committed_counted: { HasCount header committed_count },
    pub ghost placed: { (n : ℕ) → is_some (get nat_cmp unit n) ≡ true → is_some (get nat_cmp kept n) ≡ true },
    pub ghost low: { (n : ℕ) → is_some (get nat_cmp unit n) ≡ true → n < 2 ^ 50 },
    pub ghost fresh: { (n : ℕ) → committed_count ≤ n → n < count → is_some (get nat_cmp unit n) ≡ true },
}

impl Layers {
    ghost use Rattle.gx_pager.specs.Memory.{memory, committed_memory, overlay, unit, changed, header_now, IsOpen, Keeps};

    /// The page, where it is in memory.
    pub fn find(&self, page: u64) -> Option<&Page>
        ensures some { IfSome result (λ found. memory self.now page ≡ Some found.now) }
        ensures none { IfNone result (memory self.now page ≡ None) }
    {
        if let Some(found) = self.unit.get(&page) {
            return Some(found.as_ref());
        }
        if page == 0 {
            return Some(&self.header);
        }
        match self.kept.get(&page) {
            Some(Some(found)) => Some(found.as_ref()),
            _ => None,
        }
    }

    /// Page 0, as it is now.
    pub fn header_page(&self) -> &Page
        ensures { result.now ≡ header_now self.now }
    {
        match self.unit.get(&0) {
            Some(page) => page.as_ref(),
            None => &self.header,
        }
    }

    // Keeps a place for the page, so that a commit takes no memory.
    fn place(&mut self, page: u64) -> Result<(), AllocError>
        ensures placed { OnOk result (is_some (get nat_cmp self.new.kept page) ≡ true) }
        ensures memory { memory self.new ≡ memory self.old }
        ensures keeps { Keeps self.old self.new }
        ensures unit { self.new.unit ≡ self.old.unit }
        ensures count { self.new.count ≡ self.old.count }
    {
        if self.kept.contains_key(&page) {
            return Ok(());
        }
        self.kept.insert(page, None)?;
        Ok(())
    }

    // Takes a page into the unit.
    fn open(&mut self, alloc: Global, page: u64, from: &Page) -> Result<(), AllocError>
        requires nonzero { page ≢ 0 }
        requires low { page < 2 ^ 50 }
        ensures written { OnOk result (memory self.new ≡ with_page (memory self.old) page from.now) }
        ensures same { OnErr result (memory self.new ≡ memory self.old) }
        ensures open { OnOk result (IsOpen self.new page) }
        ensures still { (n : ℕ) → IsOpen self.old n → IsOpen self.new n }
        ensures keeps { Keeps self.old self.new }
        ensures count { self.new.count ≡ self.old.count }
    {
        match self.place(page) {
            Ok(()) => (),
            Err(error) => return Err(error),
        }
        let fresh = match boxed(alloc, from) {
            Ok(fresh) => fresh,
            Err(error) => return Err(error),
        };
        match self.unit.insert(page, fresh) {
            Ok(_) => (),
            Err(_) => return Err(AllocError),
        }
        Ok(())
    }

    // Writes a page of the unit.
    fn overwrite(&mut self, page: u64, from: &Page)
        requires nonzero { page ≢ 0 }
        requires open { IsOpen self.old page }
        ensures written { memory self.new ≡ with_page (memory self.old) page from.now }
        ensures still { (n : ℕ) → IsOpen self.old n → IsOpen self.new n }
        ensures keeps { Keeps self.old self.new }
        ensures count { self.new.count ≡ self.old.count }
    {
        match self.unit.get_mut(&page) {
            Some(kept) => copy_in(from, kept),
            None => unreachable!(),
        }
    }

    /// Writes a page, where there is memory.
    pub fn write(&mut self, alloc: Global, page: u64, from: &Page) -> Result<(), AllocError>
        requires nonzero { page ≢ 0 }
        requires low { page < 2 ^ 50 }
        ensures written { OnOk result (memory self.new ≡ with_page (memory self.old) page from.now) }
        ensures same { OnErr result (memory self.new ≡ memory self.old) }
        ensures open { OnOk result (IsOpen self.new page) }
        ensures still { (n : ℕ) → IsOpen self.old n → IsOpen self.new n }
        ensures keeps { Keeps self.old self.new }
        ensures count { self.new.count ≡ self.old.count }
    {
        if self.unit.contains_key(&page) {
            self.overwrite(page, from);
            return Ok(());
        }
        self.open(alloc, page, from)
    }

    // Takes page 0 into the unit, as it is.
    fn open_header(&mut self, alloc: Global) -> Result<(), AllocError>
        ensures open { OnOk result (IsOpen self.new 0) }
        ensures memory { memory self.new ≡ memory self.old }
        ensures still { (n : ℕ) → IsOpen self.old n → IsOpen self.new n }
        ensures keeps { Keeps self.old self.new }
        ensures count { self.new.count ≡ self.old.count }
    {
        if self.unit.contains_key(&0) {
            return Ok(());
        }
        match self.place(0) {
            Ok(()) => (),
            Err(error) => return Err(error),
        }
        let fresh = match boxed(alloc, &self.header) {
            Ok(fresh) => fresh,
            Err(error) => return Err(error),
        };
        match self.unit.insert(0, fresh) {
            Ok(_) => (),
            Err(_) => return Err(AllocError),
        }
        Ok(())
    }

    // Writes page 0, which is open, and the count that it has.
    fn write_header(&mut self, header: &Page, count: u64)
        requires open { IsOpen self.old 0 }
        requires counted { HasCount header.now count }
        requires some { 0 < count }
        requires bounded { count ≤ 2 ^ 50 }
        requires fresh { (n : ℕ) → self.old.committed_count ≤ n → n < count → IsOpen self.old n }
        ensures written { memory self.new ≡ with_page (memory self.old) 0 header.now }
        ensures keeps { Keeps self.old self.new }
        ensures count { self.new.count ≡ count }
    {
        match self.unit.get_mut(&0) {
            Some(page) => copy_in(header, page),
            None => unreachable!(),
        }
        self.count = count;
    }

    /// Writes page 0 and another page, or neither. The count may rise by that page.
    pub fn write_both(
        &mut self,
        alloc: Global,
        header: &Page,
        count: u64,
        page: u64,
        from: &Page,
    ) -> Result<(), AllocError>
        requires nonzero { page ≢ 0 }
        requires low { page < 2 ^ 50 }
        requires counted { HasCount header.now count }
        requires some { 0 < count }
        requires bounded { count ≤ 2 ^ 50 }
        requires rises { (n : ℕ) → self.old.count ≤ n → n < count → n ≡ page }
        ensures written { OnOk result (memory self.new ≡ with_page (with_page (memory self.old) 0 header.now) page from.now) }
        ensures same { OnErr result (memory self.new ≡ memory self.old) }
        ensures keeps { Keeps self.old self.new }
        ensures count { OnOk result (self.new.count ≡ count) }
        ensures same_count { OnErr result (self.new.count ≡ self.old.count) }
    {
        match self.open_header(alloc) {
            Ok(()) => (),
            Err(error) => return Err(error),
        }
        match self.write(alloc, page, from) {
            Ok(()) => (),
            Err(error) => return Err(error),
        }
        self.write_header(header, count);
        Ok(())
    }

    /// Makes the pages of the unit committed ones. It takes no memory.
    pub fn settle(&mut self)
        ensures memory { memory self.new ≡ memory self.old }
        ensures committed { committed_memory self.new ≡ memory self.old }
        ensures overlay { overlay self.new ≡ map_over (unit self.old) (overlay self.old) }
        ensures header { self.new.header ≡ header_over (unit self.old 0) self.old.header }
        ensures count { self.new.count ≡ self.old.count }
        ensures committed_count { self.new.committed_count ≡ self.old.count }
        ensures none { changed self.new ≡ 0 }
    {
        if let Some(header) = self.unit.get(&0) {
            copy(header.as_ref(), &mut self.header);
        }
        settle_pages(&mut self.unit, &mut self.kept);
        self.committed_count = self.count;
    }

    /// Brings back the committed pages.
    pub fn abandon(&mut self)
        ensures memory { memory self.new ≡ committed_memory self.old }
        ensures keeps { Keeps self.old self.new }
        ensures count { self.new.count ≡ self.old.committed_count }
        ensures none { changed self.new ≡ 0 }
    {
        self.unit.clear();
        self.count = self.committed_count;
    }

    /// Forgets the pages since the last checkpoint. Those of the unit keep their places.
    pub fn forget(&mut self)
        ensures overlay { (n : ℕ) → overlay self.new n ≡ None }
        ensures unit { self.new.unit ≡ self.old.unit }
        ensures header { self.new.header ≡ self.old.header }
        ensures count { self.new.count ≡ self.old.count }
        ensures committed_count { self.new.committed_count ≡ self.old.committed_count }
    {
        if self.unit.len() == 0 {
            self.kept.clear();
            return;
        }
        empty_places(&mut self.kept);
    }
}

// Empties each place.
fn empty_places(kept: &mut Places)
    ensures none { (n : ℕ) → shown (get nat_cmp kept.new n) ≡ None }
    ensures placed { (n : ℕ) → is_some (get nat_cmp kept.old n) ≡ true → is_some (get nat_cmp kept.new n) ≡ true }
{
    kept.retain(|_, place| {
        *place = None;
        true
    });
}

// Moves a page to those since the last checkpoint, where it has a place.
fn settle_page(kept: &mut Places, page: u64, bytes: Box<Page>)
    requires { is_some (get nat_cmp kept.old page) ≡ true }
    ensures { (n : ℕ) → get nat_cmp kept.new n ≡ (if n == page then Some (Some bytes) else get nat_cmp kept.old n) }
{
    match kept.insert(page, Some(bytes)) {
        Ok(_) => (),
        Err(_) => unreachable!(),
    }
}

// Moves the pages to those since the last checkpoint, where each has a place.
fn settle_pages(unit: &mut Images, kept: &mut Places)
    requires placed { (n : ℕ) → is_some (get nat_cmp unit.old n) ≡ true → is_some (get nat_cmp kept.old n) ≡ true }
    ensures none { (n : ℕ) → get nat_cmp unit.new n ≡ None }
    ensures empty { btree_map_len unit.new ≡ 0 }
    ensures moved { (n : ℕ) → shown (get nat_cmp kept.new n) ≡ over (page_in (get nat_cmp unit.old n)) (shown (get nat_cmp kept.old n)) }
{
    while let Some((page, bytes)) = unit.pop_first() {
        settle_page(kept, page, bytes);
    }
}
