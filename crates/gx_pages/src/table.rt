//! Pages in memory.

ghost use Rattle.std.specs.Prelude.{◌≡◌, ℕ, ◌==◌, true, is_some, if◌then◌else◌, replicate, IfOk, OnOk};
ghost use Rattle.std.specs.BTreeMap.{get};
ghost use Rattle.std.specs.Ordering.{nat_cmp};
ghost use Rattle.gx_pages.specs.Contents.{bytes_of, given, with_bytes};

use crate::page::Page;
use std::alloc::{AllocError, Global};
use std::collections::BTreeMap;

/// Pages by their numbers, below a count, and what the changed ones and the count were at the last commit. A page that
/// isn't kept is zeros.
#[derive(Drop)]
pub struct PageTable {
    pub pages: BTreeMap<u64, Box<Page>>,
    pub saved: BTreeMap<u64, Option<Box<Page>>>,
    pub count: u64,
    pub committed_count: u64,
    pub ghost kept: { (n : ℕ) → is_some (get nat_cmp saved n) ≡ true → is_some (get nat_cmp pages n) ≡ true },
}

impl PageTable {
    ghost use Rattle.gx_pages.specs.Tables.{IsOpen, now_at, was_at};

    /// These pages, all committed.
    pub fn new(alloc: Global, pages: BTreeMap<u64, Box<Page>>, count: u64) -> PageTable
        ensures now { (n : ℕ) → now_at result n ≡ bytes_of (get nat_cmp pages n) }
        ensures was { was_at result ≡ now_at result }
        ensures count { result.count ≡ count }
        ensures committed { result.committed_count ≡ count }
    {
        PageTable {
            pages,
            saved: BTreeMap::new(alloc),
            count,
            committed_count: count,
        }
    }

    /// Reads a page.
    pub fn read(&self, page: u64, into: &mut Page)
        ensures { into.new ≡ now_at self.now page }
    {
        match self.pages.get(&page) {
            Some(kept) => copy(kept, into),
            None => *into = Page::zero(),
        }
    }

    /// Saves what the page was at the last commit, so that it may be written.
    pub fn open(&mut self, alloc: Global, page: u64) -> Result<(), AllocError>
        ensures open { OnOk result (IsOpen self.new page) }
        ensures still { (n : ℕ) → IsOpen self.old n → IsOpen self.new n }
        ensures now { now_at self.new ≡ now_at self.old }
        ensures was { was_at self.new ≡ was_at self.old }
        ensures count { self.new.count ≡ self.old.count }
        ensures committed { self.new.committed_count ≡ self.old.committed_count }
    {
        if self.saved.contains_key(&page) {
            return Ok(());
        }
        let old = kept_copy(alloc, &mut self.pages, page)?;
        self.saved.insert(page, old)?;
        Ok(())
    }

    /// Writes a page.
    pub fn write(&mut self, page: u64, from: &Page)
        requires { IsOpen self.old page }
        ensures now { now_at self.new ≡ with_bytes (now_at self.old) page from.now }
        ensures was { was_at self.new ≡ was_at self.old }
        ensures still { (n : ℕ) → IsOpen self.old n → IsOpen self.new n }
        ensures count { self.new.count ≡ self.old.count }
        ensures committed { self.new.committed_count ≡ self.old.committed_count }
    {
        match self.pages.get_mut(&page) {
            Some(kept) => copy_in(from, kept),
            None => unreachable!(),
        }
    }

    /// Makes the pages of now the committed ones.
    pub fn commit(&mut self)
        ensures now { now_at self.new ≡ now_at self.old }
        ensures was { was_at self.new ≡ now_at self.old }
        ensures count { self.new.count ≡ self.old.count }
        ensures committed { self.new.committed_count ≡ self.old.count }
    {
        self.saved.clear();
        self.committed_count = self.count;
    }

    /// Brings back the committed pages.
    pub fn abandon(&mut self)
        ensures now { now_at self.new ≡ was_at self.old }
        ensures was { was_at self.new ≡ was_at self.old }
        ensures count { self.new.count ≡ self.old.committed_count }
        ensures committed { self.new.committed_count ≡ self.old.committed_count }
    {
        while let Some((page, old)) = self.saved.pop_first() {
            restore(&mut self.pages, page, old);
        }
        self.count = self.committed_count;
    }
}

/// Pages by their numbers, from the first on.
pub fn laid(alloc: Global, pages: &[Page]) -> Result<BTreeMap<u64, Box<Page>>, AllocError>
    ensures { IfOk result (λ laid. (n : ℕ) → bytes_of (get nat_cmp laid n) ≡ given pages.now n) }
{
    let mut laid = BTreeMap::new(alloc);
    for i in 0..pages.len() {
        let page = boxed(alloc, &pages[i])?;
        laid.insert(i as u64, page)?;
    }
    Ok(laid)
}

// Copies a page.
fn copy(from: &Page, into: &mut Page)
    ensures { into.new ≡ from.now }
{
    into.bytes_mut().copy_from_slice(from.bytes());
}

// Copies a page into a box.
fn copy_in(from: &Page, into: &mut Box<Page>)
    ensures { into.new.value ≡ from.now }
{
    copy(from, into.as_mut());
}

// A copy of a page in a box of its own.
fn boxed(alloc: Global, page: &Page) -> Result<Box<Page>, AllocError>
    ensures { IfOk result (λ b. b.value ≡ page.now) }
{
    let mut fresh = Page::zero();
    copy(page, &mut fresh);
    Ok(Box::new(alloc, fresh)?)
}

// A copy of a page, or None where it isn't kept. Then zeros are.
fn kept_copy(
    alloc: Global,
    pages: &mut BTreeMap<u64, Box<Page>>,
    page: u64,
) -> Result<Option<Box<Page>>, AllocError>
    ensures copy { IfOk result (λ old. bytes_of old ≡ bytes_of (get nat_cmp pages.old page)) }
    ensures same { (n : ℕ) → bytes_of (get nat_cmp pages.new n) ≡ bytes_of (get nat_cmp pages.old n) }
    ensures kept { OnOk result (is_some (get nat_cmp pages.new page) ≡ true) }
    ensures still { (n : ℕ) → is_some (get nat_cmp pages.old n) ≡ true → is_some (get nat_cmp pages.new n) ≡ true }
{
    if let Some(kept) = pages.get(&page) {
        return Ok(Some(boxed(alloc, kept)?));
    }
    let zero = Box::new(alloc, Page::zero())?;
    pages.insert(page, zero)?;
    Ok(None)
}

// Puts back what a page was: a page that wasn't kept goes.
fn restore(pages: &mut BTreeMap<u64, Box<Page>>, page: u64, old: Option<Box<Page>>)
    requires { is_some (get nat_cmp pages.old page) ≡ true }
    ensures { (n : ℕ) → get nat_cmp pages.new n ≡ (if n == page then old else get nat_cmp pages.old n) }
{
    match old {
        Some(kept) => match pages.insert(page, kept) {
            Ok(_) => (),
            Err(_) => unreachable!(),
        },
        None => {
            let _ = pages.remove(&page);
        }
    }
}
