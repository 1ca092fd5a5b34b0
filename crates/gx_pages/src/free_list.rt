//! Pages taken and given: the chain of free pages, and the count.

ghost use Rattle.std.specs.Prelude.{◌≡◌, ◌≢◌, ℕ, ◌+◌, ◌^◌, ◌<◌, ◌≤◌, List, [], ◌∷◌, replicate, Some, IfOk, IfErr, OnOk, OnErr};
ghost use Rattle.std.specs.List.{AllByRecursion};
ghost use Rattle.gx_pages.specs.Contents.{IsCounted, with_bytes};
ghost use Rattle.gx_pages.specs.Databases.{grown, unchained, chained};
ghost use Rattle.gx_pages.specs.Frees.{HasFirst, IsFreeList, IsFull, StartsBroken, KeepsHeader, Taken, Given, free_page_of};
ghost use Rattle.gx_pages.specs.Pages.{HasCause};
ghost use Rattle.gx_pages.specs.Tables.{now_at, was_at, map_of};

use crate::error::PageError;
use crate::free::{FREE, free_page, next_free};
use crate::header::{first_free, set_count, set_first_free};
use crate::page::Page;
use crate::table::PageTable;
use std::alloc::Global;

/// The greatest count.
const MOST: u64 = 1 << 50;

/// Takes the first free page, or else the one at the count.
pub fn take_page(alloc: Global, table: &mut PageTable) -> Result<u64, PageError>
    requires { IsCounted (now_at table.old) table.old.count }
    ensures fresh { IfOk result (λ page. page ≢ 0) }
    ensures below { IfOk result (λ page. page < table.new.count) }
    ensures zeros { IfOk result (λ page. map_of table.new page ≡ Some (replicate 8192 0)) }
    ensures others { IfOk result (λ page. (n : ℕ) → n ≢ 0 → n ≢ page → map_of table.new n ≡ map_of table.old n) }
    ensures taken { IfOk result (λ page. (free : List ℕ) → IsFreeList (map_of table.old) table.old.count free
        → (rest : List ℕ) × Taken (map_of table.old) (map_of table.new) table.old.count table.new.count page free rest) }
    ensures same { OnErr result ((map_of table.new ≡ map_of table.old) × (table.new.count ≡ table.old.count)) }
    ensures room { IfOk result (λ page. IsFreeList (map_of table.old) table.old.count [] → table.old.count < 2 ^ 50) }
    ensures header { KeepsHeader (map_of table.old) (map_of table.new) }
    ensures grows { table.old.count ≤ table.new.count }
    ensures by_one { table.new.count ≤ table.old.count + 1 }
    ensures cause { IfErr result (HasCause 0 0 (λ at expected found. StartsBroken (map_of table.old) table.old.count)
        (IsFull (Unit {0}) (map_of table.new) table.new.count) (Unit {0})) }
    ensures counted { IsCounted (now_at table.new) table.new.count }
    ensures was { was_at table.new ≡ was_at table.old }
    ensures committed { table.new.committed_count ≡ table.old.committed_count }
{
    let mut header = Page::zero();
    table.read(0, &mut header);
    let first = first_free(&header);
    if first == 0 {
        match grow(alloc, table, &mut header) {
            Ok(page) => return Ok(page),
            Err(error) => return Err(error),
        }
    }
    match unchain(alloc, table, &mut header, first) {
        Ok(page) => Ok(page),
        Err(error) => Err(error),
    }
}

/// Makes a page the first free one.
pub fn give_page(alloc: Global, table: &mut PageTable, page: u64) -> Result<(), PageError>
    requires counted { IsCounted (now_at table.old) table.old.count }
    requires nonzero { page ≢ 0 }
    requires below { page < table.old.count }
    ensures others { OnOk result ((n : ℕ) → n ≢ 0 → n ≢ page → map_of table.new n ≡ map_of table.old n) }
    ensures given { OnOk result ((free : List ℕ) → IsFreeList (map_of table.old) table.old.count free
        → AllByRecursion (λ other. page ≢ other) free → Given (map_of table.old) (map_of table.new) table.old.count page free) }
    ensures header { KeepsHeader (map_of table.old) (map_of table.new) }
    ensures same { OnErr result (map_of table.new ≡ map_of table.old) }
    ensures memory { IfErr result (λ error. error ≡ PageError.Memory) }
    ensures count { table.new.count ≡ table.old.count }
    ensures counted { IsCounted (now_at table.new) table.new.count }
    ensures was { was_at table.new ≡ was_at table.old }
    ensures committed { table.new.committed_count ≡ table.old.committed_count }
{
    let mut header = Page::zero();
    table.read(0, &mut header);
    let free = free_page(first_free(&header));
    set_first_free(&mut header, page);
    match write_both(alloc, table, &header, page, &free) {
        Ok(()) => (),
        Err(error) => return Err(error),
    }
    Ok(())
}

// Takes the page at the count.
fn grow(alloc: Global, table: &mut PageTable, header: &mut Page) -> Result<u64, PageError>
    requires counted { IsCounted (now_at table.old) table.old.count }
    requires header { header.old ≡ now_at table.old 0 }
    ensures page { IfOk result (λ page. page ≡ table.old.count) }
    ensures room { OnOk result (table.old.count < 2 ^ 50) }
    ensures count { OnOk result (table.new.count ≡ table.old.count + 1) }
    ensures map { OnOk result (map_of table.new ≡ grown (map_of table.old) header.old table.old.count) }
    ensures counted { IsCounted (now_at table.new) table.new.count }
    ensures same { OnErr result ((map_of table.new ≡ map_of table.old) × (table.new.count ≡ table.old.count)) }
    ensures cause { IfErr result (HasCause 0 0 (λ _ _ _. ⊥) (λ pages. (pages ≡ 2 ^ 50) × (table.old.count ≡ 2 ^ 50)) (Unit {0})) }
    ensures was { was_at table.new ≡ was_at table.old }
    ensures committed { table.new.committed_count ≡ table.old.committed_count }
{
    let page = table.count;
    if page >= MOST {
        return Err(PageError::PageSpace { pages: page });
    }
    set_count(header, page + 1);
    match write_both(alloc, table, header, page, &Page::zero()) {
        Ok(()) => (),
        Err(error) => return Err(error),
    }
    table.count = page + 1;
    Ok(page)
}

// Takes the first free page.
fn unchain(
    alloc: Global,
    table: &mut PageTable,
    header: &mut Page,
    page: u64,
) -> Result<u64, PageError>
    requires counted { IsCounted (now_at table.old) table.old.count }
    requires header { header.old ≡ now_at table.old 0 }
    requires nonzero { page ≢ 0 }
    ensures page { IfOk result (λ taken. taken ≡ page) }
    ensures below { OnOk result (page < table.old.count) }
    ensures map { OnOk result ((next : ℕ) × (next < 2 ^ 64) × (now_at table.old page ≡ free_page_of next) × (map_of table.new ≡ unchained (map_of table.old) header.old page next)) }
    ensures counted { IsCounted (now_at table.new) table.new.count }
    ensures count { table.new.count ≡ table.old.count }
    ensures same { OnErr result (map_of table.new ≡ map_of table.old) }
    ensures cause { IfErr result (HasCause 0 0
        (λ at expected found. page < table.old.count → (next : ℕ) → next < 2 ^ 64 → now_at table.old page ≢ free_page_of next) (λ _. ⊥) (Unit {0})) }
    ensures was { was_at table.new ≡ was_at table.old }
    ensures committed { table.new.committed_count ≡ table.old.committed_count }
{
    if page >= table.count {
        return Err(PageError::Broken {
            page,
            expected: table.count - 1,
            found: page,
        });
    }
    let mut free = Page::zero();
    table.read(page, &mut free);
    let Some(next) = next_free(&free) else {
        return Err(not_free(page, &free));
    };
    set_first_free(header, next);
    match write_both(alloc, table, header, page, &Page::zero()) {
        Ok(()) => (),
        Err(error) => return Err(error),
    }
    Ok(page)
}

// Why a page isn't free: its kind is another one, or else is no kind of a page written so.
fn not_free(page: u64, bytes: &Page) -> PageError
    ensures { HasCause 0 0 (λ at expected found. Unit {0}) (λ _. ⊥) ⊥ result }
{
    let kind = bytes.bytes()[0];
    PageError::Broken {
        page,
        expected: FREE as u64,
        found: if kind == FREE { 0 } else { kind as u64 },
    }
}

// Writes the header and another page, or neither.
fn write_both(
    alloc: Global,
    table: &mut PageTable,
    header: &Page,
    page: u64,
    bytes: &Page,
) -> Result<(), PageError>
    ensures now { OnOk result (now_at table.new ≡ with_bytes (with_bytes (now_at table.old) 0 header.now) page bytes.now) }
    ensures same { OnErr result (now_at table.new ≡ now_at table.old) }
    ensures memory { IfErr result (λ error. error ≡ PageError.Memory) }
    ensures count { table.new.count ≡ table.old.count }
    ensures was { was_at table.new ≡ was_at table.old }
    ensures committed { table.new.committed_count ≡ table.old.committed_count }
{
    match table.open(alloc, 0) {
        Ok(()) => (),
        Err(_) => return Err(PageError::Memory),
    }
    match table.open(alloc, page) {
        Ok(()) => (),
        Err(_) => return Err(PageError::Memory),
    }
    table.write(0, header);
    table.write(page, bytes);
    Ok(())
}
