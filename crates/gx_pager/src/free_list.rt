//! Pages taken and given: the chain of free pages, and the count.

ghost use Rattle.std.specs.Prelude.{◌≡◌, ◌≢◌, ℕ, ◌+◌, ◌^◌, ◌<◌, ◌≤◌, List, [], ◌∷◌, Some, IfOk, IfErr, OnOk, OnErr};
ghost use Rattle.std.specs.List.{AllByRecursion};
ghost use Rattle.gx_words.specs.Image.{Image};
ghost use Rattle.gx_log.specs.Disks.{Reads};
ghost use Rattle.gx_pages.specs.Databases.{grown, unchained, chained};
ghost use Rattle.gx_pages.specs.Frees.{IsFreeList, IsFull, StartsBroken, KeepsHeader, Given, HasFirst, free_page_of};
ghost use Rattle.gx_pages.specs.Pages.{HasCause};
ghost use Rattle.gx_pager.specs.Cached.{Agrees};
ghost use Rattle.gx_pager.specs.Layers.{over, pieces};
ghost use Rattle.gx_pager.specs.Memory.{memory, header_now, now_map, Keeps};
ghost use Rattle.gx_pages.proofs.Taking.{Took};

use crate::cache::Cache;
use crate::copies::copy;
use crate::layers::Layers;
use crate::reads::load;
use gx_disk::Disk;
use gx_pages::{Page, PageError, first_free, free_page, next_free, set_count, set_first_free};
use std::alloc::Global;

/// The greatest count.
const MOST: u64 = 1 << 50;

/// The kind of a free page.
const FREE: u8 = 7;

/// Takes the first free page, or else the one at the count.
pub fn take_page<D: Disk>(
    alloc: Global,
    layers: &mut Layers,
    cache: &mut Cache,
    disk: &mut D,
) -> Result<u64, PageError>
    ensures fresh { IfOk result (λ page. page ≢ 0) }
    ensures below { IfOk result (λ page. page < layers.new.count) }
    ensures took { IfOk result (λ page. D.tells → Agrees (pieces (D.told disk.old)) cache.old.pages.entries
        → Took (now_map layers.old (D.told disk.old)) (now_map layers.new (D.told disk.old)) layers.old.count layers.new.count page) }
    ensures same { OnErr result ((memory layers.new ≡ memory layers.old) × (layers.new.count ≡ layers.old.count)) }
    ensures room { OnOk result (IsFreeList (now_map layers.old (D.told disk.old)) layers.old.count [] → layers.old.count < 2 ^ 50) }
    ensures grows { layers.old.count ≤ layers.new.count }
    ensures by_one { layers.new.count ≤ layers.old.count + 1 }
    ensures cause { IfErr result (HasCause (D.faults disk.old) (D.faults disk.new)
        (λ at expected found. D.tells → Agrees (pieces (D.told disk.old)) cache.old.pages.entries → StartsBroken (now_map layers.old (D.told disk.old)) layers.old.count)
        (IsFull D.tells (now_map layers.old (D.told disk.old)) layers.old.count) (Unit {0})) }
    ensures keeps { Keeps layers.old layers.new }
    ensures agrees { D.tells → Agrees (pieces (D.told disk.old)) cache.old.pages.entries → Agrees (pieces (D.told disk.new)) cache.new.pages.entries }
    ensures reads { Reads D.Disk disk.old disk.new }
{
    let mut header = Page::zero();
    copy(layers.header_page(), &mut header);
    let first = first_free(&header);
    if first == 0 {
        match grow(alloc, layers, &mut header) {
            Ok(page) => return Ok(page),
            Err(error) => return Err(error),
        }
    }
    match unchain(alloc, layers, cache, disk, &mut header, first) {
        Ok(page) => Ok(page),
        Err(error) => Err(error),
    }
}

/// Makes a page the first free one.
pub fn give_page(alloc: Global, layers: &mut Layers, page: u64) -> Result<(), PageError>
    requires nonzero { page ≢ 0 }
    requires below { page < layers.old.count }
    ensures others { OnOk result ((image : Image) (n : ℕ) → n ≢ 0 → n ≢ page → now_map layers.new image n ≡ now_map layers.old image n) }
    ensures given { OnOk result ((image : Image) (free : List ℕ) → IsFreeList (now_map layers.old image) layers.old.count free
        → AllByRecursion (λ other. page ≢ other) free → Given (now_map layers.old image) (now_map layers.new image) layers.old.count page free) }
    ensures header { OnOk result ((image : Image) → KeepsHeader (now_map layers.old image) (now_map layers.new image)) }
    ensures same { OnErr result (memory layers.new ≡ memory layers.old) }
    ensures memory { IfErr result (λ error. error ≡ PageError.Memory) }
    ensures count { layers.new.count ≡ layers.old.count }
    ensures keeps { Keeps layers.old layers.new }
{
    let mut header = Page::zero();
    copy(layers.header_page(), &mut header);
    let free = free_page(first_free(&header));
    set_first_free(&mut header, page);
    let count = layers.count;
    match layers.write_both(alloc, &header, count, page, &free) {
        Ok(()) => (),
        Err(_) => return Err(PageError::Memory),
    }
    Ok(())
}

// Takes the page at the count.
fn grow(alloc: Global, layers: &mut Layers, header: &mut Page) -> Result<u64, PageError>
    requires { header.old ≡ header_now layers.old }
    ensures page { IfOk result (λ page. page ≡ layers.old.count) }
    ensures room { OnOk result (layers.old.count < 2 ^ 50) }
    ensures count { OnOk result (layers.new.count ≡ layers.old.count + 1) }
    ensures map { OnOk result ((image : Image) → now_map layers.new image ≡ grown (now_map layers.old image) header.old layers.old.count) }
    ensures same { OnErr result ((memory layers.new ≡ memory layers.old) × (layers.new.count ≡ layers.old.count)) }
    ensures cause { IfErr result (HasCause 0 0 (λ _ _ _. ⊥) (λ pages. (pages ≡ 2 ^ 50) × (layers.old.count ≡ 2 ^ 50)) (Unit {0})) }
    ensures keeps { Keeps layers.old layers.new }
{
    let page = layers.count;
    if page >= MOST {
        return Err(PageError::PageSpace { pages: page });
    }
    set_count(header, page + 1);
    match layers.write_both(alloc, header, page + 1, page, &Page::zero()) {
        Ok(()) => (),
        Err(_) => return Err(PageError::Memory),
    }
    Ok(page)
}

// Takes the first free page.
fn unchain<D: Disk>(
    alloc: Global,
    layers: &mut Layers,
    cache: &mut Cache,
    disk: &mut D,
    header: &mut Page,
    page: u64,
) -> Result<u64, PageError>
    requires header { header.old ≡ header_now layers.old }
    requires nonzero { page ≢ 0 }
    ensures page { IfOk result (λ taken. taken ≡ page) }
    ensures below { OnOk result (page < layers.old.count) }
    ensures count { layers.new.count ≡ layers.old.count }
    ensures map { OnOk result (D.tells → Agrees (pieces (D.told disk.old)) cache.old.pages.entries
        → (next : ℕ) × (next < 2 ^ 64) × (now_map layers.old (D.told disk.old) page ≡ Some (free_page_of next))
        × (now_map layers.new (D.told disk.old) ≡ unchained (now_map layers.old (D.told disk.old)) header.old page next)) }
    ensures same { OnErr result (memory layers.new ≡ memory layers.old) }
    ensures cause { IfErr result (HasCause (D.faults disk.old) (D.faults disk.new)
        (λ at expected found. page < layers.old.count → D.tells → Agrees (pieces (D.told disk.old)) cache.old.pages.entries
        → (next : ℕ) → next < 2 ^ 64 → now_map layers.old (D.told disk.old) page ≢ Some (free_page_of next)) (λ _. ⊥) (Unit {0})) }
    ensures keeps { Keeps layers.old layers.new }
    ensures agrees { D.tells → Agrees (pieces (D.told disk.old)) cache.old.pages.entries → Agrees (pieces (D.told disk.new)) cache.new.pages.entries }
    ensures reads { Reads D.Disk disk.old disk.new }
{
    if page >= layers.count {
        return Err(PageError::Broken {
            page,
            expected: layers.count - 1,
            found: page,
        });
    }
    let mut free = Page::zero();
    match load(alloc, layers, cache, disk, page, &mut free) {
        Ok(()) => (),
        Err(error) => return Err(error),
    }
    let Some(next) = next_free(&free) else {
        return Err(not_free(page, &free));
    };
    set_first_free(header, next);
    let count = layers.count;
    match layers.write_both(alloc, header, count, page, &Page::zero()) {
        Ok(()) => (),
        Err(_) => return Err(PageError::Memory),
    }
    Ok(page)
}

// Why a page isn't free: its kind is another one, or else is no kind of a page written so.
fn not_free(page: u64, bytes: &Page) -> PageError
    ensures { HasCause 0 0 (λ at expected found. Unit {0}) (λ _. ⊥) ⊥ result }
{
    let kind = bytes.bytes()[0];
    PageError::Broken {
        page,
        expected: FREE as u64,
        found: if kind == FREE { 0 } else { kind as u64 },
    }
}
