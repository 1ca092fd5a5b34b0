//! Opening a disk: its log and page 0 are read, and nothing is written.

ghost use Rattle.std.specs.Prelude.{◌≡◌, ℕ, length, Some, None, IfOk, IfErr, OnOk, Err};
ghost use Rattle.std.specs.BTreeMap.{get, btree_map_len};
ghost use Rattle.std.specs.Ordering.{nat_cmp};
ghost use Rattle.gx_words.specs.PageMap.{PageMap};
ghost use Rattle.gx_log.specs.Disks.{Reads};
ghost use Rattle.gx_log.specs.Records.{HasMap, page_in, piece};
ghost use Rattle.gx_pages.specs.Frees.{HasCount};
ghost use Rattle.gx_pages.specs.Pages.{HasCause};
ghost use Rattle.gx_pager.specs.Layers.{over, shown};
ghost use Rattle.gx_pager.specs.Headers.{wrong_field};
ghost use Rattle.gx_pager.specs.Openings.{OpenBroken, Opening, IsHeader, page_error, ZeroBroken};
ghost use Rattle.gx_pager.specs.Opened.{IsRead};

use crate::cache::Cache;
use crate::copies::copy;
use crate::header::test_header;
use crate::layers::{Layers, Places};
use crate::places::read_page;
use gx_disk::Disk;
use gx_log::{Images, Log, LogError};
use gx_pages::{Page, PageError};
use std::alloc::{AllocError, Global};
use std::collections::BTreeMap;

/// What was read of a disk: its log, page 0, and the pages since the last checkpoint.
#[derive(Drop)]
pub struct Opened {
    pub alloc: Global,
    pub log: Log,
    pub layers: Layers,
    pub cache: Cache,
    pub waiting: u64,
}

/// Opens the log, and reads it and page 0.
pub fn read_file<D: Disk>(alloc: Global, disk: &mut D) -> Result<Opened, PageError>
    ensures read { IfOk result (IsRead D.Disk disk.new) }
    ensures opening { Opening D.Disk disk.old disk.new }
    ensures cause { IfErr result (HasCause (D.faults disk.old) (D.faults disk.new) (λ at expected found. D.tells → OpenBroken (D.told disk.old) at expected found) (λ _. ⊥) (Unit {0})) }

    // What is broken is never opened, and what stands for pages is never broken.
    ensures sound { OnOk result (D.tells → (at expected found : ℕ) → OpenBroken (D.told disk.old) at expected found → ⊥) }
    ensures stands { D.tells → (map : PageMap) → HasMap (D.told disk.old) map → IsHeader (map 0) → (at expected found : ℕ) → result ≡ Err (PageError.Broken at expected found) → ⊥ }
{
    let log = match Log::open(alloc, disk) {
        Ok(log) => log,
        Err(error) => return Err(from_log(error)),
    };
    let mut images = Images::new(alloc);
    let waiting = match log.replay(disk, &mut images) {
        Ok(waiting) => waiting,
        Err(error) => return Err(from_log(error)),
    };
    let kept = match keep_all(alloc, &mut images) {
        Ok(kept) => kept,
        Err(_) => return Err(PageError::Memory),
    };
    let cache = match Cache::new(alloc) {
        Ok(cache) => cache,
        Err(_) => return Err(PageError::Memory),
    };
    match read_layers(alloc, disk, kept) {
        Ok(layers) => Ok(Opened {
            alloc,
            log,
            layers,
            cache,
            waiting,
        }),
        Err(error) => Err(error),
    }
}

// Gives each page a place.
fn keep_all(alloc: Global, images: &mut Images) -> Result<Places, AllocError>
    ensures { IfOk result (λ kept. (n : ℕ) → shown (get nat_cmp kept n) ≡ page_in (get nat_cmp images.old n)) }
{
    let mut kept = BTreeMap::new(alloc);
    while let Some((page, bytes)) = images.pop_first() {
        match kept.insert(page, Some(bytes)) {
            Ok(_) => (),
            Err(_) => return Err(AllocError),
        }
    }
    Ok(kept)
}

// Reads page 0.
fn read_header<D: Disk>(kept: &Places, disk: &mut D, into: &mut Page) -> Result<(), PageError>
    ensures bytes { OnOk result (D.tells → over (shown (get nat_cmp kept.now 0)) (piece (D.told disk.old).pages 0) ≡ Some into.new) }
    ensures cause { IfErr result (HasCause (D.faults disk.old) (D.faults disk.new)
        (λ at expected found. (at ≡ 0) × (D.tells → (over (shown (get nat_cmp kept.now 0)) (piece (D.told disk.old).pages 0) ≡ None) × (expected ≡ 8192) × (found ≡ length (D.told disk.old).pages))) (λ _. ⊥) ⊥) }
    ensures reads { Reads D.Disk disk.old disk.new }
{
    if let Some(Some(page)) = kept.get(&0) {
        copy(page.as_ref(), into);
        return Ok(());
    }
    read_page(disk, 0, into)
}

// The pages in memory, where page 0 is a header.
fn read_layers<D: Disk>(alloc: Global, disk: &mut D, kept: Places) -> Result<Layers, PageError>
    ensures header { IfOk result (λ layers. D.tells → over (shown (get nat_cmp kept 0)) (piece (D.told disk.old).pages 0) ≡ Some layers.header) }
    ensures fine { IfOk result (λ layers. wrong_field layers.header ≡ None) }
    ensures unit { IfOk result (λ layers. btree_map_len layers.unit ≡ 0) }
    ensures kept { IfOk result (λ layers. layers.kept ≡ kept) }
    ensures count { IfOk result (λ layers. layers.count ≡ layers.committed_count) }
    ensures cause { IfErr result (HasCause (D.faults disk.old) (D.faults disk.new)
        (λ at expected found. (at ≡ 0) × (D.tells → ZeroBroken (over (shown (get nat_cmp kept 0)) (piece (D.told disk.old).pages 0)) (length (D.told disk.old).pages) expected found)) (λ _. ⊥) ⊥) }
    ensures reads { Reads D.Disk disk.old disk.new }
{
    let mut header = Page::zero();
    match read_header(&kept, disk, &mut header) {
        Ok(()) => (),
        Err(error) => return Err(error),
    }
    let count = match test_header(&header) {
        Ok(count) => count,
        Err(error) => return Err(error),
    };
    Ok(Layers {
        unit: Images::new(alloc),
        kept,
        header,
        count,
        committed_count: count,
    })
}

// The error of the log, as one of pages.
fn from_log(error: LogError) -> PageError
    ensures { result ≡ page_error error }
{
    match error {
        LogError::DiskFault => PageError::DiskFault,
        LogError::Broken {
            page,
            expected,
            found,
        } => PageError::Broken {
            page,
            expected,
            found,
        },
        LogError::Memory => PageError::Memory,
    }
}
