//! Pages that are read, from memory or else from the disk.

ghost use Rattle.std.specs.Prelude.{◌≡◌, ℕ, ◌-◌, ◌*◌, ◌^◌, ◌<◌, ◌≤◌, List, length, Some, None, Ok, IfErr, OnOk, OnErr};
ghost use Rattle.gx_words.specs.PageMap.{PageMap};
ghost use Rattle.gx_log.specs.Disks.{Reads};
ghost use Rattle.gx_pages.specs.Pages.{HasCause};
ghost use Rattle.gx_pager.specs.Cached.{Agrees, cached};
ghost use Rattle.gx_pager.specs.Layers.{over, pieces};
ghost use Rattle.gx_pager.specs.Memory.{memory};

use crate::cache::Cache;
use crate::copies::copy;
use crate::layers::Layers;
use crate::places::read_page;
use gx_disk::Disk;
use gx_pages::{Page, PageError};
use std::alloc::Global;

// Reads a page, from the cache or else from the area Pages. Then it is cached.
fn read_cached<D: Disk>(
    alloc: Global,
    cache: &mut Cache,
    disk: &mut D,
    page: u64,
    into: &mut Page,
) -> Result<(), PageError>
    requires { page < 2 ^ 50 }
    ensures bytes { OnOk result (D.tells → Agrees (pieces (D.told disk.old)) cache.old.pages.entries → pieces (D.told disk.old) page ≡ Some into.new) }
    ensures cause { IfErr result (HasCause (D.faults disk.old) (D.faults disk.new) (λ at expected found. (at ≡ page) × (expected ≡ 8192) × (found < 8192)
        × (D.tells → (pieces (D.told disk.old) page ≡ None) × (found ≡ length (D.told disk.old).pages - page * 8192))) (λ _. ⊥) ⊥) }

    // A cached page is read without a call of the disk.
    ensures near { (bytes : List ℕ) → cached cache.old.pages.entries page ≡ Some bytes → (into.new ≡ bytes) × (result ≡ Ok tt) × (disk.new ≡ disk.old) }
    ensures agrees { D.tells → Agrees (pieces (D.told disk.old)) cache.old.pages.entries → Agrees (pieces (D.told disk.new)) cache.new.pages.entries }
    ensures reads { Reads D.Disk disk.old disk.new }
{
    if cache.get(page, into) {
        return Ok(());
    }
    match read_page(disk, page, into) {
        Ok(()) => (),
        Err(error) => return Err(error),
    }
    cache.put(alloc, page, into);
    Ok(())
}

/// Reads a page, from memory or else from the area Pages.
pub fn load<D: Disk>(
    alloc: Global,
    layers: &Layers,
    cache: &mut Cache,
    disk: &mut D,
    page: u64,
    into: &mut Page,
) -> Result<(), PageError>
    requires { page < 2 ^ 50 }
    ensures bytes { OnOk result (D.tells → Agrees (pieces (D.told disk.old)) cache.old.pages.entries → over (memory layers.now page) (pieces (D.told disk.old) page) ≡ Some into.new) }
    ensures cause { IfErr result (HasCause (D.faults disk.old) (D.faults disk.new) (λ at expected found. (at ≡ page) × (expected ≡ 8192) × (found < 8192)
        × (D.tells → (over (memory layers.now page) (pieces (D.told disk.old) page) ≡ None) × (found ≡ length (D.told disk.old).pages - page * 8192))) (λ _. ⊥) ⊥) }

    // A page in memory, or else a cached one, is read without a call of the disk.
    ensures near { (bytes : List ℕ) → over (memory layers.now page) (cached cache.old.pages.entries page) ≡ Some bytes → (into.new ≡ bytes) × (result ≡ Ok tt) × (disk.new ≡ disk.old) }
    ensures absent { OnErr result (memory layers.now page ≡ None) }
    ensures agrees { D.tells → Agrees (pieces (D.told disk.old)) cache.old.pages.entries → Agrees (pieces (D.told disk.new)) cache.new.pages.entries }
    ensures reads { Reads D.Disk disk.old disk.new }
{
    if let Some(found) = layers.find(page) {
        copy(found, into);
        return Ok(());
    }
    read_cached(alloc, cache, disk, page, into)
}
