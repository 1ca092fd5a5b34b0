//! The images of the open records, laid over others.

ghost use Rattle.std.specs.Prelude.{◌≡◌, ℕ, ◌+◌, ◌-◌, ◌*◌, ◌/◌, ◌^◌, ◌<◌, ◌≤◌, [], ◌∷◌, List, length, take, drop, IfOk, IfErr, OnOk};
ghost use Rattle.std.specs.BTreeMap.{get};
ghost use Rattle.std.specs.Ordering.{nat_cmp};
ghost use Rattle.gx_log.specs.Broken.{HasCause};
ghost use Rattle.gx_log.specs.Disks.{Reads};
ghost use Rattle.gx_log.specs.Places.{cut, LayCause};
ghost use Rattle.gx_log.specs.Records.{Record, Stands, entries_in, laid, laid_all, page_in};

use crate::error::LogError;
use crate::log::Images;
use crate::scan::{ENTRY, HEAD, number_of, read_part, record_end, size_of};
use gx_disk::Disk;
use gx_pages::Page;
use std::alloc::Global;

/// The page numbers that there are.
const PAGES: u64 = 1 << 50;

// Reads an entry of the log, and lays it over the images.
fn lay_entry<D: Disk>(
    alloc: Global,
    disk: &mut D,
    at: u64,
    into: &mut Images,
) -> Result<(), LogError>
    requires { at + 8200 < 2 ^ 64 - 1 }
    ensures reads { Reads D.Disk disk.old disk.new }
    ensures laid { OnOk result (D.tells → at + 8200 ≤ length (D.told disk.old).log → (page : ℕ)
        → page_in (get nat_cmp into.new page) ≡ laid (page_in (get nat_cmp into.old page)) page ((take 8 (drop at (D.told disk.old).log), take 8192 (drop (at + 8) (D.told disk.old).log)) ∷ [])) }
    ensures cause { IfErr result (LayCause (D.faults disk.old) (D.faults disk.new)) }
{
    let mut field = [0u8; 8];
    match read_part(disk, at, &mut field) {
        Ok(()) => (),
        Err(fault) => return Err(fault),
    }
    let number = number_of(&field);
    if number >= PAGES {
        return Ok(());
    }
    let mut page = match Box::new(alloc, Page::zero()) {
        Ok(page) => page,
        Err(_) => return Err(LogError::Memory),
    };
    match read_page(disk, at + 8, &mut page) {
        Ok(()) => (),
        Err(fault) => return Err(fault),
    }
    match into.insert(number, page) {
        Ok(_) => Ok(()),
        Err(_) => Err(LogError::Memory),
    }
}

// Reads a page of the log.
fn read_page<D: Disk>(disk: &mut D, at: u64, page: &mut Box<Page>) -> Result<(), LogError>
    ensures reads { Reads D.Disk disk.old disk.new }
    ensures bytes { OnOk result (D.tells → at + 8192 ≤ length (D.told disk.old).log → page.new.value ≡ take 8192 (drop at (D.told disk.old).log)) }
    ensures cause { IfErr result (LayCause (D.faults disk.old) (D.faults disk.new)) }
{
    read_bytes(disk, at, page.as_mut())
}

fn read_bytes<D: Disk>(disk: &mut D, at: u64, page: &mut Page) -> Result<(), LogError>
    ensures reads { Reads D.Disk disk.old disk.new }
    ensures bytes { OnOk result (D.tells → at + 8192 ≤ length (D.told disk.old).log → page.new ≡ take 8192 (drop at (D.told disk.old).log)) }
    ensures cause { IfErr result (LayCause (D.faults disk.old) (D.faults disk.new)) }
{
    read_part(disk, at, page.bytes_mut())
}

// Lays so many entries of the log over the images.
fn lay_entries<D: Disk>(
    alloc: Global,
    disk: &mut D,
    from: u64,
    count: u64,
    into: &mut Images,
) -> Result<(), LogError>
    requires { from + 8200 * count < 2 ^ 64 - 1 }
    ensures reads { Reads D.Disk disk.old disk.new }
    ensures laid { OnOk result (D.tells → from + 8200 * count ≤ length (D.told disk.old).log → (page : ℕ)
        → page_in (get nat_cmp into.new page) ≡ laid (page_in (get nat_cmp into.old page)) page (cut 8 8192 count (drop from (D.told disk.old).log))) }
    ensures cause { IfErr result (LayCause (D.faults disk.old) (D.faults disk.new)) }
{
    for k in 0..count {
        match lay_entry(alloc, disk, from + ENTRY * k, into) {
            Ok(()) => (),
            Err(fault) => return Err(fault),
        }
    }
    Ok(())
}

/// Lays the images of the open records over others, in their order. Answers how many entries the records have.
pub fn lay_records<D: Disk>(alloc: Global, disk: &mut D, into: &mut Images) -> Result<u64, LogError>
    ensures laid { OnOk result (D.tells → (records : List Record) → Stands records (D.told disk.old).log
        → (page : ℕ) → page_in (get nat_cmp into.new page) ≡ laid_all (page_in (get nat_cmp into.old page)) page records) }
    ensures entries { IfOk result (λ n. D.tells → (records : List Record) → Stands records (D.told disk.old).log → n ≡ entries_in records) }
    ensures counted { OnOk result (D.tells → (records : List Record) × Stands records (D.told disk.old).log) }
    ensures reads { Reads D.Disk disk.old disk.new }
    ensures cause { IfErr result (HasCause (D.faults disk.old) (D.faults disk.new) D.tells (D.told disk.old).log (Unit {0})) }
{
    let size = match size_of(disk) {
        Ok(size) => size,
        Err(fault) => return Err(fault),
    };
    let mut place = 0;
    let mut entries = 0;
    loop {
        match record_end(disk, place, size) {
            Ok(Some(end)) => {
                let more = (end - place - HEAD) / ENTRY;
                match lay_entries(alloc, disk, place + HEAD, more, into) {
                    Ok(()) => (),
                    Err(fault) => return Err(fault),
                }
                place = end;
                entries += more;
            }
            Ok(None) => return Ok(entries),
            Err(fault) => return Err(fault),
        }
    }
}
