//! Writes of the log.

ghost use Rattle.std.specs.Prelude.{◌≡◌, ℕ, ◌+◌, ◌-◌, ◌*◌, ◌^◌, ◌<◌, ◌≤◌, [], ◌∷◌, ◌++◌, length, IfOk, OnOk, OnErr, IsErr};
ghost use Rattle.std.specs.BTreeMap.{btree_map_len};
ghost use Rattle.gx_words.specs.Causes.{Rose};
ghost use Rattle.gx_words.specs.Image.{written};
ghost use Rattle.gx_words.specs.Moments.{Goes};
ghost use Rattle.gx_bytes.specs.Fields.{le64};
ghost use Rattle.gx_disk.specs.Areas.{Settled};
ghost use Rattle.gx_disk.specs.declared.area.Area.TheVariants.{Log};
ghost use Rattle.gx_log.specs.Disks.{Poured, Writes};
ghost use Rattle.gx_log.specs.Records.{body, record_of, IsRecord};

use crate::log::Images;
use crate::part::Part;
use gx_disk::{Area, Disk};
use gx_io::Failed;
use gx_pages::Page;

/// Writes these bytes in the log.
pub fn write_part<D: Disk>(disk: &mut D, at: u64, bytes: &[u8]) -> Result<(), Failed>
    requires { at + length bytes.now < 2 ^ 64 - 1 }
    ensures writes { Writes D.Disk at (length bytes.now) disk.old disk.new }
    ensures done { OnOk result (D.tells → (D.told disk.new).log ≡ written (D.told disk.old).log at bytes.now) }
    ensures failed { IsErr result → Rose (D.faults disk.old) (D.faults disk.new) }
{
    disk.write_at(Area::Log, at, bytes)
}

// The eight bytes of a number.
fn field_of(number: u64) -> [u8; 8]
    ensures { result ≡ le64 number }
{
    number.to_le_bytes()
}

// Puts an entry behind the bytes that aren't written yet.
fn add_entry(part: &mut Part, number: u64, page: &Page)
    requires { length part.old ≤ 8 }
    ensures added { part.new ≡ part.old ++ (le64 number ++ page.now) }
    ensures length { length page.now ≡ 8192 }
{
    part.add(&field_of(number));
    part.add(page.bytes());
}

// Writes the bytes that aren't written yet, if an entry is among them. Answers where the log goes on.
fn make_room<D: Disk>(disk: &mut D, place: u64, part: &mut Part) -> Result<u64, Failed>
    requires { place + length part.old < 2 ^ 64 - 1 }
    ensures room { OnOk result (length part.new ≤ 8) }
    ensures poured { IfOk result (λ later. Poured D.Disk place later part.old part.new disk.old disk.new) }
    ensures writes { OnErr result (Writes D.Disk place (length part.old) disk.old disk.new) }
    ensures failed { IsErr result → Rose (D.faults disk.old) (D.faults disk.new) }
{
    let bytes = part.bytes();
    let len = bytes.len();
    if len <= 8 {
        return Ok(place);
    }
    write_part(disk, place, bytes)?;
    part.clear();
    Ok(place + len as u64)
}

/// Writes the body of a record, and behind it a gate that isn't open: an entry in each call, the count with the first
/// one, and the gate with the last. Answers where that gate is.
pub fn write_body<D: Disk>(disk: &mut D, at: u64, images: &Images) -> Result<u64, Failed>
    requires { at + (9 + 8200 * btree_map_len images.now) < 2 ^ 64 - 1 }
    ensures writes { Writes D.Disk at (9 + 8200 * btree_map_len images.now) disk.old disk.new }
    ensures done { OnOk result (D.tells → at ≤ length (D.told disk.old).log → (D.told disk.new).log ≡ written (D.told disk.old).log at (body (record_of images.now.entries) ++ 0 ∷ [])) }
    ensures end { IfOk result (λ end. end ≡ at + (8 + 8200 * btree_map_len images.now)) }
    ensures sound { OnOk result (IsRecord (record_of images.now.entries)) }
    ensures failed { IsErr result → Rose (D.faults disk.old) (D.faults disk.new) }
{
    let mut part = Part::new();
    part.add(&field_of(images.len() as u64));
    let mut place = at;
    for (number, page) in images {
        place = make_room(disk, place, &mut part)?;
        add_entry(&mut part, *number, page);
    }
    part.add(&[0]);
    let bytes = part.bytes();
    write_part(disk, place, bytes)?;
    Ok(place + (bytes.len() as u64 - 1))
}

/// Writes a record behind a gate, all of it to the disk. Answers where the next gate is.
pub fn write_record<D: Disk>(disk: &mut D, at: u64, images: &Images) -> Result<u64, Failed>
    requires { at + (9 + 8200 * btree_map_len images.now) < 2 ^ 64 - 1 }
    ensures writes { D.tells → Settled Log (D.told disk.old) (D.now_may_leave disk.old) → Writes D.Disk at (9 + 8200 * btree_map_len images.now) disk.old disk.new }
    ensures done { OnOk result (D.tells → at ≤ length (D.told disk.old).log → (D.told disk.new).log ≡ written (D.told disk.old).log at (body (record_of images.now.entries) ++ 0 ∷ [])) }
    ensures settled { OnOk result (D.tells → Settled Log (D.told disk.new) (D.now_may_leave disk.new)) }
    ensures end { IfOk result (λ end. end ≡ at + (8 + 8200 * btree_map_len images.now)) }
    ensures sound { OnOk result (IsRecord (record_of images.now.entries)) }
    ensures pages { D.tells → (D.told disk.new).pages ≡ (D.told disk.old).pages }
    ensures said { D.said disk.new ≡ D.said disk.old }
    ensures faults { D.faults disk.old ≤ D.faults disk.new }
    ensures failed { IsErr result → Rose (D.faults disk.old) (D.faults disk.new) }
    ensures goes { Goes D.moment D.may_have_left_since disk.old disk.new }
{
    let end = write_body(disk, at, images)?;
    disk.sync(Area::Log)?;
    Ok(end)
}
