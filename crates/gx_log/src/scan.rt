//! Reads of the log.

ghost use Rattle.std.specs.Prelude.{◌≡◌, ◌≢◌, ℕ, ◌+◌, ◌-◌, ◌*◌, ◌^◌, ◌<◌, ◌≤◌, [], length, take, drop, replicate, slice_index, List, IfOk, IfErr, IfSome, IfNone, OnOk, get_or, IsErr};
ghost use Rattle.gx_words.specs.Causes.{Rose};
ghost use Rattle.gx_words.specs.Image.{Image};
ghost use Rattle.gx_words.specs.Moments.{Goes};
ghost use Rattle.gx_bytes.specs.Fields.{le64};
ghost use Rattle.gx_log.specs.Broken.{HasCause};
ghost use Rattle.gx_log.specs.Disks.{Reads, Leaves, Synced};
ghost use Rattle.gx_log.specs.Places.{IsShut, IsOpen, PlaceCause, Front};

use crate::error::LogError;
use gx_disk::{Area, Disk};

/// The gate and the count of a record.
pub const HEAD: u64 = 9;

/// The bytes of an entry.
pub const ENTRY: u64 = 8200;

/// Where the record at this place ends, if its gate is open. `size` is the size of the log.
pub fn record_end<D: Disk>(disk: &mut D, place: u64, size: u64) -> Result<Option<u64>, LogError>
    requires within { place ≤ size }
    requires bound { size < 2 ^ 64 - 1 }
    ensures reads { Reads D.Disk disk.old disk.new }
    ensures further { IfOk result (λ found. IfSome found (λ end. (place + 9 ≤ end) × (end ≤ size))) }
    ensures open { IfOk result (λ found. IfSome found (λ end. D.tells → size ≡ length (D.told disk.old).log → IsOpen (D.told disk.old).log place end)) }
    ensures shut { IfOk result (λ found. IfNone found (D.tells → size ≡ length (D.told disk.old).log → IsShut (D.told disk.old).log place)) }
    ensures cause { IfErr result (PlaceCause (D.faults disk.old) (D.faults disk.new) D.tells (D.told disk.old).log place size) }
{
    if place == size {
        return Err(LogError::Broken {
            page: place,
            expected: place + 1,
            found: size,
        });
    }
    let (gate, count) = match head_at(disk, place) {
        Ok(head) => head,
        Err(fault) => return Err(fault),
    };
    if gate != 1 {
        return Ok(None);
    }
    if size - place < HEAD {
        return Err(LogError::Broken {
            page: place,
            expected: place.saturating_add(HEAD),
            found: size,
        });
    }
    let end = place
        .saturating_add(HEAD)
        .saturating_add(count.saturating_mul(ENTRY));
    if end > size {
        return Err(LogError::Broken {
            page: place,
            expected: end,
            found: size,
        });
    }
    Ok(Some(end))
}

// The gate at this place, and the count behind it. Where the log has fewer bytes the others count as zeros.
fn head_at<D: Disk>(disk: &mut D, place: u64) -> Result<(u8, u64), LogError>
    requires { place < 2 ^ 64 - 1 }
    ensures reads { Reads D.Disk disk.old disk.new }
    ensures gate { IfOk result (λ head. D.tells → place < length (D.told disk.old).log → slice_index (D.told disk.old).log place ≡ head.0) }
    ensures count { IfOk result (λ head. D.tells → place + 9 ≤ length (D.told disk.old).log → take 8 (drop (place + 1) (D.told disk.old).log) ≡ le64 head.1) }
    ensures fits { IfOk result (λ head. head.1 < 2 ^ 64) }
    ensures cause { IfErr result (λ e. (e ≡ LogError.DiskFault) × Rose (D.faults disk.old) (D.faults disk.new)) }
{
    let mut gate = [0u8; 1];
    if let Err(fault) = read_part(disk, place, &mut gate) {
        return Err(fault);
    }
    let mut field = [0u8; 8];
    if let Err(fault) = read_part(disk, place + 1, &mut field) {
        return Err(fault);
    }
    let [first] = gate;
    Ok((first, number_of(&field)))
}

/// The number in a field.
pub fn number_of(field: &[u8; 8]) -> u64
    ensures { field.now ≡ le64 result }
{
    u64::from_le_bytes(*field)
}

/// Reads bytes of the log. Where it has fewer the others stay.
pub fn read_part<D: Disk>(disk: &mut D, at: u64, into: &mut [u8]) -> Result<(), LogError>
    ensures reads { Reads D.Disk disk.old disk.new }
    ensures bytes { OnOk result (D.tells → at + length into.old ≤ length (D.told disk.old).log → into.new ≡ take (length into.old) (drop at (D.told disk.old).log)) }
    ensures cause { IfErr result (λ e. (e ≡ LogError.DiskFault) × Rose (D.faults disk.old) (D.faults disk.new)) }
{
    match disk.read(Area::Log, at, into) {
        Ok(_) => Ok(()),
        Err(_) => Err(LogError::DiskFault),
    }
}

/// Syncs both areas, the log first.
pub fn sync_both<D: Disk>(disk: &mut D) -> Result<(), LogError>
    ensures images { D.tells → (c : Image) → D.now_may_leave disk.new c → Synced D.Disk disk.old c }
    ensures settled { OnOk result (D.tells → (c : Image) → D.now_may_leave disk.new c → c ≡ D.told disk.old) }
    ensures any_moment { D.tells → Leaves D.Disk (Synced D.Disk disk.old) disk.old disk.new }
    ensures before { D.tells → Leaves D.Disk (D.now_may_leave disk.old) disk.old disk.new }
    ensures fewer { D.tells → (c : Image) → D.now_may_leave disk.new c → D.now_may_leave disk.old c }
    ensures told { D.told disk.new ≡ D.told disk.old }
    ensures said { D.said disk.new ≡ D.said disk.old }
    ensures faults { D.faults disk.old ≤ D.faults disk.new }
    ensures cause { IfErr result (λ e. (e ≡ LogError.DiskFault) × Rose (D.faults disk.old) (D.faults disk.new)) }
    ensures goes { Goes D.moment D.may_have_left_since disk.old disk.new }
{
    match disk.sync(Area::Log) {
        Ok(()) => (),
        Err(_) => return Err(LogError::DiskFault),
    }
    match disk.sync(Area::Pages) {
        Ok(()) => (),
        Err(_) => return Err(LogError::DiskFault),
    }
    Ok(())
}

/// The front of the log: the first place whose gate isn't open.
pub fn find_front<D: Disk>(disk: &mut D) -> Result<u64, LogError>
    ensures reads { Reads D.Disk disk.old disk.new }
    ensures front { IfOk result (λ front. D.tells → Front (D.told disk.old).log front) }
    ensures bound { IfOk result (λ front. front < 2 ^ 64 - 1) }
    ensures cause { IfErr result (HasCause (D.faults disk.old) (D.faults disk.new) D.tells (D.told disk.old).log ⊥) }
{
    let size = match size_of(disk) {
        Ok(size) => size,
        Err(fault) => return Err(fault),
    };
    let mut place = 0;
    loop {
        match record_end(disk, place, size) {
            Ok(Some(end)) => place = end,
            Ok(None) => return Ok(place),
            Err(fault) => return Err(fault),
        }
    }
}

/// The size of the log.
pub fn size_of<D: Disk>(disk: &mut D) -> Result<u64, LogError>
    ensures reads { Reads D.Disk disk.old disk.new }
    ensures size { IfOk result (λ n. D.tells → n ≡ length (D.told disk.old).log) }
    ensures bound { IfOk result (λ n. n < 2 ^ 64 - 1) }
    ensures cause { IfErr result (λ e. (e ≡ LogError.DiskFault) × Rose (D.faults disk.old) (D.faults disk.new)) }
{
    match disk.size(Area::Log) {
        Ok(size) => Ok(size),
        Err(_) => Err(LogError::DiskFault),
    }
}
