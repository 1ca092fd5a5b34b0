//! Pages in place: reads and writes of the area Pages.

ghost use Rattle.std.specs.Prelude.{◌≡◌, ℕ, ◌-◌, ◌*◌, ◌^◌, ◌<◌, ◌≤◌, length, Some, None, IfErr, OnOk};
ghost use Rattle.gx_words.specs.Causes.{FailsWith};
ghost use Rattle.gx_words.specs.Image.{Image, Torn};
ghost use Rattle.gx_words.specs.Moments.{Now, Elapses};
ghost use Rattle.gx_log.specs.Disks.{Reads};
ghost use Rattle.gx_log.specs.Records.{piece};
ghost use Rattle.gx_pages.specs.Pages.{HasCause};

use gx_disk::{Area, Disk};
use gx_io::Failed;
use gx_pages::{Page, PageError};

/// Reads a page of the area Pages.
#[tactic(auto, using(crate::proofs::Moments::reads_one))]
pub fn read_page<D: Disk>(disk: &mut D, page: u64, into: &mut Page) -> Result<(), PageError>
    requires { page < 2 ^ 50 }
    ensures bytes { OnOk result (D.tells → piece (D.told disk.old).pages page ≡ Some into.new) }
    ensures cause { IfErr result (HasCause (D.faults disk.old) (D.faults disk.new) (λ at expected found. (at ≡ page) × (expected ≡ 8192) × (found < 8192)
        × (D.tells → (piece (D.told disk.old).pages page ≡ None) × (found ≡ length (D.told disk.old).pages - page * 8192))) (λ _. ⊥) ⊥) }
    ensures reads { Reads D.Disk disk.old disk.new }
{
    match disk.read(Area::Pages, page * 8192, into.bytes_mut()) {
        Ok(8192) => Ok(()),
        Ok(found) => Err(PageError::Broken {
            page,
            expected: 8192,
            found: found as u64,
        }),
        Err(_) => Err(PageError::DiskFault),
    }
}

/// Writes a page of the area Pages.
pub fn write_page<D: Disk>(disk: &mut D, page: u64, bytes: &Page) -> Result<(), Failed>
    requires { page < 2 ^ 50 }
    ensures written { OnOk result (D.tells → piece (D.told disk.new).pages page ≡ Some bytes.now) }
    ensures torn { D.tells → Torn (page * 8192) 8192 (D.told disk.old).pages (D.told disk.new).pages }
    ensures log { D.tells → (D.told disk.new).log ≡ (D.told disk.old).log }
    ensures images { (c : Image) → D.now_may_leave disk.new c → (d : Image) × D.now_may_leave disk.old d × Torn (page * 8192) 8192 d.pages c.pages × (c.log ≡ d.log) }
    ensures time { Elapses (D.moment disk.old) (D.moment disk.new) (D.may_have_left_since disk.old) (D.may_have_left_since disk.new) (Now (D.now_may_leave disk.new) (D.said disk.old).bytes) }
    ensures said { D.said disk.new ≡ D.said disk.old }
    ensures cause { FailsWith (D.faults disk.old) (D.faults disk.new) result }
{
    match disk.write_at(Area::Pages, page * 8192, bytes.bytes()) {
        Ok(()) => (),
        Err(_) => return Err(Failed),
    }
    Ok(())
}
