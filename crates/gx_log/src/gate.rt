//! The gate of a record.

ghost use Rattle.std.specs.Prelude.{◌≡◌, ◌+◌, ◌-◌, ◌^◌, ◌<◌, ◌≤◌, [], ◌∷◌, OnOk, IsErr};
ghost use Rattle.gx_words.specs.Causes.{Rose};
ghost use Rattle.gx_words.specs.Image.{written};
ghost use Rattle.gx_words.specs.Moments.{Goes};
ghost use Rattle.gx_disk.specs.Areas.{Settled};
ghost use Rattle.gx_disk.specs.declared.area.Area.TheVariants.{Log};
ghost use Rattle.gx_log.specs.Disks.{Writes};

use crate::write::write_part;
use gx_disk::{Area, Disk};
use gx_io::Failed;

/// Writes a gate, to the disk.
pub fn set_gate<D: Disk>(disk: &mut D, place: u64, gate: u8) -> Result<(), Failed>
    requires { place + 1 < 2 ^ 64 - 1 }
    ensures writes { D.tells → Settled Log (D.told disk.old) (D.now_may_leave disk.old) → Writes D.Disk place 1 disk.old disk.new }
    ensures done { OnOk result (D.tells → (D.told disk.new).log ≡ written (D.told disk.old).log place (gate ∷ [])) }
    ensures settled { OnOk result (D.tells → Settled Log (D.told disk.new) (D.now_may_leave disk.new)) }
    ensures pages { D.tells → (D.told disk.new).pages ≡ (D.told disk.old).pages }
    ensures said { D.said disk.new ≡ D.said disk.old }
    ensures faults { D.faults disk.old ≤ D.faults disk.new }
    ensures failed { IsErr result → Rose (D.faults disk.old) (D.faults disk.new) }
    ensures goes { Goes D.moment D.may_have_left_since disk.old disk.new }
{
    write_part(disk, place, &[gate])?;
    disk.sync(Area::Log)?;
    Ok(())
}
