//! A new database.

ghost use Rattle.std.specs.Prelude.{◌≡◌, ◌≤◌, ◌∷◌, [], OnOk, IsErr};
ghost use Rattle.gx_words.specs.Causes.{Rose};
ghost use Rattle.gx_words.specs.Image.{Image};
ghost use Rattle.gx_disk.specs.Areas.{Settled};
ghost use Rattle.gx_disk.specs.declared.area.Area.TheVariants.{Log};
ghost use Rattle.gx_log.specs.Disks.{Leaves};
ghost use Rattle.gx_log.specs.Records.{Stands, HasMap};
ghost use Rattle.gx_pages.specs.Databases.{empty_pages};

use crate::places::write_page;
use gx_disk::{Area, Disk};
use gx_io::Failed;
use gx_pages::{empty_catalog, header_page};

/// Makes an empty database of two pages, whatever the disk held.
pub fn format<D: Disk>(disk: &mut D) -> Result<(), Failed>
    ensures empty { OnOk result (D.tells → (c : Image) → D.now_may_leave disk.new c → HasMap c empty_pages) }
    ensures said { D.said disk.new ≡ D.said disk.old }
    ensures faults { D.faults disk.old ≤ D.faults disk.new }
    ensures failed { IsErr result → Rose (D.faults disk.old) (D.faults disk.new) }

    // At each moment nothing more is answered.
    ensures silent { Leaves D.Disk (λ _. Unit {0}) disk.old disk.new }
{
    match shut_log(disk) {
        Ok(()) => (),
        Err(_) => return Err(Failed),
    }
    match write_page(disk, 0, &header_page(2)) {
        Ok(()) => (),
        Err(_) => return Err(Failed),
    }
    match write_page(disk, 1, &empty_catalog()) {
        Ok(()) => (),
        Err(_) => return Err(Failed),
    }
    match disk.sync(Area::Pages) {
        Ok(()) => (),
        Err(_) => return Err(Failed),
    }
    Ok(())
}

// Writes the first gate as one that isn't open, to the disk.
fn shut_log<D: Disk>(disk: &mut D) -> Result<(), Failed>
    ensures shut { OnOk result (D.tells → Stands [] (D.told disk.new).log) }
    ensures settled { OnOk result (D.tells → Settled Log (D.told disk.new) (D.now_may_leave disk.new)) }
    ensures said { D.said disk.new ≡ D.said disk.old }
    ensures faults { D.faults disk.old ≤ D.faults disk.new }
    ensures failed { IsErr result → Rose (D.faults disk.old) (D.faults disk.new) }
    ensures silent { Leaves D.Disk (λ _. Unit {0}) disk.old disk.new }
{
    match disk.write_at(Area::Log, 0, &[0]) {
        Ok(()) => (),
        Err(_) => return Err(Failed),
    }
    match disk.sync(Area::Log) {
        Ok(()) => (),
        Err(_) => return Err(Failed),
    }
    Ok(())
}
