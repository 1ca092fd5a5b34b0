//! A commit: the pages of the unit become a record of the log.

ghost use Rattle.std.specs.Prelude.{◌≡◌, ◌⊎◌, ℕ, ◌+◌, ◌^◌, ◌<◌, ◌≤◌, List, IsErr, OnOk};
ghost use Rattle.gx_words.specs.Causes.{Rose};
ghost use Rattle.gx_words.specs.Moments.{Elapses};
ghost use Rattle.gx_log.specs.Records.{Record, Stands, entries_in};
ghost use Rattle.gx_pager.specs.Known.{IsSound};
ghost use Rattle.gx_pager.specs.Layers.{header_over, map_over};
ghost use Rattle.gx_pager.specs.Left.{MapLeft, MapSince, Follows};
ghost use Rattle.gx_pager.specs.Memory.{now_map, overlay, unit, changed};

use crate::layers::Layers;
use gx_disk::Disk;
use gx_io::Failed;
use gx_log::Log;

/// Adds a record of the unit's pages to the log. Where there are none it calls no disk.
pub fn add_record<D: Disk>(log: &mut Log, disk: &mut D, layers: &Layers) -> Result<(), Failed>
    requires { log.old ≤ 2 ^ 62 }

    // The records show the pages of the unit over those of before.
    ensures sound { OnOk result (D.tells → IsSound D.Disk disk.old log.old layers.now.header (overlay layers.now)
        → IsSound D.Disk disk.new log.new (header_over (unit layers.now 0) layers.now.header) (map_over (unit layers.now) (overlay layers.now))) }
    ensures entries { OnOk result (D.tells → (s : IsSound D.Disk disk.old log.old layers.now.header (overlay layers.now)) (records : List Record) → Stands records (D.told disk.new).log
        → entries_in records ≡ entries_in s.records + changed layers.now) }

    // At each moment a crash leaves the committed map of before, or that of now.
    ensures time { (D.tells → IsSound D.Disk disk.old log.old layers.now.header (overlay layers.now))
        → Elapses (D.moment disk.old) (D.moment disk.new) (MapSince D.Disk disk.old) (MapSince D.Disk disk.new)
        (λ m. (MapLeft D.Disk disk.old m.image ⊎ (m.image ≡ now_map layers.now (D.told disk.old))) × (m.bytes ≡ (D.said disk.old).bytes)) }
    ensures follows { (D.tells → IsSound D.Disk disk.old log.old layers.now.header (overlay layers.now)) → Follows D.Disk disk.old disk.new }
    ensures nothing { changed layers.now ≡ 0 → disk.new ≡ disk.old }
    ensures some { IsErr result → 0 < changed layers.now }
    ensures pages { D.tells → (D.told disk.new).pages ≡ (D.told disk.old).pages }
    ensures said { D.said disk.new ≡ D.said disk.old }
    ensures faults { D.faults disk.old ≤ D.faults disk.new }
    ensures failed { IsErr result → Rose (D.faults disk.old) (D.faults disk.new) }
{
    if layers.unit.len() == 0 {
        return Ok(());
    }
    match log.append(disk, &layers.unit) {
        Ok(()) => (),
        Err(_) => return Err(Failed),
    }
    Ok(())
}
