//! The log.

ghost use Rattle.std.specs.Prelude.{◌≡◌, ℕ, ◌+◌, ◌-◌, ◌*◌, ◌^◌, ◌<◌, ◌≤◌, [], ◌∷◌, ◌++◌, List, Ok, IfOk, IfErr, OnOk, OnErr, IsErr};
ghost use Rattle.std.specs.BTreeMap.{btree_map_len, get};
ghost use Rattle.std.specs.Ordering.{nat_cmp};
ghost use Rattle.gx_words.specs.Causes.{Rose};
ghost use Rattle.gx_words.specs.Moments.{Goes};
ghost use Rattle.gx_disk.specs.Areas.{Settled};
ghost use Rattle.gx_log.specs.Broken.{HasCause};
ghost use Rattle.gx_log.specs.Disks.{Leaves, Reads, IsAtRest, BeforeOrAfter, InPlace, SamePages, Synced};
ghost use Rattle.gx_log.specs.Records.{Record, Stands, entries_in, laid_all, page_in, record_of};

use crate::error::LogError;
use crate::gate::set_gate;
use crate::replay::lay_records;
use crate::scan::{find_front, sync_both};
use crate::write::write_record;
use gx_disk::Disk;
use gx_io::Failed;
use gx_pages::Page;
use std::alloc::Global;
use std::collections::BTreeMap;
use std::marker::Model;

/// Pages by their numbers, in order. Each is in a box, so that the map moves none.
pub type Images = BTreeMap<u64, Box<Page>>;

/// A log that was opened. It is seen as its front: the first place whose gate isn't open.
#[derive(Debug, Drop)]
pub struct Log {
    alloc: Global,
    front: u64,
}

impl Model for Log {
    ghost use Rattle.std.specs.Prelude.{ℕ};

    ghost Value = { ℕ };

    ghost view = { λ l. l.front };
}

impl Log {
    /// Syncs both areas, and finds the front. It writes nothing. The allocator serves `replay`.
    pub fn open<D: Disk>(alloc: Global, disk: &mut D) -> Result<Log, LogError>
        ensures at_rest { IfOk result (λ front. D.tells → (records : List Record) × IsAtRest D.Disk front disk.new records) }
        ensures counted { IfOk result (λ front. D.tells → (records : List Record) → Stands records (D.told disk.old).log → IsAtRest D.Disk front disk.new records) }
        ensures settled { OnOk result (D.tells → (area : _) → Settled area (D.told disk.new) (D.now_may_leave disk.new)) }
        ensures bound { IfOk result (λ front. front < 2 ^ 64 - 1) }

        // At each moment a crash leaves an image of before, in which the log, or both areas, may be what was read.
        ensures any_moment { D.tells → Leaves D.Disk (Synced D.Disk disk.old) disk.old disk.new }

        // Each of them could be left before.
        ensures before { D.tells → Leaves D.Disk (D.now_may_leave disk.old) disk.old disk.new }
        ensures told { D.told disk.new ≡ D.told disk.old }
        ensures said { D.said disk.new ≡ D.said disk.old }
        ensures faults { D.faults disk.old ≤ D.faults disk.new }
        ensures cause { IfErr result (HasCause (D.faults disk.old) (D.faults disk.new) D.tells (D.told disk.old).log ⊥) }
        ensures goes { Goes D.moment D.may_have_left_since disk.old disk.new }
    {
        match sync_both(disk) {
            Ok(()) => (),
            Err(fault) => return Err(fault),
        }
        match find_front(disk) {
            Ok(front) => Ok(Log { alloc, front }),
            Err(fault) => Err(fault),
        }
    }

    /// The first place whose gate isn't open.
    pub fn front(&self) -> u64
        ensures { result ≡ self.now }
    {
        self.front
    }

    /// Lays the images of the open records over `into`, in their order. Those of pages from 2^50 on are passed by.
    /// Answers how many entries the records have.
    pub fn replay<D: Disk>(&self, disk: &mut D, into: &mut Images) -> Result<u64, LogError>
        ensures laid { OnOk result (D.tells → (records : List Record) → Stands records (D.told disk.old).log
            → (page : ℕ) → page_in (get nat_cmp into.new page) ≡ laid_all (page_in (get nat_cmp into.old page)) page records) }
        ensures entries { IfOk result (λ n. D.tells → (records : List Record) → Stands records (D.told disk.old).log → n ≡ entries_in records) }
        ensures counted { OnOk result (D.tells → (records : List Record) × Stands records (D.told disk.old).log) }
        ensures reads { Reads D.Disk disk.old disk.new }
        ensures cause { IfErr result (HasCause (D.faults disk.old) (D.faults disk.new) D.tells (D.told disk.old).log (Unit {0})) }
    {
        lay_records(self.alloc, disk, into)
    }

    /// Adds a record of these images: its body behind the front's gate, a sync, the gate, a sync.
    pub fn append<D: Disk>(&mut self, disk: &mut D, images: &Images) -> Result<(), Failed>
        requires { self.old + (9 + 8200 * btree_map_len images.now) < 2 ^ 64 - 2 }
        ensures added { OnOk result (D.tells → (records : List Record) → IsAtRest D.Disk self.old disk.old records
            → IsAtRest D.Disk self.new disk.new (records ++ record_of images.now.entries ∷ [])) }
        ensures end { OnOk result (self.new ≡ self.old + (9 + 8200 * btree_map_len images.now)) }
        ensures same { OnErr result (self.new ≡ self.old) }

        // At each moment a crash leaves the pages of before, or those of after.
        ensures any_moment { D.tells → (records : List Record) → IsAtRest D.Disk self.old disk.old records
            → Leaves D.Disk (BeforeOrAfter D.Disk disk.old records (records ++ record_of images.now.entries ∷ [])) disk.old disk.new }
        ensures pages { D.tells → (D.told disk.new).pages ≡ (D.told disk.old).pages }
        ensures said { D.said disk.new ≡ D.said disk.old }
        ensures faults { D.faults disk.old ≤ D.faults disk.new }
        ensures failed { IsErr result → Rose (D.faults disk.old) (D.faults disk.new) }
        ensures goes { Goes D.moment D.may_have_left_since disk.old disk.new }
    {
        let end = write_record(disk, self.front + 1, images)?;
        set_gate(disk, self.front, 1)?;
        self.front = end;
        Ok(())
    }

    /// Closes the first gate, so that no record counts. Where none counts it writes nothing: a byte that is written
    /// again may hold anything after a crash, and a body whose gate was never opened may stand behind it.
    pub fn reset<D: Disk>(&mut self, disk: &mut D) -> Result<(), Failed>
        ensures none { OnOk result (D.tells → (records : List Record) → IsAtRest D.Disk self.old disk.old records → IsAtRest D.Disk self.new disk.new []) }
        ensures front { OnOk result (self.new ≡ 0) }
        ensures same { OnErr result (self.new ≡ self.old) }
        ensures idle { self.old ≡ 0 → (disk.new ≡ disk.old) × (result ≡ Ok tt) }

        // At each moment a crash leaves all records, or none.
        ensures any_moment { D.tells → (records : List Record) → IsAtRest D.Disk self.old disk.old records
            → Leaves D.Disk (BeforeOrAfter D.Disk disk.old records []) disk.old disk.new }

        // Where the pages of the records stand in the area Pages too, each image has the pages of before.
        ensures same_pages { D.tells → (records : List Record) → IsAtRest D.Disk self.old disk.old records → InPlace D.Disk disk.old records
            → Leaves D.Disk (SamePages D.Disk disk.old) disk.old disk.new }
        ensures pages { D.tells → (D.told disk.new).pages ≡ (D.told disk.old).pages }
        ensures said { D.said disk.new ≡ D.said disk.old }
        ensures faults { D.faults disk.old ≤ D.faults disk.new }
        ensures failed { IsErr result → Rose (D.faults disk.old) (D.faults disk.new) }
        ensures goes { Goes D.moment D.may_have_left_since disk.old disk.new }
    {
        if self.front == 0 {
            return Ok(());
        }
        set_gate(disk, 0, 0)?;
        self.front = 0;
        Ok(())
    }
}

/// One log has one list of counted records.
pub fn one_meaning()
    ensures { (records others : List Record) (log : List ℕ) → Stands records log → Stands others log → records ≡ others }
{}
