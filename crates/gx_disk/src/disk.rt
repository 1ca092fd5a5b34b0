//! What a disk and a host promise.

ghost use Rattle.std.specs.Prelude.{◌≡◌, ℕ, ◌+◌, ◌-◌, ◌^◌, ◌<◌, ◌≤◌, ◌↔◌, ◌++◌, length, take, drop, min, IfOk, OnOk, OnErr};
ghost use Rattle.gx_words.specs.Causes.{FailsWith, Said};
ghost use Rattle.gx_words.specs.Image.{Image};
ghost use Rattle.gx_words.specs.Moments.{Moment, Follows, Reaches, Keeps, Now, Saying, Elapses};
ghost use Rattle.gx_disk.specs.Areas.{area_of, TornIn, write_in, SyncedIn};

use crate::area::Area;
use gx_io::Failed;

/// A disk of two areas, each a list of fewer than 2^64 - 1 bytes. Between two syncs of an area a crash may leave any
/// bytes in each range that was written and past the old end, and any length between the old one and the new one.
pub trait Disk {
    // Holds where the disk tells its bytes; a real file doesn't.
    ghost tells: { Type 0 };

    // Both areas as they are read.
    ghost told: { Self → Image };

    // How many calls failed, at most 2^64 - 1.
    ghost faults: { Self → ℕ };

    // What a crash at this moment may leave.
    ghost now_may_leave: { Self → Image → Type 0 };

    // The moment, as a number that doesn't fall.
    ghost moment: { Self → ℕ };

    // What a crash at some moment from that one on might have left, during a call or between two, with the bytes
    // answered by then.
    ghost may_have_left_since: { Self → ℕ → Moment Image → Type 0 };

    // The bytes answered so far, and how many answers failed. No call of a disk changes them.
    ghost said: { Self → Said };

    /// How many bytes the area has.
    fn size(&mut self, area: Area) -> Result<u64, Failed>
        ensures size { IfOk result (λ n. tells → n ≡ length (area_of area (told self.old))) }
        ensures bound { IfOk result (λ n. n < 2 ^ 64 - 1) }
        ensures told { told self.new ≡ told self.old }
        ensures images { (c : Image) → now_may_leave self.new c ↔ now_may_leave self.old c }
        ensures time { Elapses (moment self.old) (moment self.new) (may_have_left_since self.old) (may_have_left_since self.new) (Now (now_may_leave self.old) (said self.old).bytes) }
        ensures said { said self.new ≡ said self.old }
        ensures cause { FailsWith (faults self.old) (faults self.new) result };

    /// Reads the bytes from `at` on: as many as `into` has, and fewer only at the area's end. Answers how many.
    fn read(&mut self, area: Area, at: u64, into: &mut [u8]) -> Result<usize, Failed>
        ensures count { IfOk result (λ n. tells → n ≡ min (length into.old) (length (area_of area (told self.old)) - at)) }
        ensures bytes { IfOk result (λ n. tells → into.new ≡ take n (drop at (area_of area (told self.old))) ++ drop n into.old) }
        ensures bound { IfOk result (λ n. n ≤ length into.old) }
        ensures told { told self.new ≡ told self.old }
        ensures images { (c : Image) → now_may_leave self.new c ↔ now_may_leave self.old c }
        ensures time { Elapses (moment self.old) (moment self.new) (may_have_left_since self.old) (may_have_left_since self.new) (Now (now_may_leave self.old) (said self.old).bytes) }
        ensures said { said self.new ≡ said self.old }
        ensures cause { FailsWith (faults self.old) (faults self.new) result };

    /// Writes the bytes from `at` on, over what is there and past the end. Where `at` is past the end, zeros fill the
    /// gap. A write that fails may have written any part of its range.
    fn write_at(&mut self, area: Area, at: u64, bytes: &[u8]) -> Result<(), Failed>
        requires { at + length bytes.now < 2 ^ 64 - 1 }
        ensures written { OnOk result (tells → told self.new ≡ write_in area at bytes.now (told self.old)) }
        ensures torn { tells → TornIn area at (length bytes.now) (told self.old) (told self.new) }
        ensures images { Follows (TornIn area at (length bytes.now)) (now_may_leave self.old) (now_may_leave self.new) }
        ensures reached { OnOk result (tells → Reaches (TornIn area at (length bytes.now)) (now_may_leave self.old) (now_may_leave self.new)) }
        ensures kept { Keeps (now_may_leave self.old) (now_may_leave self.new) }
        ensures time { Elapses (moment self.old) (moment self.new) (may_have_left_since self.old) (may_have_left_since self.new) (Now (now_may_leave self.new) (said self.old).bytes) }
        ensures said { said self.new ≡ said self.old }
        ensures cause { FailsWith (faults self.old) (faults self.new) result };

    /// After it a crash leaves in the area what a read gives. A sync that fails changes nothing.
    fn sync(&mut self, area: Area) -> Result<(), Failed>
        ensures images { OnOk result (tells → Follows (SyncedIn area (told self.old)) (now_may_leave self.old) (now_may_leave self.new)) }
        ensures reached { OnOk result (tells → Reaches (SyncedIn area (told self.old)) (now_may_leave self.old) (now_may_leave self.new)) }
        ensures same { OnErr result ((c : Image) → now_may_leave self.new c ↔ now_may_leave self.old c) }
        ensures fewer { tells → Keeps (now_may_leave self.new) (now_may_leave self.old) }
        ensures told { told self.new ≡ told self.old }
        ensures time { Elapses (moment self.old) (moment self.new) (may_have_left_since self.old) (may_have_left_since self.new) (Now (now_may_leave self.new) (said self.old).bytes) }
        ensures said { said self.new ≡ said self.old }
        ensures cause { FailsWith (faults self.old) (faults self.new) result };

    // What the disk reads as is one of its images.
    ghost told_may_stay: { (d : Self) → tells → now_may_leave d (told d) };

    // What a crash now may leave, it may have left since an earlier moment.
    ghost counts_now: { (d : Self) (t : ℕ) (c : Image) → t ≤ moment d → now_may_leave d c → may_have_left_since d t (record { image = c; bytes = (said d).bytes }) };

    // Since this moment there is no other.
    ghost only_now: { (d : Self) (m : Moment Image) → may_have_left_since d (moment d) m → Now (now_may_leave d) (said d).bytes m };
}

/// A disk, and who is answered.
pub trait Host: Disk {
    /// Answers these bytes. An answer that fails has answered some front of them. It changes nothing of the disk.
    fn answer(&mut self, bytes: &[u8]) -> Result<(), Failed>
        ensures said { OnOk result (Self.tells → (Self.said self.new).bytes ≡ (Self.said self.old).bytes ++ bytes.now) }
        ensures front { OnErr result (Self.tells → (n : ℕ) × ((Self.said self.new).bytes ≡ (Self.said self.old).bytes ++ take n bytes.now)) }
        ensures told { Self.told self.new ≡ Self.told self.old }
        ensures faults { Self.faults self.new ≡ Self.faults self.old }
        ensures images { (c : Image) → Self.now_may_leave self.new c ↔ Self.now_may_leave self.old c }
        ensures time { Elapses (Self.moment self.old) (Self.moment self.new) (Self.may_have_left_since self.old) (Self.may_have_left_since self.new) (Saying (Self.now_may_leave self.old) (Self.said self.old).bytes bytes.now) }
        ensures cause { FailsWith (Self.said self.old).faults (Self.said self.new).faults result };
}
