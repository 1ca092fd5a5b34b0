//! A checkpoint: the pages since the last one are written in place, and the log is emptied.

ghost use Rattle.std.specs.Prelude.{◌≡◌, ◌≢◌, ℕ, ◌*◌, ◌^◌, ◌<◌, ◌≤◌, List, [], Some, IsErr, OnOk};
ghost use Rattle.std.specs.BTreeMap.{get};
ghost use Rattle.std.specs.Ordering.{nat_cmp};
ghost use Rattle.gx_words.specs.Causes.{Rose, FailsWith};
ghost use Rattle.gx_words.specs.Image.{Image};
ghost use Rattle.gx_words.specs.Moments.{Goes};
ghost use Rattle.gx_words.specs.PageMap.{PageMap};
ghost use Rattle.gx_log.specs.Disks.{Leaves, IsAtRest};
ghost use Rattle.gx_log.specs.Records.{HasMap, piece, page_in};
ghost use Rattle.gx_pages.specs.Frees.{HasCount};
ghost use Rattle.gx_pager.specs.Known.{IsSound};
ghost use Rattle.gx_pager.specs.Layers.{shown, pieces, map_over, committed_in};
ghost use Rattle.gx_pager.specs.Left.{HasSome};
ghost use Rattle.gx_pager.specs.Maps.{cut};
ghost use Rattle.gx_pager.specs.Placed.{IsFilled, IsPlaced, IsReady, due};

use crate::layers::Places;
use crate::places::write_page;
use gx_disk::{Area, Disk};
use gx_io::Failed;
use gx_log::Log;
use gx_pages::Page;

// Writes the page of a place, where it has one below the count.
fn write_place<D: Disk>(
    disk: &mut D,
    count: u64,
    page: u64,
    place: &Option<Box<Page>>,
) -> Result<(), Failed>
    requires { count ≤ 2 ^ 50 }

    // What has the overlay's pages in place still has them.
    ensures images { (overlay : PageMap) (start : Image) → overlay page ≡ cut count (λ _. page_in place.now) page
        → ((c : Image) → D.now_may_leave disk.old c → IsPlaced overlay start c) → (c : Image) → D.now_may_leave disk.new c → IsPlaced overlay start c }
    ensures time { (overlay : PageMap) (start : Image) → overlay page ≡ cut count (λ _. page_in place.now) page
        → ((c : Image) → D.now_may_leave disk.old c → IsPlaced overlay start c) → Leaves D.Disk (IsPlaced overlay start) disk.old disk.new }
    ensures told { D.tells → (overlay : PageMap) (start : Image) → overlay page ≡ cut count (λ _. page_in place.now) page → IsPlaced overlay start (D.told disk.old) → IsPlaced overlay start (D.told disk.new) }
    ensures others { D.tells → (n : ℕ) (bytes : List ℕ) → n ≢ page → piece (D.told disk.old).pages n ≡ Some bytes → piece (D.told disk.new).pages n ≡ Some bytes }
    ensures written { OnOk result (D.tells → (bytes : List ℕ) → page < count → page_in place.now ≡ Some bytes → piece (D.told disk.new).pages page ≡ Some bytes) }
    ensures said { D.said disk.new ≡ D.said disk.old }
    ensures goes { Goes D.moment D.may_have_left_since disk.old disk.new }
    ensures cause { FailsWith (D.faults disk.old) (D.faults disk.new) result }
{
    if page >= count {
        return Ok(());
    }
    let Some(bytes) = place else {
        return Ok(());
    };
    write_page(disk, page, bytes.as_ref())
}

// Writes the pages of all places below the count.
fn write_pages<D: Disk>(disk: &mut D, count: u64, kept: &Places) -> Result<(), Failed>
    requires { count ≤ 2 ^ 50 }
    ensures images { IsReady D.Disk disk.old → (c : Image) → D.now_may_leave disk.new c → IsPlaced (due count kept.now) (D.told disk.old) c }
    ensures time { IsReady D.Disk disk.old → Leaves D.Disk (IsPlaced (due count kept.now) (D.told disk.old)) disk.old disk.new }
    ensures told { D.tells → IsPlaced (due count kept.now) (D.told disk.old) (D.told disk.new) }
    ensures written { OnOk result (D.tells → (n : ℕ) (bytes : List ℕ) → n < count → shown (get nat_cmp kept.now n) ≡ Some bytes → piece (D.told disk.new).pages n ≡ Some bytes) }
    ensures said { D.said disk.new ≡ D.said disk.old }
    ensures goes { Goes D.moment D.may_have_left_since disk.old disk.new }
    ensures faults { D.faults disk.old ≤ D.faults disk.new }
    ensures failed { IsErr result → Rose (D.faults disk.old) (D.faults disk.new) }
{
    let _count = kept.len();
    for (page, place) in kept {
        match write_place(disk, count, *page, place) {
            Ok(()) => (),
            Err(_) => return Err(Failed),
        }
    }
    Ok(())
}

/// Writes the pages below the count that have a place, to the disk, and then empties the log.
pub fn close_log<D: Disk>(
    log: &mut Log,
    disk: &mut D,
    count: u64,
    kept: &Places,
) -> Result<(), Failed>
    requires some { 0 < count }
    requires most { count ≤ 2 ^ 50 }

    // At each moment a crash leaves an image that has a map; and the committed one, where no page is lacking.
    ensures time { D.tells → (header : List ℕ) → HasCount header count → IsSound D.Disk disk.old log.old header (λ n. shown (get nat_cmp kept.now n))
        → Leaves D.Disk (λ c. HasSome c × (IsFilled (due count kept.now) (D.told disk.old).pages
        → HasMap c (cut count (map_over (committed_in header (λ n. shown (get nat_cmp kept.now n))) (pieces (D.told disk.old)))))) disk.old disk.new }
    ensures placed { D.tells → IsPlaced (due count kept.now) (D.told disk.old) (record { pages = (D.told disk.new).pages; log = (D.told disk.old).log }) }

    // Afterwards all pages are in place, and the log has no records; and nothing is pending.
    ensures written { OnOk result (D.tells → (n : ℕ) (bytes : List ℕ) → due count kept.now n ≡ Some bytes → piece (D.told disk.new).pages n ≡ Some bytes) }
    ensures none { OnOk result (D.tells → (header : List ℕ) → IsSound D.Disk disk.old log.old header (λ n. shown (get nat_cmp kept.now n)) → IsAtRest D.Disk log.new disk.new []) }
    ensures settled { OnOk result (D.tells → (header : List ℕ) → IsSound D.Disk disk.old log.old header (λ n. shown (get nat_cmp kept.now n))
        → (c : Image) → D.now_may_leave disk.new c → c.pages ≡ (D.told disk.new).pages) }
    ensures front { OnOk result (log.new ≡ 0) }
    ensures same { IsErr result → log.new ≡ log.old }
    ensures said { D.said disk.new ≡ D.said disk.old }
    ensures goes { Goes D.moment D.may_have_left_since disk.old disk.new }
    ensures faults { D.faults disk.old ≤ D.faults disk.new }
    ensures failed { IsErr result → Rose (D.faults disk.old) (D.faults disk.new) }
{
    match write_pages(disk, count, kept) {
        Ok(()) => (),
        Err(_) => return Err(Failed),
    }
    match disk.sync(Area::Pages) {
        Ok(()) => (),
        Err(_) => return Err(Failed),
    }
    log.reset(disk)
}
