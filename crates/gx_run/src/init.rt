//! A new database in a file.

ghost use Rattle.std.specs.Prelude.{◌≡◌, ◌≢◌, ◌⊎◌, ◌↔◌, ℕ, ◌<◌, ◌≤◌, ◌++◌, Bool, true, false, length, codes};
ghost use Rattle.gx_words.specs.Causes.{Rose};
ghost use Rattle.gx_words.specs.Image.{Image};
ghost use Rattle.gx_log.specs.Records.{HasMap};
ghost use Rattle.gx_pages.specs.Databases.{empty_pages};
ghost use Rattle.gx_run.specs.Lines.{IsDiskKept, size_line};
ghost use Rattle.gx_run.specs.Inits.{AnswersSize};

use crate::fatal::answer_size;
use gx_disk::{Area, Host};
use gx_pager::Pager;

/// Makes an empty database in a file, and gives the status. Without `overwrite` only where the area Pages is empty.
pub fn init<H: Host>(host: &mut H, overwrite: bool) -> u8
    ensures made { result ≡ 0 → H.tells
        → ((c : Image) → H.now_may_leave host.new c → HasMap c empty_pages) × ((H.said host.new).bytes ≡ (H.said host.old).bytes ++ codes "INIT\n") }
    ensures kept { overwrite ≡ false → H.tells → 0 < length (H.told host.old).pages
        → (H.told host.new ≡ H.told host.old) × ((c : Image) → H.now_may_leave host.new c ↔ H.now_may_leave host.old c) }
    ensures kinds { (result ≡ 0) ⊎ ((result ≡ 3) ⊎ ((result ≡ 4) ⊎ (result ≡ 6))) }
    ensures disk { result ≡ 3 → Rose (H.faults host.old) (H.faults host.new) }
    ensures answer { result ≡ 4 → Rose (H.said host.old).faults (H.said host.new).faults }
    ensures size { result ≡ 6 → (overwrite ≡ false) × AnswersSize H.Disk host.old host.new }

    // Where no count rises, an empty area or one to be overwritten becomes a database, and another one is refused.
    ensures complete { ¬ Rose (H.faults host.old) (H.faults host.new) → ¬ Rose (H.said host.old).faults (H.said host.new).faults
        → (overwrite ≡ true) ⊎ (H.tells × (length (H.told host.old).pages ≡ 0)) → result ≡ 0 }
    ensures refused { ¬ Rose (H.faults host.old) (H.faults host.new) → ¬ Rose (H.said host.old).faults (H.said host.new).faults
        → overwrite ≡ false → H.tells → 0 < length (H.told host.old).pages → result ≡ 6 }
{
    if overwrite {
        return make(host);
    }
    match host.size(Area::Pages) {
        Ok(0) => make(host),
        Ok(size) => refuse(host, size),
        Err(_) => 3,
    }
}

// Makes an empty database over whatever is there.
fn make<H: Host>(host: &mut H) -> u8
    ensures made { result ≡ 0 → H.tells
        → ((c : Image) → H.now_may_leave host.new c → HasMap c empty_pages) × ((H.said host.new).bytes ≡ (H.said host.old).bytes ++ codes "INIT\n") }
    ensures kinds { (result ≡ 0) ⊎ ((result ≡ 3) ⊎ (result ≡ 4)) }
    ensures disk { result ≡ 3 → Rose (H.faults host.old) (H.faults host.new) }
    ensures answer { result ≡ 4 → Rose (H.said host.old).faults (H.said host.new).faults }
{
    match Pager::format(host) {
        Ok(()) => (),
        Err(_) => return 3,
    }
    match host.answer(b"INIT\n") {
        Ok(()) => 0,
        Err(_) => 4,
    }
}

// Answers how many bytes are there.
fn refuse<H: Host>(host: &mut H, size: u64) -> u8
    ensures said { result ≡ 6 → H.tells → (H.said host.new).bytes ≡ (H.said host.old).bytes ++ size_line size }
    ensures disk { IsDiskKept H.Disk host.old host.new }
    ensures kinds { (result ≡ 6) ⊎ ((result ≡ 4) × Rose (H.said host.old).faults (H.said host.new).faults) }
{
    match answer_size(host, size) {
        Ok(()) => 6,
        Err(_) => 4,
    }
}
