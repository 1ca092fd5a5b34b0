//! What a page is read as.

ghost use Rattle.std.specs.Prelude.{◌≡◌, ℕ, List};
ghost use Rattle.gx_slot.specs.Slots.{Slots, Fits, spelling, read};

/// A page that is the spelling of slots is read as these slots.
pub fn one_page()
    ensures { (page : List ℕ) (slots : Slots) → page ≡ spelling slots → Fits slots → read page ≡ slots }
{}
