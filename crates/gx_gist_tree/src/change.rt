//! What an insert makes of a page.

use gx_slot::SlotPage;

/// What an insert below a page made of it: it is one page still, or it was split, and a new page has the other half of its
/// items. Each half has a key over all that is on it.
#[derive(Drop)]
pub enum Change<K> {
    Within,
    Split { left: K, page: u64, right: K },
}

/// How the items of a page lie now: as before, in its slots, or in its slots and on another page.
#[derive(Drop)]
pub enum Arranged<K> {
    Same,
    Here,
    Halves {
        left: K,
        page: Box<SlotPage>,
        right: K,
    },
}
