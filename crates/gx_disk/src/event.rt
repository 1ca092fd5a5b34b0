//! What a host in memory keeps of its calls.

use crate::area::Area;

/// What a call changed, or would have changed.
#[derive(Drop)]
pub enum Change {
    /// These bytes were written from a place on.
    Write(Area, u64, Vec<u8>),
    /// A write of so many bytes from a place on failed.
    FailedWrite(Area, u64, usize),
    /// The area was synced.
    Sync(Area),
    /// These bytes were answered.
    Answer(Vec<u8>),
}

/// A change, and how many disk calls there were by then, the call itself among them.
#[derive(Drop)]
pub struct Event {
    pub calls: u64,
    pub change: Change,
}
