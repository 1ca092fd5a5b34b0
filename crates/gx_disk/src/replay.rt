//! Events replayed, to tell what a crash might have left.

ghost use Rattle.std.specs.Prelude.{◌≡◌, reverse, IfOk, OnOk};
ghost use Rattle.gx_disk.specs.Events.{until, told_after};
ghost use Rattle.gx_disk.specs.Picks.{picked, picked_after};
ghost use Rattle.gx_disk.specs.Vectors.{image_of};

use crate::areas::{Areas, areas_with, copy_area, fill_area, write_area};
use crate::event::{Change, Event};
use crate::image::Pick;
use gx_bytes::NoMemory;
use std::alloc::Global;

/// The events of the first `calls` disk calls.
pub fn kept_until(events: &[Event], calls: u64) -> &[Event]
    ensures { reverse result.now ≡ until calls (reverse events.now) }
{
    let mut kept = events;
    while let Some((last, front)) = kept.split_last() {
        if last.calls <= calls {
            return kept;
        }
        kept = front;
    }
    kept
}

/// The image that `pick` takes after these events.
pub fn replay(alloc: Global, start: &Areas, events: &[Event], pick: Pick) -> Result<Areas, NoMemory>
    ensures { IfOk result (λ left. image_of left ≡ picked pick (image_of start.now) (reverse events.now)) }
{
    let mut told = areas_with(alloc, &start.pages, &start.log)?;
    let mut left = areas_with(alloc, &start.pages, &start.log)?;
    for event in events {
        leave(&event.change, pick, &told, &mut left)?;
        tell(&event.change, &mut told)?;
    }
    Ok(left)
}

// What a change makes of the image that `pick` takes.
fn leave(change: &Change, pick: Pick, told: &Areas, left: &mut Areas) -> Result<(), NoMemory>
    ensures { OnOk result (image_of left.new ≡ picked_after pick change.now (image_of told.now) (image_of left.old)) }
{
    match change {
        Change::Write(area, at, bytes) => match pick {
            Pick::Nothing => Ok(()),
            Pick::All => write_area(left, *area, *at, bytes),
            Pick::Filled => fill_area(left, *area, *at, bytes.len()),
        },
        Change::FailedWrite(area, at, len) => match pick {
            Pick::Nothing | Pick::All => Ok(()),
            Pick::Filled => fill_area(left, *area, *at, *len),
        },
        Change::Sync(area) => copy_area(told, left, *area),
        Change::Answer(_) => Ok(()),
    }
}

// What a change makes of what is read.
fn tell(change: &Change, told: &mut Areas) -> Result<(), NoMemory>
    ensures { OnOk result (image_of told.new ≡ told_after change.now (image_of told.old)) }
{
    match change {
        Change::Write(area, at, bytes) => write_area(told, *area, *at, bytes),
        Change::FailedWrite(..) | Change::Sync(_) | Change::Answer(_) => Ok(()),
    }
}
