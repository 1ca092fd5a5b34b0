//! Both areas in memory.

ghost use Rattle.std.specs.Prelude.{◌≡◌, ◌+◌, ◌-◌, ◌^◌, ◌<◌, ◌≤◌, ◌++◌, length, take, drop, min, replicate, IfOk, OnOk, OnErr};
ghost use Rattle.gx_words.specs.Image.{Image, written};
ghost use Rattle.gx_disk.specs.Areas.{area_of, with_area, write_in};
ghost use Rattle.gx_disk.specs.Picks.{filled, fill_in};
ghost use Rattle.gx_disk.specs.Vectors.{image_of};

use crate::area::Area;
use gx_bytes::NoMemory;
use std::alloc::{AllocError, Global};

/// The bytes of both areas, as vectors.
#[derive(Drop)]
pub struct Areas {
    pub pages: Vec<u8>,
    pub log: Vec<u8>,
}

/// Areas with these bytes.
pub fn areas_with(alloc: Global, pages: &[u8], log: &[u8]) -> Result<Areas, NoMemory>
    ensures { IfOk result (λ made. image_of made ≡ record { pages = pages.now; log = log.now }) }
{
    let pages = Vec::from_slice(alloc, pages)?;
    let log = Vec::from_slice(alloc, log)?;
    Ok(Areas { pages, log })
}

/// Writes the bytes from `at` on in one area.
pub fn write_area(areas: &mut Areas, area: Area, at: u64, bytes: &[u8]) -> Result<(), NoMemory>
    ensures ok { OnOk result (image_of areas.new ≡ write_in area at bytes.now (image_of areas.old)) }
    ensures err { OnErr result (image_of areas.new ≡ image_of areas.old) }
{
    match area {
        Area::Pages => {
            write_bytes(&mut areas.pages, at as usize, bytes)?;
            Ok(())
        }
        Area::Log => {
            write_bytes(&mut areas.log, at as usize, bytes)?;
            Ok(())
        }
    }
}

/// Writes the byte 255 `n` times from `at` on in one area, and in the gap where the place is past the end.
pub fn fill_area(areas: &mut Areas, area: Area, at: u64, n: usize) -> Result<(), NoMemory>
    ensures ok { OnOk result (image_of areas.new ≡ fill_in area at n (image_of areas.old)) }
{
    match area {
        Area::Pages => {
            fill_bytes(&mut areas.pages, at as usize, n)?;
            Ok(())
        }
        Area::Log => {
            fill_bytes(&mut areas.log, at as usize, n)?;
            Ok(())
        }
    }
}

/// Makes one area what it is in `from`.
pub fn copy_area(from: &Areas, to: &mut Areas, area: Area) -> Result<(), NoMemory>
    ensures ok { OnOk result (image_of to.new ≡ with_area area (area_of area (image_of from.now)) (image_of to.old)) }
{
    match area {
        Area::Pages => {
            to.pages.clear();
            to.pages.extend_from_slice(&from.pages)?;
            Ok(())
        }
        Area::Log => {
            to.log.clear();
            to.log.extend_from_slice(&from.log)?;
            Ok(())
        }
    }
}

/// Reads the bytes of one area from `at` on, as many as there are and as `into` has.
pub fn read_area(area: &[u8], at: u64, into: &mut [u8]) -> usize
    ensures count { result ≡ min (length into.old) (length area.now - at) }
    ensures bytes { into.new ≡ take result (drop at area.now) ++ drop result into.old }
{
    let len = area.len() as u64;
    if at >= len {
        return 0;
    }
    let (_, rest) = area.split_at(at as usize);
    let n = into.len().min(rest.len());
    into[..n].copy_from_slice(&rest[..n]);
    n
}

// Fills the area up with a byte, so that it has as many bytes as `end` at least.
fn grow(area: &mut Vec<u8>, end: usize, byte: u8) -> Result<(), NoMemory>
    ensures ok { OnOk result (area.new.items ≡ area.old.items ++ replicate (end - length area.old.items) byte) }
    ensures err { OnErr result (area.new.items ≡ area.old.items) }
{
    if end > area.len() {
        area.resize(end, byte)?;
    }
    Ok(())
}

// Writes bytes over others.
fn overwrite(into: &mut [u8], at: usize, bytes: &[u8])
    requires { at + length bytes.now ≤ length into.old }
    ensures { into.new ≡ take at into.old ++ bytes.now ++ drop (at + length bytes.now) into.old }
{
    into[at..at + bytes.len()].copy_from_slice(bytes);
}

// Writes the bytes from `at` on, over what is there and past the end. A vector of 2^64 bytes has no memory.
fn write_bytes(area: &mut Vec<u8>, at: usize, bytes: &[u8]) -> Result<(), NoMemory>
    ensures ok { OnOk result (area.new.items ≡ written area.old.items at bytes.now) }
    ensures err { OnErr result (area.new.items ≡ area.old.items) }
{
    let Some(end) = at.checked_add(bytes.len()) else {
        return Err(AllocError);
    };
    grow(area, end, 0)?;
    overwrite(area, at, bytes);
    Ok(())
}

// Writes the byte 255 over others.
fn overfill(into: &mut [u8], at: usize, n: usize)
    requires { at + n ≤ length into.old }
    ensures { into.new ≡ take at into.old ++ replicate n 255 ++ drop (at + n) into.old }
{
    into[at..at + n].fill(255);
}

// Writes the byte 255 `n` times from `at` on, and in the gap where the place is past the end.
fn fill_bytes(area: &mut Vec<u8>, at: usize, n: usize) -> Result<(), NoMemory>
    ensures ok { OnOk result (area.new.items ≡ filled area.old.items at n) }
{
    let Some(end) = at.checked_add(n) else {
        return Err(AllocError);
    };
    grow(area, end, 255)?;
    overfill(area, at, n);
    Ok(())
}
