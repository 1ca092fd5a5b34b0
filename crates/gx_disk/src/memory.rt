//! A host in memory.

mod crash;

ghost use Rattle.std.specs.Prelude.{◌≡◌, ◌≢◌, ℕ, ◌+◌, ◌-◌, ◌^◌, ◌<◌, ◌≤◌, ◌↔◌, [], ◌∷◌, ◌++◌, length, take, drop, min, reverse, IsTrue, IfOk, OnOk, OnErr};
ghost use Rattle.gx_words.specs.Causes.{FailsWith, Rose, Said};
ghost use Rattle.gx_words.specs.Image.{Image};
ghost use Rattle.gx_words.specs.Moments.{Moment, Follows, Reaches, Keeps, Now, Saying, Elapses};
ghost use Rattle.gx_disk.specs.Areas.{area_of, TornIn, write_in, SyncedIn};
ghost use Rattle.gx_disk.specs.Events.{told_of, said_of};
ghost use Rattle.gx_disk.specs.Numbers.{IsListed, IsNumbered};
ghost use Rattle.gx_disk.specs.Vectors.{image_of};

use crate::area::Area;
use crate::areas::{Areas, areas_with, read_area, write_area};
use crate::disk::{Disk, Host};
use crate::event::{Change, Event};
use gx_bytes::{Bytes, NoMemory};
use gx_io::Failed;
use std::alloc::Global;

/// A host in memory. It keeps its first bytes and each change, so that it can tell what a crash after any number of
/// disk calls might have left. Chosen calls and answers fail.
#[derive(Drop)]
pub struct MemoryHost {
    alloc: Global,
    start: Areas,
    told: Areas,
    events: Vec<Event>,
    answered: Bytes,
    failing: Vec<u64>,
    failing_answers: Vec<u64>,
    calls: u64,
    answers: u64,
    faults: u64,
    answer_faults: u64,
    refused: u64,
    ghost replayed: { told_of (image_of start) (reverse events.items) ≡ image_of told },
    ghost spoken: { said_of (reverse events.items) ≡ answered },
}

impl MemoryHost {
    ghost use Rattle.gx_disk.specs.MemoryHosts.{IsFresh};

    /// A host with these bytes, all of them synced. The disk calls and the answers with these numbers, from 1 on, fail.
    pub fn new(
        alloc: Global,
        pages: &[u8],
        log: &[u8],
        failing: &[u64],
        failing_answers: &[u64],
    ) -> Result<MemoryHost, NoMemory>
        ensures { IfOk result (IsFresh pages.now log.now failing.now failing_answers.now) }
    {
        let start = areas_with(alloc, pages, log)?;
        let told = areas_with(alloc, pages, log)?;
        let failing = Vec::from_slice(alloc, failing)?;
        let failing_answers = Vec::from_slice(alloc, failing_answers)?;
        Ok(MemoryHost {
            alloc,
            start,
            told,
            events: Vec::new(alloc),
            answered: Bytes::new(alloc),
            failing,
            failing_answers,
            calls: 0,
            answers: 0,
            faults: 0,
            answer_faults: 0,
            refused: 0,
        })
    }

    /// How many disk calls there were, at most 2^64 - 1.
    pub fn calls(&self) -> u64
        ensures { result ≡ self.now.calls }
    {
        self.calls
    }

    /// The bytes answered so far.
    pub fn answered(&self) -> &[u8]
        ensures { result.now ≡ self.now.answered }
    {
        self.answered.as_slice()
    }

    /// How many calls and answers failed since the host itself had no memory, at most 2^64 - 1.
    pub fn refused(&self) -> u64
        ensures { result ≡ self.now.refused }
    {
        self.refused
    }
}

// Whether the call of this number is to fail.
fn is_listed(failing: &[u64], number: u64) -> bool
    ensures { IsTrue result ↔ IsListed failing.now number }
{
    failing.contains(&number)
}

// Keeps a failed write among the events. Without memory nothing is kept.
fn keep_failed(
    events: &mut Vec<Event>,
    calls: u64,
    area: Area,
    at: u64,
    len: usize,
) -> Result<(), NoMemory>
    ensures ok { OnOk result (events.new.items ≡ events.old.items ++ (record { calls = calls; change = Change.FailedWrite area at len }) ∷ []) }
    ensures err { OnErr result (events.new.items ≡ events.old.items) }
{
    events.push(Event {
        calls,
        change: Change::FailedWrite(area, at, len),
    })?;
    Ok(())
}

// Keeps a sync among the events. Without memory nothing is kept.
fn keep_sync(events: &mut Vec<Event>, calls: u64, area: Area) -> Result<(), NoMemory>
    ensures ok { OnOk result (events.new.items ≡ events.old.items ++ (record { calls = calls; change = Change.Sync area }) ∷ []) }
    ensures err { OnErr result (events.new.items ≡ events.old.items) }
{
    events.push(Event {
        calls,
        change: Change::Sync(area),
    })?;
    Ok(())
}

// Writes bytes, and keeps the write among the events. Without memory nothing changes.
fn write_and_keep(
    alloc: Global,
    told: &mut Areas,
    events: &mut Vec<Event>,
    calls: u64,
    area: Area,
    at: u64,
    bytes: &[u8],
) -> Result<(), NoMemory>
    ensures told { OnOk result (image_of told.new ≡ write_in area at bytes.now (image_of told.old)) }
    ensures kept { OnOk result ((v : _) × (v.items ≡ bytes.now) × (events.new.items ≡ events.old.items ++ (record { calls = calls; change = Change.Write area at v }) ∷ [])) }
    ensures same { OnErr result (image_of told.new ≡ image_of told.old) }
    ensures none { OnErr result (events.new.items ≡ events.old.items) }
{
    let copy = Vec::from_slice(alloc, bytes)?;
    events.reserve(1)?;
    write_area(told, area, at, bytes)?;
    let event = Event {
        calls,
        change: Change::Write(area, at, copy),
    };
    match events.push(event) {
        Ok(()) => Ok(()),
        Err(_) => unreachable!(),
    }
}

// Answers bytes, and keeps the answer among the events. Without memory nothing changes.
fn answer_and_keep(
    alloc: Global,
    answered: &mut Bytes,
    events: &mut Vec<Event>,
    calls: u64,
    bytes: &[u8],
) -> Result<(), NoMemory>
    ensures answered { OnOk result (answered.new ≡ answered.old ++ bytes.now) }
    ensures kept { OnOk result ((v : _) × (v.items ≡ bytes.now) × (events.new.items ≡ events.old.items ++ (record { calls = calls; change = Change.Answer v }) ∷ [])) }
    ensures same { OnErr result (answered.new ≡ answered.old) }
    ensures none { OnErr result (events.new.items ≡ events.old.items) }
{
    let copy = Vec::from_slice(alloc, bytes)?;
    events.reserve(1)?;
    answered.extend_from_slice(bytes)?;
    let event = Event {
        calls,
        change: Change::Answer(copy),
    };
    match events.push(event) {
        Ok(()) => Ok(()),
        Err(_) => unreachable!(),
    }
}

impl Disk for MemoryHost {
    ghost use Rattle.gx_disk.specs.MemoryHosts.{KeepsLists, host_start, host_told, host_leaves, host_moment, host_since, host_said, host_stays, host_counts, host_only};

    ghost tells = { Unit {0} };

    ghost told = { host_told };

    ghost faults = { λ h. h.faults };

    ghost now_may_leave = { host_leaves };

    ghost moment = { host_moment };

    ghost may_have_left_since = { host_since };

    ghost said = { host_said };

    ghost told_may_stay = { λ h told. host_stays h };

    ghost counts_now = { host_counts };

    ghost only_now = { host_only };

    fn size(&mut self, area: Area) -> Result<u64, Failed>
        ensures size { IfOk result (λ n. Unit {0} → n ≡ length (area_of area (host_told self.old))) }
        ensures bound { IfOk result (λ n. n < 2 ^ 64 - 1) }
        ensures told { host_told self.new ≡ host_told self.old }
        ensures images { (c : Image) → host_leaves self.new c ↔ host_leaves self.old c }
        ensures time { Elapses (host_moment self.old) (host_moment self.new) (host_since self.old) (host_since self.new) (Now (host_leaves self.old) self.old.answered) }
        ensures said { host_said self.new ≡ host_said self.old }
        ensures cause { FailsWith self.old.faults self.new.faults result }

        // The listed calls fail, and others only where the host has no memory.
        ensures numbered { IsNumbered self.old.failing.items self.old.calls self.new.calls self.old.refused self.new.refused self.old.faults self.new.faults result }
        ensures lists { KeepsLists self.old self.new }
        ensures answers { self.new.answers ≡ self.old.answers }
    {
        self.calls = self.calls.saturating_add(1);
        if is_listed(&self.failing, self.calls) {
            self.faults = self.faults.saturating_add(1);
            return Err(Failed);
        }
        match area {
            Area::Pages => Ok(self.told.pages.len() as u64),
            Area::Log => Ok(self.told.log.len() as u64),
        }
    }

    fn read(&mut self, area: Area, at: u64, into: &mut [u8]) -> Result<usize, Failed>
        ensures count { IfOk result (λ n. Unit {0} → n ≡ min (length into.old) (length (area_of area (host_told self.old)) - at)) }
        ensures bytes { IfOk result (λ n. Unit {0} → into.new ≡ take n (drop at (area_of area (host_told self.old))) ++ drop n into.old) }
        ensures bound { IfOk result (λ n. n ≤ length into.old) }
        ensures told { host_told self.new ≡ host_told self.old }
        ensures images { (c : Image) → host_leaves self.new c ↔ host_leaves self.old c }
        ensures time { Elapses (host_moment self.old) (host_moment self.new) (host_since self.old) (host_since self.new) (Now (host_leaves self.old) self.old.answered) }
        ensures said { host_said self.new ≡ host_said self.old }
        ensures cause { FailsWith self.old.faults self.new.faults result }

        // The listed calls fail, and others only where the host has no memory.
        ensures numbered { IsNumbered self.old.failing.items self.old.calls self.new.calls self.old.refused self.new.refused self.old.faults self.new.faults result }
        ensures lists { KeepsLists self.old self.new }
        ensures answers { self.new.answers ≡ self.old.answers }
    {
        self.calls = self.calls.saturating_add(1);
        if is_listed(&self.failing, self.calls) {
            self.faults = self.faults.saturating_add(1);
            return Err(Failed);
        }
        match area {
            Area::Pages => Ok(read_area(&self.told.pages, at, into)),
            Area::Log => Ok(read_area(&self.told.log, at, into)),
        }
    }

    fn write_at(&mut self, area: Area, at: u64, bytes: &[u8]) -> Result<(), Failed>
        requires { at + length bytes.now < 2 ^ 64 - 1 }
        ensures written { OnOk result (Unit {0} → host_told self.new ≡ write_in area at bytes.now (host_told self.old)) }
        ensures torn { Unit {0} → TornIn area at (length bytes.now) (host_told self.old) (host_told self.new) }
        ensures images { Follows (TornIn area at (length bytes.now)) (host_leaves self.old) (host_leaves self.new) }
        ensures reached { OnOk result (Reaches (TornIn area at (length bytes.now)) (host_leaves self.old) (host_leaves self.new)) }
        ensures kept { Keeps (host_leaves self.old) (host_leaves self.new) }

        // A write that fails is kept as a torn one, unless the host has no memory.
        ensures torn_one { OnErr result (¬ Rose self.old.refused self.new.refused → Reaches (TornIn area at (length bytes.now)) (host_leaves self.old) (host_leaves self.new)) }
        ensures time { Elapses (host_moment self.old) (host_moment self.new) (host_since self.old) (host_since self.new) (Now (host_leaves self.new) self.old.answered) }
        ensures said { host_said self.new ≡ host_said self.old }
        ensures cause { FailsWith self.old.faults self.new.faults result }

        // The listed calls fail, and others only where the host has no memory.
        ensures numbered { IsNumbered self.old.failing.items self.old.calls self.new.calls self.old.refused self.new.refused self.old.faults self.new.faults result }
        ensures lists { KeepsLists self.old self.new }
        ensures answers { self.new.answers ≡ self.old.answers }
    {
        self.calls = self.calls.saturating_add(1);
        if is_listed(&self.failing, self.calls) {
            self.faults = self.faults.saturating_add(1);
            match keep_failed(&mut self.events, self.calls, area, at, bytes.len()) {
                Ok(()) => return Err(Failed),
                Err(_) => {
                    self.refused = self.refused.saturating_add(1);
                    return Err(Failed);
                }
            }
        }
        match write_and_keep(
            self.alloc,
            &mut self.told,
            &mut self.events,
            self.calls,
            area,
            at,
            bytes,
        ) {
            Ok(()) => (),
            Err(_) => {
                self.faults = self.faults.saturating_add(1);
                self.refused = self.refused.saturating_add(1);
                return Err(Failed);
            }
        }
        Ok(())
    }

    fn sync(&mut self, area: Area) -> Result<(), Failed>
        ensures images { OnOk result (Unit {0} → Follows (SyncedIn area (host_told self.old)) (host_leaves self.old) (host_leaves self.new)) }
        ensures reached { OnOk result (Unit {0} → Reaches (SyncedIn area (host_told self.old)) (host_leaves self.old) (host_leaves self.new)) }
        ensures same { OnErr result ((c : Image) → host_leaves self.new c ↔ host_leaves self.old c) }
        ensures fewer { Unit {0} → Keeps (host_leaves self.new) (host_leaves self.old) }
        ensures told { host_told self.new ≡ host_told self.old }
        ensures time { Elapses (host_moment self.old) (host_moment self.new) (host_since self.old) (host_since self.new) (Now (host_leaves self.new) self.old.answered) }
        ensures said { host_said self.new ≡ host_said self.old }
        ensures cause { FailsWith self.old.faults self.new.faults result }

        // The listed calls fail, and others only where the host has no memory.
        ensures numbered { IsNumbered self.old.failing.items self.old.calls self.new.calls self.old.refused self.new.refused self.old.faults self.new.faults result }
        ensures lists { KeepsLists self.old self.new }
        ensures answers { self.new.answers ≡ self.old.answers }
    {
        self.calls = self.calls.saturating_add(1);
        if is_listed(&self.failing, self.calls) {
            self.faults = self.faults.saturating_add(1);
            return Err(Failed);
        }
        match keep_sync(&mut self.events, self.calls, area) {
            Ok(()) => (),
            Err(_) => {
                self.faults = self.faults.saturating_add(1);
                self.refused = self.refused.saturating_add(1);
                return Err(Failed);
            }
        }
        Ok(())
    }
}

impl Host for MemoryHost {
    ghost use Rattle.gx_disk.specs.MemoryHosts.{KeepsLists, host_told, host_leaves, host_moment, host_since};

    fn answer(&mut self, bytes: &[u8]) -> Result<(), Failed>
        ensures said { OnOk result (Unit {0} → self.new.answered ≡ self.old.answered ++ bytes.now) }
        ensures front { OnErr result (Unit {0} → (n : ℕ) × (self.new.answered ≡ self.old.answered ++ take n bytes.now)) }
        ensures told { host_told self.new ≡ host_told self.old }
        ensures faults { self.new.faults ≡ self.old.faults }
        ensures images { (c : Image) → host_leaves self.new c ↔ host_leaves self.old c }
        ensures time { Elapses (host_moment self.old) (host_moment self.new) (host_since self.old) (host_since self.new) (Saying (host_leaves self.old) self.old.answered bytes.now) }
        ensures cause { FailsWith self.old.answer_faults self.new.answer_faults result }

        // The listed answers fail, and others only where the host has no memory.
        ensures numbered { IsNumbered self.old.failing_answers.items self.old.answers self.new.answers self.old.refused self.new.refused self.old.answer_faults self.new.answer_faults result }
        ensures lists { KeepsLists self.old self.new }
        ensures calls { self.new.calls ≡ self.old.calls }
    {
        self.answers = self.answers.saturating_add(1);
        if is_listed(&self.failing_answers, self.answers) {
            self.answer_faults = self.answer_faults.saturating_add(1);
            return Err(Failed);
        }
        match answer_and_keep(
            self.alloc,
            &mut self.answered,
            &mut self.events,
            self.calls,
            bytes,
        ) {
            Ok(()) => (),
            Err(_) => {
                self.answer_faults = self.answer_faults.saturating_add(1);
                self.refused = self.refused.saturating_add(1);
                return Err(Failed);
            }
        }
        Ok(())
    }
}
