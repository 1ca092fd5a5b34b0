//! A store in memory.

ghost use Rattle.std.specs.Prelude.{◌≡◌, ◌^◌, ◌<◌, ◌≤◌, [], length, slice_index_or, IfOk};
ghost use Rattle.gx_pages.specs.Contents.{IsCounted, below, given};
ghost use Rattle.gx_pages.specs.Databases.{empty_pages};
ghost use Rattle.gx_pages.specs.Frees.{HasCount};
ghost use Rattle.gx_pages.specs.Tables.{now_at, was_at};

use crate::error::PageError;
use crate::free_list::{give_page, take_page};
use crate::header::{empty_catalog, header_page};
use crate::history::History;
use crate::page::Page;
use crate::store::{Pages, Store};
use crate::table::{PageTable, laid};
use std::alloc::{AllocError, Global};

/// The kind of a heap page.
const HEAP: u8 = 2;

/// A store in memory. Its calls fail only at what they refuse, and for want of memory; `fetch`, `reserve` and `commit`
/// take none.
#[derive(Drop)]
pub struct MemoryPages {
    alloc: Global,
    table: PageTable,
    begun: bool,
    fetches: u64,
    heap_fetches: u64,
    history: History,
    pub ghost counted: { IsCounted (now_at table) table.count },
    pub ghost committed_counted: { IsCounted (was_at table) table.committed_count },
}

impl MemoryPages {
    ghost use Rattle.gx_pages.specs.Memories.{IsFresh};

    /// An empty database: the header, and a catalog page without items.
    pub fn new(alloc: Global) -> Result<MemoryPages, AllocError>
        ensures { IfOk result (IsFresh empty_pages 2) }
    {
        MemoryPages::with(alloc, &[header_page(2), empty_catalog()], 2)
    }

    /// These pages, from page 0 on, and pages of zeros up to the count. The zeros take no memory.
    pub fn with(alloc: Global, pages: &[Page], count: u64) -> Result<MemoryPages, AllocError>
        requires some { 0 < length pages.now }
        requires header { HasCount (slice_index_or pages.now 0 []) count }
        requires room { length pages.now ≤ count }
        requires most { count ≤ 2 ^ 50 }
        ensures { IfOk result (IsFresh (below count (given pages.now)) count) }
    {
        let table = PageTable::new(alloc, laid(alloc, pages)?, count);
        Ok(MemoryPages {
            alloc,
            table,
            begun: false,
            fetches: 0,
            heap_fetches: 0,
            history: History::new(),
        })
    }

    /// How many calls of `fetch` there were, at most 2^64 - 1.
    pub fn fetches(&self) -> u64
        ensures { result ≡ self.now.fetches }
    {
        self.fetches
    }
}

impl Pages for MemoryPages {
    ghost use Rattle.std.specs.Prelude.{false, refl};
    ghost use Rattle.gx_pages.specs.Memories.{nothing_said, memory_map, memory_committed, memory_moment, memory_leaves, memory_since, memory_counted, memory_committed_counted, memory_ends, memory_committed_ends, memory_counts, memory_only};

    ghost tells = { Unit {0} };

    ghost map = { memory_map };

    ghost count = { λ s. s.table.count };

    ghost faults = { λ s. 0 };

    ghost fetches = { λ s. s.fetches };

    ghost heap_fetches = { λ s. s.heap_fetches };

    ghost said = { λ s. nothing_said };

    ghost committed = { memory_committed };

    ghost spoiled = { λ s. false };

    ghost begun = { λ s. s.begun };

    ghost committed_count = { λ s. s.table.committed_count };

    ghost moment = { memory_moment };

    ghost may_leave = { memory_leaves };

    ghost may_have_left_since = { memory_since };

    ghost follows = { λ _ _. Unit {0} };

    ghost follows_itself = { λ s. tt };

    ghost follows_on = { λ a b c x y. tt };

    ghost counted = { λ s told. memory_counted s };

    ghost bounded = { λ s. s.counted.bounded };

    ghost committed_counted = { λ s told. memory_committed_counted s };

    ghost committed_bounded = { λ s. s.committed_counted.bounded };

    ghost ends = { λ s told. memory_ends s };

    ghost committed_ends = { λ s told. memory_committed_ends s };

    ghost committed_may_stay = { λ s told sound. refl };

    ghost counts_now = { memory_counts };

    ghost only_now = { memory_only };

    fn fetch(&mut self, page: u64, into: &mut Page) -> Result<(), PageError> {
        self.fetches = self.fetches.saturating_add(1);
        if page >= self.table.count {
            return Err(PageError::Broken {
                page,
                expected: self.table.count - 1,
                found: page,
            });
        }
        self.table.read(page, into);
        if into.bytes()[0] == HEAP {
            self.heap_fetches = self.heap_fetches.saturating_add(1);
        }
        Ok(())
    }

    fn put(&mut self, page: u64, from: &Page) -> Result<(), PageError> {
        if page >= self.table.count {
            return Err(PageError::Broken {
                page,
                expected: self.table.count - 1,
                found: page,
            });
        }
        match self.table.open(self.alloc, page) {
            Ok(()) => (),
            Err(_) => return Err(PageError::Memory),
        }
        self.table.write(page, from);
        Ok(())
    }

    fn take(&mut self) -> Result<u64, PageError> {
        take_page(self.alloc, &mut self.table)
    }

    fn give(&mut self, page: u64) -> Result<(), PageError> {
        give_page(self.alloc, &mut self.table, page)
    }
}

impl Store for MemoryPages {
    ghost use Rattle.std.specs.Prelude.{true};

    ghost reserved = { λ s. true };

    fn begin(&mut self) {
        self.begun = true;
    }

    fn reserve(&mut self) -> Result<(), PageError> {
        Ok(())
    }

    fn commit(&mut self) -> Result<(), PageError> {
        self.history = History::with(&self.history, &self.table);
        self.table.commit();
        self.begun = false;
        Ok(())
    }

    fn abandon(&mut self) {
        self.table.abandon();
        self.begun = false;
    }
}
