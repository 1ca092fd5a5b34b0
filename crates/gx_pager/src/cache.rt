//! A cache of pages that were read.

ghost use Rattle.std.specs.Prelude.{◌≡◌, ℕ, Some, None, IfOk, IsTrue, IsFalse};
ghost use Rattle.gx_words.specs.PageMap.{PageMap};
ghost use Rattle.gx_pager.specs.Cached.{Agrees, cached};

use crate::copies::{boxed, copy};
use gx_pages::Page;
use lru::LruCache;
use std::alloc::{AllocError, Global};
use std::num::NonZeroUsize;

/// How many pages there may be.
const PLACES: usize = 256;

/// Pages of the area Pages that were read last.
#[derive(Drop)]
pub struct Cache {
    pub pages: LruCache<u64, Box<Page>>,
}

impl Cache {
    /// No pages.
    pub fn new(alloc: Global) -> Result<Cache, AllocError>
        ensures { IfOk result (λ cache. (map : PageMap) → Agrees map cache.pages.entries) }
    {
        let Some(places) = NonZeroUsize::new(PLACES) else {
            unreachable!()
        };
        Ok(Cache {
            pages: LruCache::new(alloc, places)?,
        })
    }

    /// Reads a page, and says whether it is there.
    pub fn get(&mut self, page: u64, into: &mut Page) -> bool
        ensures found { IsTrue result → cached self.old.pages.entries page ≡ Some into.new }
        ensures missed { IsFalse result → cached self.old.pages.entries page ≡ None }
        ensures hit { IsTrue result → (map : PageMap) → Agrees map self.old.pages.entries → map page ≡ Some into.new }
        ensures kept { (map : PageMap) → Agrees map self.old.pages.entries → Agrees map self.new.pages.entries }
    {
        match self.pages.get(&page) {
            Some(found) => {
                copy(found, into);
                true
            }
            None => false,
        }
    }

    /// Keeps a page that was read, where there is memory.
    pub fn put(&mut self, alloc: Global, page: u64, from: &Page)
        ensures { (map : PageMap) → map page ≡ Some from.now → Agrees map self.old.pages.entries → Agrees map self.new.pages.entries }
    {
        let Ok(copied) = boxed(alloc, from) else {
            return;
        };
        let _ = self.pages.put(page, copied);
    }

    /// Forgets all pages.
    pub fn clear(&mut self)
        ensures { (map : PageMap) → Agrees map self.new.pages.entries }
    {
        self.pages.clear();
    }
}
