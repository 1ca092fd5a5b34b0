//! Laws of stores in memory, and of an empty database.

ghost use Rattle.std.specs.Prelude.{◌≡◌, ℕ, ◌<◌, ◌≤◌, [], IsSome, Some, None};
ghost use Rattle.gx_pages.specs.Databases.{header_of, catalog_page, empty_pages};
ghost use Rattle.gx_pages.specs.Frees.{IsFreeList};
ghost use Rattle.gx_pages.specs.Memories.{memory_map};
ghost use Rattle.gx_pages.specs.declared.memory.MemoryPages.{MemoryPages};

/// Of a store in memory no page below the count is lacking.
pub fn lacks_none()
    ensures { (s : MemoryPages) (n : ℕ) → n < s.table.count → IsSome (memory_map s n) }
{}

/// An empty database has a header and an empty catalog page, and no free page.
pub fn empty_database()
    ensures header { empty_pages 0 ≡ Some (header_of 2) }
    ensures catalog { empty_pages 1 ≡ Some catalog_page }
    ensures others { (n : ℕ) → 2 ≤ n → empty_pages n ≡ None }
    ensures none_free { IsFreeList empty_pages 2 [] }
{}
