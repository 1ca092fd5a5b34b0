//! The tables and the indexes of a database.

ghost use Rattle.std.specs.Prelude.{◌≡◌, ℕ, ◌+◌, ◌<◌, ◌≤◌, List, [], ◌∷◌, ◌++◌, None, IfOk, IfErr, OnOk, OnErr};
ghost use Rattle.std.specs.Option.{option_copied};
ghost use Rattle.gx_pages.specs.Footprints.{KeepsPages, StaysQuiet};
ghost use Rattle.gx_pages.specs.Frees.{IsApart, IsFreeList, IsFull};
ghost use Rattle.gx_pages.specs.Pages.{HasCause};
ghost use Rattle.gx_chain.specs.Chains.{IsSound};
ghost use Rattle.gx_catalog.specs.Validity.{AreCatalog, HasIndex, HasNoIndex, HasNumber, IsHeap, index_named, table_named, table_numbered};
ghost use Rattle.gx_catalog.specs.Catalogs.{HoldsCatalog, HoldsNoCatalog, Stores, StoresNone, chain_on, with_heap, with_nulls, without_index, without_table};
ghost use Rattle.gx_catalog.specs.declared.info.TableInfo.{TableInfo};
ghost use Rattle.gx_catalog.specs.declared.info.IndexInfo.{IndexInfo};

use crate::info::{IndexInfo, TableInfo};
use crate::lists::lists_of;
use crate::lookup::{index_named, table_named, table_numbered};
use crate::memory::{drop_index_of, drop_table_of, set_heap_of, set_nulls_of};
use crate::place::{CATALOG, FIRST, find_place, no_catalog};
use crate::validity::are_catalog;
use crate::writing::{index_item, table_item};
use gx_chain::{Chain, replace_item};
use gx_heap::Heap;
use gx_pages::{PageError, Pages};
use std::alloc::Global;
use std::marker::Model;

/// The tables and the indexes of a database, each in the order in which they were made, and the chain of pages that they
/// stand on.
#[derive(Debug, Drop)]
pub struct Catalog {
    chain: Chain,
    tables: Vec<TableInfo>,
    indexes: Vec<IndexInfo>,
}

impl Model for Catalog {
    ghost use Rattle.gx_catalog.specs.Catalogs.{Directory};
    ghost use Rattle.gx_catalog.specs.Validity.{AreCatalog};

    ghost Value = { Directory };

    ghost view = { λ c. record { chain = c.chain; tables = c.tables.items; indexes = c.indexes.items } };

    ghost invariant = { λ c. AreCatalog c.tables.items c.indexes.items };
}

impl Catalog {
    /// Reads the catalog that begins at page 1. Broken where the pages hold no catalog of a database: no chain, an item that
    /// is none of a table or an index, or tables and indexes that no database has.
    pub fn load<P: Pages>(alloc: Global, pages: &mut P) -> Result<Catalog, PageError>
        ensures loaded { IfOk result (λ catalog. P.tells
            → (feet : List ℕ) × Stores (P.map pages.old) (P.count pages.old) catalog.tables catalog.indexes feet × (catalog.chain ≡ chain_on feet)) }
        ensures held { IfOk result (λ catalog. P.tells → (tables : List TableInfo) (indexes : List IndexInfo) (feet free : List ℕ)
            → Stores (P.map pages.old) (P.count pages.old) tables indexes feet → IsFreeList (P.map pages.old) (P.count pages.old) free → IsApart (feet ++ free)
            → (catalog.tables ≡ tables) × (catalog.indexes ≡ indexes) × HoldsCatalog P.Pages pages.new catalog feet free) }
        ensures valid { IfOk result (λ catalog. AreCatalog catalog.tables catalog.indexes) }
        ensures cause { IfErr result (HasCause (P.faults pages.old) (P.faults pages.new)
            (λ at expected found. P.tells → StoresNone (P.map pages.old) (P.count pages.old)) (λ _. ⊥) (Unit {0})) }
        ensures map { P.map pages.new ≡ P.map pages.old }
        ensures count { P.count pages.new ≡ P.count pages.old }
        ensures heap { IsSound result → P.heap_fetches pages.new ≡ P.heap_fetches pages.old }
        ensures once { P.heap_fetches pages.new ≤ P.heap_fetches pages.old + 1 }
        ensures fetches { IfOk result (λ catalog. P.fetches pages.new ≤ P.fetches pages.old + catalog.chain.pages) }
        ensures quiet { StaysQuiet P.Pages pages.old pages.new }
    {
        let (chain, _feet, entries) = Chain::open(alloc, pages, CATALOG, FIRST)?;
        let Ok(lists) = lists_of(alloc, entries.as_slice()) else {
            return Err(PageError::Memory);
        };
        let Some((tables, indexes)) = lists else {
            return Err(no_catalog());
        };
        if !are_catalog(tables.as_slice(), indexes.as_slice()) {
            return Err(no_catalog());
        }
        Ok(Catalog {
            chain,
            tables,
            indexes,
        })
    }

    /// The tables in the order in which they were made.
    pub fn tables(&self) -> &[TableInfo]
        ensures value { result.now ≡ self.now.tables }
        ensures valid { AreCatalog self.now.tables self.now.indexes }
    {
        self.tables.as_slice()
    }

    /// The indexes in the order in which they were made.
    pub fn indexes(&self) -> &[IndexInfo]
        ensures value { result.now ≡ self.now.indexes }
        ensures valid { AreCatalog self.now.tables self.now.indexes }
    {
        self.indexes.as_slice()
    }

    /// Adds a table behind all others.
    pub fn add_table<P: Pages>(
        &mut self,
        alloc: Global,
        pages: &mut P,
        table: TableInfo,
    ) -> Result<(), PageError>
        requires { AreCatalog (self.old.tables ++ table ∷ []) self.old.indexes }
        ensures added { OnOk result (P.tells → (feet free : List ℕ) → HoldsCatalog P.Pages pages.old self.old feet free
            → (later rest : List ℕ) × HoldsCatalog P.Pages pages.new self.new later rest × KeepsPages P.Pages pages.old pages.new feet free later rest) }
        ensures tables { OnOk result (self.new.tables ≡ self.old.tables ++ table ∷ []) }
        ensures indexes { self.new.indexes ≡ self.old.indexes }
        ensures same { OnErr result (self.new ≡ self.old) }
        ensures grows { P.count pages.old ≤ P.count pages.new }
        ensures by_one { P.count pages.new ≤ P.count pages.old + 1 }
        ensures cause { IfErr result (HasCause (P.faults pages.old) (P.faults pages.new)
            (λ at expected found. P.tells → HoldsNoCatalog P.Pages pages.old self.old) (IsFull P.tells (P.map pages.new) (P.count pages.new)) (Unit {0})) }
        ensures heap { IsSound result → P.heap_fetches pages.new ≡ P.heap_fetches pages.old }
        ensures quiet { StaysQuiet P.Pages pages.old pages.new }
    {
        let Ok(item) = table_item(alloc, &table, &table.heap) else {
            return Err(PageError::Memory);
        };
        let Ok(()) = self.tables.reserve(1) else {
            return Err(PageError::Memory);
        };
        let mut chain = self.chain;
        chain.append(pages, CATALOG, item.as_slice())?;
        let Ok(()) = self.tables.push(table) else {
            unreachable!();
        };
        self.chain = chain;
        Ok(())
    }

    /// Adds an index behind all others.
    pub fn add_index<P: Pages>(
        &mut self,
        alloc: Global,
        pages: &mut P,
        index: IndexInfo,
    ) -> Result<(), PageError>
        requires { AreCatalog self.old.tables (self.old.indexes ++ index ∷ []) }
        ensures added { OnOk result (P.tells → (feet free : List ℕ) → HoldsCatalog P.Pages pages.old self.old feet free
            → (later rest : List ℕ) × HoldsCatalog P.Pages pages.new self.new later rest × KeepsPages P.Pages pages.old pages.new feet free later rest) }
        ensures tables { self.new.tables ≡ self.old.tables }
        ensures indexes { OnOk result (self.new.indexes ≡ self.old.indexes ++ index ∷ []) }
        ensures same { OnErr result (self.new ≡ self.old) }
        ensures grows { P.count pages.old ≤ P.count pages.new }
        ensures by_one { P.count pages.new ≤ P.count pages.old + 1 }
        ensures cause { IfErr result (HasCause (P.faults pages.old) (P.faults pages.new)
            (λ at expected found. P.tells → HoldsNoCatalog P.Pages pages.old self.old) (IsFull P.tells (P.map pages.new) (P.count pages.new)) (Unit {0})) }
        ensures heap { IsSound result → P.heap_fetches pages.new ≡ P.heap_fetches pages.old }
        ensures quiet { StaysQuiet P.Pages pages.old pages.new }
    {
        let Ok(item) = index_item(alloc, &index, index.nulls) else {
            return Err(PageError::Memory);
        };
        let Ok(()) = self.indexes.reserve(1) else {
            return Err(PageError::Memory);
        };
        let mut chain = self.chain;
        chain.append(pages, CATALOG, item.as_slice())?;
        let Ok(()) = self.indexes.push(index) else {
            unreachable!();
        };
        self.chain = chain;
        Ok(())
    }

    /// Gives the table of this number another heap. It keeps its place.
    pub fn set_heap<P: Pages>(
        &mut self,
        alloc: Global,
        pages: &mut P,
        table: u32,
        heap: Heap,
    ) -> Result<(), PageError>
        requires there { HasNumber table self.old.tables }
        requires heap { IsHeap heap }
        ensures set { OnOk result (P.tells → (feet free : List ℕ) → HoldsCatalog P.Pages pages.old self.old feet free
            → HoldsCatalog P.Pages pages.new self.new feet free × KeepsPages P.Pages pages.old pages.new feet free feet free) }
        ensures tables { OnOk result (self.new.tables ≡ with_heap table heap self.old.tables) }
        ensures indexes { self.new.indexes ≡ self.old.indexes }
        ensures same { OnErr result (self.new ≡ self.old) }
        ensures count { P.count pages.new ≡ P.count pages.old }
        ensures cause { IfErr result (HasCause (P.faults pages.old) (P.faults pages.new)
            (λ at expected found. P.tells → HoldsNoCatalog P.Pages pages.old self.old) (λ _. ⊥) (Unit {0})) }
        ensures heap { IsSound result → P.heap_fetches pages.new ≡ P.heap_fetches pages.old }
        ensures quiet { StaysQuiet P.Pages pages.old pages.new }
    {
        let Some(info) = table_numbered(self.tables.as_slice(), table) else {
            unreachable!();
        };
        let Ok(old) = table_item(alloc, info, &info.heap) else {
            return Err(PageError::Memory);
        };
        let Ok(new) = table_item(alloc, info, &heap) else {
            return Err(PageError::Memory);
        };
        let place = find_place(alloc, pages, old.as_slice())?;
        replace_item(pages, CATALOG, place.page, place.slot, new.as_slice())?;
        set_heap_of(&mut self.tables, table, heap);
        Ok(())
    }

    /// Gives the index of this name another root of the tree of its rows with NULL. It keeps its place.
    pub fn set_nulls<P: Pages>(
        &mut self,
        alloc: Global,
        pages: &mut P,
        name: &[u8],
        nulls: u64,
    ) -> Result<(), PageError>
        requires { HasIndex name.now self.old.indexes }
        ensures set { OnOk result (P.tells → (feet free : List ℕ) → HoldsCatalog P.Pages pages.old self.old feet free
            → HoldsCatalog P.Pages pages.new self.new feet free × KeepsPages P.Pages pages.old pages.new feet free feet free) }
        ensures tables { self.new.tables ≡ self.old.tables }
        ensures indexes { OnOk result (self.new.indexes ≡ with_nulls name.now nulls self.old.indexes) }
        ensures same { OnErr result (self.new ≡ self.old) }
        ensures count { P.count pages.new ≡ P.count pages.old }
        ensures cause { IfErr result (HasCause (P.faults pages.old) (P.faults pages.new)
            (λ at expected found. P.tells → HoldsNoCatalog P.Pages pages.old self.old) (λ _. ⊥) (Unit {0})) }
        ensures heap { IsSound result → P.heap_fetches pages.new ≡ P.heap_fetches pages.old }
        ensures quiet { StaysQuiet P.Pages pages.old pages.new }
    {
        let Some(info) = index_named(self.indexes.as_slice(), name) else {
            unreachable!();
        };
        let Ok(old) = index_item(alloc, info, info.nulls) else {
            return Err(PageError::Memory);
        };
        let Ok(new) = index_item(alloc, info, nulls) else {
            return Err(PageError::Memory);
        };
        let place = find_place(alloc, pages, old.as_slice())?;
        replace_item(pages, CATALOG, place.page, place.slot, new.as_slice())?;
        set_nulls_of(&mut self.indexes, name, nulls);
        Ok(())
    }

    /// Takes the table of this number out. No index may be on it.
    pub fn drop_table<P: Pages>(
        &mut self,
        alloc: Global,
        pages: &mut P,
        table: u32,
    ) -> Result<(), PageError>
        requires there { HasNumber table self.old.tables }
        requires bare { HasNoIndex table self.old.indexes }
        ensures dropped { OnOk result (P.tells → (feet free : List ℕ) → HoldsCatalog P.Pages pages.old self.old feet free
            → (later rest : List ℕ) × HoldsCatalog P.Pages pages.new self.new later rest × KeepsPages P.Pages pages.old pages.new feet free later rest) }
        ensures tables { OnOk result (self.new.tables ≡ without_table table self.old.tables) }
        ensures indexes { self.new.indexes ≡ self.old.indexes }
        ensures same { OnErr result (self.new ≡ self.old) }
        ensures count { P.count pages.new ≡ P.count pages.old }
        ensures cause { IfErr result (HasCause (P.faults pages.old) (P.faults pages.new)
            (λ at expected found. P.tells → HoldsNoCatalog P.Pages pages.old self.old) (λ _. ⊥) (Unit {0})) }
        ensures heap { IsSound result → P.heap_fetches pages.new ≡ P.heap_fetches pages.old }
        ensures quiet { StaysQuiet P.Pages pages.old pages.new }
    {
        let Some(info) = table_numbered(self.tables.as_slice(), table) else {
            unreachable!();
        };
        let Ok(old) = table_item(alloc, info, &info.heap) else {
            return Err(PageError::Memory);
        };
        let place = find_place(alloc, pages, old.as_slice())?;
        let mut chain = self.chain;
        chain.remove(pages, CATALOG, place.before, place.page, place.slot)?;
        drop_table_of(&mut self.tables, table);
        self.chain = chain;
        Ok(())
    }

    /// Takes the index of this name out.
    pub fn drop_index<P: Pages>(
        &mut self,
        alloc: Global,
        pages: &mut P,
        name: &[u8],
    ) -> Result<(), PageError>
        requires { HasIndex name.now self.old.indexes }
        ensures dropped { OnOk result (P.tells → (feet free : List ℕ) → HoldsCatalog P.Pages pages.old self.old feet free
            → (later rest : List ℕ) × HoldsCatalog P.Pages pages.new self.new later rest × KeepsPages P.Pages pages.old pages.new feet free later rest) }
        ensures tables { self.new.tables ≡ self.old.tables }
        ensures indexes { OnOk result (self.new.indexes ≡ without_index name.now self.old.indexes) }
        ensures same { OnErr result (self.new ≡ self.old) }
        ensures count { P.count pages.new ≡ P.count pages.old }
        ensures cause { IfErr result (HasCause (P.faults pages.old) (P.faults pages.new)
            (λ at expected found. P.tells → HoldsNoCatalog P.Pages pages.old self.old) (λ _. ⊥) (Unit {0})) }
        ensures heap { IsSound result → P.heap_fetches pages.new ≡ P.heap_fetches pages.old }
        ensures quiet { StaysQuiet P.Pages pages.old pages.new }
    {
        let Some(info) = index_named(self.indexes.as_slice(), name) else {
            unreachable!();
        };
        let Ok(old) = index_item(alloc, info, info.nulls) else {
            return Err(PageError::Memory);
        };
        let place = find_place(alloc, pages, old.as_slice())?;
        let mut chain = self.chain;
        chain.remove(pages, CATALOG, place.before, place.page, place.slot)?;
        drop_index_of(&mut self.indexes, name);
        self.chain = chain;
        Ok(())
    }

    /// The table of this name.
    pub fn table(&self, name: &[u8]) -> Option<&TableInfo>
        ensures { option_copied result ≡ table_named name.now self.now.tables }
    {
        table_named(self.tables.as_slice(), name)
    }

    /// The table of this number.
    pub fn table_numbered(&self, number: u32) -> Option<&TableInfo>
        ensures { option_copied result ≡ table_numbered number self.now.tables }
    {
        table_numbered(self.tables.as_slice(), number)
    }

    /// The index of this name.
    pub fn index(&self, name: &[u8]) -> Option<&IndexInfo>
        ensures { option_copied result ≡ index_named name.now self.now.indexes }
    {
        index_named(self.indexes.as_slice(), name)
    }

    /// The least number from 1 that no table has.
    pub fn free_number(&self) -> u32
        ensures some { 0 < result }
        ensures free { table_numbered result self.now.tables ≡ None }
        ensures least { (number : ℕ) → 0 < number → number < result → HasNumber number self.now.tables }
    {
        let tables = self.tables.as_slice();
        for number in 1..258 {
            if table_numbered(tables, number).is_none() {
                return number;
            }
        }
        unreachable!()
    }
}
