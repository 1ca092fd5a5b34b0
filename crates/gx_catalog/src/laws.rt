//! A map stores at most one catalog, which stays while other structures change; an empty database has an empty one. What
//! may be added to the tables and the indexes of a database, and what their look-ups find.

ghost use Rattle.std.specs.Prelude.{◌≡◌, ℕ, ◌<◌, ◌≤◌, List, [], ◌∷◌, ◌++◌, length, Some, None};
ghost use Rattle.std.specs.List.{AllByRecursion};
ghost use Rattle.gx_words.specs.PageMap.{PageMap};
ghost use Rattle.gx_pages.specs.Databases.{catalog_page};
ghost use Rattle.gx_pages.specs.Footprints.{KeepsPages};
ghost use Rattle.gx_pages.specs.Frees.{IsApart};
ghost use Rattle.gx_catalog.specs.Catalogs.{Directory, HoldsCatalog, Stores};
ghost use Rattle.gx_catalog.specs.Validity.{AreCatalog, HasNoIndex, IsAmong, IsIndex, IsTable, count_on, index_named, table_named, table_numbered};
ghost use Rattle.gx_catalog.specs.declared.info.TableInfo.{TableInfo};
ghost use Rattle.gx_catalog.specs.declared.info.IndexInfo.{IndexInfo};

use gx_pages::Pages;

/// A map stores at most one catalog.
pub fn one_catalog()
    ensures { (pages : PageMap) (count : ℕ) (tables others : List TableInfo) (indexes more : List IndexInfo) (feet rest : List ℕ) → Stores pages count tables indexes feet
        → Stores pages count others more rest → (tables ≡ others) × (indexes ≡ more) × (feet ≡ rest) }
{}

/// A catalog stays where another structure changes, or several that are seen as one, whose pages lie apart from its own.
pub fn catalog_stays<P: Pages>(_pages: &P)
    ensures { (old new : P) (catalog : Directory) (feet before free after rest : List ℕ) → HoldsCatalog P.Pages old catalog feet free
        → KeepsPages P.Pages old new before free after rest → IsApart (before ++ free ++ feet) → AllByRecursion (λ page. page < P.count old) before
        → HoldsCatalog P.Pages new catalog feet rest }
{}

/// A catalog stays where its pages are as they were.
pub fn same_catalog()
    ensures { (old new : PageMap) (count later : ℕ) (tables : List TableInfo) (indexes : List IndexInfo) (feet : List ℕ) → AllByRecursion (λ page. new page ≡ old page) feet → count ≤ later
        → Stores old count tables indexes feet → Stores new later tables indexes feet }
{}

/// The map of an empty database stores a catalog without tables and indexes.
pub fn empty_catalog()
    ensures { (pages : PageMap) (count : ℕ) → pages 1 ≡ Some catalog_page → 1 < count → Stores pages count [] [] (1 ∷ []) }
{}

/// A table of a name and a number that no other has may be added to fewer than 256.
pub fn one_more_table()
    ensures { (tables : List TableInfo) (indexes : List IndexInfo) (t : TableInfo) → AreCatalog tables indexes → length tables < 256 → IsTable t
        → table_named t.name tables ≡ None → table_numbered t.number tables ≡ None → AreCatalog (tables ++ t ∷ []) indexes }
{}

/// An index of a name that no other has may be added where fewer than 32 are on its table.
pub fn one_more_index()
    ensures { (tables : List TableInfo) (indexes : List IndexInfo) (i : IndexInfo) → AreCatalog tables indexes → IsIndex tables i
        → index_named i.name indexes ≡ None → count_on i.table indexes < 32 → AreCatalog tables (indexes ++ i ∷ []) }
{}

/// The table that is found by a name or a number, and the index that is found by a name, is one of these and has it.
pub fn found_among()
    ensures named { (name : List ℕ) (tables : List TableInfo) (t : TableInfo) → table_named name tables ≡ Some t → IsAmong t tables × (t.name ≡ name) }
    ensures numbered { (number : ℕ) (tables : List TableInfo) (t : TableInfo) → table_numbered number tables ≡ Some t → IsAmong t tables × (t.number ≡ number) }
    ensures index { (name : List ℕ) (indexes : List IndexInfo) (i : IndexInfo) → index_named name indexes ≡ Some i → IsAmong i indexes × (i.name ≡ name) }
{}

/// In a catalog a table is what its own name and its own number find, and an index what its own name finds.
pub fn own_found()
    ensures named { (tables : List TableInfo) (indexes : List IndexInfo) (t : TableInfo) → AreCatalog tables indexes → IsAmong t tables → table_named t.name tables ≡ Some t }
    ensures numbered { (tables : List TableInfo) (indexes : List IndexInfo) (t : TableInfo) → AreCatalog tables indexes → IsAmong t tables → table_numbered t.number tables ≡ Some t }
    ensures index { (tables : List TableInfo) (indexes : List IndexInfo) (i : IndexInfo) → AreCatalog tables indexes → IsAmong i indexes → index_named i.name indexes ≡ Some i }
{}

/// No index is on a table on which none is counted, and none is counted where none is.
pub fn none_counted()
    ensures bare { (number : ℕ) (indexes : List IndexInfo) → count_on number indexes ≡ 0 → HasNoIndex number indexes }
    ensures none { (number : ℕ) (indexes : List IndexInfo) → HasNoIndex number indexes → count_on number indexes ≡ 0 }
{}
