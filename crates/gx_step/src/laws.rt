//! The tables of a database, as its catalog has them.

ghost use Rattle.std.specs.Prelude.{◌≡◌, List, ℕ, None, Some};
ghost use Rattle.gx_catalog.specs.Validity.{table_named as info_named};
ghost use Rattle.gx_catalog.specs.declared.info.TableInfo.{TableInfo};
ghost use Rattle.gx_database.specs.Heaps.{Stored};
ghost use Rattle.gx_database.specs.Places.{Place};
ghost use Rattle.gx_database.specs.Standing.{AreStored};
ghost use Rattle.gx_model.specs.Database.{Database, Table, table_named};

/// The table that a catalog finds by a name is the database's table of the name, at the same place; where it finds none, there is none.
pub fn tables_are_found()
    ensures some { (db : Database) (infos : List TableInfo) (stored : List Stored) (name : List ℕ) (info : TableInfo) → AreStored db.tables infos stored → info_named name infos ≡ Some info
        → (t : Table) × (table_named db name ≡ Some t) × (place : Place name t db.tables infos stored) × (place.info ≡ info) }
    ensures none { (db : Database) (infos : List TableInfo) (stored : List Stored) (name : List ℕ) → AreStored db.tables infos stored → info_named name infos ≡ None → table_named db name ≡ None }
{}
