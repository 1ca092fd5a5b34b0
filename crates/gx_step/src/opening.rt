//! The catalog that a statement works with.

ghost use Rattle.std.specs.Prelude.{◌≡◌, [], IfOk, IfErr};
ghost use Rattle.gx_pages.specs.Footprints.{StaysQuiet};
ghost use Rattle.gx_pages.specs.Pages.{HasCause};
ghost use Rattle.gx_chain.specs.Chains.{IsSound};
ghost use Rattle.gx_catalog.specs.Validity.{AreCatalog};
ghost use Rattle.gx_database.specs.Standing.{StandsFor};
ghost use Rattle.gx_model.specs.Database.{Database};
ghost use Rattle.gx_step.specs.Doing.{StandForNone};
ghost use Rattle.gx_step.specs.Opened.{IsLoaded, Opened};

use gx_catalog::Catalog;
use gx_pages::{PageError, Pages};
use std::alloc::Global;

/// The catalog of a database. Broken where the pages hold none, or one with an index: no class of indexes is there yet.
pub fn load<P: Pages>(alloc: Global, pages: &mut P) -> Result<Catalog, PageError>
    ensures opened { IfOk result (λ catalog. P.tells → (db : Database) → StandsFor (P.map pages.old) db → Opened P.Pages pages.new db catalog) }
    ensures held { IfOk result (λ catalog. P.tells → IsLoaded P.Pages pages.old pages.new catalog) }
    ensures bare { IfOk result (λ catalog. catalog.indexes ≡ []) }
    ensures valid { IfOk result (λ catalog. AreCatalog catalog.tables catalog.indexes) }
    ensures cause { IfErr result (HasCause (P.faults pages.old) (P.faults pages.new)
        (λ at expected found. StandForNone P.Pages pages.old) (λ _. ⊥) (Unit {0})) }
    ensures map { P.map pages.new ≡ P.map pages.old }
    ensures count { P.count pages.new ≡ P.count pages.old }
    ensures heap { IsSound result → P.heap_fetches pages.new ≡ P.heap_fetches pages.old }
    ensures quiet { StaysQuiet P.Pages pages.old pages.new }
{
    let catalog = Catalog::load(alloc, pages)?;
    let indexes = catalog.indexes().len();
    if indexes != 0 {
        return Err(PageError::Broken {
            page: 1,
            expected: 0,
            found: indexes as u64,
        });
    }
    Ok(catalog)
}
