//! Where the rows of an index stand whose value isn't NULL.

ghost use Rattle.std.specs.Prelude.{◌≡◌, ℕ, ◌+◌, ◌*◌, ◌<◌, ◌≤◌, List, [], ◌∷◌, ◌++◌, filter, not, true, IfOk, IfErr, OnOk};
ghost use Rattle.std.specs.List.{AllByRecursion};
ghost use Rattle.gx_words.specs.PageMap.{PageMap};
ghost use Rattle.gx_pages.specs.Footprints.{KeepsPages, StaysQuiet};
ghost use Rattle.gx_pages.specs.Frees.{IsApart, IsFull};
ghost use Rattle.gx_pages.specs.Pages.{HasCause};
ghost use Rattle.gx_pages.specs.Rows.{AreBelow};
ghost use Rattle.gx_gist_tree.specs.OnPages.{is_in};
ghost use Rattle.gx_value.specs.declared.classes.Class.{Class};
ghost use Rattle.gx_value.specs.declared.operators.Operator.{Operator};
ghost use Rattle.gx_value.specs.declared.types.ColumnType.{ColumnType};
ghost use Rattle.gx_value.specs.Classes.{takes};
ghost use Rattle.gx_value.specs.Values.{Datum, datum_of, IsValue};
ghost use Rattle.gx_opr.specs.declared.operand.Operand.{Operand};
ghost use Rattle.gx_opr.specs.Operands.{right_of};
ghost use Rattle.gx_candidates.specs.Candidates.{candidate};
ghost use Rattle.gx_index.specs.Beside.{Beside};
ghost use Rattle.gx_index.specs.Kept.{HoldsKeys, Valued, places_of};
ghost use Rattle.gx_index.specs.Questions.{IsQuestion, Visits};

use crate::KeyClass;
use crate::keys::{drop_keys, find_keys, put_key, remove_keys};
use gx_candidates::questions_are_asked;
use gx_gist_tree::{Tree, tree_stays};
use gx_opr::Operand;
use gx_pages::{Bitmap, PageError, Pages, RowRef};
use gx_value::{Operator, Value};
use std::alloc::Global;

/// A structure that keeps rows by their values: a tree of a GiST class, or a GIN index.
pub trait Kept: Drop {
    // The class is valid.
    ghost valid: { Self → Type 0 };

    // The class's line in the table of classes.
    ghost named: { Self → Class };

    // Its parameter.
    ghost parameter: { Self → ℕ };

    // How many entries a value has.
    ghost entries: { Self → Datum → ℕ };

    // The map holds these rows on these pages.
    ghost holds: { Self → List Valued → PageMap → ℕ → List ℕ → Type 0 };

    // The map holds these rows on these pages, and a search for the operator with its operand looks at no more than so many of them.
    ghost visits: { Self → Operator → Operand → List Valued → PageMap → ℕ → List ℕ → ℕ → Type 0 };

    /// Adds a row, whose number is above all that stand. At most 128 pages more are taken for each entry of the value.
    fn put<P: Pages>(
        &mut self,
        alloc: Global,
        pages: &mut P,
        row: RowRef,
        value: &Value,
    ) -> Result<(), PageError>
        requires class { valid self.old }
        requires value { (kind : ColumnType) × (takes (named self.old) kind ≡ true) × IsValue kind (datum_of value.now) }
        ensures put { OnOk result (P.tells → (rows : List Valued) (feet free : List ℕ) → Beside P.Pages (holds self.old rows) pages.old feet free → AreBelow (places_of rows) row.number
            → (later : List ℕ) × (rest : List ℕ) × Beside P.Pages (holds self.old (rows ++ (row, datum_of value.now) ∷ [])) pages.new later rest
            × KeepsPages P.Pages pages.old pages.new feet free later rest) }
        ensures same { self.new ≡ self.old }
        ensures grows { P.count pages.old ≤ P.count pages.new }
        ensures few { P.count pages.new ≤ P.count pages.old + 128 * entries self.old (datum_of value.now) }
        ensures cause { IfErr result (HasCause (P.faults pages.old) (P.faults pages.new)
            (λ at expected found. P.tells → (rows : List Valued) (feet free : List ℕ) → Beside P.Pages (holds self.old rows) pages.old feet free → AreBelow (places_of rows) row.number → ⊥)
            (IsFull P.tells (P.map pages.new) (P.count pages.new)) (Unit {0})) }
        ensures heap { P.tells → (rows : List Valued) (feet free : List ℕ) → Beside P.Pages (holds self.old rows) pages.old feet free → AreBelow (places_of rows) row.number → P.heap_fetches pages.new ≡ P.heap_fetches pages.old }
        ensures quiet { StaysQuiet P.Pages pages.old pages.new };

    /// Takes out the rows with these numbers. No page is taken; what stands on pages of its own and is left without rows gives them back.
    fn remove<P: Pages>(
        &mut self,
        alloc: Global,
        pages: &mut P,
        gone: &Bitmap,
    ) -> Result<(), PageError>
        requires class { valid self.old }
        ensures removed { OnOk result (P.tells → (rows : List Valued) (feet free : List ℕ) → Beside P.Pages (holds self.old rows) pages.old feet free
            → (later : List ℕ) × (rest : List ℕ) × Beside P.Pages (holds self.old (filter (λ row. not (is_in gone.now row.0.number)) rows)) pages.new later rest
            × KeepsPages P.Pages pages.old pages.new feet free later rest) }
        ensures same { self.new ≡ self.old }
        ensures count { P.count pages.new ≡ P.count pages.old }
        ensures cause { IfErr result (HasCause (P.faults pages.old) (P.faults pages.new)
            (λ at expected found. P.tells → (rows : List Valued) (feet free : List ℕ) → Beside P.Pages (holds self.old rows) pages.old feet free → ⊥) (λ _. ⊥) (Unit {0})) }
        ensures heap { P.tells → (rows : List Valued) (feet free : List ℕ) → Beside P.Pages (holds self.old rows) pages.old feet free → P.heap_fetches pages.new ≡ P.heap_fetches pages.old }
        ensures quiet { StaysQuiet P.Pages pages.old pages.new };

    /// The rows whose value the operator with its operand may hold of, by rising numbers: those that the keys don't rule out.
    fn find<P: Pages>(
        &self,
        alloc: Global,
        pages: &mut P,
        op: Operator,
        operand: &Operand,
    ) -> Result<Bitmap, PageError>
        requires class { valid self.now }
        requires question { IsQuestion (named self.now) (parameter self.now) op operand.now }
        ensures found { IfOk result (λ found. P.tells → (rows : List Valued) (feet : List ℕ) → holds self.now rows (P.map pages.old) (P.count pages.old) feet
            → found ≡ places_of (filter (λ row. candidate (named self.now) (parameter self.now) op (right_of operand.now.part) row.1) rows)) }
        ensures fetches { OnOk result (P.tells → (rows : List Valued) (feet : List ℕ) (most : ℕ) → visits self.now op operand.now rows (P.map pages.old) (P.count pages.old) feet most
            → P.fetches pages.new ≤ P.fetches pages.old + most) }
        ensures cause { IfErr result (HasCause (P.faults pages.old) (P.faults pages.new)
            (λ at expected found. P.tells → (rows : List Valued) (feet : List ℕ) → holds self.now rows (P.map pages.old) (P.count pages.old) feet → ⊥) (λ _. ⊥) (Unit {0})) }
        ensures map { P.map pages.new ≡ P.map pages.old }
        ensures count { P.count pages.new ≡ P.count pages.old }
        ensures heap { P.tells → (rows : List Valued) (feet : List ℕ) → holds self.now rows (P.map pages.old) (P.count pages.old) feet → P.heap_fetches pages.new ≡ P.heap_fetches pages.old }
        ensures quiet { StaysQuiet P.Pages pages.old pages.new };

    /// Gives every page back. There is no such structure then.
    fn drop_all<P: Pages>(self, alloc: Global, pages: &mut P) -> Result<(), PageError>
        requires class { valid self }
        ensures dropped { OnOk result (P.tells → (rows : List Valued) (feet free : List ℕ) → Beside P.Pages (holds self rows) pages.old feet free
            → (rest : List ℕ) × KeepsPages P.Pages pages.old pages.new feet free [] rest) }
        ensures count { P.count pages.new ≡ P.count pages.old }
        ensures cause { IfErr result (HasCause (P.faults pages.old) (P.faults pages.new)
            (λ at expected found. P.tells → (rows : List Valued) (feet free : List ℕ) → Beside P.Pages (holds self rows) pages.old feet free → ⊥) (λ _. ⊥) (Unit {0})) }
        ensures heap { P.tells → (rows : List Valued) (feet free : List ℕ) → Beside P.Pages (holds self rows) pages.old feet free → P.heap_fetches pages.new ≡ P.heap_fetches pages.old }
        ensures quiet { StaysQuiet P.Pages pages.old pages.new };

    /// The pages of the structure are below the count. It stays where another one changes, whose pages lie apart from its own.
    fn stays<P: Pages>(&self, pages: &P)
        ensures below { (rows : List Valued) (map : PageMap) (count : ℕ) (feet : List ℕ) → holds self.now rows map count feet → AllByRecursion (λ page. page < count) feet }
        ensures stays { (old new : P) (rows : List Valued) (feet before free after rest : List ℕ) → Beside P.Pages (holds self.now rows) old feet free
            → KeepsPages P.Pages old new before free after rest → IsApart (before ++ free ++ feet) → AllByRecursion (λ page. page < P.count old) before
            → Beside P.Pages (holds self.now rows) new feet rest };
}

impl<C: KeyClass> Kept for Tree<C>
where
    C::Query: Drop,
{
    ghost valid = { λ t. C.valid t.class };

    ghost named = { λ t. C.named t.class };

    ghost parameter = { λ t. C.parameter t.class };

    ghost entries = { λ _ _. 1 };

    ghost holds = { λ t rows map count feet. HoldsKeys C.GistClass t.class C.datum map count t.root rows feet };

    ghost visits = { λ t op operand rows map count feet most. Visits C.GistClass t.class C.datum (C.named t.class) (C.parameter t.class) op operand map count t.root rows feet most };

    fn put<P: Pages>(
        &mut self,
        alloc: Global,
        pages: &mut P,
        row: RowRef,
        value: &Value,
    ) -> Result<(), PageError> {
        let Some(found) = self.class.value_in(value) else {
            unreachable!()
        };
        put_key(self, alloc, pages, row, found)
    }

    fn remove<P: Pages>(
        &mut self,
        alloc: Global,
        pages: &mut P,
        gone: &Bitmap,
    ) -> Result<(), PageError> {
        remove_keys(self, alloc, pages, gone)
    }

    fn find<P: Pages>(
        &self,
        alloc: Global,
        pages: &mut P,
        op: Operator,
        operand: &Operand,
    ) -> Result<Bitmap, PageError> {
        questions_are_asked();
        let Ok(made) = self.class.query_for(alloc, op, operand) else {
            return Err(PageError::Memory);
        };
        let Some(query) = made else { unreachable!() };
        find_keys(self, alloc, pages, &query)
    }

    fn drop_all<P: Pages>(self, _alloc: Global, pages: &mut P) -> Result<(), PageError> {
        drop_keys(self, pages)
    }

    fn stays<P: Pages>(&self, pages: &P) {
        tree_stays(pages, &self.class);
    }
}
