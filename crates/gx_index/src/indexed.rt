//! An index of one class.

ghost use Rattle.std.specs.Prelude.{◌≡◌, ℕ, ◌+◌, ◌*◌, ◌<◌, ◌≤◌, List, [], ◌∷◌, ◌++◌, length, filter, not, true, Option, None, Some, IfOk, IfErr, IfSome, OnOk, OnErr};
ghost use Rattle.std.specs.List.{AllByRecursion};
ghost use Rattle.std.specs.Option.{option_map};
ghost use Rattle.gx_words.specs.PageMap.{PageMap};
ghost use Rattle.gx_pages.specs.Footprints.{KeepsPages, StaysQuiet};
ghost use Rattle.gx_pages.specs.Frees.{IsApart, IsFull};
ghost use Rattle.gx_pages.specs.Pages.{HasCause};
ghost use Rattle.gx_pages.specs.Rows.{AreBelow};
ghost use Rattle.gx_value.specs.declared.types.ColumnType.{ColumnType};
ghost use Rattle.gx_value.specs.Classes.{takes};
ghost use Rattle.gx_value.specs.Values.{Datum, datum_of, IsValue};
ghost use Rattle.gx_opr.specs.Operands.{right_of};
ghost use Rattle.gx_candidates.specs.Candidates.{candidate};
ghost use Rattle.gx_index.specs.Beside.{Beside};
ghost use Rattle.gx_chain.specs.Chains.{IsSound};
ghost use Rattle.gx_gist_tree.specs.OnPages.{is_in};
ghost use Rattle.gx_index.specs.Indexed.{Field, HoldsIndex, entries_in, nulls_of, valued};
ghost use Rattle.gx_index.specs.Kept.{Valued, places_of};
ghost use Rattle.gx_index.specs.Questions.{IsQuestion};

use crate::Kept;
use crate::nulls::{drop_nulls, find_nulls, nulls_stay, put_null, remove_nulls};
use gx_opr::Operand;
use gx_pages::{Bitmap, PageError, Pages, RowRef};
use gx_value::{Operator, Value};
use std::alloc::Global;

/// An index of one class: what keeps the rows with values, and the root page of the NULL rows, which is 0 where there are none.
#[derive(Drop)]
pub struct Indexed<M: Kept> {
    pub kept: M,
    pub nulls: u64,
}

impl<M: Kept> Indexed<M> {
    /// An index without NULL rows.
    pub fn new(kept: M) -> Indexed<M>
        ensures kept { result.kept ≡ kept }
        ensures empty { (map : PageMap) (count : ℕ) (feet : List ℕ) → M.holds kept [] map count feet → HoldsIndex (M.holds kept) result.nulls [] map count feet }
    {
        Indexed { kept, nulls: 0 }
    }

    /// Adds a row, whose number is above all that the index has. At most 128 pages more are taken for each entry of its value.
    fn put_value<P: Pages>(
        &mut self,
        alloc: Global,
        pages: &mut P,
        row: RowRef,
        value: &Value,
    ) -> Result<(), PageError>
        requires class { M.valid self.old.kept }
        requires value { (kind : ColumnType) × (takes (M.named self.old.kept) kind ≡ true) × IsValue kind (datum_of value.now) }
        ensures put { OnOk result (P.tells → (rows : List Field) (feet free : List ℕ) → Beside P.Pages (HoldsIndex (M.holds self.old.kept) self.old.nulls rows) pages.old feet free → AreBelow (places_of rows) row.number
            → (later : List ℕ) × (rest : List ℕ) × Beside P.Pages (HoldsIndex (M.holds self.old.kept) self.old.nulls (rows ++ (row, Some (datum_of value.now)) ∷ [])) pages.new later rest
            × KeepsPages P.Pages pages.old pages.new feet free later rest) }
        ensures same { self.new ≡ self.old }
        ensures grows { P.count pages.old ≤ P.count pages.new }
        ensures few { P.count pages.new ≤ P.count pages.old + 128 * M.entries self.old.kept (datum_of value.now) }
        ensures cause { IfErr result (HasCause (P.faults pages.old) (P.faults pages.new)
            (λ at expected found. P.tells → (rows : List Field) (feet free : List ℕ) → Beside P.Pages (HoldsIndex (M.holds self.old.kept) self.old.nulls rows) pages.old feet free → AreBelow (places_of rows) row.number → ⊥)
            (IsFull P.tells (P.map pages.new) (P.count pages.new)) (Unit {0})) }
        ensures heap { P.tells → (rows : List Field) (feet free : List ℕ) → Beside P.Pages (HoldsIndex (M.holds self.old.kept) self.old.nulls rows) pages.old feet free → AreBelow (places_of rows) row.number
            → P.heap_fetches pages.new ≡ P.heap_fetches pages.old }
        ensures quiet { StaysQuiet P.Pages pages.old pages.new }
    {
        nulls_stay(pages);
        self.kept.put(alloc, pages, row, value)
    }

    /// Adds a row whose value is NULL, and whose number is above all that the index has.
    fn put_null<P: Pages>(
        &mut self,
        alloc: Global,
        pages: &mut P,
        row: RowRef,
    ) -> Result<(), PageError>
        ensures put { OnOk result (P.tells → (rows : List Field) (feet free : List ℕ) → Beside P.Pages (HoldsIndex (M.holds self.old.kept) self.old.nulls rows) pages.old feet free → AreBelow (places_of rows) row.number
            → (later : List ℕ) × (rest : List ℕ) × Beside P.Pages (HoldsIndex (M.holds self.old.kept) self.new.nulls (rows ++ (row, None) ∷ [])) pages.new later rest
            × KeepsPages P.Pages pages.old pages.new feet free later rest) }
        ensures kept { self.new.kept ≡ self.old.kept }
        ensures same { OnErr result (self.new ≡ self.old) }
        ensures grows { P.count pages.old ≤ P.count pages.new }
        ensures few { P.count pages.new ≤ P.count pages.old + 61 }
        ensures cause { IfErr result (HasCause (P.faults pages.old) (P.faults pages.new)
            (λ at expected found. P.tells → (rows : List Field) (feet free : List ℕ) → Beside P.Pages (HoldsIndex (M.holds self.old.kept) self.old.nulls rows) pages.old feet free → AreBelow (places_of rows) row.number → ⊥)
            (IsFull P.tells (P.map pages.new) (P.count pages.new)) (Unit {0})) }
        ensures heap { P.tells → (rows : List Field) (feet free : List ℕ) → Beside P.Pages (HoldsIndex (M.holds self.old.kept) self.old.nulls rows) pages.old feet free → AreBelow (places_of rows) row.number
            → P.heap_fetches pages.new ≡ P.heap_fetches pages.old }
        ensures quiet { StaysQuiet P.Pages pages.old pages.new }
    {
        self.kept.stays(pages);
        match put_null(alloc, pages, self.nulls, row) {
            Ok(root) => {
                self.nulls = root;
                Ok(())
            }
            Err(error) => Err(error),
        }
    }

    /// The rows whose value is NULL.
    pub fn find_nulls<P: Pages>(&self, alloc: Global, pages: &mut P) -> Result<Bitmap, PageError>
        ensures found { IfOk result (λ found. P.tells → (rows : List Field) (feet : List ℕ) → HoldsIndex (M.holds self.now.kept) self.now.nulls rows (P.map pages.old) (P.count pages.old) feet → found ≡ nulls_of rows) }
        ensures fetches { OnOk result (P.tells → (rows : List Field) (feet : List ℕ) (held : HoldsIndex (M.holds self.now.kept) self.now.nulls rows (P.map pages.old) (P.count pages.old) feet)
            → P.fetches pages.new ≤ P.fetches pages.old + length held.others) }
        ensures cause { IfErr result (HasCause (P.faults pages.old) (P.faults pages.new)
            (λ at expected found. P.tells → (rows : List Field) (feet : List ℕ) → HoldsIndex (M.holds self.now.kept) self.now.nulls rows (P.map pages.old) (P.count pages.old) feet → ⊥) (λ _. ⊥) (Unit {0})) }
        ensures map { P.map pages.new ≡ P.map pages.old }
        ensures count { P.count pages.new ≡ P.count pages.old }
        ensures heap { IsSound result → P.heap_fetches pages.new ≡ P.heap_fetches pages.old }
        ensures quiet { StaysQuiet P.Pages pages.old pages.new }
    {
        find_nulls(alloc, pages, self.nulls)
    }

    /// The rows whose value isn't NULL and may be one that the operator with its operand holds of, by rising numbers: those that the keys don't
    /// rule out.
    pub fn search<P: Pages>(
        &self,
        alloc: Global,
        pages: &mut P,
        op: Operator,
        operand: &Operand,
    ) -> Result<Bitmap, PageError>
        requires class { M.valid self.now.kept }
        requires question { IsQuestion (M.named self.now.kept) (M.parameter self.now.kept) op operand.now }
        ensures found { IfOk result (λ found. P.tells → (rows : List Field) (feet : List ℕ) → HoldsIndex (M.holds self.now.kept) self.now.nulls rows (P.map pages.old) (P.count pages.old) feet
            → found ≡ places_of (filter (λ row. candidate (M.named self.now.kept) (M.parameter self.now.kept) op (right_of operand.now.part) row.1) (valued rows))) }
        ensures fetches { OnOk result (P.tells → (rows : List Valued) (feet : List ℕ) (most : ℕ) → M.visits self.now.kept op operand.now rows (P.map pages.old) (P.count pages.old) feet most
            → P.fetches pages.new ≤ P.fetches pages.old + most) }
        ensures cause { IfErr result (HasCause (P.faults pages.old) (P.faults pages.new)
            (λ at expected found. P.tells → (rows : List Field) (feet : List ℕ) → HoldsIndex (M.holds self.now.kept) self.now.nulls rows (P.map pages.old) (P.count pages.old) feet → ⊥) (λ _. ⊥) (Unit {0})) }
        ensures map { P.map pages.new ≡ P.map pages.old }
        ensures count { P.count pages.new ≡ P.count pages.old }
        ensures heap { P.tells → (rows : List Field) (feet : List ℕ) → HoldsIndex (M.holds self.now.kept) self.now.nulls rows (P.map pages.old) (P.count pages.old) feet
            → P.heap_fetches pages.new ≡ P.heap_fetches pages.old }
        ensures quiet { StaysQuiet P.Pages pages.old pages.new }
    {
        self.kept.find(alloc, pages, op, operand)
    }

    /// Takes out the rows with these numbers. The count of pages stays; where no NULL row is left their pages are given back.
    pub fn remove<P: Pages>(
        &mut self,
        alloc: Global,
        pages: &mut P,
        gone: &Bitmap,
    ) -> Result<(), PageError>
        requires class { M.valid self.old.kept }
        ensures removed { OnOk result (P.tells → (rows : List Field) (feet free : List ℕ) → Beside P.Pages (HoldsIndex (M.holds self.old.kept) self.old.nulls rows) pages.old feet free
            → (later : List ℕ) × (rest : List ℕ) × Beside P.Pages (HoldsIndex (M.holds self.old.kept) self.new.nulls (filter (λ row. not (is_in gone.now row.0.number)) rows)) pages.new later rest
            × KeepsPages P.Pages pages.old pages.new feet free later rest) }
        ensures same { OnErr result (self.new ≡ self.old) }
        ensures kept { self.new.kept ≡ self.old.kept }
        ensures count { P.count pages.new ≡ P.count pages.old }
        ensures cause { IfErr result (HasCause (P.faults pages.old) (P.faults pages.new)
            (λ at expected found. P.tells → (rows : List Field) (feet free : List ℕ) → Beside P.Pages (HoldsIndex (M.holds self.old.kept) self.old.nulls rows) pages.old feet free → ⊥) (λ _. ⊥) (Unit {0})) }
        ensures heap { P.tells → (rows : List Field) (feet free : List ℕ) → Beside P.Pages (HoldsIndex (M.holds self.old.kept) self.old.nulls rows) pages.old feet free
            → P.heap_fetches pages.new ≡ P.heap_fetches pages.old }
        ensures quiet { StaysQuiet P.Pages pages.old pages.new }
    {
        nulls_stay(pages);
        self.kept.stays(pages);
        match self.kept.remove(alloc, pages, gone) {
            Ok(()) => match remove_nulls(alloc, pages, self.nulls, gone) {
                Ok(root) => {
                    self.nulls = root;
                    Ok(())
                }
                Err(error) => Err(error),
            },
            Err(error) => Err(error),
        }
    }

    /// The pages of the index are below the count. It stays where another structure changes, whose pages lie apart from its own.
    pub fn stays<P: Pages>(&self, pages: &P)
        ensures below { (rows : List Field) (map : PageMap) (count : ℕ) (feet : List ℕ) → HoldsIndex (M.holds self.now.kept) self.now.nulls rows map count feet
            → AllByRecursion (λ page. page < count) feet }
        ensures stays { (old new : P) (rows : List Field) (feet before free after rest : List ℕ) → Beside P.Pages (HoldsIndex (M.holds self.now.kept) self.now.nulls rows) old feet free
            → KeepsPages P.Pages old new before free after rest → IsApart (before ++ free ++ feet) → AllByRecursion (λ page. page < P.count old) before
            → Beside P.Pages (HoldsIndex (M.holds self.now.kept) self.now.nulls rows) new feet rest }
    {
        nulls_stay(pages);
        self.kept.stays(pages);
    }

    /// Gives every page back. There is no index then.
    pub fn drop_all<P: Pages>(self, alloc: Global, pages: &mut P) -> Result<(), PageError>
        requires class { M.valid self.kept }
        ensures dropped { OnOk result (P.tells → (rows : List Field) (feet free : List ℕ) → Beside P.Pages (HoldsIndex (M.holds self.kept) self.nulls rows) pages.old feet free
            → (rest : List ℕ) × KeepsPages P.Pages pages.old pages.new feet free [] rest) }
        ensures count { P.count pages.new ≡ P.count pages.old }
        ensures cause { IfErr result (HasCause (P.faults pages.old) (P.faults pages.new)
            (λ at expected found. P.tells → (rows : List Field) (feet free : List ℕ) → Beside P.Pages (HoldsIndex (M.holds self.kept) self.nulls rows) pages.old feet free → ⊥) (λ _. ⊥) (Unit {0})) }
        ensures heap { P.tells → (rows : List Field) (feet free : List ℕ) → Beside P.Pages (HoldsIndex (M.holds self.kept) self.nulls rows) pages.old feet free
            → P.heap_fetches pages.new ≡ P.heap_fetches pages.old }
        ensures quiet { StaysQuiet P.Pages pages.old pages.new }
    {
        self.kept.stays(pages);
        match drop_nulls(alloc, pages, self.nulls) {
            Ok(()) => self.kept.drop_all(alloc, pages),
            Err(error) => Err(error),
        }
    }

    /// Adds a row with its value, which may be NULL, and whose number is above all that the index has. At most 128 pages more are taken for each
    /// entry of the value, of which NULL has one.
    pub fn put<P: Pages>(
        &mut self,
        alloc: Global,
        pages: &mut P,
        row: RowRef,
        value: Option<&Value>,
    ) -> Result<(), PageError>
        requires class { M.valid self.old.kept }
        requires value { IfSome value (λ v. (kind : ColumnType) × (takes (M.named self.old.kept) kind ≡ true) × IsValue kind (datum_of v.now)) }
        ensures put { OnOk result (P.tells → (rows : List Field) (feet free : List ℕ) → Beside P.Pages (HoldsIndex (M.holds self.old.kept) self.old.nulls rows) pages.old feet free → AreBelow (places_of rows) row.number
            → (later : List ℕ) × (rest : List ℕ)
            × Beside P.Pages (HoldsIndex (M.holds self.old.kept) self.new.nulls (rows ++ (row, option_map (λ v. datum_of v.now) value.entry) ∷ [])) pages.new later rest
            × KeepsPages P.Pages pages.old pages.new feet free later rest) }
        ensures kept { self.new.kept ≡ self.old.kept }
        ensures same { OnErr result (self.new ≡ self.old) }
        ensures grows { P.count pages.old ≤ P.count pages.new }
        ensures few { P.count pages.new ≤ P.count pages.old + 128 * entries_in (M.entries self.old.kept) (option_map (λ v. datum_of v.now) value.entry) }
        ensures cause { IfErr result (HasCause (P.faults pages.old) (P.faults pages.new)
            (λ at expected found. P.tells → (rows : List Field) (feet free : List ℕ) → Beside P.Pages (HoldsIndex (M.holds self.old.kept) self.old.nulls rows) pages.old feet free → AreBelow (places_of rows) row.number → ⊥)
            (IsFull P.tells (P.map pages.new) (P.count pages.new)) (Unit {0})) }
        ensures heap { P.tells → (rows : List Field) (feet free : List ℕ) → Beside P.Pages (HoldsIndex (M.holds self.old.kept) self.old.nulls rows) pages.old feet free → AreBelow (places_of rows) row.number
            → P.heap_fetches pages.new ≡ P.heap_fetches pages.old }
        ensures quiet { StaysQuiet P.Pages pages.old pages.new }
    {
        match value {
            Some(value) => self.put_value(alloc, pages, row, value),
            None => self.put_null(alloc, pages, row),
        }
    }
}
