//! Rows by the items of a GIN class.

ghost use Rattle.std.specs.Prelude.{◌≡◌, ℕ, ◌+◌, ◌≤◌, List, [], ◌∷◌, length, true, IfErr, IfOk, IfSome, IfNone};
ghost use Rattle.gx_chain.specs.Chains.{ListsNone};
ghost use Rattle.gx_pages.specs.Footprints.{KeepsPages, StaysQuiet};
ghost use Rattle.gx_pages.specs.Frees.{IsFreeList, IsFull};
ghost use Rattle.gx_pages.specs.Pages.{HasCause};
ghost use Rattle.gx_value.specs.declared.classes.Class.{Class};
ghost use Rattle.gx_value.specs.declared.types.ColumnType.{ColumnType};
ghost use Rattle.gx_value.specs.Classes.{takes};
ghost use Rattle.gx_value.specs.Values.{Datum, datum_of, IsValue};
ghost use Rattle.gx_opr.specs.Operands.{right_of};
ghost use Rattle.gx_candidates.specs.Candidates.{entries_of};
ghost use Rattle.gx_candidates.specs.Queries.{Asks, asks};
ghost use Rattle.gx_gin_scan.specs.Lists.{keys_of};
ghost use Rattle.gx_index.specs.Beside.{Beside};
ghost use Rattle.gx_index.specs.Items.{HoldsItems, IsItemQueryFor, Reads};

use crate::Kept;
use gx_bytes::NoMemory;
use gx_candidates::questions_are_asked;
use gx_gin::GinClass;
use gx_gin_scan::{Gin, index_stays};
use gx_opr::Operand;
use gx_pages::{Bitmap, PageError, Pages, RowRef};
use gx_value::{Operator, Value};
use std::alloc::Global;

/// A GIN class that a column's index can have. None of these classes has a parameter.
pub trait ItemClass: GinClass {
    // The class's line in the table of classes.
    ghost named: { Self → Class };

    // What a value of the class is among the values of columns.
    ghost datum: { Self.Value → Datum };

    /// The value of the class that a column's value is.
    fn value_in<'a>(&self, value: &'a Value) -> Option<&'a Self::Value>
        ensures same { IfSome result (λ found. datum found.now ≡ datum_of value.now) }
        ensures valid { (kind : ColumnType) → takes (named self.now) kind ≡ true → IsValue kind (datum_of value.now) → IfSome result (λ found. Self.valid_value self.now found.now) }
        ensures none { IfNone result ((kind : ColumnType) → takes (named self.now) kind ≡ true → IsValue kind (datum_of value.now) → ⊥) };

    /// What the class is asked for an operator with its operand; `None` where it lacks the operator with such an operand.
    fn query_for(
        &self,
        alloc: Global,
        op: Operator,
        operand: &Operand,
    ) -> Result<Option<Self::Query>, NoMemory>
        ensures { IfOk result (λ made. Asks (asks (named self.now) op (right_of operand.now.part))
            (IsItemQueryFor Self.GinClass self.now datum (named self.now) op operand.now) made) };

    // A value has an entry for each key.
    ghost counted: { (c : Self) (v : Self.Value) → length (keys_of (Self.GinClass.items_of c v)) ≡ entries_of (named c) (datum v) };
}

/// An index without rows, on a page that it takes.
pub fn create_items<C: ItemClass, P: Pages>(class: C, pages: &mut P) -> Result<Gin<C>, PageError>
    ensures class { IfOk result (λ made. made.class ≡ class) }
    ensures made { IfOk result (λ made. P.tells → (free : List ℕ) → IsFreeList (P.map pages.old) (P.count pages.old) free
        → (rest : List ℕ) × Beside P.Pages (λ map count feet. HoldsItems C.GinClass class C.datum map count made.root [] feet) pages.new (made.root ∷ []) rest
        × KeepsPages P.Pages pages.old pages.new [] free (made.root ∷ []) rest) }
    ensures grows { P.count pages.old ≤ P.count pages.new }
    ensures by_one { P.count pages.new ≤ P.count pages.old + 1 }
    ensures cause { IfErr result (HasCause (P.faults pages.old) (P.faults pages.new)
        (λ at expected found. P.tells → ListsNone P.Pages pages.old) (IsFull P.tells (P.map pages.new) (P.count pages.new)) (Unit {0})) }
    ensures heap { P.heap_fetches pages.new ≡ P.heap_fetches pages.old }
    ensures quiet { StaysQuiet P.Pages pages.old pages.new }
{
    Gin::create(class, pages)
}

impl<C: ItemClass> Kept for Gin<C>
where
    C::Query: Drop,
{
    ghost valid = { λ t. C.valid t.class };

    ghost named = { λ t. C.named t.class };

    ghost parameter = { λ _. 0 };

    ghost entries = { λ t value. entries_of (C.named t.class) value };

    ghost holds = { λ t rows map count feet. HoldsItems C.GinClass t.class C.datum map count t.root rows feet };

    ghost visits = { λ t op operand rows map count feet most. Reads C.GinClass t.class C.datum (C.named t.class) op operand map count t.root rows feet most };

    fn put<P: Pages>(
        &mut self,
        alloc: Global,
        pages: &mut P,
        row: RowRef,
        value: &Value,
    ) -> Result<(), PageError> {
        let Some(found) = self.class.value_in(value) else {
            unreachable!()
        };
        self.insert(alloc, pages, row, found)
    }

    fn remove<P: Pages>(
        &mut self,
        alloc: Global,
        pages: &mut P,
        gone: &Bitmap,
    ) -> Result<(), PageError> {
        self.remove_rows(alloc, pages, gone)
    }

    fn find<P: Pages>(
        &self,
        alloc: Global,
        pages: &mut P,
        op: Operator,
        operand: &Operand,
    ) -> Result<Bitmap, PageError> {
        questions_are_asked();
        let Ok(made) = self.class.query_for(alloc, op, operand) else {
            return Err(PageError::Memory);
        };
        let Some(query) = made else { unreachable!() };
        self.search(alloc, pages, &query)
    }

    fn drop_all<P: Pages>(self, alloc: Global, pages: &mut P) -> Result<(), PageError> {
        Gin::drop_all(self, alloc, pages)
    }

    fn stays<P: Pages>(&self, pages: &P) {
        index_stays(pages);
    }
}
