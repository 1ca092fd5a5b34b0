//! Rows by the keys of a GiST class.

ghost use Rattle.std.specs.Prelude.{◌≡◌, ℕ, ◌+◌, ◌≤◌, Bool, List, [], ◌∷◌, ◌++◌, filter, not, true, IfOk, IfErr, IfSome, IfNone, OnOk};
ghost use Rattle.gx_pages.specs.Footprints.{KeepsPages, StaysQuiet};
ghost use Rattle.gx_pages.specs.Frees.{IsFreeList, IsFull};
ghost use Rattle.gx_pages.specs.Pages.{HasCause};
ghost use Rattle.gx_pages.specs.Rows.{AreBelow};
ghost use Rattle.gx_chain.specs.Chains.{ListsNone};
ghost use Rattle.gx_gist_tree.specs.OnPages.{is_in};
ghost use Rattle.gx_gist_tree.specs.Trees.{passes, visits};
ghost use Rattle.gx_value.specs.declared.classes.Class.{Class};
ghost use Rattle.gx_value.specs.declared.types.ColumnType.{ColumnType};
ghost use Rattle.gx_value.specs.Classes.{takes};
ghost use Rattle.gx_value.specs.Values.{Datum, datum_of, IsValue};
ghost use Rattle.gx_opr.specs.Operands.{right_of};
ghost use Rattle.gx_candidates.specs.Queries.{Asks, asks};
ghost use Rattle.gx_index.specs.Beside.{Beside};
ghost use Rattle.gx_index.specs.Kept.{HoldsKeys, Valued, places_of};
ghost use Rattle.gx_index.specs.Questions.{IsQueryFor};

use gx_bytes::NoMemory;
use gx_gist::{GistClass, OnBytes};
use gx_gist_tree::Tree;
use gx_opr::Operand;
use gx_pages::{Bitmap, PageError, Pages, RowRef};
use gx_value::{Operator, Value};
use std::alloc::Global;

/// A GiST class that a column's index can have.
pub trait KeyClass: OnBytes {
    // The class's line in the table of classes.
    ghost named: { Self → Class };

    // Its parameter: how many bytes a signature has, or how many intervals a key; 0 where it has none.
    ghost parameter: { Self → ℕ };

    // What a value of the class is among the values of columns.
    ghost datum: { Self.Value → Datum };

    /// The value of the class that a column's value is.
    fn value_in<'a>(&self, value: &'a Value) -> Option<&'a Self::Value>
        ensures same { IfSome result (λ found. datum found.now ≡ datum_of value.now) }
        ensures valid { (kind : ColumnType) → takes (named self.now) kind ≡ true → IsValue kind (datum_of value.now) → IfSome result (λ found. Self.valid_value self.now found.now) }
        ensures none { IfNone result ((kind : ColumnType) → takes (named self.now) kind ≡ true → IsValue kind (datum_of value.now) → ⊥) };

    /// What the class is asked for an operator with its operand; `None` where it lacks the operator with such an operand.
    fn query_for(
        &self,
        alloc: Global,
        op: Operator,
        operand: &Operand,
    ) -> Result<Option<Self::Query>, NoMemory>
        ensures { IfOk result (λ made. Asks (asks (named self.now) op (right_of operand.now.part))
            (IsQueryFor Self.GistClass self.now datum (named self.now) (parameter self.now) op operand.now) made) };
}

/// An index without rows, on a page that it takes.
pub fn create_keys<C: KeyClass, P: Pages>(class: C, pages: &mut P) -> Result<Tree<C>, PageError>
    ensures class { IfOk result (λ tree. tree.class ≡ class) }
    ensures made { IfOk result (λ tree. P.tells → (free : List ℕ) → IsFreeList (P.map pages.old) (P.count pages.old) free
        → (rest : List ℕ) × Beside P.Pages (λ map count feet. HoldsKeys C.GistClass class C.datum map count tree.root [] feet) pages.new (tree.root ∷ []) rest
        × KeepsPages P.Pages pages.old pages.new [] free (tree.root ∷ []) rest) }
    ensures grows { P.count pages.old ≤ P.count pages.new }
    ensures by_one { P.count pages.new ≤ P.count pages.old + 1 }
    ensures cause { IfErr result (HasCause (P.faults pages.old) (P.faults pages.new)
        (λ at expected found. P.tells → ListsNone P.Pages pages.old) (IsFull P.tells (P.map pages.new) (P.count pages.new)) (Unit {0})) }
    ensures heap { P.heap_fetches pages.new ≡ P.heap_fetches pages.old }
    ensures quiet { StaysQuiet P.Pages pages.old pages.new }
{
    Tree::create(class, pages)
}

/// Adds a row, whose number is above all that the index has. At most 64 pages more are taken.
pub fn put_key<C: KeyClass, P: Pages>(
    tree: &mut Tree<C>,
    alloc: Global,
    pages: &mut P,
    row: RowRef,
    value: &C::Value,
) -> Result<(), PageError>
    requires class { C.valid tree.old.class }
    requires value { C.valid_value tree.old.class value.now }
    ensures put { OnOk result (P.tells → (rows : List Valued) (feet free : List ℕ)
        → Beside P.Pages (λ map count at. HoldsKeys C.GistClass tree.old.class C.datum map count tree.old.root rows at) pages.old feet free → AreBelow (places_of rows) row.number
        → (later : List ℕ) × (rest : List ℕ)
        × Beside P.Pages (λ map count at. HoldsKeys C.GistClass tree.old.class C.datum map count tree.old.root (rows ++ (row, C.datum value.now) ∷ []) at) pages.new later rest
        × KeepsPages P.Pages pages.old pages.new feet free later rest) }
    ensures same { tree.new ≡ tree.old }
    ensures grows { P.count pages.old ≤ P.count pages.new }
    ensures few { P.count pages.new ≤ P.count pages.old + 64 }
    ensures cause { IfErr result (HasCause (P.faults pages.old) (P.faults pages.new)
        (λ at expected found. P.tells → (rows : List Valued) (feet free : List ℕ)
        → Beside P.Pages (λ map count at. HoldsKeys C.GistClass tree.old.class C.datum map count tree.old.root rows at) pages.old feet free → AreBelow (places_of rows) row.number → ⊥)
        (IsFull P.tells (P.map pages.new) (P.count pages.new)) (Unit {0})) }
    ensures heap { P.tells → (rows : List Valued) (feet free : List ℕ)
        → Beside P.Pages (λ map count at. HoldsKeys C.GistClass tree.old.class C.datum map count tree.old.root rows at) pages.old feet free
        → P.heap_fetches pages.new ≡ P.heap_fetches pages.old }
    ensures quiet { StaysQuiet P.Pages pages.old pages.new }
{
    let Ok(key) = tree.class.leaf(alloc, value) else {
        return Err(PageError::Memory);
    };
    tree.insert(alloc, pages, row, &key)
}

/// Takes out the rows with these numbers. No page is taken or given.
pub fn remove_keys<C: KeyClass, P: Pages>(
    tree: &mut Tree<C>,
    alloc: Global,
    pages: &mut P,
    gone: &Bitmap,
) -> Result<(), PageError>
    requires class { C.valid tree.old.class }
    ensures removed { OnOk result (P.tells → (rows : List Valued) (feet free : List ℕ)
        → Beside P.Pages (λ map count at. HoldsKeys C.GistClass tree.old.class C.datum map count tree.old.root rows at) pages.old feet free
        → Beside P.Pages (λ map count at. HoldsKeys C.GistClass tree.old.class C.datum map count tree.old.root (filter (λ row. not (is_in gone.now row.0.number)) rows) at) pages.new feet free
        × KeepsPages P.Pages pages.old pages.new feet free feet free) }
    ensures same { tree.new ≡ tree.old }
    ensures count { P.count pages.new ≡ P.count pages.old }
    ensures cause { IfErr result (HasCause (P.faults pages.old) (P.faults pages.new)
        (λ at expected found. P.tells → (rows : List Valued) (feet free : List ℕ)
        → Beside P.Pages (λ map count at. HoldsKeys C.GistClass tree.old.class C.datum map count tree.old.root rows at) pages.old feet free → ⊥) (λ _. ⊥) (Unit {0})) }
    ensures heap { P.tells → (rows : List Valued) (feet free : List ℕ)
        → Beside P.Pages (λ map count at. HoldsKeys C.GistClass tree.old.class C.datum map count tree.old.root rows at) pages.old feet free
        → P.heap_fetches pages.new ≡ P.heap_fetches pages.old }
    ensures quiet { StaysQuiet P.Pages pages.old pages.new }
{
    tree.remove_rows(alloc, pages, gone)
}

/// Gives every page back. There is no index then.
pub fn drop_keys<C: KeyClass, P: Pages>(tree: Tree<C>, pages: &mut P) -> Result<(), PageError>
    requires class { C.valid tree.class }
    ensures dropped { OnOk result (P.tells → (rows : List Valued) (feet free : List ℕ)
        → Beside P.Pages (λ map count at. HoldsKeys C.GistClass tree.class C.datum map count tree.root rows at) pages.old feet free
        → (rest : List ℕ) × KeepsPages P.Pages pages.old pages.new feet free [] rest) }
    ensures count { P.count pages.new ≡ P.count pages.old }
    ensures cause { IfErr result (HasCause (P.faults pages.old) (P.faults pages.new)
        (λ at expected found. P.tells → (rows : List Valued) (feet free : List ℕ)
        → Beside P.Pages (λ map count at. HoldsKeys C.GistClass tree.class C.datum map count tree.root rows at) pages.old feet free → ⊥) (λ _. ⊥) (Unit {0})) }
    ensures heap { P.tells → (rows : List Valued) (feet free : List ℕ)
        → Beside P.Pages (λ map count at. HoldsKeys C.GistClass tree.class C.datum map count tree.root rows at) pages.old feet free
        → P.heap_fetches pages.new ≡ P.heap_fetches pages.old }
    ensures quiet { StaysQuiet P.Pages pages.old pages.new }
{
    tree.drop_all(pages)
}

/// The rows whose key doesn't rule the query out, by rising numbers. It fetches no more pages than the keys lead to.
pub fn find_keys<C: KeyClass, P: Pages>(
    tree: &Tree<C>,
    alloc: Global,
    pages: &mut P,
    query: &C::Query,
) -> Result<Bitmap, PageError>
    requires class { C.valid tree.now.class }
    requires query { C.valid_query tree.now.class query.now }
    ensures found { IfOk result (λ found. P.tells → (rows : List Valued) (feet : List ℕ) → HoldsKeys C.GistClass tree.now.class C.datum (P.map pages.old) (P.count pages.old) tree.now.root rows feet
        → (finds : Datum → Bool) → ((v : C.Value) → C.valid_value tree.now.class v → passes (C.leaf_test tree.now.class (C.leaf_of tree.now.class v) query.now) ≡ finds (C.datum v))
        → found ≡ places_of (filter (λ row. finds row.1) rows)) }
    ensures visits { P.tells → (rows : List Valued) (feet : List ℕ) (held : HoldsKeys C.GistClass tree.now.class C.datum (P.map pages.old) (P.count pages.old) tree.now.root rows feet)
        → P.fetches pages.new ≤ P.fetches pages.old + visits (λ k. C.inner_test tree.now.class k query.now) held.tree.0 held.tree.1 }
    ensures cause { IfErr result (HasCause (P.faults pages.old) (P.faults pages.new)
        (λ at expected found. P.tells → (rows : List Valued) (feet : List ℕ)
        → HoldsKeys C.GistClass tree.now.class C.datum (P.map pages.old) (P.count pages.old) tree.now.root rows feet → ⊥) (λ _. ⊥) (Unit {0})) }
    ensures map { P.map pages.new ≡ P.map pages.old }
    ensures count { P.count pages.new ≡ P.count pages.old }
    ensures heap { P.tells → (rows : List Valued) (feet : List ℕ)
        → HoldsKeys C.GistClass tree.now.class C.datum (P.map pages.old) (P.count pages.old) tree.now.root rows feet → P.heap_fetches pages.new ≡ P.heap_fetches pages.old }
    ensures quiet { StaysQuiet P.Pages pages.old pages.new }
{
    let rows = tree.search(alloc, pages, query)?;
    let _rising = rows.as_slice();
    Ok(rows)
}
