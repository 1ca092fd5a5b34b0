//! All pages of a tree.

ghost use Rattle.std.specs.Prelude.{◌≡◌, ◌≢◌, ℕ, zero, suc, ◌+◌, ◌<◌, ◌≤◌, ◌==◌, List, [], ◌∷◌, ◌++◌, length, map, IfOk, IfErr, OnOk};
ghost use Rattle.std.specs.List.{list_any};
ghost use Rattle.gx_pages.specs.Footprints.{StaysQuiet};
ghost use Rattle.gx_pages.specs.Pages.{HasCause};
ghost use Rattle.gx_chain.specs.Chains.{IsSound};
ghost use Rattle.gx_tree.specs.Trees.{Holds, Node, Row, children, leaves_of, numbers, page_of, slots_of, uppers_of};

use crate::children::push_children;
use crate::fetching::fetch_level;
use gx_pages::{PageError, Pages};
use gx_slot::SlotPage;
use std::alloc::Global;

/// The pages of a tree above level 0, level by level, and those of level 0 in order.
#[derive(Drop)]
pub struct TreePages {
    pub uppers: Vec<u64>,
    pub leaves: Vec<u64>,
}

/// The pages of a tree whose root page has these items and isn't of level 0. Each page above level 0 but the root is fetched
/// once, and none of level 0. Broken where a page above level 0 is reached twice.
pub fn survey<P: Pages>(
    alloc: Global,
    pages: &mut P,
    root: u64,
    kind: u8,
    top: &SlotPage,
) -> Result<TreePages, PageError>
    requires { 0 < top.now.level }
    ensures found { IfOk result (λ found. P.tells → (level : ℕ) (node : Node (suc level)) → Holds (P.map pages.old) (P.count pages.old) kind root (suc level, node)
        → top.now ≡ slots_of kind (suc level) node
        → (found.uppers.items ≡ uppers_of (suc level) (node ∷ [])) × (found.leaves.items ≡ numbers (leaves_of (suc level) (node ∷ [])))) }
    ensures cause { IfErr result (HasCause (P.faults pages.old) (P.faults pages.new)
        (λ at expected found. P.tells → (level : ℕ) (node : Node (suc level)) → Holds (P.map pages.old) (P.count pages.old) kind root (suc level, node)
        → top.now ≡ slots_of kind (suc level) node → ⊥) (λ _. ⊥) (Unit {0})) }
    ensures map { P.map pages.new ≡ P.map pages.old }
    ensures count { P.count pages.new ≡ P.count pages.old }
    ensures heap { kind ≢ 2 → IsSound result → P.heap_fetches pages.new ≡ P.heap_fetches pages.old }
    ensures fetches { IfOk result (λ found. P.fetches pages.new + 1 ≤ P.fetches pages.old + length found.uppers.items) }
    ensures quiet { StaysQuiet P.Pages pages.old pages.new }
{
    let mut uppers = Vec::new(alloc);
    let Ok(()) = uppers.push(root) else {
        return Err(PageError::Memory);
    };
    let mut row = Vec::new(alloc);
    push_children(root, top, &mut row)?;
    let leaves = leaves_below(alloc, pages, kind, top.level() - 1, row, &mut uppers)?;
    Ok(TreePages { uppers, leaves })
}

/// The pages of level 0 below those of a row. The pages of a row above level 0 are added to `uppers`.
fn leaves_below<P: Pages>(
    alloc: Global,
    pages: &mut P,
    kind: u8,
    level: u8,
    row: Vec<u64>,
    uppers: &mut Vec<u64>,
) -> Result<Vec<u64>, PageError>
    ensures found { IfOk result (λ leaves. P.tells → (nodes : List (Node level)) → Row (P.map pages.old) (P.count pages.old) kind uppers.old.items row.items level nodes
        → (leaves.items ≡ numbers (leaves_of level nodes)) × (uppers.new.items ≡ uppers.old.items ++ uppers_of level nodes)) }
    ensures cause { IfErr result (HasCause (P.faults pages.old) (P.faults pages.new)
        (λ at expected found. P.tells → (nodes : List (Node level)) → Row (P.map pages.old) (P.count pages.old) kind uppers.old.items row.items level nodes → ⊥) (λ _. ⊥) (Unit {0})) }
    ensures map { P.map pages.new ≡ P.map pages.old }
    ensures count { P.count pages.new ≡ P.count pages.old }
    ensures heap { kind ≢ 2 → IsSound result → P.heap_fetches pages.new ≡ P.heap_fetches pages.old }
    ensures fetches { OnOk result (P.fetches pages.new + length uppers.old.items ≤ P.fetches pages.old + length uppers.new.items) }
    ensures quiet { StaysQuiet P.Pages pages.old pages.new }
{
    if level == 0 {
        return Ok(row);
    }
    let next = row_below(alloc, pages, kind, level - 1, row.as_slice(), uppers)?;
    leaves_below(alloc, pages, kind, level - 1, next, uppers)
}

/// The pages of a level, below those of a row, which are added to `uppers`.
fn row_below<P: Pages>(
    alloc: Global,
    pages: &mut P,
    kind: u8,
    level: u8,
    row: &[u64],
    uppers: &mut Vec<u64>,
) -> Result<Vec<u64>, PageError>
    requires { level < 255 }
    ensures found { IfOk result (λ next. P.tells → (nodes : List (Node (suc level))) → Row (P.map pages.old) (P.count pages.old) kind uppers.old.items row.now (suc level) nodes
        → (next.items ≡ map (page_of level) (children level nodes)) × (uppers.new.items ≡ uppers.old.items ++ row.now)) }
    ensures cause { IfErr result (HasCause (P.faults pages.old) (P.faults pages.new)
        (λ at expected found. P.tells → (nodes : List (Node (suc level))) → Row (P.map pages.old) (P.count pages.old) kind uppers.old.items row.now (suc level) nodes → ⊥) (λ _. ⊥) (Unit {0})) }
    ensures map { P.map pages.new ≡ P.map pages.old }
    ensures count { P.count pages.new ≡ P.count pages.old }
    ensures heap { kind ≢ 2 → IsSound result → P.heap_fetches pages.new ≡ P.heap_fetches pages.old }
    ensures fetches { OnOk result (P.fetches pages.new + length uppers.old.items ≤ P.fetches pages.old + length uppers.new.items) }
    ensures quiet { StaysQuiet P.Pages pages.old pages.new }
{
    let mut next = Vec::new(alloc);
    for page in row {
        let slots = fetch_level(pages, *page, kind, level + 1)?;
        if is_among(uppers.as_slice(), *page) {
            return Err(PageError::Broken {
                page: *page,
                expected: 1,
                found: 2,
            });
        }
        let Ok(()) = uppers.push(*page) else {
            return Err(PageError::Memory);
        };
        push_children(*page, &slots, &mut next)?;
    }
    Ok(next)
}

fn is_among(pages: &[u64], page: u64) -> bool
    ensures { result ≡ list_any (λ other. other == page) pages.now }
{
    pages.iter().any(|other| *other == page)
}
