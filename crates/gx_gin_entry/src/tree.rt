//! An entry tree.

ghost use Rattle.std.specs.Prelude.{◌≡◌, ℕ, ◌+◌, ◌≤◌, List, [], ◌∷◌, length, None, IfOk, IfErr, true, false, OnOk};
ghost use Rattle.std.specs.Option.{option_map};
ghost use Rattle.gx_pages.specs.Footprints.{KeepsPages, StaysQuiet};
ghost use Rattle.gx_pages.specs.Frees.{IsFreeList, IsFull};
ghost use Rattle.gx_pages.specs.Pages.{HasCause};
ghost use Rattle.gx_chain.specs.Chains.{IsSound, ListsNone};
ghost use Rattle.gx_tree.specs.Finding.{LeafAt};
ghost use Rattle.gx_gin_entry.specs.EntryTrees.{AreShorter, Entry, HasLonger, HoldsEntries, HoldsMap, HoldsNoEntries, HoldsNoMap, IsFound, IsNext, IsPut, IsRemoved, by_key, key_bytes};
ghost use Rattle.gx_gin_entry.specs.Listed.{entries_of};

use crate::keys::Sought;
use crate::listing::{EntryBytes, leaf_entries, push_entries};
use crate::next::{above_in, first_behind, sought_from};
use crate::places::{broken, find_in, posting_in};
use crate::putting::{Putting, replace_in};
use crate::removing::without;
use gx_bytes::Bytes;
use gx_pages::{PageError, Pages};
use gx_tree::{
    LeafPage, change_tree, create_tree, drop_tree, fetch_top, find_leaf, rewrite_leaf, survey,
};
use std::alloc::Global;

/// The kind of the pages of entry trees.
pub const KIND: u8 = 5;

/// An entry tree: its root page, whose number stays the same. Pages are of kind 5. At level 0 each item is the u16 length of a key,
/// the key, and its posting, rising by key; above, an item is a u16 length, a key, which is at most every key below it and above
/// every one before it, and the u64 number of a page of the level below.
#[derive(Clone, Copy, Debug, Drop, PartialEq, Eq)]
pub struct EntryTree {
    page: u64,
}

impl EntryTree {
    /// An empty map, on a page that it takes.
    pub fn create<P: Pages>(pages: &mut P) -> Result<EntryTree, PageError>
        ensures made { IfOk result (λ made. P.tells → (free : List ℕ) → IsFreeList (P.map pages.old) (P.count pages.old) free
            → (rest : List ℕ) × HoldsEntries P.Pages pages.new made.page [] (made.page ∷ []) rest × KeepsPages P.Pages pages.old pages.new [] free (made.page ∷ []) rest) }
        ensures grows { P.count pages.old ≤ P.count pages.new }
        ensures by_one { P.count pages.new ≤ P.count pages.old + 1 }
        ensures cause { IfErr result (HasCause (P.faults pages.old) (P.faults pages.new)
            (λ at expected found. P.tells → ListsNone P.Pages pages.old) (IsFull P.tells (P.map pages.new) (P.count pages.new)) (Unit {0})) }
        ensures heap { P.heap_fetches pages.new ≡ P.heap_fetches pages.old }
        ensures quiet { StaysQuiet P.Pages pages.old pages.new }
    {
        let page = create_tree(pages, KIND)?;
        Ok(EntryTree { page })
    }

    /// The entry tree below this root page.
    pub fn at(root: u64) -> EntryTree
        ensures { result.page ≡ root }
    {
        EntryTree { page: root }
    }

    /// The root page.
    pub fn root(&self) -> u64
        ensures { result ≡ self.now.page }
    {
        self.page
    }

    /// The posting of a key. A page a level is fetched.
    pub fn get<P: Pages>(
        &self,
        alloc: Global,
        pages: &mut P,
        key: &[u8],
    ) -> Result<Option<Bytes>, PageError>
        ensures found { IfOk result (λ found. P.tells → (list : List Entry) (feet : List ℕ) → HoldsMap (P.map pages.old) (P.count pages.old) self.now.page list feet → IsFound list key.now found) }
        ensures fetches { P.tells → (list : List Entry) (feet : List ℕ) (held : HoldsMap (P.map pages.old) (P.count pages.old) self.now.page list feet) → P.fetches pages.new ≤ P.fetches pages.old + (held.tree.0 + 1) }
        ensures cause { IfErr result (HasCause (P.faults pages.old) (P.faults pages.new)
            (λ at expected found. P.tells → HoldsNoMap (P.map pages.old) (P.count pages.old) self.now.page) (λ _. ⊥) (Unit {0})) }
        ensures map { P.map pages.new ≡ P.map pages.old }
        ensures count { P.count pages.new ≡ P.count pages.old }
        ensures heap { IsSound result → P.heap_fetches pages.new ≡ P.heap_fetches pages.old }
        ensures quiet { StaysQuiet P.Pages pages.old pages.new }
    {
        let leaf = find_page(&Sought { key }, pages, self.page)?;
        posting_in(alloc, leaf.page, &leaf.slots, key)
    }

    /// The entry with the least key above this one, or with the least of all. None where there is none. A page a level is fetched, and
    /// where no key on the page of level 0 is above it each page above level 0 once more, and pages of level 0 up to one with an entry.
    pub fn after<P: Pages>(
        &self,
        alloc: Global,
        pages: &mut P,
        key: Option<&[u8]>,
    ) -> Result<Option<(Bytes, Bytes)>, PageError>
        ensures next { IfOk result (λ found. P.tells → (list : List Entry) (feet : List ℕ) → HoldsMap (P.map pages.old) (P.count pages.old) self.now.page list feet
            → IsNext list (option_map (λ k. k.now) key.entry) (option_map (λ e. (e.0, e.1)) found)) }
        ensures cause { IfErr result (HasCause (P.faults pages.old) (P.faults pages.new)
            (λ at expected found. P.tells → HoldsNoMap (P.map pages.old) (P.count pages.old) self.now.page) (λ _. ⊥) (Unit {0})) }
        ensures map { P.map pages.new ≡ P.map pages.old }
        ensures count { P.count pages.new ≡ P.count pages.old }
        ensures heap { IsSound result → P.heap_fetches pages.new ≡ P.heap_fetches pages.old }
        ensures quiet { StaysQuiet P.Pages pages.old pages.new }
    {
        let sought = sought_from(key);
        let leaf = find_page(&sought, pages, self.page)?;
        let found = above_in(alloc, leaf.page, &leaf.slots, key)?;
        match found {
            Some(entry) => Ok(Some(entry)),
            None => first_behind(alloc, pages, self.page, leaf.page),
        }
    }

    /// All entries by rising keys. Each page is fetched once.
    pub fn entries<P: Pages>(
        &self,
        alloc: Global,
        pages: &mut P,
    ) -> Result<Vec<EntryBytes>, PageError>
        ensures entries { IfOk result (λ found. P.tells → (list : List Entry) (feet : List ℕ) → HoldsMap (P.map pages.old) (P.count pages.old) self.now.page list feet → entries_of found.items ≡ list) }
        ensures fetches { OnOk result (P.tells → (list : List Entry) (feet : List ℕ) → HoldsMap (P.map pages.old) (P.count pages.old) self.now.page list feet
            → P.fetches pages.new ≤ P.fetches pages.old + length feet) }
        ensures cause { IfErr result (HasCause (P.faults pages.old) (P.faults pages.new)
            (λ at expected found. P.tells → HoldsNoMap (P.map pages.old) (P.count pages.old) self.now.page) (λ _. ⊥) (Unit {0})) }
        ensures map { P.map pages.new ≡ P.map pages.old }
        ensures count { P.count pages.new ≡ P.count pages.old }
        ensures heap { IsSound result → P.heap_fetches pages.new ≡ P.heap_fetches pages.old }
        ensures quiet { StaysQuiet P.Pages pages.old pages.new }
    {
        let top = fetch_top(pages, self.page, KIND)?;
        let mut found = Vec::new(alloc);
        if top.level() == 0 {
            push_entries(alloc, self.page, &top, &mut found)?;
            return Ok(found);
        }
        let all = survey(alloc, pages, self.page, KIND, &top)?;
        leaf_entries(alloc, pages, all.leaves.as_slice(), &mut found)?;
        Ok(found)
    }

    /// Puts a posting at a key, which it has then. At most 60 pages more are taken, and none where the key is there with a posting
    /// that is as long at least.
    pub fn put<P: Pages>(
        &mut self,
        alloc: Global,
        pages: &mut P,
        key: &[u8],
        posting: &[u8],
    ) -> Result<(), PageError>
        requires key { length key.now ≤ 1901 }
        requires posting { length posting.now ≤ 513 }
        ensures put { OnOk result (P.tells → (list : List Entry) (feet free : List ℕ) → HoldsEntries P.Pages pages.old self.old.page list feet free
            → (later : List Entry) × (stand : List ℕ) × (rest : List ℕ) × HoldsEntries P.Pages pages.new self.old.page later stand rest × KeepsPages P.Pages pages.old pages.new feet free stand rest
            × IsPut key.now posting.now list later) }
        ensures same { self.new ≡ self.old }
        ensures grows { P.count pages.old ≤ P.count pages.new }
        ensures by { P.count pages.new ≤ P.count pages.old + 60 }
        ensures stays { P.tells → (list : List Entry) (feet free : List ℕ) → HoldsEntries P.Pages pages.old self.old.page list feet free → HasLonger list key.now posting.now → P.count pages.new ≡ P.count pages.old }
        ensures cause { IfErr result (HasCause (P.faults pages.old) (P.faults pages.new)
            (λ at expected found. P.tells → HoldsNoEntries P.Pages pages.old self.old.page)
            (λ n. IsFull P.tells (P.map pages.new) (P.count pages.new) n
            × (P.tells → (list : List Entry) (feet free : List ℕ) → HoldsEntries P.Pages pages.old self.old.page list feet free → HasLonger list key.now posting.now → ⊥)) (Unit {0})) }
        ensures heap { IsSound result → P.heap_fetches pages.new ≡ P.heap_fetches pages.old }
        ensures quiet { StaysQuiet P.Pages pages.old pages.new }
    {
        let Ok(change) = Putting::new(alloc, key, posting) else {
            return Err(PageError::Memory);
        };
        let done = put_in_place(pages, self.page, &change)?;
        if done {
            return Ok(());
        }
        change_tree(&change, alloc, pages, KIND, self.page)?;
        Ok(())
    }

    /// Puts a posting at a key in the place of the one that it has. False where the key isn't there, or has a shorter posting. No page is
    /// taken or given.
    pub fn replace<P: Pages>(
        &mut self,
        alloc: Global,
        pages: &mut P,
        key: &[u8],
        posting: &[u8],
    ) -> Result<bool, PageError>
        requires key { length key.now ≤ 1901 }
        requires posting { length posting.now ≤ 513 }
        ensures replaced { IfOk result (λ done. done ≡ true → P.tells → (list : List Entry) (feet free : List ℕ) → HoldsEntries P.Pages pages.old self.old.page list feet free
            → (later : List Entry) × (stand : List ℕ) × HoldsEntries P.Pages pages.new self.old.page later stand free × KeepsPages P.Pages pages.old pages.new feet free stand free
            × IsPut key.now posting.now list later) }
        ensures shorter { IfOk result (λ done. done ≡ false → P.tells → (list : List Entry) (feet free : List ℕ) → HoldsEntries P.Pages pages.old self.old.page list feet free → AreShorter list key.now posting.now) }
        ensures same { self.new ≡ self.old }
        ensures count { P.count pages.new ≡ P.count pages.old }
        ensures cause { IfErr result (HasCause (P.faults pages.old) (P.faults pages.new)
            (λ at expected found. P.tells → HoldsNoEntries P.Pages pages.old self.old.page) (λ _. ⊥) (Unit {0})) }
        ensures heap { IsSound result → P.heap_fetches pages.new ≡ P.heap_fetches pages.old }
        ensures quiet { StaysQuiet P.Pages pages.old pages.new }
    {
        let Ok(change) = Putting::new(alloc, key, posting) else {
            return Err(PageError::Memory);
        };
        put_in_place(pages, self.page, &change)
    }

    /// Takes a key out. No page is taken or given.
    pub fn remove<P: Pages>(&mut self, pages: &mut P, key: &[u8]) -> Result<(), PageError>
        ensures removed { OnOk result (P.tells → (list : List Entry) (feet free : List ℕ) → HoldsEntries P.Pages pages.old self.old.page list feet free
            → (later : List Entry) × (stand : List ℕ) × HoldsEntries P.Pages pages.new self.old.page later stand free × KeepsPages P.Pages pages.old pages.new feet free stand free
            × IsRemoved key.now list later) }
        ensures same { self.new ≡ self.old }
        ensures count { P.count pages.new ≡ P.count pages.old }
        ensures cause { IfErr result (HasCause (P.faults pages.old) (P.faults pages.new)
            (λ at expected found. P.tells → HoldsNoEntries P.Pages pages.old self.old.page) (λ _. ⊥) (Unit {0})) }
        ensures heap { IsSound result → P.heap_fetches pages.new ≡ P.heap_fetches pages.old }
        ensures quiet { StaysQuiet P.Pages pages.old pages.new }
    {
        let sought = Sought { key };
        let leaf = find_page(&sought, pages, self.page)?;
        let Some(place) = find_in(&leaf.slots, key) else {
            return Err(broken(leaf.page));
        };
        if place.here {
            let slots = without(leaf.page, KIND, &leaf.slots, place.slot)?;
            rewrite_leaf(&sought, pages, leaf.page, &slots)?;
            return Ok(());
        }
        Ok(())
    }

    /// Gives every page back. There is no tree then.
    pub fn drop_all<P: Pages>(self, alloc: Global, pages: &mut P) -> Result<(), PageError>
        ensures dropped { OnOk result (P.tells → (list : List Entry) (feet free : List ℕ) → HoldsEntries P.Pages pages.old self.page list feet free
            → (rest : List ℕ) × KeepsPages P.Pages pages.old pages.new feet free [] rest) }
        ensures count { P.count pages.new ≡ P.count pages.old }
        ensures cause { IfErr result (HasCause (P.faults pages.old) (P.faults pages.new)
            (λ at expected found. P.tells → HoldsNoEntries P.Pages pages.old self.page) (λ _. ⊥) (Unit {0})) }
        ensures heap { IsSound result → P.heap_fetches pages.new ≡ P.heap_fetches pages.old }
        ensures quiet { StaysQuiet P.Pages pages.old pages.new }
    {
        drop_tree(alloc, pages, self.page, KIND)
    }
}

/// The page of level 0 where a key belongs. A page a level is fetched.
fn find_page<P: Pages>(sought: &Sought, pages: &mut P, root: u64) -> Result<LeafPage, PageError>
    ensures found { IfOk result (λ leaf. P.tells → (list : List Entry) (feet : List ℕ) (held : HoldsMap (P.map pages.old) (P.count pages.old) root list feet)
        → LeafAt P.Pages pages.new by_key (key_bytes sought.now.key.now) 5 held.tree.0 None None held.tree.1 leaf.page leaf.slots) }
    ensures fetches { P.tells → (list : List Entry) (feet : List ℕ) (held : HoldsMap (P.map pages.old) (P.count pages.old) root list feet) → P.fetches pages.new ≤ P.fetches pages.old + (held.tree.0 + 1) }
    ensures cause { IfErr result (HasCause (P.faults pages.old) (P.faults pages.new)
        (λ at expected found. P.tells → HoldsNoMap (P.map pages.old) (P.count pages.old) root) (λ _. ⊥) (Unit {0})) }
    ensures map { P.map pages.new ≡ P.map pages.old }
    ensures count { P.count pages.new ≡ P.count pages.old }
    ensures heap { IsSound result → P.heap_fetches pages.new ≡ P.heap_fetches pages.old }
    ensures quiet { StaysQuiet P.Pages pages.old pages.new }
{
    let top = fetch_top(pages, root, KIND)?;
    let level = top.level();
    let leaf = find_leaf(sought, pages, KIND, root, level, top)?;
    Ok(leaf)
}

/// Puts a posting where the key is there and has room for it. False where it isn't there, or has none.
fn put_in_place<P: Pages>(pages: &mut P, root: u64, change: &Putting) -> Result<bool, PageError>
    ensures put { IfOk result (λ done. done ≡ true → P.tells → (list : List Entry) (feet free : List ℕ) → HoldsEntries P.Pages pages.old root list feet free
        → (later : List Entry) × (stand : List ℕ) × HoldsEntries P.Pages pages.new root later stand free × KeepsPages P.Pages pages.old pages.new feet free stand free
        × IsPut change.now.key.now change.now.posting.now list later) }
    ensures shorter { IfOk result (λ done. done ≡ false → P.tells → (list : List Entry) (feet free : List ℕ) → HoldsEntries P.Pages pages.old root list feet free → AreShorter list change.now.key.now change.now.posting.now) }
    ensures map { IfOk result (λ done. done ≡ false → P.map pages.new ≡ P.map pages.old) }
    ensures count { P.count pages.new ≡ P.count pages.old }
    ensures cause { IfErr result (HasCause (P.faults pages.old) (P.faults pages.new)
        (λ at expected found. P.tells → HoldsNoEntries P.Pages pages.old root) (λ _. ⊥) (Unit {0})) }
    ensures heap { IsSound result → P.heap_fetches pages.new ≡ P.heap_fetches pages.old }
    ensures quiet { StaysQuiet P.Pages pages.old pages.new }
{
    let sought = Sought { key: change.key };
    let leaf = find_page(&sought, pages, root)?;
    let LeafPage { page, slots } = leaf;
    let mut slots = slots;
    let done = replace_in(page, &mut slots, change)?;
    if done {
        rewrite_leaf(&sought, pages, page, &slots)?;
        return Ok(true);
    }
    Ok(false)
}
