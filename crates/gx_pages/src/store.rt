//! What pages and a store of pages promise.

ghost use Rattle.std.specs.Prelude.{◌≡◌, ◌≢◌, ℕ, ◌+◌, ◌-◌, ◌^◌, ◌<◌, ◌≤◌, ◌==◌, ◌⊎◌, Bool, true, false, List, [], ◌∷◌, min, replicate, slice_index, is_ok, if◌then◌else◌, Option, Some, None, IfOk, IfErr, IfSome, OnOk, OnErr};
ghost use Rattle.std.specs.List.{AllByRecursion};
ghost use Rattle.gx_words.specs.Causes.{Said, Rose};
ghost use Rattle.gx_words.specs.Moments.{Moment, Now, Elapses};
ghost use Rattle.gx_words.specs.PageMap.{PageMap, with_page};
ghost use Rattle.gx_pages.specs.Frees.{IsFreeList, IsFull, StartsBroken, KeepsHeader, Taken, Given, HasCount};
ghost use Rattle.gx_pages.specs.Pages.{Quiet, Beside, HasCause, HasNoGap, IsCommitted, is_disk_fault};

use crate::error::PageError;
use crate::page::Page;

/// Pages by their numbers, below a count; a list of free ones among them.
pub trait Pages {
    // Holds where the pages are told; those of a real file aren't.
    ghost tells: { Type 0 };

    // The bytes of each page. It may lack pages below the count, which then can't be fetched.
    ghost map: { Self → PageMap };

    // How many pages there are.
    ghost count: { Self → ℕ };

    // How many calls failed by the disk, at most 2^64 - 1.
    ghost faults: { Self → ℕ };

    // How many calls of `fetch` there were, and how many gave a heap page; each at most 2^64 - 1.
    ghost fetches: { Self → ℕ };

    ghost heap_fetches: { Self → ℕ };

    // What was answered to the outside so far.
    ghost said: { Self → Said };

    // The map after the last commit, whether a commit of it failed, and whether a unit of changes is begun.
    ghost committed: { Self → PageMap };

    ghost spoiled: { Self → Bool };

    ghost begun: { Self → Bool };

    // How many pages the committed map has.
    ghost committed_count: { Self → ℕ };

    // The moment, as a number that doesn't fall; the committed maps that a crash now may leave; and those that it may
    // have left at a moment from that one on, with the bytes answered by then.
    ghost moment: { Self → ℕ };

    ghost may_leave: { Self → PageMap → Type 0 };

    ghost may_have_left_since: { Self → ℕ → Moment PageMap → Type 0 };

    // What the owner of what lies below may rely on from a state of the pages to a later one.
    ghost follows: { Self → Self → Type 0 };

    /// Reads a page.
    fn fetch(&mut self, page: u64, into: &mut Page) -> Result<(), PageError>
        ensures bytes { OnOk result (tells → map self.old page ≡ Some into.new) }
        ensures below { OnOk result (page < count self.old) }
        ensures past { count self.old ≤ page → result ≡ Err (PageError.Broken page (count self.old - 1) page) }
        ensures cause { IfErr result (HasCause (faults self.old) (faults self.new)
            (λ at expected found. (at ≡ page) × (page < count self.old → (expected ≡ 8192) × (found < 8192) × (tells → map self.old page ≡ None))) (λ _. ⊥) ⊥) }
        ensures map { map self.new ≡ map self.old }
        ensures count { count self.new ≡ count self.old }
        ensures fetches { fetches self.new ≡ min (fetches self.old + 1) (2 ^ 64 - 1) }
        ensures heap { heap_fetches self.new ≡ (if is_ok result then (if slice_index into.new 0 == 2 then min (heap_fetches self.old + 1) (2 ^ 64 - 1) else heap_fetches self.old) else heap_fetches self.old) }
        ensures quiet { Quiet said committed spoiled begun committed_count faults moment may_leave may_have_left_since follows self.old self.new };

    /// Changes a page.
    fn put(&mut self, page: u64, from: &Page) -> Result<(), PageError>
        requires { page ≢ 0 }
        ensures map { OnOk result (tells → map self.new ≡ with_page (map self.old) page from.now) }
        ensures below { OnOk result (page < count self.old) }
        ensures past { count self.old ≤ page → result ≡ Err (PageError.Broken page (count self.old - 1) page) }
        ensures same { OnErr result (map self.new ≡ map self.old) }
        ensures cause { IfErr result (HasCause (faults self.old) (faults self.new) (λ at expected found. (at ≡ page) × (count self.old ≤ page)) (λ _. ⊥) (Unit {0})) }
        ensures count { count self.new ≡ count self.old }
        ensures fetches { fetches self.new ≡ fetches self.old }
        ensures heap { heap_fetches self.new ≡ heap_fetches self.old }
        ensures quiet { Quiet said committed spoiled begun committed_count faults moment may_leave may_have_left_since follows self.old self.new };

    /// Takes a page: a free one, else the one at the count. It reads as zeros until it is put.
    fn take(&mut self) -> Result<u64, PageError>
        ensures fresh { IfOk result (λ page. page ≢ 0) }
        ensures below { IfOk result (λ page. page < count self.new) }
        ensures zeros { IfOk result (λ page. tells → map self.new page ≡ Some (replicate 8192 0)) }
        ensures others { IfOk result (λ page. tells → (n : ℕ) → n ≢ 0 → n ≢ page → map self.new n ≡ map self.old n) }
        ensures taken { IfOk result (λ page. tells → (free : List ℕ) → IsFreeList (map self.old) (count self.old) free
            → (rest : List ℕ) × Taken (map self.old) (map self.new) (count self.old) (count self.new) page free rest) }
        ensures same { OnErr result ((map self.new ≡ map self.old) × (count self.new ≡ count self.old)) }
        ensures room { IfOk result (λ page. tells → IsFreeList (map self.old) (count self.old) [] → count self.old < 2 ^ 50) }
        ensures header { tells → KeepsHeader (map self.old) (map self.new) }
        ensures grows { count self.old ≤ count self.new }
        ensures by_one { count self.new ≤ count self.old + 1 }
        ensures cause { IfErr result (HasCause (faults self.old) (faults self.new)
            (λ at expected found. tells → StartsBroken (map self.old) (count self.old)) (IsFull tells (map self.new) (count self.new)) (Unit {0})) }
        ensures fetches { fetches self.new ≡ fetches self.old }
        ensures heap { heap_fetches self.new ≡ heap_fetches self.old }
        ensures quiet { Quiet said committed spoiled begun committed_count faults moment may_leave may_have_left_since follows self.old self.new };

    /// Gives a page back: it is free then.
    fn give(&mut self, page: u64) -> Result<(), PageError>
        requires nonzero { page ≢ 0 }
        requires below { page < count self.old }
        ensures others { OnOk result (tells → (n : ℕ) → n ≢ 0 → n ≢ page → map self.new n ≡ map self.old n) }
        ensures given { OnOk result (tells → (free : List ℕ) → IsFreeList (map self.old) (count self.old) free
            → AllByRecursion (λ other. page ≢ other) free → Given (map self.old) (map self.new) (count self.old) page free) }
        ensures header { tells → KeepsHeader (map self.old) (map self.new) }
        ensures same { OnErr result (map self.new ≡ map self.old) }
        ensures cause { IfErr result (HasCause (faults self.old) (faults self.new) (λ _ _ _. ⊥) (λ _. ⊥) (Unit {0})) }
        ensures count { count self.new ≡ count self.old }
        ensures fetches { fetches self.new ≡ fetches self.old }
        ensures heap { heap_fetches self.new ≡ heap_fetches self.old }
        ensures quiet { Quiet said committed spoiled begun committed_count faults moment may_leave may_have_left_since follows self.old self.new };

    ghost follows_itself: { (s : Self) → follows s s };

    ghost follows_on: { (a b c : Self) → follows a b → follows b c → follows a c };

    // The header on page 0 has the count.
    ghost counted: { (s : Self) → tells → IfSome (map s 0) (λ header. HasCount header (count s)) };

    // There are at most 2^50 pages.
    ghost bounded: { (s : Self) → count s ≤ 2 ^ 50 };

    // The same of the committed map.
    ghost committed_counted: { (s : Self) → tells → IfSome (committed s 0) (λ header. HasCount header (committed_count s)) };

    ghost committed_bounded: { (s : Self) → committed_count s ≤ 2 ^ 50 };

    // Neither map has a page at or above its count.
    ghost ends: { (s : Self) → tells → (n : ℕ) → count s ≤ n → map s n ≡ None };

    ghost committed_ends: { (s : Self) → tells → (n : ℕ) → committed_count s ≤ n → committed s n ≡ None };

    // What is committed a crash may leave, and what it may leave now counts since each earlier moment; since this moment
    // there is no other.
    ghost committed_may_stay: { (s : Self) → tells → spoiled s ≡ false → may_leave s (committed s) };

    ghost counts_now: { (s : Self) (t : ℕ) (m : PageMap) → t ≤ moment s → may_leave s m → may_have_left_since s t (record { image = m; bytes = (said s).bytes }) };

    ghost only_now: { (s : Self) (m : Moment PageMap) → may_have_left_since s (moment s) m → Now (may_leave s) (said s).bytes m };
}

/// Pages whose changes are committed together.
pub trait Store: Pages {
    // Whether the memory that a commit needs was taken.
    ghost reserved: { Self → Bool };

    /// Begins a unit of changes. The map is the committed one.
    fn begin(&mut self)
        requires { Self.spoiled self.old ≡ false }
        ensures begun { Self.begun self.new ≡ true }
        ensures map { Self.tells → Self.map self.new ≡ Self.map self.old }
        ensures count { Self.count self.new ≡ Self.count self.old }
        ensures committed { IsCommitted Self.tells Self.committed Self.committed_count self.new (Self.committed self.old) (Self.committed_count self.old) }
        ensures same { Beside Self.said Self.fetches Self.heap_fetches Self.faults Self.follows self.old self.new }
        ensures spoiled { Self.spoiled self.new ≡ false }
        ensures images { (m : PageMap) → Self.may_leave self.new m → Self.may_leave self.old m }
        ensures time { Elapses (Self.moment self.old) (Self.moment self.new) (Self.may_have_left_since self.old) (Self.may_have_left_since self.new) (Now (Self.may_leave self.old) (Self.said self.old).bytes) };

    /// Takes all memory that a commit needs. It may write committed pages in place: a gap among them would fill with zeros.
    fn reserve(&mut self) -> Result<(), PageError>
        requires { Self.spoiled self.old ≡ false }
        ensures reserved { OnOk result (Self.reserved self.new ≡ true) }
        ensures map { Self.tells → HasNoGap (Self.committed self.old) → Self.map self.new ≡ Self.map self.old }
        ensures count { Self.count self.new ≡ Self.count self.old }
        ensures committed { IsCommitted (Self.tells × HasNoGap (Self.committed self.old)) Self.committed Self.committed_count self.new (Self.committed self.old) (Self.committed_count self.old) }
        ensures begun { Self.begun self.new ≡ Self.begun self.old }
        ensures same { Beside Self.said Self.fetches Self.heap_fetches Self.faults Self.follows self.old self.new }
        ensures spoiled { Self.spoiled self.new ≡ is_disk_fault result }
        ensures cause { IfErr result (HasCause (Self.faults self.old) (Self.faults self.new) (λ _ _ _. ⊥) (λ _. ⊥) (Unit {0})) }
        ensures images { HasNoGap (Self.committed self.old) → (m : PageMap) → Self.may_leave self.new m → Self.may_leave self.old m }
        ensures time { HasNoGap (Self.committed self.old)
            → Elapses (Self.moment self.old) (Self.moment self.new) (Self.may_have_left_since self.old) (Self.may_have_left_since self.new) (Now (Self.may_leave self.old) (Self.said self.old).bytes) };

    /// Makes the map the committed one. A crash in it leaves the committed map of before, or that of after.
    fn commit(&mut self) -> Result<(), PageError>
        requires { Self.spoiled self.old ≡ false }
        ensures committed { OnOk result (IsCommitted Self.tells Self.committed Self.committed_count self.new (Self.map self.old) (Self.count self.old)) }
        ensures memory { result ≡ Err PageError.Memory → IsCommitted Self.tells Self.committed Self.committed_count self.new (Self.committed self.old) (Self.committed_count self.old)
            × ((m : PageMap) → Self.may_leave self.new m → Self.may_leave self.old m) }
        ensures either { OnErr result (IsCommitted Self.tells Self.committed Self.committed_count self.new (Self.committed self.old) (Self.committed_count self.old)
            ⊎ IsCommitted Self.tells Self.committed Self.committed_count self.new (Self.map self.old) (Self.count self.old)) }
        ensures begun { Self.begun self.new ≡ (if is_ok result then false else Self.begun self.old) }
        ensures map { Self.tells → Self.map self.new ≡ Self.map self.old }
        ensures count { Self.count self.new ≡ Self.count self.old }
        ensures same { Beside Self.said Self.fetches Self.heap_fetches Self.faults Self.follows self.old self.new }
        ensures spoiled { Self.spoiled self.new ≡ is_disk_fault result }
        ensures cause { IfErr result (HasCause (Self.faults self.old) (Self.faults self.new) (λ _ _ _. ⊥) (λ _. ⊥) (Self.reserved self.old ≡ false)) }
        ensures only { OnOk result (Self.tells → (m : PageMap) → Self.may_leave self.new m → m ≡ Self.map self.old) }
        ensures time { Elapses (Self.moment self.old) (Self.moment self.new) (Self.may_have_left_since self.old) (Self.may_have_left_since self.new)
            (λ m. (Self.may_leave self.old m.image ⊎ (m.image ≡ Self.map self.old)) × (m.bytes ≡ (Self.said self.old).bytes)) };

    /// Brings back the committed map.
    fn abandon(&mut self)
        ensures map { Self.tells → Self.map self.new ≡ Self.committed self.old }
        ensures count { Self.count self.new ≡ Self.committed_count self.old }
        ensures committed { IsCommitted Self.tells Self.committed Self.committed_count self.new (Self.committed self.old) (Self.committed_count self.old) }
        ensures begun { Self.begun self.new ≡ false }
        ensures spoiled { Self.spoiled self.new ≡ Self.spoiled self.old }
        ensures same { Beside Self.said Self.fetches Self.heap_fetches Self.faults Self.follows self.old self.new }
        ensures images { (m : PageMap) → Self.may_leave self.new m → Self.may_leave self.old m }
        ensures time { Elapses (Self.moment self.old) (Self.moment self.new) (Self.may_have_left_since self.old) (Self.may_have_left_since self.new) (Now (Self.may_leave self.old) (Self.said self.old).bytes) };
}
