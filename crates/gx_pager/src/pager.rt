//! A store over a host.

ghost use Rattle.std.specs.Prelude.{◌≡◌, ◌≢◌, Err, ◌+◌, ◌-◌, ◌^◌, ◌≤◌, ◌==◌, ℕ, min, List, [], ◌∷◌, take, drop, slice_index, if◌then◌else◌, false, IfOk, IfErr, OnOk, IsErr, Some};
ghost use Rattle.std.specs.BTreeMap.{get};
ghost use Rattle.std.specs.Ordering.{nat_cmp};
ghost use Rattle.gx_bytes.specs.Fields.{le32, le64};
ghost use Rattle.gx_words.specs.Causes.{Rose};
ghost use Rattle.gx_words.specs.Image.{Image};
ghost use Rattle.gx_words.specs.PageMap.{PageMap};
ghost use Rattle.gx_log.specs.Disks.{Leaves};
ghost use Rattle.gx_log.specs.Records.{Record, Stands, HasMap, entries_in};
ghost use Rattle.gx_pages.specs.Databases.{empty_pages};
ghost use Rattle.gx_pages.specs.Frees.{HasCount, HasFirst};
ghost use Rattle.gx_pages.specs.Pages.{HasCause};
ghost use Rattle.gx_pager.specs.Cached.{Agrees};
ghost use Rattle.gx_pager.specs.Known.{IsSound};
ghost use Rattle.gx_pager.specs.Layers.{shown, pieces};
ghost use Rattle.gx_pager.specs.Memory.{changed};
ghost use Rattle.gx_pager.specs.Opened.{IsRead};
ghost use Rattle.gx_pager.specs.Openings.{OpenBroken, Opening, IsHeader};

use crate::cache::Cache;
use crate::checkpoint::close_log;
use crate::commit::add_record;
use crate::format::format;
use crate::free_list::{give_page, take_page};
use crate::header::{Header, fields_of};
use crate::keeper::Keeper;
use crate::layers::Layers;
use crate::open::{Opened, read_file};
use crate::reads::load;
use gx_disk::Host;
use gx_io::Failed;
use gx_log::Log;
use gx_pages::{Page, PageError, Pages, Store};
use std::alloc::Global;

/// The kind of a heap page.
const HEAP: u8 = 2;

/// The greatest front at which a record is added.
const MOST: u64 = 1 << 62;

/// A store over a host: the pages of its disk, and a log of what was committed since the last checkpoint. It holds what
/// changed since then, and a cache; a store that is dropped in place of closed loses what its owner knows of the host.
#[derive(Drop)]
pub struct Pager<'h, H: Host> {
    host: &'h mut H,
    alloc: Global,
    log: Log,
    layers: Layers,
    cache: Cache,
    waiting: u64,
    begun: bool,
    spoiled: bool,
    fetches: u64,
    heap_fetches: u64,
    pub ghost sound: { H.tells → spoiled ≡ false → ∥ IsSound H.Disk host.now log layers.header (λ n. shown (get nat_cmp layers.kept n)) ∥₁ },
    pub ghost waits: { H.tells → spoiled ≡ false → (records : List Record) → Stands records (H.told host.now).log → waiting ≡ entries_in records },
    pub ghost agrees: { H.tells → Agrees (pieces (H.told host.now)) cache.pages.entries },
}

// How many heap pages were fetched, after this page was.
fn with_heap(count: u64, page: &Page) -> u64
    ensures { result ≡ (if slice_index page.now 0 == 2 then min (count + 1) (2 ^ 64 - 1) else count) }
{
    if page.bytes()[0] == HEAP {
        return count.saturating_add(1);
    }
    count
}

impl<'h, H: Host> Pager<'h, H> {
    /// Makes an empty database of two pages, whatever the disk held.
    pub fn format(host: &mut H) -> Result<(), Failed>
        ensures empty { OnOk result (H.tells → (c : Image) → H.now_may_leave host.new c → HasMap c empty_pages) }
        ensures said { H.said host.new ≡ H.said host.old }
        ensures faults { H.faults host.old ≤ H.faults host.new }
        ensures failed { IsErr result → Rose (H.faults host.old) (H.faults host.new) }

        // At each moment nothing more is answered.
        ensures silent { Leaves H.Disk (λ _. Unit {0}) host.old host.new }
    {
        format(host)
    }

    /// A store over a host that was read.
    pub fn over(host: &'h mut H, opened: Opened) -> Pager<'h, H>
        requires { IsRead H.Disk host.old opened }
        ensures name { result.host.ghost_name ≡ host.entry.ghost_name }
        ensures host { result.host.now ≡ host.old }

        // Each image that a crash could leave has the committed map, and so has the disk as read.
        ensures left { H.tells → (c : Image) → H.now_may_leave host.old c → HasMap c (⟦<Pager<'h, H> as Pages>⟧.committed result) }
        ensures read { H.tells → HasMap (H.told host.old) (⟦<Pager<'h, H> as Pages>⟧.committed result) }
        ensures map { ⟦<Pager<'h, H> as Pages>⟧.map result ≡ ⟦<Pager<'h, H> as Pages>⟧.committed result }
        ensures count { ⟦<Pager<'h, H> as Pages>⟧.count result ≡ ⟦<Pager<'h, H> as Pages>⟧.committed_count result }
        ensures fresh { (result.spoiled ≡ false) × (result.begun ≡ false) × (result.fetches ≡ 0) × (result.heap_fetches ≡ 0) }
        ensures unchanged { changed result.layers ≡ 0 }
    {
        let Opened {
            alloc,
            log,
            layers,
            cache,
            waiting,
        } = opened;
        Pager {
            host,
            alloc,
            log,
            layers,
            cache,
            waiting,
            begun: false,
            spoiled: false,
            fetches: 0,
            heap_fetches: 0,
        }
    }

    /// Opens a host: reads its log and page 0, and writes nothing. That the host ends in the state from which an error
    /// comes is said by `read_file`.
    pub fn open(alloc: Global, host: &'h mut H) -> Result<Pager<'h, H>, PageError>
        // An error comes from a state of the host in which it was only read, and has its cause there.
        ensures refused { IfErr result (λ error. (last : H) × Opening H.Disk host.old last
            × HasCause (H.faults host.old) (H.faults last) (λ at expected found. H.tells → OpenBroken (H.told host.old) at expected found) (λ _. ⊥) (Unit {0}) error) }
        ensures broken { (at expected found : ℕ) → result ≡ Err (PageError.Broken at expected found) → (expected ≢ found) × (H.tells → OpenBroken (H.told host.old) at expected found) }
        ensures space { (pages : ℕ) → result ≢ Err (PageError.PageSpace pages) }
        ensures sound { OnOk result (H.tells → (at expected found : ℕ) → OpenBroken (H.told host.old) at expected found → ⊥) }
        ensures stands { H.tells → (map : PageMap) → HasMap (H.told host.old) map → IsHeader (map 0) → (at expected found : ℕ) → result ≡ Err (PageError.Broken at expected found) → ⊥ }
        ensures name { IfOk result (λ pager. pager.host.ghost_name ≡ host.entry.ghost_name) }

        // The host was only read. Each image that a crash could leave has the committed map, and so has the disk as read.
        ensures opening { IfOk result (λ pager. Opening H.Disk host.old pager.host.now) }
        ensures left { IfOk result (λ pager. H.tells → (c : Image) → H.now_may_leave pager.host.now c → HasMap c (⟦<Pager<'h, H> as Pages>⟧.committed pager)) }
        ensures read { IfOk result (λ pager. H.tells → HasMap (H.told host.old) (⟦<Pager<'h, H> as Pages>⟧.committed pager)) }
        ensures map { IfOk result (λ pager. ⟦<Pager<'h, H> as Pages>⟧.map pager ≡ ⟦<Pager<'h, H> as Pages>⟧.committed pager) }
        ensures count { IfOk result (λ pager. ⟦<Pager<'h, H> as Pages>⟧.count pager ≡ ⟦<Pager<'h, H> as Pages>⟧.committed_count pager) }
        ensures fresh { IfOk result (λ pager. (pager.spoiled ≡ false) × (pager.begun ≡ false) × (pager.fetches ≡ 0) × (pager.heap_fetches ≡ 0)) }
        ensures unchanged { IfOk result (λ pager. changed pager.layers ≡ 0) }
    {
        let opened = match read_file(alloc, host) {
            Ok(opened) => opened,
            Err(error) => return Err(error),
        };
        Ok(Pager::over(host, opened))
    }

    /// Gives the host back.
    pub fn close(self) -> &'h mut H
        ensures name { result.ghost_name ≡ self.entry.host.ghost_name }
        ensures host { result.now ≡ self.entry.host.now }
    {
        let Pager {
            host,
            alloc: _,
            log: _log,
            layers: _layers,
            cache: _cache,
            waiting: _,
            begun: _,
            spoiled: _,
            fetches: _,
            heap_fetches: _,
        } = self;
        host
    }

    /// Page 0 of the map.
    pub fn header(&self) -> Header
        ensures count { result.count ≡ ⟦<Pager<'h, H> as Pages>⟧.count self.now }
        ensures fields { (header : List ℕ) → ⟦<Pager<'h, H> as Pages>⟧.map self.now 0 ≡ Some header
            → (take 4 (drop 4 header) ≡ le32 result.format) × HasCount header result.count × HasFirst header result.free × (take 8 (drop 24 header) ≡ le64 result.catalog) }
    {
        fields_of(self.layers.header_page())
    }
}

impl<'h, H: Host> Pages for Pager<'h, H> {
    ghost use Rattle.std.specs.Prelude.{◌*◌, ◌<◌, length, is_ok, None, Ok, IfErr, OnErr};
    ghost use Rattle.gx_pages.specs.Pages.{Quiet};
    ghost use Rattle.gx_words.specs.Image.{Image};
    ghost use Rattle.gx_pager.specs.Left.{MapLeft, MapSince, Follows, committed_left, counted_zero, counted_committed, cut_ends, follows_same, follows_join};
    ghost use Rattle.gx_log.specs.Records.{laid_all};
    ghost use Rattle.gx_pager.specs.Cached.{cached};
    ghost use Rattle.gx_pager.specs.Layers.{over, pieces, map_over};
    ghost use Rattle.gx_pager.specs.Memory.{memory, committed_memory, overlay, unit, now_map, committed_map};
    ghost use Rattle.std.proofs.Common.{refl, ◌∙◌};

    ghost tells = { H.tells };

    ghost map = { λ p. now_map p.layers (H.told p.host.now) };

    ghost count = { λ p. p.layers.count };

    ghost faults = { λ p. H.faults p.host.now };

    ghost fetches = { λ p. p.fetches };

    ghost heap_fetches = { λ p. p.heap_fetches };

    ghost said = { λ p. H.said p.host.now };

    ghost committed = { λ p. committed_map p.layers (H.told p.host.now) };

    ghost spoiled = { λ p. p.spoiled };

    ghost begun = { λ p. p.begun };

    ghost committed_count = { λ p. p.layers.committed_count };

    ghost moment = { λ p. H.moment p.host.now };

    ghost may_leave = { λ p. MapLeft H.Disk p.host.now };

    ghost may_have_left_since = { λ p. MapSince H.Disk p.host.now };

    ghost follows = { λ a b. (b.host.ghost_name ≡ a.host.ghost_name) × Follows H.Disk a.host.now b.host.now };

    ghost follows_itself = { λ p. (refl, follows_same {g = H.Disk.own} p.host.now) };

    ghost follows_on = { λ a b c x y. (y.0 ∙ x.0, follows_join {g = H.Disk.own} H.counts_now H.only_now a.host.now b.host.now c.host.now x.1 y.1) };

    ghost counted = { λ p told. counted_zero (unit p.layers 0) p.layers.header (pieces (H.told p.host.now) 0) p.layers.count p.layers.count p.layers.counted };

    ghost bounded = { λ p. p.layers.bounded };

    ghost committed_counted = { λ p told. counted_committed p.layers.header (pieces (H.told p.host.now) 0) p.layers.committed_count p.layers.committed_count p.layers.committed_counted };

    ghost committed_bounded = { λ p. p.layers.committed_bounded };

    ghost ends = { λ p told. cut_ends p.layers.count (map_over (memory p.layers) (pieces (H.told p.host.now))) };

    ghost committed_ends = { λ p told. cut_ends p.layers.committed_count (map_over (committed_memory p.layers) (pieces (H.told p.host.now))) };

    ghost committed_may_stay = { λ p told sound. committed_left p.host.now p.log p.layers.header (overlay p.layers) p.layers.committed_count told (H.told_may_stay p.host.now told) p.layers.committed_counted p.layers.committed_bounded (p.sound told sound) };

    ghost counts_now = { λ p t m le left. (left.0, (left.1.0, H.counts_now p.host.now t left.1.0 le left.1.1, left.1.2)) };

    ghost only_now = { λ p m left. let now = H.only_now p.host.now (record { image = left.1.0; bytes = m.bytes }) left.1.1 in ((left.0, (left.1.0, now.0, left.1.2)), now.1) };

    fn fetch(&mut self, page: u64, into: &mut Page) -> Result<(), PageError>
        ensures bytes { OnOk result (H.tells → now_map self.old.layers (H.told self.old.host.now) page ≡ Some into.new) }
        ensures below { OnOk result (page < self.old.layers.count) }
        ensures past { self.old.layers.count ≤ page → result ≡ Err (PageError.Broken page (self.old.layers.count - 1) page) }
        ensures cause { IfErr result (HasCause (H.faults self.old.host.now) (H.faults self.new.host.now) (λ at expected found. (at ≡ page) × (page < self.old.layers.count
            → (expected ≡ 8192) × (found < 8192) × (H.tells → now_map self.old.layers (H.told self.old.host.now) page ≡ None))) (λ _. ⊥) ⊥) }

        // Of a page that is lacking it tells how many bytes the disk has of it.
        ensures lacking { (at expected found : ℕ) → result ≡ Err (PageError.Broken at expected found) → page < self.old.layers.count
            → H.tells → found ≡ length (H.told self.old.host.now).pages - page * 8192 }

        // An error below the count comes only for a page of which no counted record has an entry.
        ensures uncounted { OnErr result (page < self.old.layers.count → H.tells → self.old.spoiled ≡ false → (records : List Record) → Stands records (H.told self.old.host.now).log → laid_all None page records ≡ None) }

        // A page in memory, changed since the last checkpoint or cached, is fetched without a call of the disk.
        ensures near { (bytes : List ℕ) → page < self.old.layers.count → over (memory self.old.layers page) (cached self.old.cache.pages.entries page) ≡ Some bytes
            → (into.new ≡ bytes) × (result ≡ Ok tt) × (self.new.host.now ≡ self.old.host.now) }
        ensures far { self.old.layers.count ≤ page → self.new.host.now ≡ self.old.host.now }
        ensures map { now_map self.new.layers (H.told self.new.host.now) ≡ now_map self.old.layers (H.told self.old.host.now) }
        ensures count { self.new.layers.count ≡ self.old.layers.count }
        ensures changed { changed self.new.layers ≡ changed self.old.layers }
        ensures fetches { self.new.fetches ≡ min (self.old.fetches + 1) (2 ^ 64 - 1) }
        ensures heap { self.new.heap_fetches ≡ (if is_ok result then (if slice_index into.new 0 == 2 then min (self.old.heap_fetches + 1) (2 ^ 64 - 1) else self.old.heap_fetches) else self.old.heap_fetches) }
        ensures quiet { Quiet (λ p. H.said p.host.now) (λ p. committed_map p.layers (H.told p.host.now)) (λ p. p.spoiled) (λ p. p.begun) (λ p. p.layers.committed_count)
            (λ p. H.faults p.host.now) (λ p. H.moment p.host.now) (λ p. MapLeft H.Disk p.host.now) (λ p. MapSince H.Disk p.host.now)
            (λ a b. (b.host.ghost_name ≡ a.host.ghost_name) × Follows H.Disk a.host.now b.host.now) self.old self.new }
    {
        self.fetches = self.fetches.saturating_add(1);
        if page >= self.layers.count {
            return Err(PageError::Broken {
                page,
                expected: self.layers.count - 1,
                found: page,
            });
        }
        match load(
            self.alloc,
            &self.layers,
            &mut self.cache,
            self.host,
            page,
            into,
        ) {
            Ok(()) => (),
            Err(error) => return Err(error),
        }
        self.heap_fetches = with_heap(self.heap_fetches, into);
        Ok(())
    }

    fn put(&mut self, page: u64, from: &Page) -> Result<(), PageError> {
        if page >= self.layers.count {
            return Err(PageError::Broken {
                page,
                expected: self.layers.count - 1,
                found: page,
            });
        }
        match self.layers.write(self.alloc, page, from) {
            Ok(()) => (),
            Err(_) => return Err(PageError::Memory),
        }
        Ok(())
    }

    fn take(&mut self) -> Result<u64, PageError> {
        take_page(self.alloc, &mut self.layers, &mut self.cache, self.host)
    }

    fn give(&mut self, page: u64) -> Result<(), PageError> {
        give_page(self.alloc, &mut self.layers, page)
    }
}

impl<'h, H: Host> Store for Pager<'h, H> {
    ghost use Rattle.std.specs.Prelude.{◌<◌, nat_le, true, is_ok, ◌⊎◌, OnErr, IfErr};
    ghost use Rattle.gx_words.specs.Moments.{Now, Elapses};
    ghost use Rattle.gx_pages.specs.Pages.{Beside, HasNoGap, IsCommitted, is_disk_fault};

    ghost reserved = { λ p. nat_le p.log (2 ^ 62) };

    fn begin(&mut self)
        requires { self.old.spoiled ≡ false }
        ensures begun { self.new.begun ≡ true }
        ensures map { let P = ⟦<Pager<'h, H> as Pages>⟧ in P.tells → P.map self.new ≡ P.map self.old }
        ensures count { self.new.layers.count ≡ self.old.layers.count }
        ensures committed { let P = ⟦<Pager<'h, H> as Pages>⟧ in IsCommitted P.tells P.committed P.committed_count self.new (P.committed self.old) (P.committed_count self.old) }
        ensures same { let P = ⟦<Pager<'h, H> as Pages>⟧ in Beside P.said P.fetches P.heap_fetches P.faults P.follows self.old self.new }
        ensures spoiled { self.new.spoiled ≡ false }
        ensures images { let P = ⟦<Pager<'h, H> as Pages>⟧ in (m : PageMap) → P.may_leave self.new m → P.may_leave self.old m }
        ensures time { let P = ⟦<Pager<'h, H> as Pages>⟧ in Elapses (P.moment self.old) (P.moment self.new) (P.may_have_left_since self.old) (P.may_have_left_since self.new) (Now (P.may_leave self.old) (P.said self.old).bytes) }
        ensures changed { changed self.new.layers ≡ changed self.old.layers }
        ensures host { self.new.host.now ≡ self.old.host.now }
    {
        self.begun = true;
    }

    fn reserve(&mut self) -> Result<(), PageError>
        requires { self.old.spoiled ≡ false }
        ensures reserved { OnOk result (nat_le self.new.log (2 ^ 62) ≡ true) }
        ensures map { let P = ⟦<Pager<'h, H> as Pages>⟧ in P.tells → HasNoGap (P.committed self.old) → P.map self.new ≡ P.map self.old }
        ensures count { self.new.layers.count ≡ self.old.layers.count }
        ensures committed { let P = ⟦<Pager<'h, H> as Pages>⟧ in IsCommitted (P.tells × HasNoGap (P.committed self.old)) P.committed P.committed_count self.new (P.committed self.old) (P.committed_count self.old) }
        ensures begun { self.new.begun ≡ self.old.begun }
        ensures same { let P = ⟦<Pager<'h, H> as Pages>⟧ in Beside P.said P.fetches P.heap_fetches P.faults P.follows self.old self.new }
        ensures spoiled { self.new.spoiled ≡ is_disk_fault result }
        ensures cause { IfErr result (HasCause (H.faults self.old.host.now) (H.faults self.new.host.now) (λ _ _ _. ⊥) (λ _. ⊥) (Unit {0})) }
        ensures images { let P = ⟦<Pager<'h, H> as Pages>⟧ in HasNoGap (P.committed self.old) → (m : PageMap) → P.may_leave self.new m → P.may_leave self.old m }
        ensures time { let P = ⟦<Pager<'h, H> as Pages>⟧ in HasNoGap (P.committed self.old)
            → Elapses (P.moment self.old) (P.moment self.new) (P.may_have_left_since self.old) (P.may_have_left_since self.new) (Now (P.may_leave self.old) (P.said self.old).bytes) }
        ensures changed { changed self.new.layers ≡ changed self.old.layers }

        // Where there is a gap, each page that is there stays as it is, and at each moment nothing more is answered.
        ensures silent { let P = ⟦<Pager<'h, H> as Pages>⟧ in Elapses (P.moment self.old) (P.moment self.new) (P.may_have_left_since self.old) (P.may_have_left_since self.new) (λ m. m.bytes ≡ (P.said self.old).bytes) }
        ensures kept { let P = ⟦<Pager<'h, H> as Pages>⟧ in P.tells → (n : ℕ) (bytes : List ℕ) → P.map self.old n ≡ Some bytes → P.map self.new n ≡ Some bytes }
        ensures kept_committed { let P = ⟦<Pager<'h, H> as Pages>⟧ in P.tells → (n : ℕ) (bytes : List ℕ) → P.committed self.old n ≡ Some bytes → P.committed self.new n ≡ Some bytes }

        // It calls the disk only where the log is long; then it is a checkpoint.
        ensures enough { self.old.log ≤ 2 ^ 62 → (self.new.host.now ≡ self.old.host.now) × (self.new.waiting ≡ self.old.waiting) }
        ensures emptied { OnOk result (2 ^ 62 < self.old.log → (self.new.waiting ≡ 0) × (H.tells → Stands [] (H.told self.new.host.now).log)) }
    {
        if self.log.front() <= MOST {
            return Ok(());
        }
        match self.checkpoint() {
            Ok(()) => Ok(()),
            Err(_) => Err(PageError::DiskFault),
        }
    }

    fn commit(&mut self) -> Result<(), PageError>
        requires { self.old.spoiled ≡ false }
        ensures committed { let P = ⟦<Pager<'h, H> as Pages>⟧ in OnOk result (IsCommitted P.tells P.committed P.committed_count self.new (P.map self.old) (P.count self.old)) }
        ensures memory { let P = ⟦<Pager<'h, H> as Pages>⟧ in result ≡ Err PageError.Memory → IsCommitted P.tells P.committed P.committed_count self.new (P.committed self.old) (P.committed_count self.old)
            × ((m : PageMap) → P.may_leave self.new m → P.may_leave self.old m) }
        ensures either { let P = ⟦<Pager<'h, H> as Pages>⟧ in OnErr result (IsCommitted P.tells P.committed P.committed_count self.new (P.committed self.old) (P.committed_count self.old)
            ⊎ IsCommitted P.tells P.committed P.committed_count self.new (P.map self.old) (P.count self.old)) }
        ensures begun { self.new.begun ≡ (if is_ok result then false else self.old.begun) }
        ensures map { let P = ⟦<Pager<'h, H> as Pages>⟧ in P.tells → P.map self.new ≡ P.map self.old }
        ensures count { self.new.layers.count ≡ self.old.layers.count }
        ensures same { let P = ⟦<Pager<'h, H> as Pages>⟧ in Beside P.said P.fetches P.heap_fetches P.faults P.follows self.old self.new }
        ensures spoiled { self.new.spoiled ≡ is_disk_fault result }
        ensures cause { IfErr result (HasCause (H.faults self.old.host.now) (H.faults self.new.host.now) (λ _ _ _. ⊥) (λ _. ⊥) (nat_le self.old.log (2 ^ 62) ≡ false)) }
        ensures only { let P = ⟦<Pager<'h, H> as Pages>⟧ in OnOk result (P.tells → (m : PageMap) → P.may_leave self.new m → m ≡ P.map self.old) }
        ensures time { let P = ⟦<Pager<'h, H> as Pages>⟧ in Elapses (P.moment self.old) (P.moment self.new) (P.may_have_left_since self.old) (P.may_have_left_since self.new)
            (λ m. (P.may_leave self.old m.image ⊎ (m.image ≡ P.map self.old)) × (m.bytes ≡ (P.said self.old).bytes)) }

        // It writes no page in place. Where no page was changed it calls no disk; after an Ok none is.
        ensures nothing { changed self.old.layers ≡ 0 → self.new.host.now ≡ self.old.host.now }
        ensures fine { changed self.old.layers ≡ 0 → result ≢ Err PageError.DiskFault }
        ensures unchanged { OnOk result (changed self.new.layers ≡ 0) }
        ensures pages { H.tells → (H.told self.new.host.now).pages ≡ (H.told self.old.host.now).pages }
        ensures waiting { OnOk result (self.new.waiting ≡ min (self.old.waiting + changed self.old.layers) (2 ^ 64 - 1)) }
    {
        if self.log.front() > MOST {
            return Err(PageError::Memory);
        }
        let more = self.layers.unit.len() as u64;
        self.spoiled = true;
        match add_record(&mut self.log, self.host, &self.layers) {
            Ok(()) => (),
            Err(_) => return Err(PageError::DiskFault),
        }
        self.layers.settle();
        self.waiting = self.waiting.saturating_add(more);
        self.begun = false;
        self.spoiled = false;
        Ok(())
    }

    fn abandon(&mut self)
        ensures map { let P = ⟦<Pager<'h, H> as Pages>⟧ in P.tells → P.map self.new ≡ P.committed self.old }
        ensures count { self.new.layers.count ≡ self.old.layers.committed_count }
        ensures committed { let P = ⟦<Pager<'h, H> as Pages>⟧ in IsCommitted P.tells P.committed P.committed_count self.new (P.committed self.old) (P.committed_count self.old) }
        ensures begun { self.new.begun ≡ false }
        ensures spoiled { self.new.spoiled ≡ self.old.spoiled }
        ensures same { let P = ⟦<Pager<'h, H> as Pages>⟧ in Beside P.said P.fetches P.heap_fetches P.faults P.follows self.old self.new }
        ensures images { let P = ⟦<Pager<'h, H> as Pages>⟧ in (m : PageMap) → P.may_leave self.new m → P.may_leave self.old m }
        ensures time { let P = ⟦<Pager<'h, H> as Pages>⟧ in Elapses (P.moment self.old) (P.moment self.new) (P.may_have_left_since self.old) (P.may_have_left_since self.new) (Now (P.may_leave self.old) (P.said self.old).bytes) }
        ensures unchanged { changed self.new.layers ≡ 0 }
        ensures host { self.new.host.now ≡ self.old.host.now }
    {
        self.layers.abandon();
        self.begun = false;
    }
}

impl<'h, H: Host> Keeper for Pager<'h, H> {
    ghost use Rattle.gx_log.specs.Records.{Stands};
    ghost use Rattle.gx_log.proofs.Bodies.{stands_same};

    ghost pending = { λ p. p.waiting };

    ghost changed = { λ p. changed p.layers };

    ghost counted_records = { λ p records. Stands records (H.told p.host.now).log };

    ghost one_list = { λ p a b first second. stands_same a b (H.told p.host.now).log first second };

    fn waiting(&self) -> u64 {
        self.waiting
    }

    fn checkpoint(&mut self) -> Result<(), Failed> {
        self.cache.clear();
        self.spoiled = true;
        match close_log(
            &mut self.log,
            self.host,
            self.layers.committed_count,
            &self.layers.kept,
        ) {
            Ok(()) => (),
            Err(_) => return Err(Failed),
        }
        self.layers.forget();
        self.waiting = 0;
        self.spoiled = false;
        Ok(())
    }

    fn answer(&mut self, bytes: &[u8]) -> Result<(), Failed> {
        self.host.answer(bytes)
    }
}
