//! What a store on a host does besides the calls of a store.

ghost use Rattle.std.specs.Prelude.{◌≡◌, ℕ, true, false, List, [], ◌++◌, take, is_err, Some, OnOk, OnErr};
ghost use Rattle.gx_words.specs.Causes.{FailsWith};
ghost use Rattle.gx_words.specs.Moments.{Now, Saying, Elapses};
ghost use Rattle.gx_words.specs.PageMap.{PageMap};
ghost use Rattle.gx_log.specs.Records.{Record, entries_in};
ghost use Rattle.gx_pages.specs.Pages.{Beside, HasNoGap, IsCommitted};

use gx_io::Failed;
use gx_pages::Store;

/// A store that keeps its pages on a host's disk, behind a log, and passes answers on to the host.
pub trait Keeper: Store {
    // How many pages stand in the records since the last checkpoint, one that stands in several records once for each.
    ghost pending: { Self → ℕ };

    // How many pages were changed since the last commit.
    ghost changed: { Self → ℕ };

    // The log as read has these counted records.
    ghost counted_records: { Self → List Record → Type 0 };

    /// How many pages stand in the records since the last checkpoint.
    fn waiting(&self) -> u64
        ensures pending { result ≡ pending self.now }
        ensures counted { Self.tells → Self.spoiled self.now ≡ false → (records : List Record) → counted_records self.now records → result ≡ entries_in records };

    /// Writes the pages since the last checkpoint in place, and empties the log. It changes no page's content.
    fn checkpoint(&mut self) -> Result<(), Failed>
        requires { Self.spoiled self.old ≡ false }
        ensures none { OnOk result (pending self.new ≡ 0) }
        ensures emptied { OnOk result (Self.tells → counted_records self.new []) }
        ensures reserved { OnOk result (Self.reserved self.new ≡ true) }
        ensures map { Self.tells → HasNoGap (Self.committed self.old) → Self.map self.new ≡ Self.map self.old }

        // Where there is a gap, each page that is there stays as it is, and at each moment nothing more is answered.
        ensures silent { Elapses (Self.moment self.old) (Self.moment self.new) (Self.may_have_left_since self.old) (Self.may_have_left_since self.new) (λ m. m.bytes ≡ (Self.said self.old).bytes) }
        ensures kept { Self.tells → (n : ℕ) (bytes : List ℕ) → Self.map self.old n ≡ Some bytes → Self.map self.new n ≡ Some bytes }
        ensures kept_committed { Self.tells → (n : ℕ) (bytes : List ℕ) → Self.committed self.old n ≡ Some bytes → Self.committed self.new n ≡ Some bytes }
        ensures count { Self.count self.new ≡ Self.count self.old }
        ensures committed { IsCommitted (Self.tells × HasNoGap (Self.committed self.old)) Self.committed Self.committed_count self.new (Self.committed self.old) (Self.committed_count self.old) }
        ensures begun { Self.begun self.new ≡ Self.begun self.old }
        ensures changed { changed self.new ≡ changed self.old }
        ensures same { Beside Self.said Self.fetches Self.heap_fetches Self.faults Self.follows self.old self.new }
        ensures spoiled { Self.spoiled self.new ≡ is_err result }
        ensures cause { FailsWith (Self.faults self.old) (Self.faults self.new) result }
        ensures images { HasNoGap (Self.committed self.old) → (m : PageMap) → Self.may_leave self.new m → Self.may_leave self.old m }
        ensures time { HasNoGap (Self.committed self.old)
            → Elapses (Self.moment self.old) (Self.moment self.new) (Self.may_have_left_since self.old) (Self.may_have_left_since self.new) (Now (Self.may_leave self.old) (Self.said self.old).bytes) };

    /// Answers the host. It changes nothing of the pages.
    fn answer(&mut self, bytes: &[u8]) -> Result<(), Failed>
        ensures said { OnOk result (Self.tells → (Self.said self.new).bytes ≡ (Self.said self.old).bytes ++ bytes.now) }
        ensures front { OnErr result (Self.tells → (n : ℕ) × ((Self.said self.new).bytes ≡ (Self.said self.old).bytes ++ take n bytes.now)) }
        ensures map { Self.tells → Self.map self.new ≡ Self.map self.old }
        ensures count { Self.count self.new ≡ Self.count self.old }
        ensures committed { IsCommitted Self.tells Self.committed Self.committed_count self.new (Self.committed self.old) (Self.committed_count self.old) }
        ensures begun { Self.begun self.new ≡ Self.begun self.old }
        ensures spoiled { Self.spoiled self.new ≡ Self.spoiled self.old }
        ensures pending { pending self.new ≡ pending self.old }
        ensures changed { changed self.new ≡ changed self.old }
        ensures records { (records : List Record) → counted_records self.old records → counted_records self.new records }
        ensures fetches { Self.fetches self.new ≡ Self.fetches self.old }
        ensures heap { Self.heap_fetches self.new ≡ Self.heap_fetches self.old }
        ensures faults { Self.faults self.new ≡ Self.faults self.old }
        ensures follows { Self.follows self.old self.new }
        ensures images { (m : PageMap) → Self.may_leave self.new m → Self.may_leave self.old m }
        ensures time { Elapses (Self.moment self.old) (Self.moment self.new) (Self.may_have_left_since self.old) (Self.may_have_left_since self.new) (Saying (Self.may_leave self.old) (Self.said self.old).bytes bytes.now) }
        ensures cause { FailsWith (Self.said self.old).faults (Self.said self.new).faults result };

    // The log has one list of counted records: after an Ok of `checkpoint` it is empty, and stays so until a commit.
    ghost one_list: { (s : Self) (a b : List Record) → counted_records s a → counted_records s b → a ≡ b };
}
