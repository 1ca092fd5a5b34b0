//! What the definitions say, in the words of their subject.

ghost use Rattle.std.specs.Prelude.{◌≡◌, ◌≢◌, ◌↔◌, ℕ, List, codes, None, Some, IsTrue, Result, Ok, Err};
ghost use Rattle.gx_bytes.specs.declared.error.ValueError.{ValueError};
ghost use Rattle.json.specs.Json as json;
ghost use Rattle.serde_json.specs.Data.{Data, Members, no_members};
ghost use Rattle.serde_json.specs.Find.{get_member};
ghost use Rattle.serde_json.specs.Read.{read, of_json, of_members};
ghost use Rattle.serde_json.specs.Written.{compact_text};
ghost use Rattle.gx_json.specs.Scan.{outside, runs};
ghost use Rattle.gx_json.specs.Valid.{IsRising, IsDocument};
ghost use Rattle.gx_json.specs.Text.{AnswersJson};
ghost use Rattle.gx_json.specs.Print.{printed, Entry, shorter_first, entries_of, IsShorterFirst, AreByLengthThenBytes};
ghost use Rattle.gx_json.specs.Operators.{Question, Holds};
ghost use Rattle.gx_json.specs.Decisions.{holds};
ghost use Rattle.gx_json.specs.Keys.{IsLast, Lacks};
ghost use Rattle.gx_json.specs.Parts.{Part, End, IsMadeOf, all_outside, HasRuns};

/// Each text is made of bytes and strings, one behind another, and of a string that is left open or nothing at its end,
/// and in no other way. Outside of its strings there are the bytes and the opening quote of each string.
pub fn one_reading()
    ensures is { (text : List ℕ) → (parts : List Part) × (end : End) × IsMadeOf text parts end }
    ensures only { (text : List ℕ) (parts others : List Part) (end other : End) → IsMadeOf text parts end → IsMadeOf text others other → (parts ≡ others) × (end ≡ other) }
    ensures outside { (text : List ℕ) (parts : List Part) (end : End) → IsMadeOf text parts end → outside text ≡ all_outside parts end }
{}

/// Each text has the runs of bytes of numbers that `runs` gives, none of which could be longer, and no others.
pub fn longest_runs()
    ensures are { (text : List ℕ) → HasRuns text (runs text) }
    ensures only { (text : List ℕ) (others : List (List ℕ)) → HasRuns text others → others ≡ runs text }
{}

/// The entries of an object have one order with shorter keys first, and those with keys of one length as they stood.
/// In a document, whose keys rise, that is by length and then by bytes.
pub fn one_order()
    ensures is { (entries : List Entry) → IsShorterFirst entries (shorter_first entries) }
    ensures only { (entries sorted : List Entry) → IsShorterFirst entries sorted → sorted ≡ shorter_first entries }
    ensures bytes { (ms : Members) → IsRising ms → AreByLengthThenBytes (shorter_first (entries_of ms)) }
{}

/// Of equal keys in an object the last is kept.
pub fn last_of_equal_keys()
    ensures last { (key : List ℕ) (j : json.Json) (ms : json.Members) (kept : Members) → of_members ms no_members ≡ Some kept → IsLast key j ms → get_member key kept ≡ of_json j }
    ensures lacks { (key : List ℕ) (ms : json.Members) (kept : Members) → of_members ms no_members ≡ Some kept → Lacks key ms → get_member key kept ≡ None }
    ensures example { read (codes "{\"a\":1,\"a\":2}") ≡ read (codes "{\"a\":2}") }
{}

/// A text has one answer, unless memory is wanting.
pub fn one_answer()
    ensures { (text : List ℕ) (r s : Result Data ValueError) → r ≢ Err ValueError.Memory → s ≢ Err ValueError.Memory → AnswersJson text r → AnswersJson text s → r ≡ s }
{}

/// Two documents have different bytes.
pub fn one_encoding()
    ensures { (a b : Data) → IsDocument a → IsDocument b → compact_text a ≡ compact_text b → a ≡ b }
{}

/// The printed text of a document is read as that document.
pub fn printed_again()
    ensures { (d : Data) → IsDocument d → AnswersJson (printed d) (Ok d) }
{}

/// Each operator is decided: `holds` is true exactly where the relation holds.
pub fn decided()
    ensures { (question : Question) (v : Data) → IsTrue (holds question v) ↔ Holds question v }
{}
