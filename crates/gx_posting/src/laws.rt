//! The law of posting lists.

ghost use Rattle.std.specs.Prelude.{◌≡◌, ℕ, List, []};
ghost use Rattle.gx_pages.specs.declared.row.RowRef.{RowRef};
ghost use Rattle.gx_posting.specs.Postings.{Spells};

/// Bytes spell at most one posting list, and no bytes spell the empty one.
pub fn one_list()
    ensures one { (bytes : List ℕ) (a b : List RowRef) → Spells bytes a → Spells bytes b → a ≡ b }
    ensures empty { Spells [] [] }
{}
