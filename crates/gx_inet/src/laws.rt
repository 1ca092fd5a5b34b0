//! Laws of the texts, the bytes and the operators.

ghost use Rattle.std.specs.Prelude.{◌≡◌, ◌↔◌, ℕ, List, IsTrue, Result};
ghost use Rattle.gx_bytes.specs.declared.error.ValueError.{ValueError};
ghost use Rattle.gx_inet.specs.declared.inet.Inet.{Inet};
ghost use Rattle.gx_inet.specs.declared.inet.InetOp.{InetOp};
ghost use Rattle.gx_inet.specs.Value.{IsInet};
ghost use Rattle.gx_inet.specs.Text.{SpellsInet, AnswersInet, printed};
ghost use Rattle.gx_inet.specs.Encoding.{encoded};
ghost use Rattle.gx_inet.specs.Operators.{Holds};
ghost use Rattle.gx_inet.specs.Decisions.{holds};

/// A text has one answer.
pub fn one_answer()
    ensures { (text : List ℕ) (r s : Result Inet ValueError) → AnswersInet text r → AnswersInet text s → r ≡ s }
{}

/// The printed text of an address spells it.
pub fn printed_again()
    ensures { (inet : Inet) → IsInet inet → SpellsInet (printed inet) inet }
{}

/// Valid addresses have one encoding each.
pub fn one_encoding()
    ensures { (a b : Inet) → IsInet a → IsInet b → encoded a ≡ encoded b → a ≡ b }
{}

/// Each operator is decided: `holds` is true exactly where the relation holds.
pub fn decided()
    ensures { (op : InetOp) (x y : Inet) → IsTrue (holds op x y) ↔ Holds op x y }
{}
