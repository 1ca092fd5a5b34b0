//! White space round a text, and the first of a byte.

ghost use Rattle.std.specs.Prelude.{◌≡◌, ◌≢◌, ℕ, List, ◌∷◌, All, IfSome, IfNone, MatchOption};
ghost use Rattle.gx_bytes.specs.Blanks.{core_of, without_leading_blank, CutsAt, Trims};

/// The bytes without the white space at their ends: space, tab, line feed, form feed and carriage
/// return.
pub fn trimmed(bytes: &[u8]) -> &[u8]
    ensures { result.now ≡ core_of bytes.now }
{
    bytes.trim_ascii()
}

/// The bytes from the first on that isn't white space.
pub fn without_blanks(bytes: &[u8]) -> &[u8]
    ensures { result.now ≡ without_leading_blank bytes.now }
{
    let mut rest = bytes;
    while let [first, after @ ..] = rest {
        if !first.is_ascii_whitespace() {
            return rest;
        }
        rest = after;
    }
    rest
}

/// What stands behind such a byte at the front; None where there is none.
pub fn behind_byte(bytes: &[u8], wanted: u8) -> Option<&[u8]>
    ensures { MatchOption result ((rest : List ℕ) → bytes.now ≢ wanted ∷ rest) (λ rest. bytes.now ≡ wanted ∷ rest.now) }
{
    match bytes {
        [first, rest @ ..] if *first == wanted => Some(rest),
        _ => None,
    }
}

/// The bytes before the first such byte, and those behind it; None where there is none.
pub fn cut_at(bytes: &[u8], byte: u8) -> Option<(&[u8], &[u8])>
    ensures some { IfSome result (λ parts. CutsAt byte bytes.now parts.0.now parts.1.now) }
    ensures none { IfNone result (All (λ c. c ≢ byte) bytes.now) }
{
    let at = bytes.iter().position(|one| *one == byte)?;
    Some((&bytes[..at], &bytes[at + 1..]))
}

/// A text is white space, its core, and white space, where the core has none at its ends; and it has no other core.
pub fn one_core()
    ensures is { (text : List ℕ) → Trims text (core_of text) }
    ensures only { (text core : List ℕ) → Trims text core → core_of text ≡ core }
{}
