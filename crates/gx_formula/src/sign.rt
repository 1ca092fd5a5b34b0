//! Signs.

ghost use Rattle.std.specs.Prelude.{◌≡◌};
ghost use Rattle.gx_formula.specs.Tokens.{sign_of};

/// What stands between the words of a formula: `!`, `&`, `|`, `(` and `)`.
#[derive(Clone, Copy, Debug, PartialEq, Eq)]
pub enum Sign {
    Not,
    And,
    Or,
    Open,
    Close,
}

pub(crate) fn sign_of(byte: u8) -> Option<Sign>
    ensures { result ≡ sign_of byte }
{
    match byte {
        b'!' => Some(Sign::Not),
        b'&' => Some(Sign::And),
        b'|' => Some(Sign::Or),
        b'(' => Some(Sign::Open),
        b')' => Some(Sign::Close),
        _ => None,
    }
}
