//! Labels, as paths and their queries have them.

ghost use Rattle.std.specs.Prelude.{◌≡◌, ◌≤◌, ℕ, List, MatchOption, length, take, drop};
ghost use Rattle.std.specs.List.{AllByRecursion};
ghost use Rattle.gx_ltree.specs.Label.{is_label_byte, IsLabelByte, StopsLabel, TakesLabel};

/// The greatest number of characters of a label.
const LONGEST_LABEL: usize = 1000;

/// Whether a label may have the byte: a letter or a digit of ASCII, `_` or `-`.
pub fn is_label_byte(byte: u8) -> bool
    ensures { result ≡ is_label_byte byte }
{
    byte.is_ascii_alphanumeric() || byte == b'_' || byte == b'-'
}

/// A label at the front of the text, which goes on as far as its characters do, and what stands behind it.
/// None where no character of a label comes first, or more than 1,000 do.
pub fn take_label(text: &[u8]) -> Option<(&[u8], &[u8])>
    ensures { MatchOption result ((label rest : List ℕ) → TakesLabel text.now label rest → ⊥) (λ x. TakesLabel text.now x.0.now x.1.now) }
{
    let length = run_length(text);
    if length == 0 || length > LONGEST_LABEL {
        return None;
    }
    Some(text.split_at(length))
}

/// How many bytes that a label may have the text begins with.
fn run_length(text: &[u8]) -> usize
    ensures within { result ≤ length text.now }
    ensures run { AllByRecursion IsLabelByte (take result text.now) }
    ensures stops { StopsLabel (drop result text.now) }
{
    let mut length = 0;
    while length < text.len() && is_label_byte(text[length]) {
        length += 1;
    }
    length
}
