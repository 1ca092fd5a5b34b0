//! Numbers in fields of two, four and eight bytes, the lowest byte first.

ghost use Rattle.std.specs.Prelude.{◌≡◌, ℕ, ◌+◌, ◌<◌, ◌≤◌, ◌^◌, length, take, drop, IfSome, IfNone};
ghost use Rattle.gx_bytes.specs.Fields.{le16, le32, le64, paste};

/// The number in the two bytes from `at` on. None where they don't all lie in the bytes.
pub fn get_u16(bytes: &[u8], at: usize) -> Option<u16>
    ensures some { IfSome result (λ n. (at + 2 ≤ length bytes.now) × (take 2 (drop at bytes.now) ≡ le16 n)) }
    ensures none { IfNone result (length bytes.now < at + 2) }
{
    let (_, rest) = bytes.split_at_checked(at)?;
    let field = rest.first_chunk::<2>()?;
    Some(of_two(field))
}

/// The number in the four bytes from `at` on. None where they don't all lie in the bytes.
pub fn get_u32(bytes: &[u8], at: usize) -> Option<u32>
    ensures some { IfSome result (λ n. (at + 4 ≤ length bytes.now) × (take 4 (drop at bytes.now) ≡ le32 n)) }
    ensures none { IfNone result (length bytes.now < at + 4) }
{
    let (_, rest) = bytes.split_at_checked(at)?;
    let field = rest.first_chunk::<4>()?;
    Some(of_four(field))
}

/// The number in the eight bytes from `at` on. None where they don't all lie in the bytes.
pub fn get_u64(bytes: &[u8], at: usize) -> Option<u64>
    ensures some { IfSome result (λ n. (at + 8 ≤ length bytes.now) × (take 8 (drop at bytes.now) ≡ le64 n)) }
    ensures none { IfNone result (length bytes.now < at + 8) }
{
    let (_, rest) = bytes.split_at_checked(at)?;
    let field = rest.first_chunk::<8>()?;
    Some(of_eight(field))
}

/// Writes the number into the two bytes from `at` on.
#[tactic(auto, unfolding(crate::specs::Fields::le16))]
pub fn put_u16(into: &mut [u8], at: usize, value: u16)
    requires { at + 2 ≤ length into.old }
    ensures { into.new ≡ paste into.old at (le16 value) }
{
    into[at..at + 2].copy_from_slice(&value.to_le_bytes());
}

/// Writes the number into the four bytes from `at` on.
#[tactic(auto, unfolding(crate::specs::Fields::le32))]
pub fn put_u32(into: &mut [u8], at: usize, value: u32)
    requires { at + 4 ≤ length into.old }
    ensures { into.new ≡ paste into.old at (le32 value) }
{
    into[at..at + 4].copy_from_slice(&value.to_le_bytes());
}

/// Writes the number into the eight bytes from `at` on.
#[tactic(auto, unfolding(crate::specs::Fields::le64))]
pub fn put_u64(into: &mut [u8], at: usize, value: u64)
    requires { at + 8 ≤ length into.old }
    ensures { into.new ≡ paste into.old at (le64 value) }
{
    into[at..at + 8].copy_from_slice(&value.to_le_bytes());
}

/// One spelling has one number: so a number that was put is the one that is read.
pub fn one_number()
    ensures two { (m n : ℕ) → m < 2 ^ 16 → n < 2 ^ 16 → le16 m ≡ le16 n → m ≡ n }
    ensures four { (m n : ℕ) → m < 2 ^ 32 → n < 2 ^ 32 → le32 m ≡ le32 n → m ≡ n }
    ensures eight { (m n : ℕ) → m < 2 ^ 64 → n < 2 ^ 64 → le64 m ≡ le64 n → m ≡ n }
{}

fn of_two(field: &[u8; 2]) -> u16
    ensures { field.now ≡ le16 result }
{
    u16::from_le_bytes(*field)
}

fn of_four(field: &[u8; 4]) -> u32
    ensures { field.now ≡ le32 result }
{
    u32::from_le_bytes(*field)
}

fn of_eight(field: &[u8; 8]) -> u64
    ensures { field.now ≡ le64 result }
{
    u64::from_le_bytes(*field)
}
