//! Bytes: the small types over bytes that every crate shares.
#![tactic(auto)]

mod blanks;
mod bytes;
mod days;
mod error;
mod fields;
mod hash;
mod text;
mod varints;
mod wholes;

pub use blanks::{behind_byte, cut_at, one_core, trimmed, without_blanks};
pub use bytes::Bytes;
pub use days::{day_of, days_of_years, one_day_answer, print_day, printed_day_again, read_day};
pub use error::{NoMemory, ValueError};
pub use fields::{get_u16, get_u32, get_u64, one_number, put_u16, put_u32, put_u64};
pub use hash::fnv;
pub use text::text_of;
pub use varints::{field, one_spelling, push_field, push_varint, varint};
pub use wholes::{
    is_numeral, numeral_value, one_whole_answer, print_whole, printed_whole_again, read_whole,
    whole_of,
};
