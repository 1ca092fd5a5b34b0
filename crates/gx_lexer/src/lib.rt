//! A script as its pieces, and a piece as its tokens.
#![tactic(auto)]

mod cutter;
mod laws;
mod letters;
mod piece;
mod scan;
mod token;

pub use cutter::{Cutter, Mode};
pub use laws::{one_cut, one_scan, words_are_short};
pub use piece::{LONGEST, Piece, Pieces};
pub use scan::first_at;
pub use token::Token;
