//! A list of rows by rising numbers.

ghost use Rattle.std.specs.Prelude.{◌≡◌, ℕ, ◌+◌, ◌<◌, ◌≤◌, [], ◌∷◌, ◌++◌, List, length, take, ◌↔◌, IsTrue, IfSome, IfNone, MatchBool, OnOk, OnErr};
ghost use Rattle.std.specs.List.Sorted.{IsPermutation, IsNonDecreasingBy};
ghost use Rattle.gx_pages.specs.declared.row.RowRef.{RowRef};
ghost use Rattle.gx_pages.specs.Rows.{AreBelow, HasNumber, HasTwice, IsRising};

use crate::row::RowRef;
use std::alloc::{AllocError, Global};
use std::marker::Model;

/// Rows by rising numbers.
#[derive(Debug, Drop)]
pub struct Bitmap {
    rows: Vec<RowRef>,
}

impl Model for Bitmap {
    ghost use Rattle.std.specs.Prelude.{List};
    ghost use Rattle.gx_pages.specs.declared.row.RowRef.{RowRef};
    ghost use Rattle.gx_pages.specs.Rows.{IsRising};

    ghost Value = { List RowRef };

    ghost view = { λ b. b.rows.items };

    ghost invariant = { λ b. IsRising b.rows.items };
}

impl Bitmap {
    /// No rows.
    pub fn new(alloc: Global) -> Bitmap
        ensures { result ≡ [] }
    {
        Bitmap {
            rows: Vec::new(alloc),
        }
    }

    /// These rows, by rising numbers. None exactly where two of them have one number.
    pub fn of(rows: Vec<RowRef>) -> Option<Bitmap>
        ensures rising { IfSome result (λ bitmap. IsRising bitmap) }
        ensures all { IfSome result (λ bitmap. IsPermutation rows.items bitmap) }
        ensures none { IfNone result (HasTwice rows.items) }
    {
        let mut rows = rows;
        rows.sort_unstable_by_key(|row| row.number);
        if !are_rising(rows.as_slice()) {
            return None;
        }
        Some(Bitmap { rows })
    }

    /// The rows, by rising numbers.
    pub fn as_slice(&self) -> &[RowRef]
        ensures value { result.now ≡ self.now }
        ensures rising { IsRising self.now }
    {
        self.rows.as_slice()
    }

    /// Adds a row, whose number is above all others.
    pub fn push(&mut self, row: RowRef) -> Result<(), AllocError>
        requires { AreBelow self.old row.number }
        ensures ok { OnOk result (self.new ≡ self.old ++ row ∷ []) }
        ensures err { OnErr result (self.new ≡ self.old) }
    {
        self.rows.push(row)?;
        Ok(())
    }

    /// How many rows there are.
    pub fn len(&self) -> usize
        ensures value { result ≡ length self.now }
        ensures rising { IsRising self.now }
    {
        self.rows.len()
    }

    /// Tells whether a row has this number, by halving.
    pub fn has(&self, number: u64) -> bool
        ensures { IsTrue result ↔ HasNumber self.now number }
    {
        match self.rows.binary_search_by_key(&number, |row| row.number) {
            Ok(_) => true,
            Err(_) => false,
        }
    }

    /// Keeps the first rows, so many of them.
    pub fn truncate(&mut self, len: usize)
        ensures { self.new ≡ take len self.old }
    {
        self.rows.truncate(len);
    }

    /// Tells whether all rows have numbers below this one.
    pub fn is_below(&self, number: u64) -> bool
        ensures { IsTrue result ↔ AreBelow self.now number }
    {
        match self.rows.as_slice() {
            [_front @ .., last] => last.number < number,
            [] => true,
        }
    }
}

// Tells whether the numbers, which don't fall, rise.
fn are_rising(rows: &[RowRef]) -> bool
    requires { IsNonDecreasingBy (λ row. row.number) rows.now }
    ensures { MatchBool result (IsRising rows.now) (HasTwice rows.now) }
{
    for at in 1..rows.len() {
        if rows[at - 1].number == rows[at].number {
            return false;
        }
    }
    true
}
