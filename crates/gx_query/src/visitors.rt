//! What SELECT, DELETE and EXPLAIN ANALYZE do with rows.

ghost use Rattle.std.specs.Prelude.{◌≡◌, []};
ghost use Rattle.gx_query.specs.Visitors.{HasPlaces, with_line, with_row};

use crate::visit::Visit;
use gx_bytes::{Bytes, NoMemory};
use gx_pages::RowRef;
use gx_target::{Places, push_row_line};
use gx_value::{Column, Value};
use std::alloc::Global;
use std::marker::Model;

/// The lines of rows, each with the fields of the columns at these places.
#[derive(Drop)]
pub struct Lines {
    pub places: Places,
    pub bytes: Bytes,
}

impl Visit for Lines {
    ghost fits = { HasPlaces };

    ghost after = { with_line };

    #[tactic(auto, unfolding(crate::specs::Visitors::line_of))]
    fn visit(
        &mut self,
        columns: &[Column],
        at: RowRef,
        fields: &[Option<Value>],
    ) -> Result<(), NoMemory> {
        push_row_line(columns, self.places.as_slice(), fields, &mut self.bytes)
    }
}

/// Where rows stand.
#[derive(Drop)]
pub struct Gathered {
    rows: Vec<RowRef>,
}

impl Model for Gathered {
    ghost use Rattle.std.specs.Prelude.{List};
    ghost use Rattle.gx_pages.specs.declared.row.RowRef.{RowRef};

    ghost Value = { List RowRef };

    ghost view = { λ g. g.rows.items };
}

impl Gathered {
    /// None yet.
    pub fn new(alloc: Global) -> Gathered
        ensures { result ≡ [] }
    {
        Gathered {
            rows: Vec::new(alloc),
        }
    }

    pub fn as_slice(&self) -> &[RowRef]
        ensures { result.now ≡ self.now }
    {
        self.rows.as_slice()
    }
}

impl Visit for Gathered {
    ghost fits = { λ v columns. Unit {0} };

    ghost after = { with_row };

    fn visit(
        &mut self,
        _columns: &[Column],
        at: RowRef,
        _fields: &[Option<Value>],
    ) -> Result<(), NoMemory> {
        self.rows.push(at)?;
        Ok(())
    }
}

/// Rows that are only counted.
#[derive(Drop)]
pub struct Counted;

impl Visit for Counted {
    ghost fits = { λ v columns. Unit {0} };

    ghost after = { λ columns v s. v };

    fn visit(
        &mut self,
        _columns: &[Column],
        _at: RowRef,
        _fields: &[Option<Value>],
    ) -> Result<(), NoMemory> {
        Ok(())
    }
}
