//! The fields of a row, and the columns of a table.

ghost use Rattle.std.specs.Prelude.{◌≡◌, List, [], ◌∷◌, ◌++◌, length, IfOk, OnOk, OnErr};

use crate::types::ColumnType;
use crate::value::Value;
use gx_bytes::{Bytes, NoMemory};
use std::alloc::Global;
use std::marker::Model;

/// The values of a row in the order of its columns; None is NULL.
#[derive(Debug, Drop)]
pub struct Fields {
    values: Vec<Option<Value>>,
}

impl Model for Fields {
    ghost use Rattle.std.specs.Prelude.{List, Option};
    ghost use Rattle.gx_value.specs.declared.value.Value as value;
    ghost use Rattle.std.specs.Coded.{codes};
    ghost use Rattle.gx_json.specs.contracts.document.Json as json;

    ghost Value = { List (Option value.Value) };

    ghost coded = { Prim.hlevel (codes, json.the_row.coded) };

    ghost view = { λ f. f.values.items };
}

impl Fields {
    /// No fields.
    pub fn new(alloc: Global) -> Fields
        ensures { result ≡ [] }
    {
        Fields {
            values: Vec::new(alloc),
        }
    }

    /// No fields, with room for so many.
    pub fn with_capacity(alloc: Global, count: usize) -> Result<Fields, NoMemory>
        ensures { IfOk result (λ made. made ≡ []) }
    {
        Ok(Fields {
            values: Vec::with_capacity(alloc, count)?,
        })
    }

    /// Adds a field at the end.
    pub fn push(&mut self, value: Option<Value>) -> Result<(), NoMemory>
        ensures ok { OnOk result (self.new ≡ self.old ++ value ∷ []) }
        ensures err { OnErr result (self.new ≡ self.old) }
    {
        self.values.push(value)?;
        Ok(())
    }

    /// How many fields there are.
    pub fn count(&self) -> usize
        ensures { result ≡ length self.now }
    {
        self.values.len()
    }

    /// The fields in order.
    pub fn as_slice(&self) -> &[Option<Value>]
        ensures { result.now ≡ self.now }
    {
        self.values.as_slice()
    }
}

/// A column: its name and its type.
#[derive(Debug, Drop)]
pub struct Column {
    pub name: Bytes,
    pub kind: ColumnType,
}

/// The columns of a table in order.
#[derive(Debug, Drop)]
pub struct Columns {
    columns: Vec<Column>,
}

impl Model for Columns {
    ghost use Rattle.std.specs.Prelude.{List};
    ghost use Rattle.gx_value.specs.declared.fields.Column.{Column};

    ghost Value = { List Column };

    ghost view = { λ c. c.columns.items };
}

impl Columns {
    /// No columns.
    pub fn new(alloc: Global) -> Columns
        ensures { result ≡ [] }
    {
        Columns {
            columns: Vec::new(alloc),
        }
    }

    /// Adds a column at the end.
    pub fn push(&mut self, column: Column) -> Result<(), NoMemory>
        ensures ok { OnOk result (self.new ≡ self.old ++ column ∷ []) }
        ensures err { OnErr result (self.new ≡ self.old) }
    {
        self.columns.push(column)?;
        Ok(())
    }

    /// How many columns there are.
    pub fn count(&self) -> usize
        ensures { result ≡ length self.now }
    {
        self.columns.len()
    }

    /// The columns in order.
    pub fn as_slice(&self) -> &[Column]
        ensures { result.now ≡ self.now }
    {
        self.columns.as_slice()
    }
}
