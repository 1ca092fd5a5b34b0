//! What is done with rows.

ghost use Rattle.std.specs.Prelude.{◌≡◌, List, OnOk};
ghost use Rattle.gx_plan.specs.Bounds.{kinds_of};
ghost use Rattle.gx_value.specs.declared.fields.Column.{Column};
ghost use Rattle.gx_value.specs.Values.{row_of, IsRow};
ghost use Rattle.gx_query.specs.Seen.{Seen};

use gx_bytes::NoMemory;
use gx_pages::RowRef;
use gx_value::{Column, Value};

/// What is done with the rows of a table of which a condition is true, as they are shown one after another.
pub trait Visit {
    // Rows with these columns can be shown to it.
    ghost fits: { Self → List Column → Type 0 };

    // what it is after one more row
    ghost after: { List Column → Self → Seen → Self };

    /// Shows it a row.
    fn visit(
        &mut self,
        columns: &[Column],
        at: RowRef,
        fields: &[Option<Value>],
    ) -> Result<(), NoMemory>
        requires fits { fits self.old columns.now }
        requires row { IsRow (kinds_of columns.now) (row_of fields.now) }
        ensures shown { OnOk result (self.new ≡ after columns.now self.old (at, row_of fields.now)) }
        ensures still { OnOk result (fits self.new columns.now) };
}
