//! Plans, and their printed form.

ghost use Rattle.std.specs.Prelude.{◌≡◌, ◌++◌, length, OnOk};
ghost use Rattle.gx_model.specs.Plans.{plan_text};
ghost use Rattle.gx_plan.specs.Plans.{indexes_in, is_table, plan_of, IsWithin};

use gx_bytes::{Bytes, NoMemory};
use gx_catalog::Catalog;

/// By which indexes the rows of a condition are found. An index is named by its place in [`Catalog::indexes`].
#[derive(Debug, Drop)]
pub enum Plan {
    /// The whole table.
    Table,
    One(u16),
    /// The rows that both sides find.
    And(Box<Plan>, Box<Plan>),
    /// The rows that a side finds.
    Or(Box<Plan>, Box<Plan>),
}

impl Plan {
    /// Whether it is the whole table.
    pub fn is_table(&self) -> bool
        ensures { result ≡ is_table self.now }
    {
        matches!(self, Plan::Table)
    }
}

/// Appends the plan as EXPLAIN ANALYZE writes it: `*` for the whole table, an index's name, `and(.,.)` or `or(.,.)`.
pub fn print_plan(catalog: &Catalog, plan: &Plan, to: &mut Bytes) -> Result<(), NoMemory>
    requires { IsWithin (length catalog.now.indexes) plan.now }
    ensures { OnOk result (to.new ≡ to.old ++ plan_text (plan_of (indexes_in catalog.now) plan.now)) }
{
    match plan {
        Plan::Table => to.push(b'*'),
        Plan::One(place) => {
            let index = &catalog.indexes()[*place as usize];
            to.extend_from_slice(index.name.as_slice())
        }
        Plan::And(left, right) => {
            to.extend_from_slice(b"and(")?;
            print_plan(catalog, left, to)?;
            to.push(b',')?;
            print_plan(catalog, right, to)?;
            to.push(b')')
        }
        Plan::Or(left, right) => {
            to.extend_from_slice(b"or(")?;
            print_plan(catalog, left, to)?;
            to.push(b',')?;
            print_plan(catalog, right, to)?;
            to.push(b')')
        }
    }
}
