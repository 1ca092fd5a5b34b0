//! Conditions as they are asked of rows, bound to the columns of a table, and plans.
#![tactic(auto)]

mod binding;
mod bound;
mod choosing;
mod laws;
mod operand;
mod plan;

pub use binding::bind;
pub use bound::{Bound, Truth};
pub use choosing::choose_plan;
pub use laws::loses_none;
pub use plan::{Plan, print_plan};
