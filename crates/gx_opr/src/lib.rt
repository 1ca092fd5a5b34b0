//! The operators over values of every type: which operand a literal is taken for, how it is read, and when an
//! operator holds.
#![tactic(auto)]

mod laws;
mod operand;
mod operators;
mod resolving;
mod text;

pub use laws::{decided, one_operand};
pub use operand::{Operand, Part};
pub use operators::{holds, inet_op, ltree_op, range_op, scalar_op};
pub use resolving::{NoOperator, resolve};
pub use text::read_operand;
