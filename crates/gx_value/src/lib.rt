//! Values of every column type, and the tables of types, operators and index classes.
#![tactic(auto)]

mod classes;
mod fields;
mod laws;
mod literal;
mod operators;
mod rows;
mod text;
mod types;
mod value;

pub use classes::{
    BadParameter, Class, ClassFault, ClassLine, Method, Parameter, class_for, parameter_for,
    supports,
};
pub use fields::{Column, Columns, Fields};
pub use laws::{lines_count, one_answer, one_row, printed_again, rows_are_valid, tables};
pub use literal::{Form, Literal};
pub use operators::{Operator, is_operand, operands};
pub use rows::{ROW_LIMIT, RowError, decode_row, encode_row};
pub use text::{print_value, read_value};
pub use types::{ColumnType, Family, OperandType};
pub use value::Value;
