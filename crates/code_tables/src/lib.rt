// The tables of the .nl format: fields of the header, and opcodes.
#![tactic(auto)]

mod class;
mod field;
mod header;
mod opcodes;
mod table;

pub use class::{OpClass, OpcodeRow, Operands};
pub use field::{Field, FieldRow};
pub use header::field_at;
pub use opcodes::{class_of, operands_of};
pub use table::{HEADER, OPS, Table, header_table, opcode_table};
