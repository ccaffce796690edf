// Tables of a fixed number of rows.

ghost use Rattle.std.specs.Prelude.{◌≡◌};
ghost use Rattle.code_tables.specs.Header.{header_rows};
ghost use Rattle.code_tables.specs.Opcodes.{opcodes};

use crate::class::{OpClass, OpcodeRow, Operands};
use crate::field::{Field, FieldRow};

/// N rows, which are those of the header where nothing else is said.
#[derive(Clone, Copy)]
pub struct Table<const N: usize, R = FieldRow> {
    pub rows: [R; N],
}

/// One row of the header: row, line, place, required, must be 0.
macro_rules! field_row {
    ($row:literal, $line:literal, $place:literal, $required:literal, $zero:literal) => {
        FieldRow {
            line: $line,
            place: $place,
            field: Field { row: $row, required: $required, zero: $zero },
        }
    };
}

/// One row of the opcodes.
macro_rules! opcode_row {
    ($opcode:literal, $class:ident, $operands:ident) => {
        OpcodeRow { opcode: $opcode, class: OpClass::$class, operands: Operands::$operands }
    };
}

/// The fields of the header: row, line, place, required, must be 0.
pub const HEADER: Table<32> = Table {
    rows: [
        field_row!(1, 1, 1, true, false),
        field_row!(2, 2, 1, true, false),
        field_row!(3, 2, 2, true, false),
        field_row!(4, 2, 3, true, false),
        field_row!(5, 2, 4, true, false),
        field_row!(6, 2, 5, true, false),
        field_row!(7, 2, 6, false, true),
        field_row!(8, 3, 1, true, false),
        field_row!(9, 3, 2, true, false),
        field_row!(10, 4, 1, true, true),
        field_row!(11, 4, 2, true, true),
        field_row!(12, 5, 1, true, false),
        field_row!(13, 5, 2, true, false),
        field_row!(14, 5, 3, true, false),
        field_row!(15, 6, 1, true, true),
        field_row!(16, 6, 2, true, true),
        field_row!(17, 6, 3, false, false),
        field_row!(18, 6, 4, false, false),
        field_row!(19, 7, 1, true, false),
        field_row!(20, 7, 2, true, false),
        field_row!(21, 7, 3, false, false),
        field_row!(22, 7, 4, false, false),
        field_row!(23, 7, 5, false, false),
        field_row!(24, 8, 1, true, false),
        field_row!(25, 8, 2, true, false),
        field_row!(26, 9, 1, true, false),
        field_row!(27, 9, 2, true, false),
        field_row!(28, 10, 1, true, false),
        field_row!(29, 10, 2, true, false),
        field_row!(30, 10, 3, true, false),
        field_row!(31, 10, 4, true, false),
        field_row!(32, 10, 5, true, false),
    ],
};

/// The opcodes of expressions, with class and operands.
pub const OPS: Table<12, OpcodeRow> = Table {
    rows: [
        opcode_row!(0, Sum, Two),
        opcode_row!(1, Difference, Two),
        opcode_row!(2, Product, Two),
        opcode_row!(3, Quotient, Two),
        opcode_row!(5, Power, Two),
        opcode_row!(11, Least, Counted),
        opcode_row!(12, Greatest, Counted),
        opcode_row!(13, Floor, One),
        opcode_row!(14, Ceiling, One),
        opcode_row!(15, Absolute, One),
        opcode_row!(16, Negation, One),
        opcode_row!(54, List, Counted),
    ],
};

/// The table of the header.
#[tactic(auto, unfolding(crate::specs::Header::header_rows))]
pub fn header_table() -> Table<32>
    ensures { result.rows ≡ header_rows }
{
    HEADER
}

/// The table of opcodes.
pub fn opcode_table() -> Table<12, OpcodeRow>
    ensures { result.rows ≡ opcodes }
{
    OPS
}
