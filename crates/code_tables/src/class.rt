// What an opcode of an .nl expression means: its class and its operands.

/// What an opcode of an .nl expression does.
#[derive(Clone, Copy, PartialEq, Eq)]
pub enum OpClass {
    Sum,
    Difference,
    Product,
    Quotient,
    Negation,
    List,
    Power,
    Least,
    Greatest,
    Floor,
    Ceiling,
    Absolute,
    /// Not in the table.
    Refused,
}

/// How many operands follow an opcode.
#[derive(Clone, Copy, PartialEq, Eq)]
pub enum Operands {
    One,
    Two,
    /// Their number stands on the next line.
    Counted,
}

/// A row of the table of opcodes.
#[derive(Clone, Copy, PartialEq, Eq)]
pub struct OpcodeRow {
    pub opcode: u32,
    pub class: OpClass,
    pub operands: Operands,
}
