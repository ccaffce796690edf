// Opcodes whose number of operands is on the next line.

/// An opcode that awaits its number of operands, and the line where it stands, counted from 1.
#[derive(Clone, Copy)]
pub struct Pending {
    pub opcode: u32,
    pub line: u32,
}
