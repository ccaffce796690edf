// What lines of expressions say that are a letter and a number alone.
use exact_numbers::Dec;

/// A letter of a node, and the number that follows it.
#[derive(Clone, Copy)]
pub enum Leaf {
    /// A number.
    Number(Dec),
    /// The index of a variable.
    Variable(u32),
    /// An opcode.
    Opcode(u32),
}
