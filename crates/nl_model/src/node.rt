// Nodes of expression trees.
use exact_numbers::Dec;
use std::mem::size_of;

// A node and a term take at most so many bytes.
const MOST_BYTES: usize = 48;

const _: () = prove!(size_of::<Node>() <= MOST_BYTES);

const _: () = prove!(size_of::<(u32, Dec)>() <= MOST_BYTES);

/// A node of an expression in prefix form.
#[derive(Clone, Copy)]
pub enum Node {
    Num(Dec),
    Var(u32),
    /// A defined variable, by its index in the file.
    Defined(u32),
    /// An opcode and its number of operands, which follow.
    Op(u32, u32),
}
