// Rows of expressions.
use nl_model::Node;

/// What a row of an expression is: a node, or an opcode whose number of operands is on the next
/// row.
#[derive(Clone, Copy)]
pub enum NodeRow {
    Whole(Node),
    Counted(u32),
}
