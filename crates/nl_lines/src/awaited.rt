// Lines that may be awaited.
ghost use Rattle.std.specs.Prelude.{◌≡◌};
ghost use Rattle.nl_lines.specs.Pieces.{is_nothing};

/// The line that a piece awaits.
#[derive(Clone, Copy, PartialEq, Eq)]
pub enum Awaited {
    /// The piece is complete.
    Nothing,
    /// An index and a value.
    Pair,
    /// A whole number of a column.
    ColumnCount,
    /// The sides of an interval.
    Interval,
    /// A node of an expression.
    Node,
    /// The number of operands of an opcode.
    OperandCount,
}

/// Whether a piece is complete.
pub fn is_nothing(awaited: Awaited) -> bool
    ensures { result ≡ is_nothing awaited }
{
    match awaited {
        Awaited::Nothing => true,
        _ => false,
    }
}
