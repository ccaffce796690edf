// Heads of segments.

/// What the head of a segment says.
#[derive(Clone, Copy, PartialEq, Eq)]
pub enum Head {
    /// The expression of a constraint.
    Body(u32),
    /// The expression of an objective, and whether it is maximised.
    Objective(u32, bool),
    /// A defined variable: its index, its number of linear terms, and its usage.
    Definition(u32, u32, u32),
    /// So many guesses of dual values.
    DualGuesses(u32),
    /// So many guesses of values of variables.
    PrimalGuesses(u32),
    /// The intervals of all constraints.
    Sides,
    /// The intervals of all variables.
    Bounds,
    /// So many counts of the terms of the first variables.
    ColumnCounts(u32),
    /// The linear terms of a constraint, and their number.
    Terms(u32, u32),
    /// The linear terms of an objective, and their number.
    Slopes(u32, u32),
    /// The kind of a suffix, and its number of values.
    Suffix(u8, u32),
}
