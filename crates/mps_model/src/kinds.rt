// Kinds of rows and of bounds.

/// Kinds of rows: free (an objective), at most, at least, equal.
#[derive(Clone, Copy, PartialEq, Eq)]
pub enum RowKind {
    N,
    L,
    G,
    E,
}

/// Kinds of bounds: lower, upper, fixed, free, no lower, no upper, binary, and the lower and upper
/// ones of whole columns.
#[derive(Clone, Copy, PartialEq, Eq)]
pub enum BoundKind {
    Lo,
    Up,
    Fx,
    Fr,
    Mi,
    Pl,
    Bv,
    Li,
    Ui,
}
