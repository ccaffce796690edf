// Kinds of variables.

/// Which values a variable may have; a binary variable is whole too.
#[derive(Clone, Copy, PartialEq, Eq)]
pub enum Kind {
    Continuous,
    Binary,
    Integer,
}
