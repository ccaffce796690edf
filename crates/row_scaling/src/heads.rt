// What the lines of the columns name.
ghost use Rattle.std.specs.Prelude.{◌+◌, ◌≤◌, ◌^◌, length};

use linear_program::Kind;

/// The constraints of the exported rows, the kinds of the columns, and how many variables there are.
#[derive(Drop)]
pub(crate) struct Heads {
    pub(crate) numbers: Vec<u32>,
    pub(crate) kinds: Vec<Kind>,
    pub(crate) variables: usize,
    pub(crate) ghost few: { length kinds.items ≤ 2 ^ 20 + 1 },
}
