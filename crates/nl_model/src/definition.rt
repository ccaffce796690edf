// Defined variables.
use crate::expr::Expr;
use linear_program::Terms;

/// A defined variable: its index in the file, its linear terms, its usage as the file gives it, and
/// its tree.
#[derive(Drop)]
pub struct Def {
    pub index: u32,
    pub terms: Terms,
    pub usage: u32,
    pub tree: Expr,
}
