// Objectives.
use crate::expr::Expr;

/// The sense and the tree of an objective.
#[derive(Drop)]
pub struct Objective {
    pub maximise: bool,
    pub tree: Expr,
}
