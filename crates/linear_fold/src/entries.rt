// What a whole tree comes to.
use exact_numbers::Frac;
use linear_program::Form;
use nl_model::Fault;

/// What a tree, or an expression, came to.
#[derive(Drop)]
pub enum Entry {
    Linear(Form),
    Broken(Fault),
}

/// What a number with terms that ascend comes to: a form whose coefficients are these terms, or its
/// first fault.
#[derive(Clone, Copy)]
pub enum Held {
    Number(Frac),
    Broken(Fault),
}
