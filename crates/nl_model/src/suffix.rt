// Suffixes.
use linear_program::Terms;
use text_base::Name;

/// Values of a name for variables, constraints, objectives or the problem, by the objects of
/// the kind (0 to 3).
#[derive(Drop)]
pub struct Suffix {
    pub kind: u8,
    pub name: Name,
    pub values: Terms,
}
