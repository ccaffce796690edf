// Linear programs by rows and by columns.
ghost use Rattle.std.specs.Prelude.{◌≡◌, length};
ghost use Rattle.exact_checks.specs.Lists.{AreTransposed, AreTransposed-prop};

use crate::program::Program;
use exact_numbers::Frac;

/// A linear program: the same coefficients by row and by column.
#[derive(Drop)]
pub struct Columns {
    pub program: Program,
    pub columns: Vec<Vec<(u32, Frac)>>,
    pub costs: Vec<Frac>,
    pub ghost width: { length columns.items ≡ length program.lower.items },
    pub ghost costed: { length costs.items ≡ length program.lower.items },
    pub ghost transposed: { AreTransposed program.rows.items columns.items costs.items program.objective } by { AreTransposed-prop program.rows.items columns.items costs.items program.objective },
}
