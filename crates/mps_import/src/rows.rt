// What the rows of a program become.
ghost use Rattle.std.specs.Prelude.{◌≡◌, ◌≤◌, ◌<◌, ◌^◌, cond, IfOk, length};
ghost use Rattle.mps_model.specs.Mps.{objective_row};
ghost use Rattle.mps_program.specs.Program.{constraints, is_bounded_kind};
ghost use Rattle.mps_program.specs.Places.{listed};
ghost use Rattle.mps_import.specs.InsideUses.{rank, use_of};
ghost use Rattle.mps_import.specs.declared.rows.RowUse.TheVariants.{Constraint, Objective, Unused};

use mps_model::MpsRow;
use mps_program::{is_bounded_kind, objective_row, with_one};
use std::alloc::{AllocError, Global};

// What a row of a program is in the file.
#[derive(Clone, Copy)]
pub(crate) enum RowUse {
    Unused,
    Objective,
    Constraint(u32),
}

// What all rows are, how many are constraints, and the objective's row.
#[derive(Drop)]
pub(crate) struct Rows {
    pub(crate) uses: Vec<RowUse>,
    pub(crate) constraints: u32,
    pub(crate) objective: usize,
}

fn row_use(is_constraint: bool, rank: u32, is_objective: bool) -> RowUse
    ensures { result ≡ cond is_constraint (Constraint rank) (cond is_objective Objective Unused) }
{
    if is_constraint {
        return RowUse::Constraint(rank);
    }
    if is_objective {
        RowUse::Objective
    } else {
        RowUse::Unused
    }
}

// What each row becomes: the first N row is the objective.
#[tactic(auto, unfolding(mps_program::specs::Places::places, mps_program::specs::Places::listed))]
pub(crate) fn row_uses(alloc: Global, rows: &[MpsRow]) -> Result<Rows, AllocError>
    requires { length rows.now ≤ 2 ^ 21 }
    ensures uses { IfOk result (λ r. r.uses.items ≡ listed (use_of rows.now) (length rows.now)) }
    ensures constraints { IfOk result (λ r. r.constraints ≡ rank rows.now (length rows.now)) }
    ensures objective { IfOk result (λ r. r.objective ≡ objective_row rows.now) }
{
    let objective = objective_row(rows);
    let mut uses = Vec::with_capacity(alloc, rows.len())?;
    let mut count: u32 = 0;
    'rows: for i in 0..rows.len() {
        let row = &rows[i];
        let is_constraint = is_bounded_kind(row.kind);
        let next = row_use(is_constraint, count, i == objective);
        uses.push(next)?;
        count = with_one(count, is_constraint);
    }
    Ok(Rows {
        uses,
        constraints: count,
        objective,
    })
}
