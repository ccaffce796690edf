// Making and reading linear programs by rows, and by columns.
ghost use Rattle.std.specs.Prelude.{◌≡◌, ◌<◌, IfOk};
ghost use Rattle.linear_program.specs.Linear.{variable_at, variable_count};
ghost use Rattle.certificates.specs.Points.{bounds_of};
ghost use Rattle.linear_program.specs.Linear.{row_count};
ghost use Rattle.linear_program.specs.Intervals.{interval_of, is_whole_kind};
ghost use Rattle.linear_program.specs.Programs.{linear_value};
ghost use Rattle.exact_checks.specs.Programs.{program_value, program_of};

use crate::columns::Columns;
use crate::copies::{
    body_from, body_of, copied_kinds, lower_sides, rows_from, rows_of, upper_sides,
};
use crate::form::{Body, Row};
use crate::program::Program;
use crate::sides::interval_at;
use crate::transpose::{by_column, costs_of};
use linear_program::{Interval, Kind, Linear};
use std::alloc::{AllocError, Global};

fn is_whole_kind(kind: Kind) -> bool
    ensures { result ≡ is_whole_kind kind }
{
    match kind {
        Kind::Continuous => false,
        Kind::Binary | Kind::Integer => true,
    }
}

impl Program {
    /// The linear program, by rows.
    #[tactic(auto, using(crate::proofs::Assembled::assembled), unfolding(crate::specs::Programs::program_value))]
    pub fn of(alloc: Global, linear: &Linear) -> Result<Program, AllocError>
        ensures { IfOk result (λ p. program_value p ≡ linear_value linear.now) }
    {
        let bounds = linear.bounds();
        let form = linear.objective();
        let objective = body_of(alloc, form)?;
        let rows = rows_of(alloc, linear)?;
        let lower = lower_sides(alloc, bounds)?;
        let upper = upper_sides(alloc, bounds)?;
        let kinds = copied_kinds(alloc, linear.kinds())?;
        Ok(Program {
            rows,
            lower,
            upper,
            kinds,
            objective,
            maximise: linear.maximise(),
        })
    }

    /// The linear program, by rows, where it is let go: its coefficients are not copied.
    #[tactic(auto, using(crate::proofs::Assembled::assembled), unfolding(crate::specs::Programs::program_value))]
    pub fn from_linear(alloc: Global, linear: Linear) -> Result<Program, AllocError>
        ensures { IfOk result (λ p. program_value p ≡ linear_value linear) }
    {
        let parts = linear.into_parts();
        let objective = body_from(alloc, parts.objective)?;
        let rows = rows_from(alloc, parts.bodies, &parts.sides, &parts.bounds)?;
        let lower = lower_sides(alloc, &parts.bounds)?;
        let upper = upper_sides(alloc, &parts.bounds)?;
        Ok(Program {
            rows,
            lower,
            upper,
            kinds: parts.kinds,
            objective,
            maximise: parts.maximise,
        })
    }

    /// The number of variables.
    #[tactic(auto, using(crate::proofs::Rows::variables_counted))]
    pub fn n_var(&self) -> u32
        ensures { result ≡ variable_count (program_value self.now) }
    {
        self.lower.len() as u32
    }

    /// The number of constraints.
    #[tactic(auto, using(crate::proofs::Rows::rows_counted))]
    pub fn n_con(&self) -> u32
        ensures { result ≡ row_count (program_value self.now) }
    {
        self.rows.len() as u32
    }

    /// The bounds of a variable.
    #[tactic(auto, using(crate::proofs::Rows::variables_counted))]
    pub fn bound(&self, var: u32) -> Interval
        requires { var < variable_count (program_value self.now) }
        ensures { interval_of result ≡ bounds_of (program_value self.now) var }
    {
        interval_at(&self.lower, &self.upper, var as usize)
    }

    /// Whether a variable is to be whole.
    pub fn is_whole(&self, var: u32) -> bool
        requires { var < variable_count (program_value self.now) }
        ensures { result ≡ (variable_at (program_value self.now) var).whole }
    {
        match self.kinds.get(var as usize) {
            Some(kind) => is_whole_kind(*kind),
            None => false,
        }
    }

    /// The constraints, in order.
    pub fn rows(&self) -> &[Row]
        ensures { result.now ≡ self.now.rows.items }
    {
        &self.rows
    }

    /// The objective.
    pub fn objective(&self) -> &Body
        ensures { result.now ≡ self.now.objective }
    {
        &self.objective
    }

    /// Whether the objective is maximised.
    #[tactic(auto, unfolding(crate::specs::Programs::program_value))]
    pub fn maximise(&self) -> bool
        ensures { result ≡ (program_value self.now).maximise }
    {
        self.maximise
    }
}

impl Columns {
    /// The linear program, by rows and by columns.
    #[tactic(auto)]
    pub fn of(alloc: Global, linear: &Linear) -> Result<Columns, AllocError>
        ensures { IfOk result (λ c. program_of c ≡ linear_value linear.now) }
    {
        let program = Program::of(alloc, linear)?;
        Columns::by_rows(alloc, program)
    }

    /// The same of one that is let go.
    #[tactic(auto)]
    pub fn from_linear(alloc: Global, linear: Linear) -> Result<Columns, AllocError>
        ensures { IfOk result (λ c. program_of c ≡ linear_value linear) }
    {
        let program = Program::from_linear(alloc, linear)?;
        Columns::by_rows(alloc, program)
    }

    // The columns beside the rows.
    #[tactic(auto)]
    fn by_rows(alloc: Global, program: Program) -> Result<Columns, AllocError>
        ensures { IfOk result (λ c. program_of c ≡ program_value program) }
    {
        let count = program.lower.len();
        let columns = by_column(alloc, &program.rows, count)?;
        let costs = costs_of(alloc, &program.objective.terms, count)?;
        Ok(Columns {
            program,
            columns,
            costs,
        })
    }

    /// The linear program by its rows.
    pub fn program(&self) -> &Program
        ensures { result.now ≡ self.now.program }
    {
        &self.program
    }

    /// The number of variables.
    pub fn n_var(&self) -> u32
        ensures { result ≡ variable_count (program_of self.now) }
    {
        self.program.n_var()
    }

    /// The number of constraints.
    pub fn n_con(&self) -> u32
        ensures { result ≡ row_count (program_of self.now) }
    {
        self.program.n_con()
    }

    /// The bounds of a variable.
    pub fn bound(&self, var: u32) -> Interval
        requires { var < variable_count (program_of self.now) }
        ensures { interval_of result ≡ bounds_of (program_of self.now) var }
    {
        self.program.bound(var)
    }

    /// Whether a variable is to be whole.
    pub fn is_whole(&self, var: u32) -> bool
        requires { var < variable_count (program_of self.now) }
        ensures { result ≡ (variable_at (program_of self.now) var).whole }
    {
        self.program.is_whole(var)
    }

    /// The constraints, in order.
    pub fn rows(&self) -> &[Row]
        ensures { result.now ≡ self.now.program.rows.items }
    {
        self.program.rows()
    }

    /// The objective.
    pub fn objective(&self) -> &Body
        ensures { result.now ≡ self.now.program.objective }
    {
        self.program.objective()
    }

    /// Whether the objective is maximised.
    pub fn maximise(&self) -> bool
        ensures { result ≡ (program_of self.now).maximise }
    {
        self.program.maximise()
    }
}
