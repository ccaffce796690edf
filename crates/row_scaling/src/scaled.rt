// A linear program whose rows are multiplied by their factors.
ghost use Rattle.std.specs.Prelude.{◌≡◌, ◌++◌, ◌<◌, length, slice_get, IfOk, Some};
ghost use Rattle.std.specs.Option.{option_copied, option_map};

use crate::row::{FactoredRow, ScaledObjective, ScaledRow, Tie};
use crate::tied::{Parts, all_parts};
use linear_program::{Interval, Kind};
use std::alloc::{AllocError, Global};
use std::marker::Model;

/// Scaled rows by constraint, an objective, and bounds and kinds by variable.
#[derive(Drop)]
pub struct Scaled {
    parts: Parts,
}

impl Model for Scaled {
    ghost use Rattle.row_scaling.specs.Scaled.{ScaledValue};
    ghost use Rattle.row_scaling.specs.InsideParts.{AreKept, value_of};

    ghost Value = { ScaledValue };

    ghost view = { λ s. value_of s.parts };

    ghost invariant = { λ s. AreKept s.parts (value_of s.parts) };
}

impl Scaled {
    ghost use Rattle.row_scaling.specs.Scaled.{IsScaled, row_at, objective_factor};
    ghost use Rattle.row_scaling.specs.Parts.{AreProgramRows, IsProgramObjective, column_count, tied_bounds, tied_kinds};

    /// The scaled program of these parts: rows by constraint, none where one is not exported;
    /// bounds and kinds by variable.
    pub(crate) fn new(
        alloc: Global,
        rows: Vec<Option<FactoredRow>>,
        objective: ScaledObjective,
        tie: Option<Tie>,
        maximise: bool,
        bounds: Vec<Interval>,
        kinds: Vec<Kind>,
    ) -> Result<Scaled, AllocError>
        requires { IsScaled (record {
          rows = rows.items;
          objective = objective;
          tie = tie;
          maximise = maximise;
          bounds = bounds.items;
          kinds = kinds.items;
        }) }
        ensures { IfOk result (λ s. s ≡ record {
          rows = rows.items;
          objective = objective;
          tie = tie;
          maximise = maximise;
          bounds = bounds.items;
          kinds = kinds.items;
        }) }
    {
        let parts = all_parts(alloc, rows, objective, tie, maximise, bounds, kinds)?;
        Ok(Scaled { parts })
    }

    /// The factor of constraint `con`. None exactly where it is not exported.
    pub fn factor(&self, con: u32) -> Option<i128>
        ensures { result ≡ option_map (λ r. r.factor) (row_at self.now con) }
    {
        match self.rows().get(con as usize) {
            Some(Some(row)) => Some(row.factor),
            _ => None,
        }
    }

    /// The scaled row of constraint `con`. None exactly where it is not exported.
    pub fn row(&self, con: u32) -> Option<&ScaledRow>
        ensures { option_copied result ≡ option_map (λ r. r.row) (row_at self.now con) }
    {
        match self.rows().get(con as usize) {
            Some(Some(row)) => Some(&row.row),
            _ => None,
        }
    }

    /// The objective, times its factor where it is tied.
    pub fn objective(&self) -> &ScaledObjective
        ensures value { result.now ≡ self.now.objective }
        ensures scaled { IsScaled self.now }
    {
        &self.parts.objective
    }

    /// The factor of the objective. None exactly where it is not tied to a column of its own.
    pub fn objective_factor(&self) -> Option<i128>
        ensures { result ≡ objective_factor self.now }
    {
        match self.parts.tie {
            Some(tie) => Some(tie.factor),
            None => None,
        }
    }

    /// The rows by constraint, none where one is not exported.
    pub fn rows(&self) -> &[Option<FactoredRow>]
        ensures value { result.now ≡ self.now.rows }
        ensures scaled { IsScaled self.now }
    {
        &self.parts.rows[..self.parts.constraints]
    }

    /// The bounds by variable.
    pub fn bounds(&self) -> &[Interval]
        ensures value { result.now ≡ self.now.bounds }
        ensures scaled { IsScaled self.now }
    {
        &self.parts.bounds[..self.parts.variables]
    }

    /// The kinds by variable.
    pub fn kinds(&self) -> &[Kind]
        ensures value { result.now ≡ self.now.kinds }
        ensures scaled { IsScaled self.now }
    {
        &self.parts.kinds[..self.parts.variables]
    }

    /// Whether the objective is maximised.
    pub fn maximise(&self) -> bool
        ensures value { result ≡ self.now.maximise }
        ensures scaled { IsScaled self.now }
    {
        self.parts.maximise
    }

    /// The bounds of variable `var`.
    pub fn bound(&self, var: u32) -> Interval
        requires { var < length self.now.bounds }
        ensures { slice_get self.now.bounds var ≡ Some result }
    {
        self.bounds()[var as usize]
    }

    /// The kind of variable `var`.
    pub fn kind(&self, var: u32) -> Kind
        requires { var < length self.now.kinds }
        ensures { slice_get self.now.kinds var ≡ Some result }
    {
        self.kinds()[var as usize]
    }

    /// How many constraints there are: the row after theirs is that of a tie.
    #[inline]
    pub fn constraints(&self) -> usize
        ensures value { result ≡ length self.now.rows }
        ensures scaled { IsScaled self.now }
    {
        self.parts.constraints
    }

    /// How many variables there are: the column after theirs is that of a tie.
    #[inline]
    pub fn variables(&self) -> usize
        ensures value { result ≡ length self.now.bounds }
        ensures scaled { IsScaled self.now }
    {
        self.parts.variables
    }

    /// The rows of the program by constraint, and then the row of a tie.
    pub fn program_rows(&self) -> &[Option<FactoredRow>]
        ensures rows { AreProgramRows self.now result.now }
        ensures scaled { IsScaled self.now }
    {
        &self.parts.rows
    }

    /// The objective of the program: where it is tied, its column alone.
    pub fn program_objective(&self) -> &ScaledObjective
        ensures { IsProgramObjective self.now result.now }
    {
        match &self.parts.column {
            Some(column) => column,
            None => &self.parts.objective,
        }
    }

    /// The bounds by column of the program.
    pub fn program_bounds(&self) -> &[Interval]
        ensures value { result.now ≡ self.now.bounds ++ tied_bounds self.now.tie }
        ensures count { length result.now ≡ column_count self.now }
        ensures scaled { IsScaled self.now }
    {
        &self.parts.bounds
    }

    /// The kinds by column of the program.
    pub fn program_kinds(&self) -> &[Kind]
        ensures value { result.now ≡ self.now.kinds ++ tied_kinds self.now.tie }
        ensures count { length result.now ≡ column_count self.now }
        ensures scaled { IsScaled self.now }
    {
        &self.parts.kinds
    }

    /// The same rows as `program_rows`, where all else is let go.
    pub fn into_program_rows(self) -> Vec<Option<FactoredRow>>
        ensures rows { AreProgramRows self result.items }
        ensures scaled { IsScaled self }
    {
        let parts = self.parts;
        parts.rows
    }
}
