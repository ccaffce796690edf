// Rows and an objective times their factors.
ghost use Rattle.std.specs.Prelude.{◌≡◌, IfOk};
ghost use Rattle.row_scaling.specs.Rows.{unboxed};

use exact_numbers::Dec;
use linear_program::{Interval, Terms};
use std::alloc::{AllocError, Global};
use std::marker::Model;

/// A row times its factor: its coefficients, and its sides less the body's constant.
#[derive(Drop)]
pub struct ScaledRow {
    pub terms: Terms,
    pub side: Interval,
    // The upper side less the lower one, where both are there and differ: few rows have it.
    range: Option<Box<Dec>>,
}

impl Model for ScaledRow {
    ghost use Rattle.row_scaling.specs.Rows.{RowValue, IsScaledRow, unboxed};

    ghost Value = { RowValue };

    ghost view = { λ r. record {
      terms = r.terms;
      side = r.side;
      range = unboxed r.range;
    } };

    ghost invariant = { λ r. IsScaledRow (record {
      terms = r.terms;
      side = r.side;
      range = unboxed r.range;
    }) };
}

// A number that may be missing, in a box.
fn boxed(alloc: Global, number: Option<Dec>) -> Result<Option<Box<Dec>>, AllocError>
    ensures { IfOk result (λ b. unboxed b ≡ number) }
{
    match number {
        Some(number) => {
            let number = Box::new(alloc, number)?;
            Ok(Some(number))
        }
        None => Ok(None),
    }
}

impl ScaledRow {
    ghost use Rattle.row_scaling.specs.Rows.{RowValue, IsScaledRow};

    /// The row of these coefficients and sides. `range` is the upper side less the lower one, where
    /// both are there and differ.
    pub(crate) fn new(
        alloc: Global,
        terms: Terms,
        side: Interval,
        range: Option<Dec>,
    ) -> Result<ScaledRow, AllocError>
        requires { IsScaledRow (record { terms = terms; side = side; range = range }) }
        ensures { IfOk result (λ r. r ≡ record { terms = terms; side = side; range = range }) }
    {
        let range = boxed(alloc, range)?;
        Ok(ScaledRow { terms, side, range })
    }

    /// The upper side less the lower one, where both are there and differ.
    pub fn range(&self) -> Option<Dec>
        ensures value { result ≡ self.now.range }
        ensures row { IsScaledRow self.now }
    {
        match &self.range {
            Some(range) => Some(**range),
            None => None,
        }
    }
}

/// A row, and the factor that it was multiplied by.
#[derive(Drop)]
pub struct FactoredRow {
    pub factor: i128,
    pub row: ScaledRow,
}

/// An objective: its constant, and its coefficients, ascending and without zeros; times its factor
/// where it is tied.
#[derive(Drop)]
pub struct ScaledObjective {
    pub constant: Dec,
    pub terms: Terms,
}

/// What ties an objective to a column: the objective's factor, and the column's coefficient, which
/// is minus the factor.
#[derive(Clone, Copy)]
pub struct Tie {
    pub factor: i128,
    pub weight: Dec,
}
