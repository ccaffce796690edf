// A whole program.
ghost use Rattle.std.specs.Prelude.{◌≡◌, ◌++◌, ◌∷◌, [], MatchOption, map};
ghost use Rattle.mps_model.specs.Built.{entry_of, bound_of};
ghost use Rattle.mps_model.specs.Valid.{IsMps};
ghost use Rattle.exact_numbers.specs.Values.{dec_value};

use crate::kinds::BoundKind;
use crate::parts::{MpsColumn, MpsRow};
use exact_numbers::Dec;
use std::marker::Model;
use text_base::Name;

/// An MPS program; its lists are in file order.
#[derive(Drop)]
pub struct Mps {
    pub(crate) name: Option<Name>,
    pub(crate) maximise: bool,
    pub(crate) rows: Vec<MpsRow>,
    pub(crate) columns: Vec<MpsColumn>,
    pub(crate) rhs: Vec<(u32, Dec)>,
    pub(crate) ranges: Vec<(u32, Dec)>,
    pub(crate) bounds: Vec<(BoundKind, u32, Dec)>,
}

impl Model for Mps {
    ghost use Rattle.mps_model.specs.Mps.{Mps as MpsValue};
    ghost use Rattle.mps_model.specs.Built.{mps_of};
    ghost use Rattle.mps_model.specs.Valid.{IsMps};
    ghost use Rattle.exact_numbers.specs.declared.dec.Dec.{Dec as DecValue};
    ghost use Rattle.exact_numbers.specs.Values.{dec_value};

    ghost Value = { MpsValue DecValue };

    ghost view = { λ m. mps_of m.name m.maximise m.rows.items m.columns.items m.rhs.items
        m.ranges.items m.bounds.items };

    ghost invariant = { λ m. IsMps dec_value
        (mps_of m.name m.maximise m.rows.items m.columns.items m.rhs.items m.ranges.items
        m.bounds.items) };
}

impl Mps {
    /// The name, which may be empty.
    pub fn name(&self) -> Option<&Name>
        ensures { MatchOption result (self.now.name ≡ []) (λ name. name.now ≡ self.now.name) }
    {
        self.name.as_ref()
    }

    /// Whether the objective is maximised, not minimised.
    pub fn maximise(&self) -> bool
        ensures { result ≡ self.now.maximise }
    {
        self.maximise
    }

    /// The rows.
    pub fn rows(&self) -> &[MpsRow]
        ensures value { result.now ≡ self.now.rows }
        ensures valid { IsMps dec_value self.now }
    {
        &self.rows
    }

    /// The columns.
    pub fn columns(&self) -> &[MpsColumn]
        ensures value { result.now ≡ self.now.columns }
        ensures valid { IsMps dec_value self.now }
    {
        &self.columns
    }

    /// Rows and their right sides.
    pub fn rhs(&self) -> &[(u32, Dec)]
        ensures value { map entry_of result.now ≡ self.now.rhs }
        ensures valid { IsMps dec_value self.now }
    {
        &self.rhs
    }

    /// Rows and their ranges.
    pub fn ranges(&self) -> &[(u32, Dec)]
        ensures value { map entry_of result.now ≡ self.now.ranges }
        ensures valid { IsMps dec_value self.now }
    {
        &self.ranges
    }

    /// Kinds, columns and values of the bounds.
    pub fn bounds(&self) -> &[(BoundKind, u32, Dec)]
        ensures value { map bound_of result.now ≡ self.now.bounds }
        ensures valid { IsMps dec_value self.now }
    {
        &self.bounds
    }
}
