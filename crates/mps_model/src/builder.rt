// How a program is built.
ghost use Rattle.std.specs.Prelude.{◌≡◌, ◌++◌, ◌∷◌, [], OnOk, OnErr, map};
ghost use Rattle.mps_model.specs.Built.{CanAddRow, CanAddColumn, CanAddEntries, CanAddEntry, CanAddRhs, CanAddRange, CanAddBound, entry_of, with_entry_last, or_empty};
ghost use Rattle.mps_model.specs.Valid.{IsPartOfMps, IsComplete};
ghost use Rattle.exact_numbers.specs.Values.{dec_value};

use crate::kinds::{BoundKind, RowKind};
use crate::parts::{MpsColumn, MpsRow};
use crate::program::Mps;
use exact_numbers::Dec;
use std::alloc::{AllocError, Global};
use std::marker::Model;
use text_base::Name;

/// A program that is being built, in file order.
#[derive(Drop)]
pub struct MpsBuilder {
    alloc: Global,
    name: Option<Name>,
    maximise: bool,
    rows: Vec<MpsRow>,
    columns: Vec<MpsColumn>,
    rhs: Vec<(u32, Dec)>,
    ranges: Vec<(u32, Dec)>,
    bounds: Vec<(BoundKind, u32, Dec)>,
}

impl Model for MpsBuilder {
    ghost use Rattle.mps_model.specs.Mps.{Mps as MpsValue};
    ghost use Rattle.mps_model.specs.Built.{mps_of};
    ghost use Rattle.mps_model.specs.Valid.{IsPartOfMps};
    ghost use Rattle.exact_numbers.specs.declared.dec.Dec.{Dec as DecValue};
    ghost use Rattle.exact_numbers.specs.Values.{dec_value};

    ghost Value = { MpsValue DecValue };

    ghost view = { λ m. mps_of m.name m.maximise m.rows.items m.columns.items m.rhs.items
        m.ranges.items m.bounds.items };

    ghost invariant = { λ m. IsPartOfMps dec_value
        (mps_of m.name m.maximise m.rows.items m.columns.items m.rhs.items m.ranges.items
        m.bounds.items) };
}

impl MpsBuilder {
    /// A program without rows and columns.
    pub fn new(alloc: Global, name: Option<Name>, maximise: bool) -> MpsBuilder
        ensures { result ≡ record {
          name = or_empty name;
          maximise = maximise;
          rows = [];
          columns = [];
          rhs = [];
          ranges = [];
          bounds = [];
        } }
    {
        if let Some(text) = &name {
            let _bytes = text.bytes();
        }
        MpsBuilder {
            alloc,
            name,
            maximise,
            rows: Vec::new(alloc),
            columns: Vec::new(alloc),
            rhs: Vec::new(alloc),
            ranges: Vec::new(alloc),
            bounds: Vec::new(alloc),
        }
    }

    /// Makes room for so many rows, each with its right side, and columns and bounds more.
    pub fn make_room(
        &mut self,
        rows: usize,
        columns: usize,
        bounds: usize,
    ) -> Result<(), AllocError>
        ensures { self.new ≡ self.old }
    {
        self.rows.reserve_exact(rows)?;
        self.rhs.reserve_exact(rows)?;
        self.columns.reserve_exact(columns)?;
        self.bounds.reserve_exact(bounds)
    }

    /// Sets whether the objective is maximised.
    pub fn set_maximise(&mut self, maximise: bool)
        ensures { self.new ≡ record self.old { maximise = maximise } }
    {
        self.maximise = maximise;
    }

    /// Adds a row.
    pub fn add_row(&mut self, name: Name, kind: RowKind) -> Result<(), AllocError>
        requires { CanAddRow self.old name }
        ensures ok { OnOk result (self.new ≡ record self.old {
          rows = self.old.rows ++ record { name = name; kind = kind } ∷ [];
        }) }
        ensures err { OnErr result (self.new ≡ self.old) }
    {
        let _bytes = name.bytes();
        self.rows.push(MpsRow { name, kind })?;
        Ok(())
    }

    /// Adds a column without entries.
    pub fn add_col(&mut self, name: Name, marked: bool) -> Result<(), AllocError>
        requires { CanAddColumn self.old name }
        ensures ok { OnOk result (self.new ≡ record self.old {
          columns = self.old.columns ++ record { name = name; marked = marked; entries = [] } ∷ [];
        }) }
        ensures err { OnErr result (self.new ≡ self.old) }
    {
        let _bytes = name.bytes();
        let column = MpsColumn::new(self.alloc, name, marked);
        self.columns.push(column)?;
        Ok(())
    }

    /// Adds a column with these entries.
    pub fn add_column(
        &mut self,
        name: Name,
        marked: bool,
        entries: Vec<(u32, Dec)>,
    ) -> Result<(), AllocError>
        requires column { CanAddColumn self.old name }
        requires entries { CanAddEntries self.old entries.items }
        ensures ok { OnOk result (self.new ≡ record self.old {
          columns = self.old.columns
              ++ record { name = name; marked = marked; entries = map entry_of entries.items } ∷ [];
        }) }
        ensures err { OnErr result (self.new ≡ self.old) }
    {
        let _bytes = name.bytes();
        let column = MpsColumn::of(name, marked, entries);
        self.columns.push(column)?;
        Ok(())
    }

    /// Adds an entry to the last column.
    pub fn add_entry(&mut self, row: u32, value: Dec) -> Result<(), AllocError>
        requires { CanAddEntry self.old row }
        ensures ok { OnOk result (self.new ≡ record self.old {
          columns = with_entry_last (record { row = row; value = value }) self.old.columns;
        }) }
        ensures err { OnErr result (self.new ≡ self.old) }
    {
        let last = self.columns.len() - 1;
        let column = &mut self.columns[last];
        column.push(row, value)?;
        Ok(())
    }

    /// Adds the right side of a row.
    pub fn add_rhs(&mut self, row: u32, value: Dec) -> Result<(), AllocError>
        requires { CanAddRhs self.old row }
        ensures ok { OnOk result (self.new ≡ record self.old {
          rhs = self.old.rhs ++ record { row = row; value = value } ∷ [];
        }) }
        ensures err { OnErr result (self.new ≡ self.old) }
    {
        self.rhs.push((row, value))?;
        Ok(())
    }

    /// Adds the range of a row.
    pub fn add_range(&mut self, row: u32, value: Dec) -> Result<(), AllocError>
        requires { CanAddRange self.old row }
        ensures ok { OnOk result (self.new ≡ record self.old {
          ranges = self.old.ranges ++ record { row = row; value = value } ∷ [];
        }) }
        ensures err { OnErr result (self.new ≡ self.old) }
    {
        self.ranges.push((row, value))?;
        Ok(())
    }

    /// Adds a bound of a column; FR, MI, PL and BV have the value 0.
    pub fn add_bound(&mut self, kind: BoundKind, col: u32, value: Dec) -> Result<(), AllocError>
        requires { CanAddBound self.old kind col value }
        ensures ok { OnOk result (self.new ≡ record self.old {
          bounds = self.old.bounds ++ record { kind = kind; column = col; value = value } ∷ [];
        }) }
        ensures err { OnErr result (self.new ≡ self.old) }
    {
        self.bounds.push((kind, col, value))?;
        Ok(())
    }

    /// The program, which has an N row and an entry in each column.
    pub fn finish(self) -> Mps
        requires { IsComplete self }
        ensures { result ≡ self }
    {
        Mps {
            name: self.name,
            maximise: self.maximise,
            rows: self.rows,
            columns: self.columns,
            rhs: self.rhs,
            ranges: self.ranges,
            bounds: self.bounds,
        }
    }
}
