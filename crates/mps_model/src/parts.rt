// Rows and columns of a program.
ghost use Rattle.std.specs.Prelude.{◌≡◌, ◌++◌, ◌∷◌, [], OnOk, OnErr, map};
ghost use Rattle.mps_model.specs.Built.{entry_of};
ghost use Rattle.text_base.specs.Names.{IsName};

use crate::kinds::RowKind;
use exact_numbers::Dec;
use std::alloc::{AllocError, Global};
use std::marker::Model;
use text_base::Name;

/// A row of a program.
#[derive(Drop)]
pub struct MpsRow {
    pub name: Name,
    pub kind: RowKind,
}

impl Model for MpsRow {
    ghost use Rattle.mps_model.specs.Mps.{MpsRow as RowValue};

    ghost Value = { RowValue };

    ghost view = { λ r. record { name = r.name; kind = r.kind } };
}

/// A column of a program: its entries are rows and values.
#[derive(Drop)]
pub struct MpsColumn {
    name: Name,
    marked: bool,
    entries: Vec<(u32, Dec)>,
}

impl Model for MpsColumn {
    ghost use Rattle.std.specs.Prelude.{map};
    ghost use Rattle.mps_model.specs.Mps.{Column};
    ghost use Rattle.mps_model.specs.Built.{entry_of};
    ghost use Rattle.exact_numbers.specs.declared.dec.Dec.{Dec as DecValue};

    ghost Value = { Column DecValue };

    ghost view = { λ c. record {
      name = c.name;
      marked = c.marked;
      entries = map entry_of c.entries.items;
    } };
}

impl MpsColumn {
    /// A column without entries.
    pub(crate) fn new(alloc: Global, name: Name, marked: bool) -> MpsColumn
        ensures { result ≡ record { name = name; marked = marked; entries = [] } }
    {
        MpsColumn {
            name,
            marked,
            entries: Vec::new(alloc),
        }
    }

    /// A column with these entries.
    pub(crate) fn of(name: Name, marked: bool, entries: Vec<(u32, Dec)>) -> MpsColumn
        ensures { result ≡ record {
          name = name;
          marked = marked;
          entries = map entry_of entries.items;
        } }
    {
        MpsColumn {
            name,
            marked,
            entries,
        }
    }

    /// The column's name.
    pub fn name(&self) -> &Name
        ensures { result.now ≡ self.now.name }
    {
        &self.name
    }

    /// Whether it stands in a marked stretch, whose columns are whole.
    pub fn marked(&self) -> bool
        ensures { result ≡ self.now.marked }
    {
        self.marked
    }

    /// Rows and values, in file order.
    pub fn entries(&self) -> &[(u32, Dec)]
        ensures { map entry_of result.now ≡ self.now.entries }
    {
        &self.entries
    }

    pub(crate) fn push(&mut self, row: u32, value: Dec) -> Result<(), AllocError>
        ensures ok { OnOk result (self.new ≡ record self.old {
          entries = self.old.entries ++ record { row = row; value = value } ∷ [];
        }) }
        ensures err { OnErr result (self.new ≡ self.old) }
    {
        self.entries.push((row, value))?;
        Ok(())
    }
}
