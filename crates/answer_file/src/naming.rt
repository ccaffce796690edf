// How an answer names columns and rows.
ghost use Rattle.std.specs.Prelude.{◌≡◌, ◌≤◌, ◌^◌};
ghost use Rattle.answer_file.specs.Names.{NamesColumns, NamesRows, column_name, row_name, tied_column, tied_row};
ghost use Rattle.mps_model.specs.Names.{index_named};

use mps_model::{NameList, numbered};

/// By a letter and the number, or by the names of two lists: of rows and of columns.
#[derive(Drop)]
pub enum Naming {
    Numbered,
    Listed(NameList, NameList),
}

impl Naming {
    /// The name of the column that ties the objective.
    pub(crate) fn tied_column(&self) -> &[u8]
        ensures { result.now ≡ tied_column self.now }
    {
        match self {
            Naming::Numbered => b"z".as_slice(),
            Naming::Listed(..) => b"@z".as_slice(),
        }
    }

    /// The name of the row that ties the objective.
    pub(crate) fn tied_row(&self) -> &[u8]
        ensures { result.now ≡ tied_row self.now }
    {
        match self {
            Naming::Numbered => b"zdef".as_slice(),
            Naming::Listed(..) => b"@zdef".as_slice(),
        }
    }

    /// The number of the column of this name, of so many columns.
    pub(crate) fn column(&self, text: &[u8], count: u32) -> Option<u32>
        requires few { count ≤ 2 ^ 31 }
        requires named { NamesColumns self.now count }
        ensures { result ≡ index_named (column_name self.now) count text.now }
    {
        match self {
            Naming::Numbered => numbered(b'x', text, count),
            Naming::Listed(_, columns) => columns.find(text),
        }
    }

    /// The number of the row of this name, of so many rows.
    pub(crate) fn row(&self, text: &[u8], count: u32) -> Option<u32>
        requires few { count ≤ 2 ^ 31 }
        requires named { NamesRows self.now count }
        ensures { result ≡ index_named (row_name self.now) count text.now }
    {
        match self {
            Naming::Numbered => numbered(b'c', text, count),
            Naming::Listed(rows, _) => rows.find(text),
        }
    }
}
