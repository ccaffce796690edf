// What of a file an answer is judged by.
ghost use Rattle.std.specs.Prelude.{◌≡◌, length, map, get_or, IfOk};
ghost use Rattle.linear_program.specs.Intervals.{is_sided};
ghost use Rattle.answer_file.specs.Names.{NamesColumns, NamesRows, setting_by, setting_of, named_setting, column_target, row_target, object_target, only, if_exported, exported_count};

use crate::naming::Naming;
use crate::target::Target;
use mps_model::NameList;
use nl_model::{NlFile, Objects};
use std::alloc::{AllocError, Global};
use std::marker::Model;

/// How columns and rows are named, how many columns a file has, and which of its rows are exported.
#[derive(Drop)]
pub struct Scope {
    naming: Naming,
    columns: u32,
    exported: Vec<bool>,
}

impl Model for Scope {
    ghost use Rattle.std.specs.Prelude.{◌≤◌, ◌^◌, length};
    ghost use Rattle.answer_file.specs.Names.{Setting, NamesColumns, NamesRows};

    ghost Value = { Setting };

    ghost view = { λ s. record {
      naming = s.naming;
      columns = s.columns;
      exported = s.exported.items;
    } };

    ghost invariant = { λ s. (s.columns ≤ 2 ^ 20) × (length s.exported.items ≤ 2 ^ 20)
        × NamesColumns s.naming s.columns × NamesRows s.naming (length s.exported.items) };
}

// Which constraints are exported.
#[tactic(auto, using(crate::proofs::MapLemmas::one_mapped))]
fn exported_of(alloc: Global, file: &NlFile) -> Result<Vec<bool>, AllocError>
    ensures { IfOk result (λ v. v.items ≡ map is_sided file.now.sides) }
{
    let mut exported = Vec::new(alloc);
    'constraints: for con in 0..file.header().counts().n_con {
        exported.push(file.side(con).has_side())?;
    }
    Ok(exported)
}

// The one thing of this name.
fn only(name: &[u8], text: &[u8]) -> Option<Target>
    ensures { result ≡ only name.now text.now }
{
    if text == name {
        return Some(Target::Place(0));
    }
    None
}

impl Scope {
    // What an answer for this file is judged by, with these names.
    fn by(alloc: Global, naming: Naming, file: &NlFile) -> Result<Scope, AllocError>
        requires columns { NamesColumns naming file.now.counts.n_var }
        requires rows { NamesRows naming file.now.counts.n_con }
        ensures { IfOk result (λ s. s ≡ setting_by naming file.now) }
    {
        let exported = exported_of(alloc, file)?;
        Ok(Scope {
            naming,
            columns: file.header().counts().n_var,
            exported,
        })
    }

    /// What an answer for this file is judged by.
    pub fn of(alloc: Global, file: &NlFile) -> Result<Scope, AllocError>
        ensures { IfOk result (λ s. s ≡ setting_of file.now) }
    {
        Scope::by(alloc, Naming::Numbered, file)
    }

    /// What an answer for this file is judged by, with the names of lists.
    pub fn named(
        alloc: Global,
        file: &NlFile,
        rows: NameList,
        columns: NameList,
    ) -> Result<Scope, AllocError>
        requires rows { length rows ≡ file.now.counts.n_con }
        requires columns { length columns ≡ file.now.counts.n_var }
        ensures { IfOk result (λ s. s ≡ named_setting file.now rows columns) }
    {
        Scope::by(alloc, Naming::Listed(rows, columns), file)
    }

    /// How many columns there are.
    pub(crate) fn columns(&self) -> u32
        ensures { result ≡ self.now.columns }
    {
        self.columns
    }

    /// How many rows there are.
    pub(crate) fn rows(&self) -> usize
        ensures { result ≡ length self.now.exported }
    {
        self.exported.len()
    }

    /// How many rows are exported.
    pub(crate) fn exported_count(&self) -> usize
        ensures { result ≡ exported_count self.now }
    {
        self.exported.iter().filter(|e| **e).count()
    }

    // The row of this number, where it is exported.
    fn if_exported(&self, row: u32) -> Option<Target>
        ensures { result ≡ if_exported self.now.exported row }
    {
        match self.exported.get(row as usize) {
            Some(true) => Some(Target::Place(row)),
            _ => None,
        }
    }

    /// The column of this name.
    pub(crate) fn column_target(&self, text: &[u8]) -> Option<Target>
        ensures { result ≡ column_target self.now text.now }
    {
        let count = self.columns;
        if text == self.naming.tied_column() {
            return Some(Target::Tied);
        }
        match self.naming.column(text, count) {
            Some(column) => Some(Target::Place(column)),
            None => None,
        }
    }

    /// The row of this name.
    pub(crate) fn row_target(&self, text: &[u8]) -> Option<Target>
        ensures { result ≡ row_target self.now text.now }
    {
        let count = self.exported.len() as u32;
        if text == self.naming.tied_row() {
            return Some(Target::Tied);
        }
        match self.naming.row(text, count) {
            Some(row) => self.if_exported(row),
            None => None,
        }
    }

    /// The object of this name of a suffix for such objects.
    pub(crate) fn object_target(&self, objects: Objects, text: &[u8]) -> Option<Target>
        ensures { result ≡ object_target self.now objects text.now }
    {
        match objects {
            Objects::Variables => self.column_target(text),
            Objects::Constraints => self.row_target(text),
            Objects::Objectives => only(b"obj".as_slice(), text),
            Objects::Problem => only(b"problem".as_slice(), text),
        }
    }
}
