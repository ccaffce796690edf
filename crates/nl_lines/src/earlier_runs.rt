// Runs of lines before the last one.
ghost use Rattle.std.specs.Prelude.{◌≡◌, ◌++◌, ◌∷◌, [], Some, OnErr, OnOk, slice_get};
ghost use Rattle.nl_lines.specs.InsideLineRuns.{lines_in, run_lines};

use crate::line_runs::{LineRun, line_at, line_in};
use std::alloc::{AllocError, Global};
use std::marker::Model;

/// The first run, and those behind it.
#[derive(Drop)]
pub struct FirstRuns {
    first: LineRun,
    more: Vec<LineRun>,
}

/// Runs of lines, in a box, since few owners of lines have more than one run.
#[derive(Drop)]
pub struct EarlierRuns {
    alloc: Global,
    runs: Option<Box<FirstRuns>>,
}

impl Model for EarlierRuns {
    ghost use Rattle.std.specs.Prelude.{List};
    ghost use Rattle.nl_lines.specs.declared.line_runs.LineRun.{LineRun as RunValue};
    ghost use Rattle.nl_lines.specs.InsideEarlierRuns.{boxed_runs};

    ghost Value = { List RunValue };

    ghost view = { λ e. boxed_runs e.runs };
}

// The line at a place, where these runs follow one another.
fn line_among(first: LineRun, more: &[LineRun], last: LineRun, place: u32) -> Option<u32>
    ensures { result ≡ slice_get (run_lines (first ∷ more.now) ++ lines_in last) place }
{
    match line_in(first, place) {
        Ok(line) => Some(line),
        Err(left) => line_at(more, last, left),
    }
}

impl EarlierRuns {
    /// No runs.
    pub(crate) fn new(alloc: Global) -> EarlierRuns
        ensures { result ≡ [] }
    {
        EarlierRuns { alloc, runs: None }
    }

    /// Takes all runs away.
    pub(crate) fn clear(&mut self)
        ensures { self.new ≡ [] }
    {
        if self.runs.is_some() {
            self.runs = None;
        }
    }

    // Adds the first run.
    fn begin(&mut self, run: LineRun) -> Result<(), AllocError>
        ensures ok { OnOk result (self.new ≡ run ∷ []) }
        ensures err { OnErr result (self.new ≡ self.old) }
    {
        let runs = FirstRuns {
            first: run,
            more: Vec::new(self.alloc),
        };
        let runs = Box::new(self.alloc, runs)?;
        self.runs = Some(runs);
        Ok(())
    }

    /// Adds a run.
    pub(crate) fn push(&mut self, run: LineRun) -> Result<(), AllocError>
        ensures ok { OnOk result (self.new ≡ self.old ++ run ∷ []) }
        ensures err { OnErr result (self.new ≡ self.old) }
    {
        match &mut self.runs {
            Some(runs) => {
                runs.more.push(run)?;
                Ok(())
            }
            None => self.begin(run),
        }
    }

    /// The line at a place, where one more run follows.
    pub(crate) fn line_at(&self, last: LineRun, place: u32) -> Option<u32>
        ensures { result ≡ slice_get (run_lines self.now ++ lines_in last) place }
    {
        match &self.runs {
            Some(runs) => line_among(runs.first, &runs.more, last, place),
            None => line_at(&[], last, place),
        }
    }
}
