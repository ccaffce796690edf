// Lines that mostly follow one another.
ghost use Rattle.std.specs.Prelude.{◌≡◌, ◌≤◌, ◌+◌, ◌^◌, ◌++◌, ◌∷◌, List, ℕ, [], true, MatchResult, OnOk, Some, slice_get};
ghost use Rattle.std.specs.List.{range_with_len};
ghost use Rattle.nl_lines.specs.InsideLineRuns.{follows, lines_in, run_lines};

use crate::earlier_runs::EarlierRuns;
use std::alloc::{AllocError, Global};
use std::marker::Model;

/// Lines that follow one another, from the first to the last; none where the last is below the
/// first.
#[derive(Clone, Copy)]
pub struct LineRun {
    first: u32,
    last: u32,
}

/// Lines, as runs of lines that follow one another. The last run stands apart, so that no memory is
/// wanted while it grows.
#[derive(Drop)]
pub struct LineRuns {
    earlier: EarlierRuns,
    last: LineRun,
}

impl Model for LineRuns {
    ghost use Rattle.std.specs.Prelude.{◌≡◌, ◌<◌, ◌++◌, [], List, ℕ};
    ghost use Rattle.nl_lines.specs.InsideLineRuns.{lines_in, run_lines};

    ghost Value = { List ℕ };

    ghost view = { λ l. run_lines l.earlier ++ lines_in l.last };

    // where the last run has no lines, there are none
    ghost invariant = { λ l. l.last.last < l.last.first → l.earlier ≡ [] };
}

// No lines.
fn no_run() -> LineRun
    ensures { result ≡ record { first = 1; last = 0 } }
{
    LineRun { first: 1, last: 0 }
}

/// The line at a place of a run, or the place in what follows the run.
#[tactic(auto, using(crate::proofs::RunLemmas::in_run, crate::proofs::RunLemmas::after_run))]
pub(crate) fn line_in(run: LineRun, place: u32) -> Result<u32, u32>
    ensures { MatchResult result
        (λ line. (rest : List ℕ) → slice_get (lines_in run ++ rest) place ≡ Some line)
        (λ left. (rest : List ℕ) → slice_get (lines_in run ++ rest) place ≡ slice_get rest left) }
{
    if run.first > run.last {
        return Err(place);
    }
    let more = run.last - run.first;
    if place <= more {
        return Ok(run.first + place);
    }
    Err(place - more - 1)
}

/// The line at a place.
pub(crate) fn line_at(earlier: &[LineRun], last: LineRun, place: u32) -> Option<u32>
    ensures { result ≡ slice_get (run_lines earlier.now ++ lines_in last) place }
{
    let mut left = place;
    for run in earlier {
        match line_in(*run, left) {
            Ok(line) => return Some(line),
            Err(next) => left = next,
        }
    }
    match line_in(last, left) {
        Ok(line) => Some(line),
        Err(_) => None,
    }
}

impl LineRuns {
    /// No lines.
    #[tactic(auto, unfolding(crate::specs::InsideLineRuns::run_lines))]
    pub(crate) fn new(alloc: Global) -> LineRuns
        ensures { result ≡ [] }
    {
        LineRuns {
            earlier: EarlierRuns::new(alloc),
            last: no_run(),
        }
    }

    /// Takes all lines away.
    #[tactic(auto, unfolding(crate::specs::InsideLineRuns::run_lines))]
    pub(crate) fn clear(&mut self)
        ensures { self.new ≡ [] }
    {
        self.earlier.clear();
        self.last = no_run();
    }

    /// Whether a line follows these, or is the first.
    #[inline]
    #[tactic(auto, using(crate::proofs::RunLemmas::follows_last, crate::proofs::RunLemmas::just_after, crate::proofs::RunLemmas::none_there, crate::proofs::RunLemmas::not_after))]
    pub(crate) fn follows(&self, line: u32) -> bool
        ensures { result ≡ follows self.now line }
    {
        if self.last.first > self.last.last {
            return true;
        }
        self.last.last < line && line - self.last.last == 1
    }

    /// Adds so many lines that follow these, from this one on.
    #[inline]
    #[tactic(auto, using(crate::proofs::RunLemmas::next_after))]
    pub(crate) fn grow(&mut self, line: u32, count: u32)
        requires next { follows self.old line ≡ true }
        requires room { line + count ≤ 2 ^ 32 }
        ensures { self.new ≡ self.old ++ range_with_len line count }
    {
        if count == 0 {
            return;
        }
        let last = line + (count - 1);
        if self.last.first > self.last.last {
            self.last = LineRun { first: line, last };
            return;
        }
        self.last = LineRun {
            first: self.last.first,
            last,
        };
    }

    // Begins a run with a line. Its room is not made where a run grows.
    #[inline(never)]
    fn begin_run(&mut self, line: u32) -> Result<(), AllocError>
        ensures { OnOk result (self.new ≡ self.old ++ line ∷ []) }
    {
        self.earlier.push(self.last)?;
        self.last = LineRun {
            first: line,
            last: line,
        };
        Ok(())
    }

    /// Adds a line.
    #[inline]
    pub(crate) fn push(&mut self, line: u32) -> Result<(), AllocError>
        ensures { OnOk result (self.new ≡ self.old ++ line ∷ []) }
    {
        if self.follows(line) {
            self.grow(line, 1);
            return Ok(());
        }
        self.begin_run(line)
    }

    /// The line at a place.
    pub(crate) fn get(&self, place: u32) -> Option<u32>
        ensures { result ≡ slice_get self.now place }
    {
        self.earlier.line_at(self.last, place)
    }
}
