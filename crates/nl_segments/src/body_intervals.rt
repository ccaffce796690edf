// A line with the sides of a constraint or a variable.
ghost use Rattle.std.specs.Prelude.{◌≡◌, ◌-◌, ◌<◌, ◌≤◌, ◌&&◌, not, false, Some, None, IfOk, IfErr, OnOk, OnErr, ℕ};
ghost use Rattle.text_base.specs.Judged.{Decides};
ghost use Rattle.text_base.specs.Words.{texts};
ghost use Rattle.nl_model.specs.Kinds.{variable_kind};
ghost use Rattle.linear_program.specs.Intervals.{IsOrdered};
ghost use Rattle.nl_lines.specs.declared.awaited.Awaited.TheVariants.{Interval as IntervalLine};
ghost use Rattle.nl_lines.specs.Heads.{is_head};
ghost use Rattle.nl_segments.specs.Current.{Current as CurrentValue};
ghost use Rattle.nl_segments.specs.Held.{Body, HoldsSome, IsAwaiting, TakesRow, body_of};
ghost use Rattle.nl_segments.specs.InsideLineFronts.{AwaitsIntervals, HasIntervals, with_lines};
ghost use Rattle.nl_segments.specs.InsideLineSteps.{HasRoom, next_interval_tests, with_interval};
ghost use Rattle.nl_segments.specs.InsideTermRuns.{TakesLines};
ghost use Rattle.nl_lines.specs.Tests.{SaysInterval, is_binary, is_sides};

use crate::binaries::Binaries;
use crate::body::BodyReader;
use crate::closing::{count_line, count_lines};
use crate::current::Current;
use nl_lines::{NlReason, first_interval, is_refused_interval, is_sides, read_interval};
use nl_model::{Header, Interval, Kind, NlBuilder, kinds_of};
use std::alloc::AllocError;
use text_base::{Front, Stop};

fn is_binary(kind: Kind) -> bool
    ensures { result ≡ is_binary kind }
{
    match kind {
        Kind::Binary => true,
        _ => false,
    }
}

// Whether the next variable is binary, where so many intervals are left. Those of constraints are
// of none.
fn wants_unit(header: &Header, of_constraint: bool, left: u32) -> bool
    requires some { 0 < left }
    requires most { of_constraint ≡ false → left ≤ header.now.counts.n_var }
    ensures { result
        ≡ (not of_constraint
        && is_binary (variable_kind header.now.counts (header.now.counts.n_var - left))) }
{
    if of_constraint {
        return false;
    }
    is_binary(kinds_of(header, header.counts().n_var - left))
}

// The interval of the next line.
fn read_next(header: &Header, current: &Current, words: &[&[u8]]) -> Result<Interval, NlReason>
    requires some { 0 < current.now.left }
    requires most { is_sides current.now.head ≡ false → current.now.left ≤ header.now.counts.n_var }
    ensures { Decides (next_interval_tests header.now.counts current.now (texts words.now))
        (SaysInterval (texts words.now)) result }
{
    let of_constraint = is_sides(current.head());
    let unit = wants_unit(header, of_constraint, current.left());
    read_interval(words, of_constraint, unit)
}

// Gives the interval of the next constraint or variable.
fn add_interval(
    builder: &mut NlBuilder,
    of_constraint: bool,
    interval: Interval,
) -> Result<(), AllocError>
    requires room { HasRoom builder.old of_constraint }
    requires ordered { IsOrdered interval }
    ensures ok { OnOk result (builder.new ≡ with_interval builder.old of_constraint interval) }
    ensures err { OnErr result (builder.new ≡ builder.old) }
{
    if of_constraint {
        return builder.side(interval);
    }
    builder.bound(interval)
}

// Gives the file the intervals of lines at the front of a piece, where so many are left.
fn give_intervals(builder: &mut NlBuilder, of_constraint: bool, left: u32, piece: &[u8]) -> Front
    requires { HasIntervals builder.old of_constraint left }
    ensures few { result.lines ≤ left }
    ensures takes { (b : Body) (cur : CurrentValue) (number : ℕ)
        → AwaitsIntervals builder.old of_constraint left b cur
        → TakesLines b piece.now number result
        (with_lines b builder.new b.columns cur result.lines) }
{
    let counts = builder.header().counts();
    let n_var = counts.n_var;
    let binaries = Binaries::of(counts);
    let mut front = Front { len: 0, lines: 0 };
    'lines: while front.lines < left {
        let Some(line) = first_interval(piece.split_at(front.len).1) else {
            return front;
        };
        let unit = binaries.has_next(n_var, of_constraint, left - front.lines);
        if is_refused_interval(&line.interval, unit) {
            return front;
        }
        let Ok(()) = add_interval(builder, of_constraint, line.interval) else {
            return front;
        };
        front = Front {
            len: front.len + line.len,
            lines: front.lines + 1,
        };
    }
    front
}

impl BodyReader {
    /// A line with the sides of a constraint or a variable.
    pub(crate) fn take_interval(&mut self, words: &[&[u8]], line: u32) -> Result<(), Stop<NlReason>>
        requires awaited { IsAwaiting IntervalLine (body_of self.old) }
        requires row { is_head (texts words.now) ≡ false }
        requires held { HoldsSome (body_of self.old) }
        ensures { TakesRow (body_of self.old) (texts words.now) line result (body_of self.new) }
    {
        let _ = line;
        let Some(current) = &self.current else {
            unreachable!()
        };
        let of_constraint = is_sides(current.head());
        let interval = match read_next(self.builder.header(), current, words) {
            Ok(interval) => interval,
            Err(reason) => return Err(Stop::Fault(reason)),
        };
        add_interval(&mut self.builder, of_constraint, interval)?;
        count_line(&mut self.current);
        Ok(())
    }

    /// Takes intervals, a line each, at the front of a piece, of which the first line has this
    /// number.
    pub(crate) fn take_intervals(&mut self, piece: &[u8], number: u32) -> Front
        requires awaited { IsAwaiting IntervalLine (body_of self.old) }
        requires held { HoldsSome (body_of self.old) }
        ensures { TakesLines (body_of self.old) piece.now number result (body_of self.new) }
    {
        let _ = number;
        let Some(current) = &self.current else {
            unreachable!()
        };
        let of_constraint = is_sides(current.head());
        let front = give_intervals(&mut self.builder, of_constraint, current.left(), piece);
        count_lines(&mut self.current, front.lines);
        front
    }
}
