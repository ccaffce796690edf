// A line with the number of a column.
ghost use Rattle.std.specs.Prelude.{◌≡◌, ◌≤◌, ℕ, List, false};
ghost use Rattle.text_base.specs.Words.{texts};
ghost use Rattle.nl_lines.specs.declared.awaited.Awaited.TheVariants.{ColumnCount};
ghost use Rattle.nl_lines.specs.Heads.{is_head};
ghost use Rattle.nl_segments.specs.Current.{Current as CurrentValue};
ghost use Rattle.nl_segments.specs.Held.{Body, HoldsSome, IsAwaiting, TakesRow, body_of};
ghost use Rattle.nl_segments.specs.InsideLineFronts.{AwaitsColumns, with_lines};
ghost use Rattle.nl_segments.specs.InsideTermRuns.{TakesLines};
ghost use Rattle.nl_lines.specs.WholeRows.{IsWholeRow};

use crate::body::BodyReader;
use crate::closing::{count_line, count_lines};
use nl_lines::{NlReason, first_whole, read_column};
use text_base::{Front, Stop};

// Takes the numbers of columns of lines at the front of a piece, where so many are left.
fn give_columns(columns: &mut Vec<u32>, left: u32, piece: &[u8]) -> Front
    ensures few { result.lines ≤ left }
    ensures takes { (b : Body) (cur : CurrentValue) (number : ℕ)
        → AwaitsColumns columns.old.items left b cur
        → TakesLines b piece.now number result
        (with_lines b b.draft columns.new.items cur result.lines) }
{
    let mut front = Front { len: 0, lines: 0 };
    'lines: while front.lines < left {
        let Some(line) = first_whole(piece.split_at(front.len).1) else {
            return front;
        };
        let Ok(()) = columns.push(line.number) else {
            return front;
        };
        front = Front {
            len: front.len + line.len,
            lines: front.lines + 1,
        };
    }
    front
}

impl BodyReader {
    /// A line with the number of a column.
    pub(crate) fn take_column(&mut self, words: &[&[u8]], line: u32) -> Result<(), Stop<NlReason>>
        requires awaited { IsAwaiting ColumnCount (body_of self.old) }
        requires row { is_head (texts words.now) ≡ false }
        ensures { TakesRow (body_of self.old) (texts words.now) line result (body_of self.new) }
    {
        let number = match read_column(words) {
            Ok(number) => number,
            Err(reason) => return Err(Stop::Fault(reason)),
        };
        self.take_known_column(number, line)
    }

    /// A line that is the number of a column alone.
    pub(crate) fn take_known_column(&mut self, number: u32, line: u32) -> Result<(), Stop<NlReason>>
        requires awaited { IsAwaiting ColumnCount (body_of self.old) }
        ensures { (words : List (List ℕ)) → IsWholeRow words number
            → TakesRow (body_of self.old) words line result (body_of self.new) }
    {
        let _ = line;
        self.columns.push(number)?;
        count_line(&mut self.current);
        Ok(())
    }

    /// Takes numbers of columns, a line each, at the front of a piece, of which the first line has
    /// this number.
    pub(crate) fn take_columns(&mut self, piece: &[u8], number: u32) -> Front
        requires awaited { IsAwaiting ColumnCount (body_of self.old) }
        requires held { HoldsSome (body_of self.old) }
        ensures { TakesLines (body_of self.old) piece.now number result (body_of self.new) }
    {
        let _ = number;
        let Some(current) = &self.current else {
            unreachable!()
        };
        let front = give_columns(&mut self.columns, current.left(), piece);
        count_lines(&mut self.current, front.lines);
        front
    }
}
