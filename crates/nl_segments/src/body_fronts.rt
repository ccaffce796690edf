// Lines of any kind at the front of a piece, a run of one kind at a time.
ghost use Rattle.std.specs.Prelude.{◌≤◌, ◌+◌, ◌^◌, length};
ghost use Rattle.nl_segments.specs.Held.{HoldsSome, body_of};
ghost use Rattle.nl_segments.specs.InsideTermRuns.{TakesLines};

use crate::body::BodyReader;
use nl_lines::Awaited;
use text_base::Front;

impl BodyReader {
    // Takes lines of the kind that is awaited at the front of a piece, of which the first line has
    // this number.
    fn take_run(&mut self, piece: &[u8], number: u32) -> Front
        requires held { HoldsSome (body_of self.old) }
        requires few { number + length piece.now ≤ 2 ^ 31 + 1 }
        ensures { TakesLines (body_of self.old) piece.now number result (body_of self.new) }
    {
        match self.awaited() {
            Awaited::Pair => self.take_terms(piece, number),
            Awaited::Interval => self.take_intervals(piece, number),
            Awaited::ColumnCount => self.take_columns(piece, number),
            Awaited::Nothing => self.take_head_line(piece, number),
            Awaited::Node => self.take_nodes(piece, number),
            Awaited::OperandCount => self.take_operand_line(piece, number),
        }
    }

    /// Takes lines at the front of a piece, of which the first line has this number, run by run.
    pub(crate) fn take_front(&mut self, piece: &[u8], number: u32) -> Front
        requires held { HoldsSome (body_of self.old) }
        requires few { number + length piece.now ≤ 2 ^ 31 + 1 }
        ensures { TakesLines (body_of self.old) piece.now number result (body_of self.new) }
    {
        let mut front = Front { len: 0, lines: 0 };
        'runs: loop {
            let run = self.take_run(piece.split_at(front.len).1, number + front.lines);
            front = Front {
                len: front.len + run.len,
                lines: front.lines + run.lines,
            };
            if run.len == 0 {
                return front;
            }
        }
    }
}
