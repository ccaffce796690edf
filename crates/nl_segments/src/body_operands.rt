// A line with the number of operands of an opcode.
ghost use Rattle.std.specs.Prelude.{◌≡◌, false};
ghost use Rattle.text_base.specs.Words.{texts};
ghost use Rattle.nl_lines.specs.declared.awaited.Awaited.TheVariants.{OperandCount};
ghost use Rattle.nl_lines.specs.Heads.{is_head};
ghost use Rattle.nl_segments.specs.Held.{HoldsSome, IsAwaiting, TakesRow, body_of};
ghost use Rattle.nl_segments.specs.InsideTermRuns.{TakesLines};

use crate::body::BodyReader;
use crate::body_nodes::{take_next_row, take_row};
use nl_lines::{NlReason, NodeRow, first_whole, is_operand_count, read_operand_count};
use nl_model::Node;
use text_base::{Front, Stop};

impl BodyReader {
    /// A line with the number of operands of an opcode.
    pub(crate) fn take_operand_count(
        &mut self,
        words: &[&[u8]],
        line: u32,
    ) -> Result<(), Stop<NlReason>>
        requires awaited { IsAwaiting OperandCount (body_of self.old) }
        requires row { is_head (texts words.now) ≡ false }
        requires held { HoldsSome (body_of self.old) }
        ensures { TakesRow (body_of self.old) (texts words.now) line result (body_of self.new) }
    {
        let _ = line;
        let count = match read_operand_count(words) {
            Ok(count) => count,
            Err(reason) => return Err(Stop::Fault(reason)),
        };
        let Some(current) = &self.current else {
            unreachable!();
        };
        let Some(pending) = current.pending() else {
            unreachable!();
        };
        let row = NodeRow::Whole(Node::Op(pending.opcode, count));
        self.nodes += 1;
        take_row(
            &mut self.builder,
            &mut self.places,
            &mut self.current,
            row,
            pending.line,
        )?;
        Ok(())
    }

    /// Takes the line at the front of a piece, which has this number, where that is a number of
    /// operands alone, and the line of its opcode follows those of the other nodes.
    pub(crate) fn take_operand_line(&mut self, piece: &[u8], number: u32) -> Front
        requires awaited { IsAwaiting OperandCount (body_of self.old) }
        requires held { HoldsSome (body_of self.old) }
        ensures { TakesLines (body_of self.old) piece.now number result (body_of self.new) }
    {
        let _ = number;
        let Some(first) = first_whole(piece) else {
            return Front { len: 0, lines: 0 };
        };
        if !is_operand_count(first.number) {
            return Front { len: 0, lines: 0 };
        }
        let Some(current) = &self.current else {
            unreachable!();
        };
        let Some(pending) = current.pending() else {
            unreachable!();
        };
        let taken = take_next_row(
            &mut self.builder,
            &mut self.places,
            &mut self.current,
            NodeRow::Whole(Node::Op(pending.opcode, first.number)),
            pending.line,
        );
        if !taken {
            return Front { len: 0, lines: 0 };
        }
        self.nodes += 1;
        Front {
            len: first.len,
            lines: 1,
        }
    }
}
