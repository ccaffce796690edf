// A line of the body.
ghost use Rattle.nl_segments.specs.Held.{HoldsSome, body_of};
ghost use Rattle.nl_segments.specs.InsideTaking.{TakesBodyLine};

use crate::body::BodyReader;
use nl_lines::NlReason;
use text_base::{Row, Stop, strip_comment};

impl BodyReader {
    /// Takes the line of this number. Out of line, so that the room of its row is made here alone.
    #[inline(never)]
    pub(crate) fn take_line(&mut self, line: &[u8], number: u32) -> Result<(), Stop<NlReason>>
        requires { HoldsSome (body_of self.old) }
        ensures { TakesBodyLine (body_of self.old) line.now number result (body_of self.new) }
    {
        let text = strip_comment(line);
        let row = Row::of(text);
        if row.words().is_empty() {
            return Ok(());
        }
        self.take(row.words(), number)
    }
}
