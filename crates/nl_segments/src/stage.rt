// The part of an .nl text that is being read.
ghost use Rattle.std.specs.Prelude.{◌≡◌, []};
ghost use Rattle.nl_segments.specs.Grammar.{reason_of, standing};
ghost use Rattle.nl_segments.specs.Held.{HoldsSomeLines, HoldsStanding, IsInHeader, progress_of};
ghost use Rattle.nl_segments.specs.InsideTaking.{TakesLine};

use crate::body::BodyReader;
use nl_header::{HeadFault, HeaderReader};
use nl_lines::NlReason;
use std::alloc::Global;
use text_base::{Row, Stop, strip_comment};

/// The header, and then the body.
#[derive(Drop)]
pub enum Stage {
    Header(HeaderReader),
    Body(BodyReader),
}

// What a fault of the header is called here.
fn reason_of(fault: HeadFault) -> NlReason
    ensures { result ≡ reason_of fault }
{
    match fault {
        HeadFault::BinaryFile => NlReason::BinaryFile,
        HeadFault::BadFirstLine => NlReason::BadFirstLine,
        HeadFault::Options => NlReason::Options,
        HeadFault::BadHeaderNumber => NlReason::BadHeaderNumber,
        HeadFault::CountsDisagree => NlReason::CountsDisagree,
        HeadFault::RefusedCount => NlReason::RefusedCount,
        HeadFault::TooLarge => NlReason::TooLarge,
    }
}

impl Stage {
    /// No lines.
    pub(crate) fn new() -> Stage
        ensures { HoldsStanding (standing []) (progress_of result) }
    {
        Stage::Header(HeaderReader::new())
    }

    // Takes a line of the header.
    fn take_header_line(
        &mut self,
        alloc: Global,
        line: &[u8],
        number: u32,
    ) -> Result<(), Stop<NlReason>>
        requires held { HoldsSomeLines (progress_of self.old) }
        requires header { IsInHeader (progress_of self.old) }
        ensures { TakesLine (progress_of self.old) line.now number result (progress_of self.new) }
    {
        let _ = number;
        let Stage::Header(header) = self else {
            unreachable!()
        };
        let text = strip_comment(line);
        let row = Row::of(text);
        if row.words().is_empty() {
            return Ok(());
        }
        match header.line(text) {
            Ok(None) => Ok(()),
            Ok(Some(whole)) => {
                let body = BodyReader::new(alloc, whole)?;
                *self = Stage::Body(body);
                Ok(())
            }
            Err(fault) => Err(Stop::Fault(reason_of(fault))),
        }
    }

    /// Takes the line of this number. After an `Err` nothing is known of what was taken.
    pub(crate) fn take(
        &mut self,
        alloc: Global,
        line: &[u8],
        number: u32,
    ) -> Result<(), Stop<NlReason>>
        requires { HoldsSomeLines (progress_of self.old) }
        ensures { TakesLine (progress_of self.old) line.now number result (progress_of self.new) }
    {
        if let Stage::Body(body) = self {
            return body.take_line(line, number);
        }
        self.take_header_line(alloc, line, number)
    }
}
