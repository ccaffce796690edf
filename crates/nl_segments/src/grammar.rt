// The grammar of .nl texts, a line at a time.
ghost use Rattle.std.specs.Prelude.{List, []};
ghost use Rattle.nl_segments.specs.Grammar.{standing, nl_rules, SaysFile, fault_refusal};
ghost use Rattle.nl_segments.specs.Held.{HoldsStanding};
ghost use Rattle.nl_segments.specs.Reader.{value_of};

use crate::nl_read::NlRead;
use crate::stage::Stage;
use nl_lines::NlReason;
use std::alloc::Global;
use std::marker::Model;
use text_base::{Front, Grammar, LineFault, Stop};

/// The lines so far.
#[derive(Drop)]
pub struct NlGrammar {
    alloc: Global,
    stage: Stage,
}

impl Model for NlGrammar {
    ghost use Rattle.nl_segments.specs.Held.{HoldsSomeLines, Progress, progress_of};

    ghost Value = { Progress };

    ghost use Rattle.nl_segments.specs.InsideHeldCode.{progress_code};

    ghost coded = { progress_code };

    ghost view = { λ g. progress_of g.stage };

    ghost invariant = { λ g. HoldsSomeLines (progress_of g.stage) };
}

impl Grammar for NlGrammar {
    type Reason = NlReason;

    type Value = NlRead;

    ghost Setting = { Unit {0} };

    ghost setting = { λ g. tt };

    ghost rules = { λ s. nl_rules };

    ghost took = { λ g lines. HoldsStanding (standing lines) g };

    ghost says = { λ s lines r. SaysFile lines (value_of r) };

    fn take(&mut self, line: &[u8], number: u32) -> Result<(), Stop<NlReason>> {
        match self.stage.take(self.alloc, line, number) {
            Ok(()) => Ok(()),
            Err(stop) => {
                // the line may be half taken, so that all is let go
                self.stage = Stage::new();
                Err(stop)
            }
        }
    }

    fn take_front(&mut self, piece: &[u8], number: u32) -> Front {
        let Stage::Body(body) = &mut self.stage else {
            return Front { len: 0, lines: 0 };
        };
        body.take_front(piece, number)
    }

    fn line_fault(&self, fault: LineFault) -> NlReason {
        match fault {
            LineFault::LineTooLong => NlReason::LineTooLong,
            LineFault::InputTooLong => NlReason::InputTooLong,
        }
    }

    fn finish(self) -> Result<NlRead, Stop<NlReason>> {
        match self.stage {
            Stage::Body(body) => body.finish(),
            Stage::Header(_) => Err(Stop::Fault(NlReason::EndInHeader)),
        }
    }
}

impl NlGrammar {
    /// No lines.
    pub fn new(alloc: Global) -> NlGrammar
        ensures { HoldsStanding (standing []) result }
    {
        NlGrammar {
            alloc,
            stage: Stage::new(),
        }
    }
}
