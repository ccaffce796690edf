// The grammar of MPS texts, a line at a time.
ghost use Rattle.std.specs.Prelude.{◌≡◌, [], IfOk};
ghost use Rattle.text_base.specs.Words.{texts};
ghost use Rattle.mps_reader.specs.Grammar.{standing, mps_rules, SaysMps, line_tests};
ghost use Rattle.text_base.specs.Judged.{Takes};
ghost use Rattle.mps_reader.specs.Steps.{after_words};

use crate::fault::MpsReason;
use crate::state::State;
use mps_model::Mps;
use mps_words::{is_data, is_left_out, three_words};
use std::alloc::{AllocError, Global};
use std::marker::Model;
use text_base::{Front, Grammar, LineFault, Row, Stop};

/// The grammar of MPS texts, with the lines that it took.
#[derive(Drop)]
pub struct MpsGrammar {
    state: State,
    // a line was taken in part when it was refused, or when memory was wanting
    is_broken: bool,
}

impl Model for MpsGrammar {
    ghost use Rattle.std.specs.Prelude.{◌≡◌, false};
    ghost use Rattle.mps_reader.specs.Tests.{Standing};
    ghost use Rattle.mps_reader.specs.InsideHeld.{IsSound};

    ghost Value = { Standing };

    ghost view = { λ g. g.state.standing };

    ghost invariant = { λ g. g.is_broken ≡ false → IsSound g.state };
}

impl Grammar for MpsGrammar {
    type Reason = MpsReason;

    type Value = Mps;

    ghost Setting = { Unit {0} };

    ghost setting = { λ g. tt };

    ghost rules = { λ s. mps_rules };

    ghost took = { λ g lines. g ≡ standing lines };

    ghost says = { λ s lines m. SaysMps lines m };

    fn take(&mut self, line: &[u8], number: u32) -> Result<(), Stop<MpsReason>> {
        let _ = number;
        if let Some((first, second, third)) = three_words(line) {
            return self.take_words(true, &[first, second, third]);
        }
        let row = Row::of(line);
        if is_left_out(line, &row) {
            return Ok(());
        }
        self.take_words(is_data(line), row.words())
    }

    fn take_front(&mut self, piece: &[u8], number: u32) -> Front {
        let _ = number;
        if self.is_broken {
            return Front { len: 0, lines: 0 };
        }
        let taken = self.state.take_front(piece);
        self.is_broken = taken.is_broken;
        taken.front
    }

    fn line_fault(&self, fault: LineFault) -> MpsReason {
        match fault {
            LineFault::LineTooLong => MpsReason::LineTooLong,
            LineFault::InputTooLong => MpsReason::InputTooLong,
        }
    }

    fn finish(self) -> Result<Mps, Stop<MpsReason>> {
        if self.is_broken {
            drop(self);
            return Err(Stop::Memory);
        }
        match self.state.finish() {
            Ok(mps) => Ok(mps),
            Err(reason) => Err(Stop::Fault(reason)),
        }
    }
}

impl MpsGrammar {
    /// No lines.
    pub fn new(alloc: Global) -> Result<MpsGrammar, AllocError>
        ensures { IfOk result (λ g. g ≡ standing []) }
    {
        Ok(MpsGrammar {
            state: State::new(alloc)?,
            is_broken: false,
        })
    }

    // Takes a line that holds words.
    fn take_words(&mut self, data_line: bool, words: &[&[u8]]) -> Result<(), Stop<MpsReason>>
        ensures { Takes (line_tests self.old data_line (texts words.now))
            (after_words self.old data_line (texts words.now)) result self.new }
    {
        if self.is_broken {
            return Err(Stop::Memory);
        }
        self.is_broken = true;
        if let Err(stop) = self.state.take_words(data_line, words) {
            return Err(stop);
        }
        self.is_broken = false;
        Ok(())
    }
}
