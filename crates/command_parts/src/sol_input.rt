// Reading and judging a .sol file.
ghost use Rattle.std.specs.Prelude.{◌≡◌, ◌≢◌, IfErr};
ghost use Rattle.sol_files.specs.Reader.{IsSol};
ghost use Rattle.sol_files.specs.Told.{told as told_as};
ghost use Rattle.command_parts.specs.SolTold.{sol_line};
ghost use Rattle.command_core.specs.InsideAnswer.{status_of};
ghost use Rattle.command_parts.specs.Refusal.{IsSolRefused};
ghost use Rattle.command_core.specs.SeveralFiles.{ReadsFile, itself};

use crate::input::{Source, open};
use command_core::{Answer, Refusal, refusal};
use sol_files::{Refusal as Found, Sol, SolGrammar, told};
use std::alloc::Global;
use text_base::{Desk, TextFault};

impl Source for SolGrammar {
    ghost told = { λ number found. sol_line number (told_as found) };

    fn told(number: u32, found: TextFault<Found>) -> Refusal
        ensures { result.line ≡ sol_line number (told_as found) }
    {
        let fault = told(found);
        refusal(number, b"line", fault.line, fault.reason.text())
    }
}

/// What a file says, which is this one of its command, or the answer that ends the command.
pub fn open_sol<D: Desk>(alloc: Global, desk: &mut D, name: &str, file: u32) -> Result<Sol, Answer>
    ensures reads { ReadsFile itself IsSol (IsSolRefused file) name.now (D.meaning desk.old)
        (D.meaning desk.new) result }
    ensures known { IfErr result (λ answer. status_of answer ≢ 3) }
{
    open(alloc, desk, name, file, SolGrammar::new(alloc)?)
}
