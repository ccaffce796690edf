// Reading and judging an answer for a file.
ghost use Rattle.std.specs.Prelude.{◌≡◌, ◌≢◌, IfErr, length};
ghost use Rattle.answer_file.specs.Names.{named_setting, setting_of};
ghost use Rattle.answer_file.specs.Reading.{IsAnswer};
ghost use Rattle.answer_file.specs.Reasons.{answer_reason_text};
ghost use Rattle.command_core.specs.Told.{fault_line};
ghost use Rattle.command_core.specs.InsideAnswer.{status_of};
ghost use Rattle.command_parts.specs.Refusal.{IsAnswerRefused};
ghost use Rattle.command_core.specs.SeveralFiles.{ReadsFile, itself};

use crate::input::{Source, open};
use answer_file::{Answer as Given, AnswerFault, AnswerGrammar, Scope};
use command_core::{Answer, Refusal, refusal};
use mps_model::NameList;
use nl_model::NlFile;
use std::alloc::Global;
use text_base::Desk;

impl Source for AnswerGrammar {
    ghost told = { λ _. fault_line answer_reason_text 2 };

    fn told(_number: u32, fault: AnswerFault) -> Refusal
        ensures { result.line ≡ fault_line answer_reason_text 2 fault }
    {
        refusal(2, b"line", fault.line, fault.reason.text())
    }
}

/// What the second file of a command says as an answer for the first, or the answer that ends the
/// command.
pub fn open_answer<D: Desk>(
    alloc: Global,
    desk: &mut D,
    file: &NlFile,
    name: &str,
) -> Result<Given, Answer>
    ensures reads { ReadsFile itself (IsAnswer (setting_of file.now))
        (IsAnswerRefused (setting_of file.now)) name.now (D.meaning desk.old) (D.meaning desk.new)
        result }
    ensures known { IfErr result (λ answer. status_of answer ≢ 3) }
{
    let scope = Scope::of(alloc, file)?;
    let grammar = AnswerGrammar::new(alloc, scope)?;
    open(alloc, desk, name, 2, grammar)
}

/// What the second file of a command says as an answer for the first with the names of these lists,
/// or the answer that ends the command.
pub fn open_named<D: Desk>(
    alloc: Global,
    desk: &mut D,
    file: &NlFile,
    rows: NameList,
    columns: NameList,
    name: &str,
) -> Result<Given, Answer>
    requires rows { length rows ≡ file.now.counts.n_con }
    requires columns { length columns ≡ file.now.counts.n_var }
    ensures reads { ReadsFile itself (IsAnswer (named_setting file.now rows columns))
        (IsAnswerRefused (named_setting file.now rows columns)) name.now (D.meaning desk.old)
        (D.meaning desk.new) result }
    ensures known { IfErr result (λ answer. status_of answer ≢ 3) }
{
    let scope = Scope::named(alloc, file, rows, columns)?;
    let grammar = AnswerGrammar::new(alloc, scope)?;
    open(alloc, desk, name, 2, grammar)
}
