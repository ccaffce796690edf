// Reading and judging lists of names.
ghost use Rattle.std.specs.Prelude.{◌≡◌, ◌≢◌, IfErr, IfOk, length};
ghost use Rattle.name_files.specs.Names.{Counts};
ghost use Rattle.name_files.specs.Reasons.{name_reason_text};
ghost use Rattle.command_core.specs.Told.{fault_line};
ghost use Rattle.command_core.specs.InsideAnswer.{status_of};
ghost use Rattle.command_parts.specs.NameLists.{AreListed, IsListRefused, column_counts, row_counts};
ghost use Rattle.command_core.specs.SeveralFiles.{ReadsFile, itself};

use crate::input::{Source, open};
use command_core::{Answer, Refusal, refusal};
use mps_model::NameList;
use name_files::{NameFault, NameGrammar};
use nl_model::NlFile;
use std::alloc::Global;
use text_base::Desk;

impl Source for NameGrammar {
    ghost told = { fault_line name_reason_text };

    fn told(number: u32, fault: NameFault) -> Refusal
        ensures { result.line ≡ fault_line name_reason_text number fault }
    {
        refusal(number, b"line", fault.line, fault.reason.text())
    }
}

// What this file of a command says as a list of so many names, or the answer that ends the command.
fn open_names<D: Desk>(
    alloc: Global,
    desk: &mut D,
    file: u32,
    used: u32,
    further: u32,
    name: &str,
) -> Result<NameList, Answer>
    ensures reads { (counts : Counts) → counts ≡ record { used = used; further = further }
        → ReadsFile itself (AreListed counts) (IsListRefused counts file) name.now
        (D.meaning desk.old) (D.meaning desk.new) result }
    ensures known { IfErr result (λ answer. status_of answer ≢ 3) }
{
    open(
        alloc,
        desk,
        name,
        file,
        NameGrammar::new(alloc, used, further),
    )
}

/// The names of the rows of a file, which this file of a command lists, or the answer that ends the
/// command.
pub fn open_rows<D: Desk>(
    alloc: Global,
    desk: &mut D,
    nl: &NlFile,
    file: u32,
    name: &str,
) -> Result<NameList, Answer>
    ensures reads { ReadsFile itself (AreListed (row_counts nl.now))
        (IsListRefused (row_counts nl.now) file) name.now (D.meaning desk.old) (D.meaning desk.new)
        result }
    ensures count { IfOk result (λ names. length names ≡ nl.now.counts.n_con) }
    ensures known { IfErr result (λ answer. status_of answer ≢ 3) }
{
    let counts = nl.header().counts();
    open_names(alloc, desk, file, counts.n_con, counts.n_obj, name)
}

/// The names of the columns of a file, which this file of a command lists, or the answer that ends
/// the command.
pub fn open_columns<D: Desk>(
    alloc: Global,
    desk: &mut D,
    nl: &NlFile,
    file: u32,
    name: &str,
) -> Result<NameList, Answer>
    ensures reads { ReadsFile itself (AreListed (column_counts nl.now))
        (IsListRefused (column_counts nl.now) file) name.now (D.meaning desk.old)
        (D.meaning desk.new) result }
    ensures count { IfOk result (λ names. length names ≡ nl.now.counts.n_var) }
    ensures known { IfErr result (λ answer. status_of answer ≢ 3) }
{
    let counts = nl.header().counts();
    open_names(alloc, desk, file, counts.n_var, 0, name)
}
