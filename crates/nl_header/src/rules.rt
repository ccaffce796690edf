// The counts of the lines, and the rules between them.
ghost use Rattle.std.specs.Prelude.{◌≡◌, length, ◌≤◌};
ghost use Rattle.text_base.specs.Judged.{first_reason};
ghost use Rattle.text_base.specs.Words.{words_of, row_of};
ghost use Rattle.code_tables.specs.Header.{header_rows};
ghost use Rattle.nl_header.specs.Head.{Judges, number_line_fault, rule_tests};
ghost use Rattle.nl_header.specs.Reading.{counts_from, last_rule};

use crate::fault::HeadFault;
use crate::number_line::{is_short, judge_words};
use code_tables::header_table;
use nl_model::{Counts, are_shared_within, are_whole_within};
use text_base::Row;

/// The counts of the numbers of the rows.
#[tactic(auto, unfolding(crate::specs::Reading::counts_from))]
pub fn counts_of(numbers: &[u32; 32]) -> Counts
    ensures { result ≡ counts_from numbers.now }
{
    Counts {
        n_var: numbers[1],
        n_con: numbers[2],
        n_obj: numbers[3],
        n_ranges: numbers[4],
        n_eqns: numbers[5],
        n_lcon: numbers[6],
        nlc: numbers[7],
        nlo: numbers[8],
        nlnc: numbers[9],
        lnc: numbers[10],
        nlvc: numbers[11],
        nlvo: numbers[12],
        nlvb: numbers[13],
        nwv: numbers[14],
        nfunc: numbers[15],
        arith: numbers[16],
        flags: numbers[17],
        nbv: numbers[18],
        niv: numbers[19],
        nlvbi: numbers[20],
        nlvci: numbers[21],
        nlvoi: numbers[22],
        nzc: numbers[23],
        nzo: numbers[24],
        row_name_len: numbers[25],
        col_name_len: numbers[26],
        comb: numbers[27],
        comc: numbers[28],
        como: numbers[29],
        comc1: numbers[30],
        como1: numbers[31],
    }
}

// Judges the rules of the lines before the last.
#[tactic(auto, unfolding(crate::specs::Head::rule_tests, crate::specs::Reading::last_rule))]
fn judge_rules(line: u32, counts: &Counts) -> Result<(), HeadFault>
    ensures { Judges (first_reason (rule_tests line counts.now))
        (last_rule line counts.now) result }
{
    if line == 5 && !are_shared_within(counts) {
        return Err(HeadFault::CountsDisagree);
    }
    if line == 7 && !are_whole_within(counts) {
        return Err(HeadFault::CountsDisagree);
    }
    Ok(())
}

/// Judges a line of numbers, but for the rule of the last line. The counts are those of all lines
/// up to it.
pub fn judge_line(line: u32, text: &[u8], row: &Row<'_>, counts: &Counts) -> Result<(), HeadFault>
    requires { row.now ≡ row_of text.now }
    ensures { Judges (number_line_fault line counts.now (words_of text.now))
        (last_rule line counts.now) result }
{
    if let Err(fault) = judge_words(line, text) {
        return Err(fault);
    }
    let table = header_table();
    if is_short(&table, line, row.words().len()) {
        return Err(HeadFault::BadHeaderNumber);
    }
    if let Err(fault) = judge_rules(line, counts) {
        return Err(fault);
    }
    Ok(())
}
