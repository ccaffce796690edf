// The reader of header lines.
ghost use Rattle.std.specs.Prelude.{◌≡◌, ℕ, ◌<◌, ◌≤◌, ◌+◌, [], List, length, OnOk, OnErr, IfOk, IfErr, IfSome, None, Some, MatchBool, MatchResult};
ghost use Rattle.text_base.specs.Judged.{first_reason};
ghost use Rattle.text_base.specs.Words.{words_of, row_of};
ghost use Rattle.code_tables.specs.Header.{header_rows};
ghost use Rattle.nl_header.specs.Head.{Judges, first_line_tests, number_line_fault, options_of};
ghost use Rattle.nl_header.specs.Reading.{IsReading, Takes, HasCounted, Closes, put_in, counts_from, last_rule};

use crate::fault::HeadFault;
use crate::first_line::read_first;
use crate::number_line::put_numbers;
use crate::rules::{counts_of, judge_line};
use code_tables::header_table;
use nl_model::{Counts, Header, Options};
use std::marker::Model;
use std::mem;
use text_base::Row;

/// A header has so many lines.
const HEADER_LINES: u32 = 10;

/// Reads the ten header lines one after the other.
#[derive(Drop)]
pub struct HeaderReader {
    lines: u32,
    options: Options,
    numbers: [u32; 32],
    fault: Option<HeadFault>,
}

impl Model for HeaderReader {
    ghost use Rattle.nl_header.specs.Reading.{Taken};

    ghost Value = { Taken };

    ghost view = { λ r. record {
      lines = r.lines;
      options = r.options;
      numbers = r.numbers;
      fault = r.fault;
    } };
}

// The numbers of rows after a line with these words.
fn numbers_after(line: u32, row: &Row<'_>, numbers: [u32; 32]) -> [u32; 32]
    ensures { result ≡ put_in header_rows line row.now numbers }
{
    let mut after = numbers;
    let table = header_table();
    put_numbers(&table, line, row.words(), &mut after);
    after
}

impl HeaderReader {
    /// A reader that took no line.
    pub fn new() -> HeaderReader
        ensures { IsReading result [] }
    {
        HeaderReader {
            lines: 0,
            options: Options::new(),
            numbers: [0; 32],
            fault: None,
        }
    }

    // Takes the first line.
    fn take_first(&mut self, row: &Row<'_>) -> Result<(), HeadFault>
        requires { 0 < length row.now }
        ensures judges { Judges (first_reason (first_line_tests row.now)) None result }
        ensures step { OnOk result (self.new ≡ record self.old {
          lines = 1;
          options = options_of row.now;
          numbers = put_in header_rows 1 row.now self.old.numbers;
        }) }
        ensures same { OnErr result (self.new ≡ self.old) }
    {
        match read_first(row.words()) {
            Ok(options) => self.options = options,
            Err(fault) => return Err(fault),
        }
        self.numbers = numbers_after(1, row, self.numbers);
        self.lines = 1;
        Ok(())
    }

    // Takes the numbers of a line after the first, and gives the counts of the lines up to it.
    fn take_numbers(&mut self, text: &[u8], row: &Row<'_>) -> Result<Counts, HeadFault>
        requires row { row.now ≡ row_of text.now }
        requires lines { self.old.lines < 10 }
        ensures ok { IfOk result (λ counts. (counts ≡ counts_from self.new.numbers)
            × (number_line_fault (self.old.lines + 1) counts (words_of text.now)
            ≡ last_rule (self.old.lines + 1) counts)) }
        ensures step { OnOk result (self.new ≡ record self.old {
          numbers = put_in header_rows (self.old.lines + 1) row.now self.old.numbers;
        }) }
        ensures err { IfErr result (λ f. number_line_fault (self.old.lines + 1)
            (counts_from (put_in header_rows (self.old.lines + 1) row.now self.old.numbers))
            (words_of text.now) ≡ Some f) }
        ensures same { OnErr result (self.new ≡ self.old) }
    {
        let line = self.lines + 1;
        let numbers = numbers_after(line, row, self.numbers);
        let counts = counts_of(&numbers);
        if let Err(fault) = judge_line(line, text, row, &counts) {
            return Err(fault);
        }
        self.numbers = numbers;
        Ok(counts)
    }

    // Ends a line of numbers, and makes the header at the last.
    fn end_line(&mut self, counts: Counts) -> Result<Option<Header>, HeadFault>
        requires { self.old.lines < 10 }
        ensures ends { Closes self.old counts result self.new }
    {
        if self.lines + 1 < HEADER_LINES {
            self.lines += 1;
            return Ok(None);
        }
        let options = mem::replace(&mut self.options, Options::new());
        let Some(header) = Header::new(options, counts) else {
            return Err(HeadFault::TooLarge);
        };
        self.lines = HEADER_LINES;
        Ok(Some(header))
    }

    // Takes a line where no fault was met.
    fn take(&mut self, text: &[u8]) -> Result<Option<Header>, HeadFault>
        requires words { 0 < length (words_of text.now) }
        requires more { self.old.lines < 10 }
        ensures takes { (before : List (List (List ℕ))) → IsReading self.old before
            → Takes before (words_of text.now) result self.new }
        ensures count { HasCounted self.old.lines result self.new.lines }
    {
        let row = Row::of(text);
        if self.lines == 0 {
            return match self.take_first(&row) {
                Ok(()) => Ok(None),
                Err(fault) => Err(fault),
            };
        }
        match self.take_numbers(text, &row) {
            Ok(counts) => self.end_line(counts),
            Err(fault) => Err(fault),
        }
    }

    /// Takes the next header line, without its comment, and answers the header at the tenth. After
    /// a fault it answers that fault again.
    pub fn line(&mut self, text: &[u8]) -> Result<Option<Header>, HeadFault>
        requires words { 0 < length (words_of text.now) }
        requires more { self.old.lines < 10 }
        ensures takes { (before : List (List (List ℕ))) → IsReading self.old before
            → Takes before (words_of text.now) result self.new }
        ensures count { HasCounted self.old.lines result self.new.lines }
        ensures fault { IfErr result (λ f. self.new.fault ≡ Some f) }
        ensures again { IfSome self.old.fault (λ f. (result ≡ Err f) × (self.new ≡ self.old)) }
    {
        if let Some(fault) = self.fault {
            return Err(fault);
        }
        match self.take(text) {
            Ok(header) => Ok(header),
            Err(fault) => {
                self.fault = Some(fault);
                Err(fault)
            }
        }
    }
}
