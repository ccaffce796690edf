// The lines after the values: `objno`, and the suffixes.
ghost use Rattle.std.specs.Prelude.{◌≡◌, ◌<◌, ◌≤◌, ◌||◌, length, true, is_some, nat_lt, None, Some, IfOk, IfErr, OnOk, codes};
ghost use Rattle.text_base.specs.Judged.{Takes, first_reason};
ghost use Rattle.text_base.specs.Names.{IsName};
ghost use Rattle.text_base.specs.Words.{texts, begins, word_at};
ghost use Rattle.sol_files.specs.declared.fault.Refusal.TheVariants.{Here};
ghost use Rattle.sol_files.specs.Rows.{pair_in};
ghost use Rattle.sol_files.specs.Progress.{seen};
ghost use Rattle.sol_files.specs.Tests.{index_limit, last_kind, name_tests, objno_tests, suffix_tests, tail_tests, value_tests};
ghost use Rattle.nl_model.specs.SuffixKinds.{wants_whole};
ghost use Rattle.sol_files.specs.InsideJudging.{marked_value_tests};
ghost use Rattle.sol_files.specs.Steps.{after_name, after_objno, after_suffix_head, after_table, after_tail, after_value, rest_awaits};

use crate::awaited::{Awaited, SuffixHead};
use crate::fault::{Refusal, SolReason};
use crate::grammar::{SolGrammar, here};
use crate::rows::read_objno;
use crate::suffix::SolSuffix;
use crate::suffix_rows::{MOST_OBJECTIVES, read_head, read_pair};
use exact_numbers::Dec;
use linear_program::Terms;
use nl_model::{object_limit, wants_whole};
use text_base::{Marks, Name, Stop, TextLines, begins, is_name, word_at};

// All suffixes have at most so many values.
const MOST_VALUES: u32 = 4_194_304;

// The line that is awaited where so many lines of a table and so many values are left.
fn rest_awaits(tables: u32, values: u32) -> Awaited
    ensures { result ≡ rest_awaits tables values }
{
    if tables > 0 {
        return Awaited::Table(tables, values);
    }
    if values > 0 {
        return Awaited::Values(values);
    }
    Awaited::Tail
}

// The word of a name line.
fn read_name<'a>(words: &[&'a [u8]]) -> Result<&'a [u8], SolReason>
    ensures name { IfOk result (λ w. w.now ≡ word_at (texts words.now) 0) }
    ensures is { IfOk result (λ w. IsName w.now) }
    ensures fine { OnOk result (first_reason (name_tests (texts words.now)) ≡ None) }
    ensures fault { IfErr result (λ r. first_reason (name_tests (texts words.now))
        ≡ Some (Here r)) }
{
    let word = word_at(words, 0);
    if words.len() != 1 || !is_name(word) {
        return Err(SolReason::BadLine);
    }
    Ok(word)
}

// The pair of a row, after these marks.
fn judge_pair(
    words: &[&[u8]],
    limit: u32,
    whole_only: bool,
    marks: &Marks,
    count: u32,
) -> Result<(u32, Dec), SolReason>
    requires { limit ≤ length marks.now }
    ensures pair { IfOk result (λ t. pair_in (texts words.now) ≡ Some t) }
    ensures below { IfOk result (λ t. t.0 < limit) }
    ensures room { OnOk result (count < 4194304) }
    ensures fine { OnOk result
        (first_reason (marked_value_tests limit whole_only marks.now count (texts words.now))
        ≡ None) }
    ensures fault { IfErr result
        (λ r. first_reason (marked_value_tests limit whole_only marks.now count (texts words.now))
        ≡ Some (Here r)) }
{
    let pair = match read_pair(words, limit, whole_only) {
        Ok(pair) => pair,
        Err(reason) => return Err(reason),
    };
    if marks.is_marked(pair.0) {
        return Err(SolReason::RepeatedIndex);
    }
    if count >= MOST_VALUES {
        return Err(SolReason::TooLarge);
    }
    Ok(pair)
}

impl SolGrammar {
    /// An `objno` line or the first line of a suffix.
    #[tactic(auto, unfolding(crate::specs::Tests::tail_tests))]
    pub(crate) fn take_tail(&mut self, words: &[&[u8]]) -> Result<(), Stop<Refusal>>
        requires { self.old.awaited ≡ Awaited.Tail }
        ensures { Takes (tail_tests (seen self.old) (texts words.now))
            (after_tail self.old (texts words.now)) result self.new }
    {
        if begins(words, b"objno") {
            return self.take_objno(words);
        }
        if begins(words, b"suffix") {
            return self.take_head(words);
        }
        Err(here(SolReason::Extra))
    }

    // An `objno` line.
    fn take_objno(&mut self, words: &[&[u8]]) -> Result<(), Stop<Refusal>>
        requires awaited { self.old.awaited ≡ Awaited.Tail }
        requires keyword { begins (texts words.now) (codes "objno") ≡ true }
        ensures none { OnOk result (self.old.suffix_count ≡ 0) }
        ensures takes { Takes (objno_tests (is_some self.old.sol.objno
            || nat_lt 0 self.old.suffix_count) (texts words.now))
            (after_objno self.old (texts words.now)) result self.new }
    {
        let is_past = self.draft.objno().is_some() || self.suffix_count > 0;
        let found = match read_objno(words, is_past) {
            Ok(found) => found,
            Err(reason) => return Err(here(reason)),
        };
        self.draft.set_objno(found.0, found.1);
        Ok(())
    }

    // The first line of a suffix.
    fn take_head(&mut self, words: &[&[u8]]) -> Result<(), Stop<Refusal>>
        requires { self.old.awaited ≡ Awaited.Tail }
        ensures { Takes (suffix_tests self.old.suffix_count self.old.table_count (texts words.now))
            (after_suffix_head self.old (texts words.now)) result self.new }
    {
        let head = match read_head(words, self.suffix_count, self.table_count) {
            Ok(head) => head,
            Err(reason) => return Err(here(reason)),
        };
        self.suffix_count += 1;
        self.table_count += head.table_lines;
        self.awaited = Awaited::Name(head);
        Ok(())
    }

    /// The name of a suffix.
    pub(crate) fn take_name(
        &mut self,
        words: &[&[u8]],
        head: SuffixHead,
    ) -> Result<(), Stop<Refusal>>
        requires { self.old.awaited ≡ Awaited.Name head }
        ensures { Takes (name_tests (texts words.now))
            (after_name self.old head (texts words.now)) result self.new }
    {
        let word = match read_name(words) {
            Ok(word) => word,
            Err(reason) => return Err(here(reason)),
        };
        let name = Name::tested(self.alloc, word)?;
        let limit = object_limit(
            self.draft.n_var(),
            self.draft.n_con(),
            MOST_OBJECTIVES,
            head.kind,
        );
        self.marks.begin(self.alloc, limit)?;
        self.draft.suffix(SolSuffix {
            kind: head.kind,
            name,
            name_len: head.name_len,
            table_len: head.table_len,
            table: TextLines::new(self.alloc),
            values: Terms::new(self.alloc),
        })?;
        self.awaited = rest_awaits(head.table_lines, head.value_count);
        Ok(())
    }

    /// A line of a table.
    pub(crate) fn take_table(
        &mut self,
        line: &[u8],
        tables: u32,
        values: u32,
    ) -> Result<(), Stop<Refusal>>
        requires { self.old.awaited ≡ Awaited.Table tables values }
        ensures step { OnOk result (self.new ≡ after_table self.old tables values line.now) }
        ensures fault { IfErr result (λ stop. stop ≡ Stop.Memory) }
    {
        self.draft.add_table_line(line)?;
        self.awaited = rest_awaits(tables - 1, values);
        Ok(())
    }

    // The kind of the last suffix.
    fn last_kind(&self) -> u8
        requires { 0 < length self.now.sol.suffixes }
        ensures { result ≡ last_kind self.now.sol.suffixes }
    {
        let suffixes = self.draft.suffixes();
        suffixes[suffixes.len() - 1].kind
    }

    // The indices of the last suffix are below this.
    fn index_limit(&self) -> u32
        requires { 0 < length self.now.sol.suffixes }
        ensures { result ≡ index_limit self.now.sol }
    {
        object_limit(
            self.draft.n_var(),
            self.draft.n_con(),
            MOST_OBJECTIVES,
            self.last_kind(),
        )
    }

    // Whether the values of the last suffix must be whole.
    fn wants_whole(&self) -> bool
        requires { 0 < length self.now.sol.suffixes }
        ensures { result ≡ wants_whole (last_kind self.now.sol.suffixes) }
    {
        wants_whole(self.last_kind())
    }

    // The pair of a row, after the values that came.
    fn judge_value(&self, words: &[&[u8]], left: u32) -> Result<(u32, Dec), SolReason>
        requires { self.now.awaited ≡ Awaited.Values left }
        ensures pair { IfOk result (λ t. pair_in (texts words.now) ≡ Some t) }
        ensures below { IfOk result (λ t. t.0 < index_limit self.now.sol) }
        ensures room { OnOk result (self.now.value_count < 4194304) }
        ensures fine { OnOk result
            (first_reason (value_tests (seen self.now) (texts words.now)) ≡ None) }
        ensures fault { IfErr result
            (λ r. first_reason (value_tests (seen self.now) (texts words.now)) ≡ Some (Here r)) }
    {
        let count = self.value_count;
        let limit = self.index_limit();
        let whole_only = self.wants_whole();
        judge_pair(words, limit, whole_only, &self.marks, count)
    }

    /// A value of a suffix.
    pub(crate) fn take_value(&mut self, words: &[&[u8]], left: u32) -> Result<(), Stop<Refusal>>
        requires { self.old.awaited ≡ Awaited.Values left }
        ensures { Takes (value_tests (seen self.old) (texts words.now))
            (after_value self.old left (texts words.now)) result self.new }
    {
        let pair = match self.judge_value(words, left) {
            Ok(pair) => pair,
            Err(reason) => return Err(here(reason)),
        };
        let index = pair.0;
        self.draft.add_value(pair)?;
        self.marks.mark(index);
        self.value_count += 1;
        self.awaited = rest_awaits(0, left - 1);
        Ok(())
    }
}
