// A reader of the rows after the header.
ghost use Rattle.std.specs.Prelude.{◌≡◌, ◌≤◌, ℕ, List, IfOk, replicate, false};
ghost use Rattle.text_base.specs.Words.{texts};
ghost use Rattle.nl_model.specs.Draft.{IsDraft};
ghost use Rattle.nl_lines.specs.declared.head.Head.{Head};
ghost use Rattle.nl_lines.specs.Heads.{is_head};
ghost use Rattle.nl_segments.specs.Held.{HasRow, HoldsSome, IsHeld, IsHeaderOf, Finishes, TakesRow, body_of, only_header};
ghost use Rattle.nl_segments.specs.InsideTaking.{body_awaits};
ghost use Rattle.nl_lines.specs.Tests.{index_limit};
ghost use Rattle.nl_segments.specs.InsideEnding.{body_end_tests};
ghost use Rattle.text_base.specs.Judged.{Decides};

use crate::current::Current;
use crate::ending::{are_sums, is_short};
use crate::nl_read::NlRead;
use crate::places::Places;
use crate::seen::Seen;
use nl_lines::{Awaited, NlReason, is_head};
use nl_model::{Counts, Header, NlBuilder};
use std::alloc::{AllocError, Global};
use text_base::{Marks, Name, Stop};

/// The rows of the body so far: the file, the last piece where it is not complete, and what judging
/// the next row needs.
#[derive(Drop)]
pub struct BodyReader {
    pub(crate) alloc: Global,
    pub(crate) builder: NlBuilder,
    pub(crate) current: Option<Current>,
    pub(crate) name: Option<Name>,
    pub(crate) marks: Marks,
    pub(crate) seen: Seen,
    pub(crate) nodes: u32,
    pub(crate) linear: u32,
    pub(crate) values: u32,
    pub(crate) suffixes: u32,
    pub(crate) columns: Vec<u32>,
    pub(crate) uses: Vec<u32>,
    pub(crate) places: Places,
}

// So many zeros.
fn zeros(alloc: Global, len: usize) -> Result<Vec<u32>, AllocError>
    ensures { IfOk result (λ v. v.items ≡ replicate len 0) }
{
    Vec::from_elem(alloc, 0u32, len)
}

// The indices of each piece are below this.
fn most_indices(counts: &Counts) -> usize
    ensures { (head : Head) → index_limit counts.now head ≤ result }
{
    let most = counts.n_var.max(counts.n_con).max(counts.n_obj);
    most.max(1) as usize
}

impl BodyReader {
    /// A reader of the rows after this header.
    pub(crate) fn new(alloc: Global, header: Header) -> Result<BodyReader, AllocError>
        ensures { IfOk result
            (λ b. (rows : List (List (List ℕ))) → IsHeaderOf rows header.options header.counts
            → IsHeld (only_header rows) (body_of b)) }
    {
        let counts = *header.counts();
        let marks = Marks::new(alloc, most_indices(&counts))?;
        let seen = Seen::new(alloc, &counts)?;
        let uses = zeros(alloc, counts.n_var as usize)?;
        let places = Places::new(alloc, &counts)?;
        let builder = NlBuilder::new(alloc, header)?;
        Ok(BodyReader {
            alloc,
            builder,
            current: None,
            name: None,
            marks,
            seen,
            nodes: 0,
            linear: 0,
            values: 0,
            suffixes: 0,
            columns: Vec::new(alloc),
            uses,
            places,
        })
    }

    /// Takes the row of these words in this line.
    pub(crate) fn take(&mut self, words: &[&[u8]], line: u32) -> Result<(), Stop<NlReason>>
        requires held { HoldsSome (body_of self.old) }
        requires exists { HasRow (texts words.now) line }
        ensures { TakesRow (body_of self.old) (texts words.now) line result (body_of self.new) }
    {
        if is_head(words) {
            return self.take_head(words, line);
        }
        self.take_plain(words, line)
    }

    // Takes a row that is no head.
    fn take_plain(&mut self, words: &[&[u8]], line: u32) -> Result<(), Stop<NlReason>>
        requires row { is_head (texts words.now) ≡ false }
        requires held { HoldsSome (body_of self.old) }
        requires exists { HasRow (texts words.now) line }
        ensures { TakesRow (body_of self.old) (texts words.now) line result (body_of self.new) }
    {
        match self.awaited() {
            Awaited::Pair => self.take_pair(words, line),
            Awaited::ColumnCount => self.take_column(words, line),
            Awaited::Interval => self.take_interval(words, line),
            Awaited::Node => self.take_node(words, line),
            Awaited::OperandCount => self.take_operand_count(words, line),
            Awaited::Nothing => Err(Stop::Fault(NlReason::ExtraLine)),
        }
    }

    /// The line that is awaited.
    pub(crate) fn awaited(&self) -> Awaited
        ensures { result ≡ body_awaits self.now.current }
    {
        match &self.current {
            Some(current) => current.awaited(),
            None => Awaited::Nothing,
        }
    }

    // What is missing at the end.
    fn judge_end(&self) -> Result<(), NlReason>
        ensures draft { IsDraft self.now.builder }
        ensures judged { Decides (body_end_tests (body_of self.now)) (λ _. Unit {0}) result }
    {
        let terms = self.builder.header().counts().nzc;
        if self.awaited() != Awaited::Nothing {
            return Err(NlReason::ShortSegment);
        }
        if is_short(&self.builder) {
            return Err(NlReason::Missing);
        }
        if self.builder.terms() != terms {
            return Err(NlReason::NonzeroCount);
        }
        if !are_sums(&self.columns, &self.uses) {
            return Err(NlReason::ColumnCount);
        }
        Ok(())
    }

    // The file and the lines of its places alone.
    fn into_parts(self) -> (NlBuilder, Places)
        ensures builder { result.0 ≡ self.builder }
        ensures places { result.1 ≡ self.places }
    {
        (self.builder, self.places)
    }

    /// The file and the lines of its places, at the end of the text.
    pub(crate) fn finish(self) -> Result<NlRead, Stop<NlReason>>
        ensures { Finishes (body_of self) result }
    {
        let judged = self.judge_end();
        let (builder, places) = self.into_parts();
        match judged {
            Ok(()) => Ok(NlRead {
                file: builder.finish(),
                places,
            }),
            Err(reason) => Err(Stop::Fault(reason)),
        }
    }
}
