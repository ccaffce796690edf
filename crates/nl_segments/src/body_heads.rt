// A row that is a head.
ghost use Rattle.std.specs.Prelude.{◌≡◌, ◌<◌, ◌≤◌, ◌+◌, ◌^◌, length, true, false, Some, None, IfOk, IfErr, OnOk, OnErr};
ghost use Rattle.text_base.specs.Judged.{Decides};
ghost use Rattle.text_base.specs.Names.{IsName};
ghost use Rattle.text_base.specs.Words.{texts};
ghost use Rattle.nl_lines.specs.Heads.{is_head, head_of, is_in_range, name_in};
ghost use Rattle.nl_segments.specs.InsideHeadSteps.{has_come, has_come_suffix, held_head_tests, new_head_tests, begun_current, begun_name, begun_count, begun_draft};
ghost use Rattle.nl_segments.specs.Held.{HoldsSome, TakesRow, body_of};
ghost use Rattle.nl_segments.specs.InsideTermRuns.{TakesLines};
ghost use Rattle.nl_lines.specs.SeenSegments.{IsSeenIn};
ghost use Rattle.nl_lines.specs.Tests.{is_suffix};

use crate::body::BodyReader;
use crate::current::Current;
use crate::seen::Seen;
use nl_lines::{
    Head, NlReason, first_head, has_tree, is_in_range, is_suffix, line_count, read_head,
};
use nl_model::{Counts, NlBuilder, Suffix, Terms};
use std::alloc::{AllocError, Global};
use text_base::{Front, Name, Stop, word_at};

/// A file has at most so many suffixes.
const MOST_SUFFIXES: u32 = 1024;

// Whether a suffix of this head and name was given.
fn has_come_suffix(builder: &NlBuilder, head: Head, name: &[u8]) -> bool
    ensures { result ≡ has_come_suffix builder.now.suffixes head name.now }
{
    match head {
        Head::Suffix(kind, _) => builder.has_suffix(kind, name),
        _ => false,
    }
}

// Whether a segment of this head, or a suffix of this name, came before.
fn has_come(builder: &NlBuilder, seen: &Seen, head: Head, name: &[u8]) -> bool
    requires { IsSeenIn seen.now head }
    ensures { result ≡ has_come seen.now builder.now.suffixes head name.now }
{
    if is_suffix(head) {
        return has_come_suffix(builder, head, name);
    }
    seen.has(head)
}

// What is wrong with a head whose form is right, after so many suffixes.
fn judge(
    builder: &NlBuilder,
    seen: &Seen,
    suffixes: u32,
    head: Head,
    name: &[u8],
) -> Result<(), NlReason>
    requires { is_in_range builder.now.counts head ≡ true → IsSeenIn seen.now head }
    ensures { Decides
        (held_head_tests builder.now.counts seen.now builder.now.suffixes suffixes name.now head)
        (λ _. Unit {0}) result }
{
    if !is_in_range(builder.header().counts(), head) {
        return Err(NlReason::IndexOut);
    }
    if is_suffix(head) && name == b"sosno".as_slice() {
        return Err(NlReason::SosSuffix);
    }
    if has_come(builder, seen, head, name) {
        return Err(NlReason::RepeatedSegment);
    }
    if is_suffix(head) && suffixes >= MOST_SUFFIXES {
        return Err(NlReason::TooLarge);
    }
    Ok(())
}

// The head of these words, where the last piece may be open.
fn new_head(
    builder: &NlBuilder,
    is_open: bool,
    seen: &Seen,
    suffixes: u32,
    words: &[&[u8]],
) -> Result<Head, NlReason>
    requires { (head : Head) → is_in_range builder.now.counts head ≡ true
        → IsSeenIn seen.now head }
    ensures { Decides
        (new_head_tests builder.now.counts is_open seen.now builder.now.suffixes suffixes
        (texts words.now))
        (λ head. head_of builder.now.counts (texts words.now) ≡ Some head) result }
{
    if is_open {
        return Err(NlReason::ShortSegment);
    }
    let head = match read_head(builder.header().counts(), words) {
        Ok(head) => head,
        Err(reason) => return Err(reason),
    };
    match judge(builder, seen, suffixes, head, word_at(words, 2)) {
        Ok(()) => Ok(head),
        Err(reason) => Err(reason),
    }
}

// The name of a suffix.
fn name_of(alloc: Global, text: &[u8]) -> Result<Name, AllocError>
    requires { IsName text.now }
    ensures { IfOk result (λ name. name ≡ text.now) }
{
    match Name::of(alloc, text) {
        Ok(name) => Ok(name),
        Err(Stop::Fault(_)) => unreachable!(),
        Err(Stop::Memory) => Err(AllocError),
    }
}

// The name of a suffix, and none for another head.
fn begun_name(alloc: Global, head: Head, text: &[u8]) -> Result<Option<Name>, AllocError>
    requires { is_suffix head ≡ true → IsName text.now }
    ensures { IfOk result (λ name. name ≡ begun_name head text.now) }
{
    if !is_suffix(head) {
        return Ok(None);
    }
    let name = name_of(alloc, text)?;
    Ok(Some(name))
}

// Gives a suffix without values to the file.
fn give_empty_suffix(
    builder: &mut NlBuilder,
    alloc: Global,
    head: Head,
    text: &[u8],
) -> Result<(), AllocError>
    requires name { is_suffix head ≡ true → IsName text.now }
    requires fresh { has_come_suffix builder.old.suffixes head text.now ≡ false }
    ensures { OnOk result (builder.new ≡ begun_draft builder.old head text.now) }
{
    if let Head::Suffix(kind, 0) = head {
        let name = name_of(alloc, text)?;
        builder.suffix(Suffix {
            kind,
            name,
            values: Terms::new(alloc),
        })?;
    }
    Ok(())
}

// The piece that a head begins, where it awaits a line.
pub(crate) fn begun_current(
    alloc: Global,
    counts: &Counts,
    head: Head,
    line: u32,
) -> Option<Current>
    ensures { result ≡ begun_current counts.now head line }
{
    let left = line_count(counts, head);
    if has_tree(head) || left > 0 {
        return Some(Current::new(alloc, head, line, left));
    }
    None
}

// How many suffixes came, with a head more.
fn begun_count(head: Head, suffixes: u32) -> u32
    requires { is_suffix head ≡ true → suffixes < 1024 }
    ensures { result ≡ begun_count head suffixes }
{
    if is_suffix(head) {
        return suffixes + 1;
    }
    suffixes
}

// Makes room for the terms that a head announces, of which no more are expected than variables.
#[tactic(auto, unfolding(nl_lines::specs::Heads::is_in_range))]
pub(crate) fn make_room(builder: &mut NlBuilder, head: Head) -> Result<(), AllocError>
    requires { is_in_range builder.old.counts head ≡ true }
    ensures { builder.new ≡ builder.old }
{
    let Head::Terms(con, count) = head else {
        return Ok(());
    };
    let room = count.min(builder.header().counts().n_var) as usize;
    builder.make_room(con, room)
}

impl BodyReader {
    /// A row that is a head.
    pub(crate) fn take_head(&mut self, words: &[&[u8]], line: u32) -> Result<(), Stop<NlReason>>
        requires row { is_head (texts words.now) ≡ true }
        requires held { HoldsSome (body_of self.old) }
        ensures { TakesRow (body_of self.old) (texts words.now) line result (body_of self.new) }
    {
        let is_open = self.current.is_some();
        let head = match new_head(&self.builder, is_open, &self.seen, self.suffixes, words) {
            Ok(head) => head,
            Err(reason) => return Err(Stop::Fault(reason)),
        };
        let name = word_at(words, 2);
        self.current = begun_current(self.alloc, self.builder.header().counts(), head, line);
        self.marks.clear();
        self.seen.add(head);
        self.suffixes = begun_count(head, self.suffixes);
        self.name = begun_name(self.alloc, head, name)?;
        make_room(&mut self.builder, head)?;
        self.places.begin(self.alloc, head, line)?;
        give_empty_suffix(&mut self.builder, self.alloc, head, name)?;
        Ok(())
    }

    /// Takes the line at the front of a piece, which has this number, where that is the head of an
    /// expression of a constraint, or of linear terms, and no piece is open; and lines behind it.
    pub(crate) fn take_head_line(&mut self, piece: &[u8], number: u32) -> Front
        requires held { HoldsSome (body_of self.old) }
        requires few { number + length piece.now ≤ 2 ^ 31 + 1 }
        ensures { TakesLines (body_of self.old) piece.now number result (body_of self.new) }
    {
        let Some(first) = first_head(piece) else {
            return Front { len: 0, lines: 0 };
        };
        let head = first.head;
        let is_open = self.current.is_some();
        if is_open {
            return Front { len: 0, lines: 0 };
        }
        let name = b"".as_slice();
        let Ok(()) = judge(&self.builder, &self.seen, self.suffixes, head, name) else {
            return Front { len: 0, lines: 0 };
        };
        let rest = piece.split_at(first.len).1;
        let Some(behind) = self.begin_piece(head, rest, number) else {
            return Front { len: 0, lines: 0 };
        };
        Front {
            len: first.len + behind.len,
            lines: 1 + behind.lines,
        }
    }
}
