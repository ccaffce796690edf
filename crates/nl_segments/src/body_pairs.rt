// A line of an index and a value.
ghost use Rattle.std.specs.Prelude.{ℕ, List, ◌≡◌, ◌<◌, length, true, false, Some, None, IsSome, IsSomeAnd, IfSome, OnOk, OnErr, if◌then◌else◌};
ghost use Rattle.text_base.specs.Words.{texts};
ghost use Rattle.nl_model.specs.Rules.{most_terms};
ghost use Rattle.nl_lines.specs.declared.awaited.Awaited.TheVariants.{Pair};
ghost use Rattle.nl_segments.specs.Current.{current_awaits};
ghost use Rattle.nl_lines.specs.Heads.{is_head};
ghost use Rattle.nl_segments.specs.Held.{HasRow, HoldsSome, IsAwaiting, TakesRow, body_of};
ghost use Rattle.nl_segments.specs.InsideKnownPairs.{HasGoodPair, IsGoodPair};
ghost use Rattle.nl_segments.specs.InsideLineSteps.{unless_complete};
ghost use Rattle.nl_segments.specs.InsidePairSteps.{CanClose, CanGive, CanUse, one_more, with_closed, with_given, with_kept, with_mark, with_suffix, with_use};
ghost use Rattle.nl_lines.specs.Pieces.{is_nothing};

use crate::body::BodyReader;
use crate::current::Current;
use exact_numbers::Dec;
use nl_lines::{
    Head, NlReason, holds_once, is_full, is_linear, is_nothing, is_suffix, keeps_pairs,
    read_next_pair,
};
use nl_model::{NlBuilder, Suffix};
use std::alloc::AllocError;
use text_base::{Marks, Name, Stop};

// Gives the file a pair that is not kept.
#[inline(always)]
pub(crate) fn give_pair(
    builder: &mut NlBuilder,
    head: Head,
    pair: (u32, Dec),
) -> Result<(), AllocError>
    requires { CanGive builder.old head pair }
    ensures ok { OnOk result (builder.new ≡ with_given builder.old head pair) }
    ensures err { OnErr result (builder.new ≡ builder.old) }
{
    match head {
        Head::DualGuesses(_) => builder.dual_guess(pair.0, pair.1),
        Head::PrimalGuesses(_) => builder.primal_guess(pair.0, pair.1),
        Head::Terms(i, _) => builder.term(i, pair.0, pair.1),
        Head::Slopes(k, _) => builder.slope(k, pair.0, pair.1),
        _ => Ok(()),
    }
}

// Counts a line of the piece, and keeps its pair where the head says so.
fn keep_pair(held: &mut Current, pair: (u32, Dec)) -> Result<(), AllocError>
    requires { 0 < held.old.left }
    ensures { OnOk result (held.new ≡ with_kept held.old pair) }
{
    if keeps_pairs(held.head()) {
        return held.take_pair(pair);
    }
    held.take_line();
    Ok(())
}

// Gives the file the suffix of a piece that is complete.
fn give_suffix(builder: &mut NlBuilder, name: Option<Name>, held: Current) -> Result<(), AllocError>
    requires complete { is_nothing (current_awaits held) ≡ true }
    requires can { CanClose builder.old name held held.head }
    ensures { OnOk result (builder.new ≡ with_suffix builder.old name held held.head) }
{
    let Head::Suffix(kind, _) = held.head() else {
        return Ok(());
    };
    let Some(name) = name else { unreachable!() };
    builder.suffix(Suffix {
        kind,
        name,
        values: held.into_pairs(),
    })
}

// Takes a pair into the piece. A piece that is complete is not held any more.
fn close_line(
    builder: &mut NlBuilder,
    name: &mut Option<Name>,
    current: &mut Option<Current>,
    pair: (u32, Dec),
) -> Result<(), AllocError>
    requires left { IsSomeAnd current.old (λ c. 0 < c.left) }
    requires can { IfSome current.old
        (λ c. CanClose builder.old name.old (with_kept c pair) c.head) }
    ensures current { OnOk result
        (IfSome current.old (λ c. current.new ≡ unless_complete (with_kept c pair))) }
    ensures builder { OnOk result
        (IfSome current.old
        (λ c. builder.new ≡ with_closed builder.old name.old (with_kept c pair))) }
    ensures name { OnOk result
        (IfSome current.old
        (λ c. name.new
        ≡ (if is_nothing (current_awaits (with_kept c pair)) then None else name.old))) }
{
    let Some(held) = current else { unreachable!() };
    keep_pair(held, pair)?;
    if !is_nothing(held.awaited()) {
        return Ok(());
    }
    let Some(whole) = current.take() else {
        unreachable!()
    };
    give_suffix(builder, name.take(), whole)
}

// Marks an index that comes once.
fn mark(marks: &mut Marks, head: Head, index: u32)
    requires { index < length marks.old }
    ensures { marks.new ≡ with_mark head marks.old index }
{
    if holds_once(head) {
        marks.mark(index);
    }
}

// Counts a use of a variable in the terms of a constraint.
#[inline]
pub(crate) fn count_use(uses: &mut Vec<u32>, head: Head, var: u32)
    requires { CanUse head uses.old.items var }
    ensures { uses.new.items ≡ with_use head uses.old.items var }
{
    match head {
        Head::Terms(_, _) => uses[var as usize] += 1,
        _ => {}
    }
}

// Counts one more, where it counts.
fn count(total: &mut u32, counts: bool)
    requires { counts ≡ true → total.old < most_terms }
    ensures { total.new ≡ one_more counts total.old }
{
    if counts {
        *total += 1;
    }
}

impl BodyReader {
    /// A line of an index and a value.
    pub(crate) fn take_pair(&mut self, words: &[&[u8]], line: u32) -> Result<(), Stop<NlReason>>
        requires awaited { IsAwaiting Pair (body_of self.old) }
        requires row { is_head (texts words.now) ≡ false }
        requires held { HoldsSome (body_of self.old) }
        requires exists { HasRow (texts words.now) line }
        ensures { TakesRow (body_of self.old) (texts words.now) line result (body_of self.new) }
    {
        let Some(current) = &self.current else {
            unreachable!()
        };
        let head = current.head();
        let full = is_full(head, self.linear, self.values);
        let counts = self.builder.header().counts();
        let pair = match read_next_pair(counts, head, &self.marks, full, words) {
            Ok(pair) => pair,
            Err(reason) => return Err(Stop::Fault(reason)),
        };
        self.keep(head, pair, line)
    }

    // Keeps a pair with which nothing is wrong, in a piece of this head.
    fn keep(&mut self, head: Head, pair: (u32, Dec), line: u32) -> Result<(), Stop<NlReason>>
        requires awaited { IsAwaiting Pair (body_of self.old) }
        requires held { HoldsSome (body_of self.old) }
        requires head { IsSomeAnd self.old.current (λ c. head ≡ c.head) }
        requires good { HasGoodPair (body_of self.old) head pair line }
        ensures { (words : List (List ℕ)) → IsGoodPair (body_of self.old) head pair words
            → TakesRow (body_of self.old) words line result (body_of self.new) }
    {
        let index = pair.0;
        let given = pair;
        give_pair(&mut self.builder, head, given)?;
        self.places.add_term(head, line)?;
        close_line(&mut self.builder, &mut self.name, &mut self.current, pair)?;
        mark(&mut self.marks, head, index);
        count_use(&mut self.uses, head, index);
        count(&mut self.linear, is_linear(head));
        count(&mut self.values, is_suffix(head));
        Ok(())
    }
}
