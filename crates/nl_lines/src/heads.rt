// Reading the heads of segments.
ghost use Rattle.std.specs.Prelude.{◌≡◌, ◌+◌, ◌&&◌, nat_le, nat_lt, Some};
ghost use Rattle.text_base.specs.Judged.{Decides};
ghost use Rattle.nl_lines.specs.Tests.{head_form_tests};
ghost use Rattle.nl_model.specs.HeaderRules.{defined_count};
ghost use Rattle.text_base.specs.Words.{texts};
ghost use Rattle.nl_lines.specs.Heads.{bare_head, numbered_head, counted_head, definition_head, of_columns, suffix_head, with_sense, head_of, is_in_range};
ghost use Rattle.nl_lines.specs.declared.head.Head.TheVariants.{Body, DualGuesses, PrimalGuesses, Sides, Bounds, Terms, Slopes};

use crate::fault::NlReason;
use crate::head::Head;
use crate::segment::{Subject, segment_of};
use crate::words::{is_refused_letter, is_segment_letter, letter_of, number_at, own_number};
use nl_model::Counts;
use text_base::{is_name, word_at};

// The head of a letter alone.
fn bare_head(head: Head, words: &[&[u8]]) -> Option<Head>
    ensures { result ≡ bare_head head (texts words.now) }
{
    if words.len() == 1 && word_at(words, 0).len() == 1 {
        return Some(head);
    }
    None
}

// An objective.
fn objective_head(words: &[&[u8]]) -> Option<Head>
    ensures { result ≡ counted_head with_sense (texts words.now) }
{
    if words.len() != 2 {
        return None;
    }
    let Some(k) = own_number(words) else {
        return None;
    };
    let Some(sense) = number_at(words, 1) else {
        return None;
    };
    if sense > 1 {
        return None;
    }
    Some(Head::Objective(k, sense == 1))
}

// A defined variable.
fn definition_head(words: &[&[u8]]) -> Option<Head>
    ensures { result ≡ definition_head (texts words.now) }
{
    if words.len() != 3 {
        return None;
    }
    let Some(index) = own_number(words) else {
        return None;
    };
    let Some(terms) = number_at(words, 1) else {
        return None;
    };
    let Some(usage) = number_at(words, 2) else {
        return None;
    };
    Some(Head::Definition(index, terms, usage))
}

// The counts of columns.
fn column_head(counts: &Counts, words: &[&[u8]]) -> Option<Head>
    ensures { result ≡ numbered_head (of_columns counts.now) (texts words.now) }
{
    if words.len() != 1 {
        return None;
    }
    let Some(n) = own_number(words) else {
        return None;
    };
    if n as u64 + 1 != counts.n_var as u64 {
        return None;
    }
    Some(Head::ColumnCounts(n))
}

// A suffix.
fn suffix_head(words: &[&[u8]]) -> Option<Head>
    ensures { result ≡ suffix_head (texts words.now) }
{
    if words.len() != 3 || !is_name(word_at(words, 2)) {
        return None;
    }
    let Some(kind) = own_number(words) else {
        return None;
    };
    let Some(n) = number_at(words, 1) else {
        return None;
    };
    if kind > 255 {
        return None;
    }
    Some(Head::Suffix(kind as u8, n))
}

/// What a head says, where its form is right.
#[tactic(auto, unfolding(crate::specs::Heads::head_of))]
pub fn head_of(counts: &Counts, words: &[&[u8]]) -> Option<Head>
    ensures { result ≡ head_of counts.now (texts words.now) }
{
    match letter_of(words) {
        b'C' => body_head(words),
        b'O' => objective_head(words),
        b'V' => definition_head(words),
        b'd' => dual_head(words),
        b'x' => primal_head(words),
        b'r' => bare_head(Head::Sides, words),
        b'b' => bare_head(Head::Bounds, words),
        b'k' => column_head(counts, words),
        b'J' => terms_head(words),
        b'G' => slopes_head(words),
        b'S' => suffix_head(words),
        _ => None,
    }
}

// The expression of a constraint.
fn body_head(words: &[&[u8]]) -> Option<Head>
    ensures { result ≡ numbered_head (λ i. Some (Body i)) (texts words.now) }
{
    if words.len() != 1 {
        return None;
    }
    match own_number(words) {
        Some(i) => Some(Head::Body(i)),
        None => None,
    }
}

// Guesses of dual values.
fn dual_head(words: &[&[u8]]) -> Option<Head>
    ensures { result ≡ numbered_head (λ n. Some (DualGuesses n)) (texts words.now) }
{
    if words.len() != 1 {
        return None;
    }
    match own_number(words) {
        Some(n) => Some(Head::DualGuesses(n)),
        None => None,
    }
}

// Guesses of values of variables.
fn primal_head(words: &[&[u8]]) -> Option<Head>
    ensures { result ≡ numbered_head (λ n. Some (PrimalGuesses n)) (texts words.now) }
{
    if words.len() != 1 {
        return None;
    }
    match own_number(words) {
        Some(n) => Some(Head::PrimalGuesses(n)),
        None => None,
    }
}

// The terms of a constraint.
fn terms_head(words: &[&[u8]]) -> Option<Head>
    ensures { result ≡ counted_head (λ i n. Some (Terms i n)) (texts words.now) }
{
    if words.len() != 2 {
        return None;
    }
    let Some(i) = own_number(words) else {
        return None;
    };
    let Some(n) = number_at(words, 1) else {
        return None;
    };
    Some(Head::Terms(i, n))
}

// The terms of an objective.
fn slopes_head(words: &[&[u8]]) -> Option<Head>
    ensures { result ≡ counted_head (λ k n. Some (Slopes k n)) (texts words.now) }
{
    if words.len() != 2 {
        return None;
    }
    let Some(k) = own_number(words) else {
        return None;
    };
    let Some(n) = number_at(words, 1) else {
        return None;
    };
    Some(Head::Slopes(k, n))
}

/// The indices of defined variables are below this.
pub fn defined_end(counts: &Counts) -> u64
    ensures { result ≡ counts.now.n_var + defined_count counts.now }
{
    let defined = counts.comb as u64
        + counts.comc as u64
        + counts.como as u64
        + counts.comc1 as u64
        + counts.como1 as u64;
    counts.n_var as u64 + defined
}

// Whether the index is that of a defined variable.
fn is_definition_index(counts: &Counts, index: u32) -> bool
    ensures { result
        ≡ (nat_le counts.now.n_var index
        && nat_lt index (counts.now.n_var + defined_count counts.now)) }
{
    counts.n_var <= index && (index as u64) < defined_end(counts)
}

/// Whether the index of a head is one of the file's.
#[tactic(auto, unfolding(crate::specs::Heads::is_in_range))]
pub fn is_in_range(counts: &Counts, head: Head) -> bool
    ensures { result ≡ is_in_range counts.now head }
{
    match segment_of(head).subject {
        Subject::File => true,
        Subject::Constraint(i) => i < counts.n_con,
        Subject::Objective(k) => k < counts.n_obj,
        Subject::Defined(i) => is_definition_index(counts, i),
        Subject::Suffixes(_) => true,
    }
}

/// What a head says, or what is wrong with its form.
#[tactic(auto, unfolding(crate::specs::Tests::head_form_tests))]
pub fn read_head(counts: &Counts, words: &[&[u8]]) -> Result<Head, NlReason>
    ensures { Decides (head_form_tests counts.now (texts words.now))
        (λ head. head_of counts.now (texts words.now) ≡ Some head) result }
{
    let letter = letter_of(words);
    if is_refused_letter(letter) {
        return Err(NlReason::RefusedSegment);
    }
    if !is_segment_letter(letter) {
        return Err(NlReason::UnknownSegment);
    }
    match head_of(counts, words) {
        Some(head) => Ok(head),
        None => Err(NlReason::BadHead),
    }
}
