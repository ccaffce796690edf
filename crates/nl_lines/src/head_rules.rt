// What a head says of the lines after it, by the table of segments.
ghost use Rattle.std.specs.Prelude.{◌≡◌, ◌*◌};
ghost use Rattle.nl_lines.specs.Pieces.{has_tree, keeps_pairs, line_count, line_kind};
ghost use Rattle.nl_lines.specs.PairTests.{is_full_at};
ghost use Rattle.nl_lines.specs.SeenSegments.{mark_of, letters, most_indices};
ghost use Rattle.nl_lines.specs.Segment.{index_of};
ghost use Rattle.nl_lines.specs.Tests.{holds_once, index_limit, is_linear, is_sides, is_suffix, wants_whole_values};

use crate::awaited::Awaited;
use crate::head::Head;
use crate::heads::defined_end;
use crate::segment::{Indices, Lines, Subject, Total, segment_of};
use nl_model::{Counts, object_limit};

/// There are at most so many linear terms, and so many values of suffixes.
pub const MOST_TERMS: u32 = 4_194_304;

// There are so many letters.
const LETTERS: u64 = 11;

/// The indices of pairs are below this.
pub fn index_limit(counts: &Counts, head: Head) -> u32
    ensures { result ≡ index_limit counts.now head }
{
    match segment_of(head).indices {
        Indices::Variables => counts.n_var,
        Indices::Constraints => counts.n_con,
        Indices::Objects(kind) => object_limit(counts.n_var, counts.n_con, counts.n_obj, kind),
    }
}

/// Whether values must be whole.
pub fn wants_whole(head: Head) -> bool
    ensures { result ≡ wants_whole_values head }
{
    match segment_of(head).indices {
        Indices::Objects(kind) => nl_model::wants_whole(kind),
        _ => false,
    }
}

/// Whether an index comes once.
pub fn holds_once(head: Head) -> bool
    ensures { result ≡ holds_once head }
{
    segment_of(head).once
}

/// Whether pairs are linear terms.
pub fn is_linear(head: Head) -> bool
    ensures { result ≡ is_linear head }
{
    match segment_of(head).total {
        Total::Linear => true,
        _ => false,
    }
}

/// Whether pairs are values of a suffix.
pub fn is_suffix(head: Head) -> bool
    ensures { result ≡ is_suffix head }
{
    match segment_of(head).total {
        Total::SuffixValues => true,
        _ => false,
    }
}

/// Whether pairs are kept until the piece is complete.
pub fn keeps_pairs(head: Head) -> bool
    ensures { result ≡ keeps_pairs head }
{
    segment_of(head).kept
}

/// Whether no more pairs may come, where so many linear terms and values of suffixes came.
pub fn is_full(head: Head, linear: u32, values: u32) -> bool
    ensures { result ≡ is_full_at head linear values }
{
    if is_linear(head) {
        return linear >= MOST_TERMS;
    }
    is_suffix(head) && values >= MOST_TERMS
}

/// How many lines follow a head, before any expression.
pub fn line_count(counts: &Counts, head: Head) -> u32
    ensures { result ≡ line_count counts.now head }
{
    match segment_of(head).lines {
        Lines::Pairs(n) => n,
        Lines::EachConstraint => counts.n_con,
        Lines::EachVariable => counts.n_var,
        Lines::Columns(n) => n,
    }
}

/// Whether an expression follows the lines of a head.
pub fn has_tree(head: Head) -> bool
    ensures { result ≡ has_tree head }
{
    segment_of(head).has_tree
}

/// What the lines of a head are, before any expression.
pub fn line_kind(head: Head) -> Awaited
    ensures { result ≡ line_kind head }
{
    match segment_of(head).lines {
        Lines::Pairs(_) => Awaited::Pair,
        Lines::EachConstraint => Awaited::Interval,
        Lines::EachVariable => Awaited::Interval,
        Lines::Columns(_) => Awaited::ColumnCount,
    }
}

/// Whether the lines of a head are the intervals of constraints.
pub fn is_sides(head: Head) -> bool
    ensures { result ≡ is_sides head }
{
    match segment_of(head).lines {
        Lines::EachConstraint => true,
        _ => false,
    }
}

// The index of what a segment is of.
fn index_of(subject: Subject) -> u32
    ensures { result ≡ index_of subject }
{
    match subject {
        Subject::File => 0,
        Subject::Constraint(i) => i,
        Subject::Objective(k) => k,
        Subject::Defined(i) => i,
        // the number of its objects
        Subject::Suffixes(kind) => (kind % 4) as u32,
    }
}

/// Where the mark of a head stands among those of all segments.
pub fn mark_of(head: Head) -> u64
    ensures { result ≡ mark_of head }
{
    let segment = segment_of(head);
    LETTERS * index_of(segment.subject) as u64 + segment.letter as u64
}

/// How many marks there are for the segments of a file.
pub fn mark_count(counts: &Counts) -> u64
    ensures { result ≡ letters * most_indices counts.now }
{
    let rows = counts.n_con.max(counts.n_obj) as u64;
    LETTERS * rows.max(defined_end(counts).max(4))
}
