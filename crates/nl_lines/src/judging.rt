// Judging a pair by the marks of the indices that came.
ghost use Rattle.std.specs.Prelude.{◌≡◌, ◌<◌, ◌≤◌, ◌&&◌, length, get_or, false};
ghost use Rattle.text_base.specs.Judged.{Decides};
ghost use Rattle.text_base.specs.Words.{texts};
ghost use Rattle.nl_lines.specs.PairTests.{SaysFreshPair, next_pair_tests};
ghost use Rattle.nl_lines.specs.Tests.{holds_once, index_limit};

use crate::fault::NlReason;
use crate::head::Head;
use crate::head_rules::{holds_once, index_limit, wants_whole};
use crate::pairs::read_pair;
use exact_numbers::Dec;
use nl_model::Counts;
use text_base::Marks;

// Whether the index came before, where it comes once.
fn is_repeated(head: Head, marks: &Marks, index: u32) -> bool
    requires { index < length marks.now }
    ensures { result ≡ (holds_once head && get_or marks.now index false) }
{
    if !holds_once(head) {
        return false;
    }
    marks.is_marked(index)
}

/// The pair of the next line, after the pairs of its piece.
pub fn read_next_pair(
    counts: &Counts,
    head: Head,
    marks: &Marks,
    full: bool,
    words: &[&[u8]],
) -> Result<(u32, Dec), NlReason>
    requires { index_limit counts.now head ≤ length marks.now }
    ensures { Decides (next_pair_tests counts.now head marks.now full (texts words.now))
        (SaysFreshPair counts.now head marks.now full (texts words.now)) result }
{
    let pair = match read_pair(words, index_limit(counts, head), wants_whole(head)) {
        Ok(pair) => pair,
        Err(reason) => return Err(reason),
    };
    if is_repeated(head, marks, pair.0) {
        return Err(NlReason::RepeatedIndex);
    }
    if full {
        return Err(NlReason::TooLarge);
    }
    Ok(pair)
}
