// Lines of an index and a value.
ghost use Rattle.std.specs.Prelude.{◌≡◌, ◌<◌, ◌&&◌, not, Some};
ghost use Rattle.text_base.specs.Judged.{Decides};
ghost use Rattle.text_base.specs.Words.{texts};
ghost use Rattle.nl_lines.specs.Pieces.{pair_in};
ghost use Rattle.nl_lines.specs.Tests.{pair_form_tests};
ghost use Rattle.exact_numbers.specs.Numbers.{is_whole};

use crate::fault::NlReason;
use crate::words::number_at;
use exact_numbers::{Dec, are_digits, dec_of};
use text_base::word_at;

fn is_whole(value: Dec) -> bool
    ensures { result ≡ is_whole value }
{
    value.is_whole()
}

/// Whether a value is not whole where it must be.
pub fn is_refused(value: Dec, whole_only: bool) -> bool
    ensures { result ≡ (whole_only && not (is_whole value)) }
{
    whole_only && !is_whole(value)
}

/// The pair of a line, where indices are below a limit and values may have to be whole.
#[tactic(auto, unfolding(crate::specs::Tests::pair_form_tests, crate::specs::Pieces::pair_in))]
pub fn read_pair(words: &[&[u8]], limit: u32, whole_only: bool) -> Result<(u32, Dec), NlReason>
    ensures { Decides (pair_form_tests limit whole_only (texts words.now))
        (λ t. (pair_in (texts words.now) ≡ Some t) × (t.0 < limit)) result }
{
    if words.len() != 2 || !are_digits(word_at(words, 0)) {
        return Err(NlReason::BadLine);
    }
    let Some(index) = number_at(words, 0) else {
        return Err(NlReason::IndexOut);
    };
    if index >= limit {
        return Err(NlReason::IndexOut);
    }
    let Some(value) = dec_of(word_at(words, 1)) else {
        return Err(NlReason::BadNumber);
    };
    if is_refused(value, whole_only) {
        return Err(NlReason::BadNumber);
    }
    Ok((index, value))
}
