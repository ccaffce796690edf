// Lines of one whole number.
ghost use Rattle.std.specs.Prelude.{◌≡◌, ◌^◌, ◌&&◌, nat_le, nat_lt, Some};
ghost use Rattle.text_base.specs.Judged.{Decides};
ghost use Rattle.text_base.specs.Words.{texts, word_at};
ghost use Rattle.exact_numbers.specs.Numbers.{whole_of};
ghost use Rattle.nl_lines.specs.Tests.{SaysOperandCount, column_tests, operand_tests};

use crate::fault::NlReason;
use crate::words::number_at;
use exact_numbers::are_digits;
use text_base::word_at;

/// An operator has at most so many operands.
const MOST_OPERANDS: u32 = 4_194_304;

/// The number of a column.
#[tactic(auto, unfolding(crate::specs::Tests::column_tests))]
pub fn read_column(words: &[&[u8]]) -> Result<u32, NlReason>
    ensures { Decides (column_tests (texts words.now))
        (λ n. whole_of (word_at (texts words.now) 0) ≡ Some n) result }
{
    if words.len() != 1 || !are_digits(word_at(words, 0)) {
        return Err(NlReason::BadLine);
    }
    let Some(number) = number_at(words, 0) else {
        return Err(NlReason::BadNumber);
    };
    Ok(number)
}

/// The number of operands of an opcode.
#[tactic(auto, unfolding(crate::specs::Tests::operand_tests))]
pub fn read_operand_count(words: &[&[u8]]) -> Result<u32, NlReason>
    ensures { Decides (operand_tests (texts words.now))
        (SaysOperandCount (texts words.now)) result }
{
    if words.len() != 1 || !are_digits(word_at(words, 0)) {
        return Err(NlReason::BadLine);
    }
    let Some(count) = number_at(words, 0) else {
        return Err(NlReason::TooLarge);
    };
    if count == 0 {
        return Err(NlReason::BadNumber);
    }
    if count > MOST_OPERANDS {
        return Err(NlReason::TooLarge);
    }
    Ok(count)
}

/// Whether an operator may have so many operands.
#[inline]
pub fn is_operand_count(count: u32) -> bool
    ensures { result ≡ (nat_lt 0 count && nat_le count (2 ^ 22)) }
{
    0 < count && count <= MOST_OPERANDS
}
