// Numbers at the front of a text, with the byte behind them.
ghost use Rattle.std.specs.Prelude.{◌≡◌, Some, IfSome};
ghost use Rattle.exact_numbers.specs.Numbers.{dec_of, whole_of};
ghost use Rattle.nl_lines.specs.InsideFrontLines.{IsWordBefore};

use exact_numbers::{FrontDec, PlainIndex, front_dec, plain_index};

/// The whole number of the common form before this byte, and how many bytes both are.
#[inline]
pub(crate) fn next_whole(text: &[u8], byte: u8) -> Option<PlainIndex>
    ensures { IfSome result
        (λ p. IsWordBefore 40 byte text.now p.len (λ word. whole_of word ≡ Some p.number)) }
{
    let Some(index) = plain_index(text) else {
        return None;
    };
    if index.len >= text.len() || text[index.len] != byte {
        return None;
    }
    Some(PlainIndex {
        number: index.number,
        len: index.len + 1,
    })
}

/// The number of the common form before this byte, and how many bytes both are.
#[inline(always)]
pub(crate) fn next_dec(text: &[u8], byte: u8) -> Option<FrontDec>
    ensures { IfSome result
        (λ p. IsWordBefore 40 byte text.now p.len (λ word. dec_of word ≡ Some p.value)) }
{
    let Some(number) = front_dec(text) else {
        return None;
    };
    if number.len >= text.len() || text[number.len] != byte {
        return None;
    }
    Some(FrontDec {
        value: number.value,
        len: number.len + 1,
    })
}
