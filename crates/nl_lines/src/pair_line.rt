// A line of an index and a value, read at once.
ghost use Rattle.std.specs.Prelude.{◌<◌, IfSome};
ghost use Rattle.nl_lines.specs.FirstPairs.{IsFirstPair};

use exact_numbers::{Dec, front_dec, plain_index};

/// The pair of the line that a text begins with, and how many bytes that line and its LF are.
#[derive(Clone, Copy)]
pub struct FirstPair {
    pub index: u32,
    pub value: Dec,
    pub len: usize,
}

/// The pair of the line that a text begins with, where that is digits, a space and a number of the
/// common form, and ends.
#[inline(always)]
pub fn first_pair(text: &[u8]) -> Option<FirstPair>
    ensures { IfSome result (λ p. IsFirstPair text.now p) }
{
    let Some(index) = plain_index(text) else {
        return None;
    };
    if index.len >= text.len() || text[index.len] != b' ' {
        return None;
    }
    let rest = text.split_at(index.len + 1).1;
    let Some(value) = front_dec(rest) else {
        return None;
    };
    if value.len >= rest.len() || rest[value.len] != b'\n' {
        return None;
    }
    Some(FirstPair {
        index: index.number,
        value: value.value,
        len: index.len + value.len + 2,
    })
}
