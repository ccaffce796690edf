// A head of the common form at the front of a text, read in one pass.
ghost use Rattle.std.specs.Prelude.{◌≡◌, ◌<◌, ◌∷◌, [], ℕ, List, Some, IfSome};
ghost use Rattle.exact_numbers.specs.Numbers.{whole_of};
ghost use Rattle.nl_lines.specs.FirstRows.{IsFirstRow};
ghost use Rattle.nl_lines.specs.HeadRows.{IsHeadRow};

use crate::front_words::next_whole;
use crate::head::Head;
use crate::words::{after_first, first_byte};

/// The head of the line that a text begins with, and how many bytes that line and its LF are.
#[derive(Clone, Copy)]
pub struct FirstHead {
    pub head: Head,
    pub len: usize,
}

// The head of this letter and a number.
#[inline]
fn body_after(rest: &[u8]) -> Option<FirstHead>
    ensures { IfSome result
        (λ p. IsFirstRow (67 ∷ rest.now) p.len (λ words. IsHeadRow words p.head)) }
{
    let Some(index) = next_whole(rest, b'\n') else {
        return None;
    };
    Some(FirstHead {
        head: Head::Body(index.number),
        len: index.len + 1,
    })
}

// The head of a letter and two numbers.
#[inline]
fn head_of(letter: u8, index: u32, count: u32) -> Option<Head>
    ensures { IfSome result (λ head. (first second : List ℕ) → whole_of first ≡ Some index
        → whole_of second ≡ Some count → IsHeadRow ((letter ∷ first) ∷ second ∷ []) head) }
{
    match letter {
        b'J' => Some(Head::Terms(index, count)),
        b'G' => Some(Head::Slopes(index, count)),
        _ => None,
    }
}

// The head of a letter and the two numbers behind it.
#[inline]
fn terms_after(letter: u8, rest: &[u8]) -> Option<FirstHead>
    requires { 35 < letter }
    ensures { IfSome result
        (λ p. IsFirstRow (letter ∷ rest.now) p.len (λ words. IsHeadRow words p.head)) }
{
    let Some(index) = next_whole(rest, b' ') else {
        return None;
    };
    let Some(count) = next_whole(rest.split_at(index.len).1, b'\n') else {
        return None;
    };
    let Some(head) = head_of(letter, index.number, count.number) else {
        return None;
    };
    Some(FirstHead {
        head,
        len: index.len + count.len + 1,
    })
}

/// The head of the line that a text begins with, where that is of an expression of a constraint, or
/// of linear terms, and ends.
#[inline]
pub fn first_head(text: &[u8]) -> Option<FirstHead>
    ensures { IfSome result
        (λ p. IsFirstRow text.now p.len (λ words. IsHeadRow words p.head)) }
{
    let rest = after_first(text);
    match first_byte(text) {
        b'C' => body_after(rest),
        b'J' => terms_after(b'J', rest),
        b'G' => terms_after(b'G', rest),
        _ => None,
    }
}
