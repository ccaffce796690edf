// A letter and a number alone in the line at the front of a text, read in one pass.
ghost use Rattle.std.specs.Prelude.{◌∷◌, IfSome};
ghost use Rattle.nl_lines.specs.FirstRows.{IsFirstRow};
ghost use Rattle.nl_lines.specs.Leaves.{IsLeafRow};

use crate::front_words::{next_dec, next_whole};
use crate::leaf::Leaf;
use crate::words::{after_first, first_byte};

/// What the line that a text begins with says in an expression, and how many bytes that line and
/// its LF are.
#[derive(Clone, Copy)]
pub struct FirstLeaf {
    pub leaf: Leaf,
    pub len: usize,
}

// A number, after its letter.
#[inline]
fn number_after(rest: &[u8]) -> Option<FirstLeaf>
    ensures { IfSome result
        (λ p. IsFirstRow (110 ∷ rest.now) p.len (λ words. IsLeafRow words p.leaf)) }
{
    let Some(number) = next_dec(rest, b'\n') else {
        return None;
    };
    Some(FirstLeaf {
        leaf: Leaf::Number(number.value),
        len: number.len + 1,
    })
}

// A variable, after its letter.
#[inline]
fn variable_after(rest: &[u8]) -> Option<FirstLeaf>
    ensures { IfSome result
        (λ p. IsFirstRow (118 ∷ rest.now) p.len (λ words. IsLeafRow words p.leaf)) }
{
    let Some(index) = next_whole(rest, b'\n') else {
        return None;
    };
    Some(FirstLeaf {
        leaf: Leaf::Variable(index.number),
        len: index.len + 1,
    })
}

// An opcode, after its letter.
#[inline]
fn opcode_after(rest: &[u8]) -> Option<FirstLeaf>
    ensures { IfSome result
        (λ p. IsFirstRow (111 ∷ rest.now) p.len (λ words. IsLeafRow words p.leaf)) }
{
    let Some(opcode) = next_whole(rest, b'\n') else {
        return None;
    };
    Some(FirstLeaf {
        leaf: Leaf::Opcode(opcode.number),
        len: opcode.len + 1,
    })
}

/// What the line that a text begins with says, where that is the letter of a number, a variable or
/// an opcode and a number of the common form, and ends.
#[inline]
pub fn first_leaf(text: &[u8]) -> Option<FirstLeaf>
    ensures { IfSome result
        (λ p. IsFirstRow text.now p.len (λ words. IsLeafRow words p.leaf)) }
{
    let rest = after_first(text);
    match first_byte(text) {
        b'n' => number_after(rest),
        b'v' => variable_after(rest),
        b'o' => opcode_after(rest),
        _ => None,
    }
}
