// Records of bounds.
ghost use Rattle.std.specs.Prelude.{◌≡◌, ◌∷◌, [], true, false, MatchOption, Some, IfSome};
ghost use Rattle.text_base.specs.Names.{IsName};
ghost use Rattle.text_base.specs.Words.{texts};
ghost use Rattle.mps_words.specs.DataLines.{bound_kind_of, bound_place, bound_set, bound_value, has_bad_number, has_bound_form, has_bound_set, needs_number, no_number};

use exact_numbers::{Dec, dec_of};
use mps_model::BoundKind;
use text_base::word_at;

/// The kind of a bound that two letters name.
#[inline]
#[tactic(auto, unfolding(crate::specs::DataLines::bound_kind_of, crate::specs::DataLines::later_bound_kind_of))]
pub fn bound_kind_of_two(first: u8, second: u8) -> Option<BoundKind>
    ensures kind { result ≡ bound_kind_of (first ∷ second ∷ []) }
    ensures name { IfSome result (λ k. IsName (first ∷ second ∷ [])) }
{
    match (first, second) {
        (b'L', b'O') => Some(BoundKind::Lo),
        (b'U', b'P') => Some(BoundKind::Up),
        (b'F', b'X') => Some(BoundKind::Fx),
        (b'L', b'I') => Some(BoundKind::Li),
        (b'U', b'I') => Some(BoundKind::Ui),
        (b'F', b'R') => Some(BoundKind::Fr),
        (b'M', b'I') => Some(BoundKind::Mi),
        (b'P', b'L') => Some(BoundKind::Pl),
        (b'B', b'V') => Some(BoundKind::Bv),
        _ => None,
    }
}

/// The kind of a bound that a word names.
#[tactic(auto, unfolding(crate::specs::DataLines::bound_kind_of, crate::specs::DataLines::later_bound_kind_of))]
pub fn bound_kind_of(word: &[u8]) -> Option<BoundKind>
    ensures { result ≡ bound_kind_of word.now }
{
    match word {
        [first, second] => bound_kind_of_two(*first, *second),
        _ => None,
    }
}

/// Whether records of this kind have a number.
#[inline]
pub fn needs_number(kind: BoundKind) -> bool
    ensures { result ≡ needs_number kind }
{
    match kind {
        BoundKind::Lo | BoundKind::Up | BoundKind::Fx | BoundKind::Li | BoundKind::Ui => true,
        BoundKind::Fr | BoundKind::Mi | BoundKind::Pl | BoundKind::Bv => false,
    }
}

// Whether a record has a set name.
fn has_bound_set(kind: BoundKind, words: &[&[u8]]) -> bool
    ensures { result ≡ has_bound_set kind (texts words.now) }
{
    if needs_number(kind) {
        return words.len() == 4;
    }
    words.len() >= 3
}

/// The set name of a record; the empty one where it is missing.
pub fn bound_set<'a>(kind: BoundKind, words: &[&'a [u8]]) -> &'a [u8]
    ensures { result.now ≡ bound_set kind (texts words.now) }
{
    if has_bound_set(kind, words) {
        return word_at(words, 1);
    }
    b"".as_slice()
}

/// The place of the column's name.
pub fn bound_place(kind: BoundKind, words: &[&[u8]]) -> usize
    ensures { result ≡ bound_place kind (texts words.now) }
{
    if has_bound_set(kind, words) { 2 } else { 1 }
}

/// Whether a record has as many words as one of its kind may have.
pub fn has_bound_form(kind: BoundKind, words: &[&[u8]]) -> bool
    ensures { result ≡ has_bound_form kind (texts words.now) }
{
    let least = if needs_number(kind) { 3 } else { 2 };
    least <= words.len() && words.len() <= 4
}

/// The number of a record that needs none.
pub fn no_number() -> Dec
    ensures { no_number ≡ Some result }
{
    Dec::zero()
}

/// The number of a record. A number that is ignored must be one, too.
pub fn read_number(kind: BoundKind, words: &[&[u8]]) -> Option<Dec>
    requires { has_bound_form kind (texts words.now) ≡ true }
    ensures { MatchOption result (has_bad_number kind (texts words.now) ≡ true)
        (λ d. (has_bad_number kind (texts words.now) ≡ false)
        × (bound_value kind (texts words.now) ≡ Some d)) }
{
    let place = bound_place(kind, words) + 1;
    if place < words.len() {
        let Some(number) = dec_of(word_at(words, place)) else {
            return None;
        };
        if needs_number(kind) {
            return Some(number);
        }
    }
    Some(no_number())
}
