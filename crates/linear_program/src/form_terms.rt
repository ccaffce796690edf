// The terms of a form, one by one.
ghost use Rattle.std.specs.Iterator.{YieldsFirst, item_count};
ghost use Rattle.linear_program.specs.Forms.{terms_left};

use crate::decimal_terms::DecimalTerms;
use crate::marked_places::MarkedPlaces;
use exact_numbers::Frac;

/// Where terms stand: in a list, or at the places of a pad.
#[derive(Drop)]
pub enum TermSource<'a> {
    Fractions(&'a [(u32, Frac)]),
    Decimals(&'a DecimalTerms),
    Places(&'a MarkedPlaces),
}

/// The terms of a form, ascending by variable.
#[derive(Drop)]
pub struct FormTerms<'a> {
    pub(crate) source: TermSource<'a>,
    pub(crate) next: usize,
}

impl Iterator for FormTerms<'_> {
    type Item = (u32, Frac);

    ghost next_gives = { YieldsFirst terms_left };

    ghost remaining = { item_count terms_left };

    fn next(&mut self) -> Option<(u32, Frac)> {
        match &self.source {
            TermSource::Fractions(terms) => {
                if self.next >= terms.len() {
                    return None;
                }
                let term = terms[self.next];
                self.next += 1;
                Some(term)
            }
            TermSource::Decimals(terms) => {
                if self.next >= terms.items().len() {
                    return None;
                }
                let term = terms.at(self.next);
                self.next += 1;
                Some(term)
            }
            TermSource::Places(places) => {
                let Some(term) = places.term_from(self.next) else {
                    return None;
                };
                self.next = term.0 as usize + 1;
                Some(term)
            }
        }
    }
}
