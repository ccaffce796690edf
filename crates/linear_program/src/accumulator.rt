// A sparse accumulator: the coefficients of a sum, each at the place of its variable.
ghost use Rattle.std.specs.Prelude.{◌≡◌, ◌≢◌, ◌<◌, ℕ, [], length, IfOk, OnErr, OnOk, true};
ghost use Rattle.exact_numbers.specs.Values.{frac_value};
ghost use Rattle.exact_numbers.specs.Rational.{zero_ℚ};
ghost use Rattle.linear_program.specs.Coefs.{AddsAt, AreAscending, AreBelow, coef_in};
ghost use Rattle.linear_program.specs.Forms.{terms_left};
ghost use Rattle.linear_program.specs.Places.{AreZeros, all_places, place_in, put_all, terms_from};

use crate::coefficients::Coefficients;
use crate::form_terms::{FormTerms, TermSource};
use crate::fraction_terms::FractionTerms;
use crate::marked_places::MarkedPlaces;
use crate::too_wide::Wide;
use exact_numbers::Frac;
use std::alloc::{AllocError, Global};
use std::marker::Model;
use text_base::Stop;

/// A place for each variable, and terms that are not yet put at theirs: while the variables that
/// are added ascend, their terms are only listed. The places are made when the first term is put.
#[derive(Drop)]
pub struct Accumulator {
    alloc: Global,
    count: u32,
    empty: Frac,
    places: MarkedPlaces,
    listed: FractionTerms,
}

impl Model for Accumulator {
    ghost use Rattle.std.specs.Prelude.{List};
    ghost use Rattle.exact_numbers.specs.declared.frac.Frac.{Frac as FracFields};
    ghost use Rattle.linear_program.specs.Places.{AreListed, all_places, put_all};

    ghost Value = { List FracFields };

    ghost view = { λ w. put_all w.listed (all_places w.count w.empty w.places) };

    ghost invariant = { λ w. AreListed w.count w.empty w.places w.listed };
}

impl Accumulator {
    /// So many places, which hold 0.
    pub(crate) fn new(alloc: Global, count: u32) -> Accumulator
        ensures zeros { AreZeros result }
        ensures count { length result ≡ count }
    {
        Accumulator {
            alloc,
            count,
            empty: Frac::zero(),
            places: MarkedPlaces::without_places(alloc),
            listed: FractionTerms::new(alloc),
        }
    }

    /// Adds a factor to the coefficient of a variable.
    pub(crate) fn add(&mut self, variable: u32, factor: Frac) -> Result<(), Stop<Wide>>
        requires { variable < length self.old }
        ensures adds { AddsAt (place_in self.old) variable (frac_value factor) (place_in self.new)
            result }
        ensures count { length self.new ≡ length self.old }
    {
        if factor.is_zero() {
            return Ok(());
        }
        if !comes_last(&self.listed, &self.places, variable) {
            return self.add_at(variable, factor);
        }
        let Ok(()) = self.listed.push(variable, factor) else {
            return Err(Stop::Memory);
        };
        Ok(())
    }

    // The same, at its place.
    fn add_at(&mut self, variable: u32, factor: Frac) -> Result<(), Stop<Wide>>
        requires { variable < length self.old }
        ensures adds { AddsAt (place_in self.old) variable (frac_value factor) (place_in self.new)
            result }
        ensures count { length self.new ≡ length self.old }
    {
        let put = put_listed(
            self.alloc,
            self.count,
            self.empty,
            &mut self.places,
            &self.listed,
        );
        self.listed.clear();
        let Ok(()) = put else {
            return Err(Stop::Memory);
        };
        self.places.add(variable, factor)
    }

    /// Sets each place to 0.
    pub(crate) fn clear(&mut self)
        ensures zeros { AreZeros self.new }
        ensures count { length self.new ≡ length self.old }
    {
        self.listed.clear();
        self.places.clear();
    }

    // The terms one by one.
    pub(crate) fn terms(&self) -> FormTerms<'_>
        ensures terms { terms_left result ≡ terms_from 0 self.now }
        ensures ascending { AreAscending 0 (terms_from 0 self.now) }
    {
        let listed = self.listed.items();
        if listed.is_empty() {
            return FormTerms {
                source: TermSource::Places(&self.places),
                next: 0,
            };
        }
        FormTerms {
            source: TermSource::Fractions(listed),
            next: 0,
        }
    }

    pub(crate) fn allocator(&self) -> Global {
        self.alloc
    }

    // About how many coefficients are not 0.
    #[inline]
    pub(crate) fn room(&self) -> usize {
        self.listed.items().len().max(self.places.touched())
    }

    // The coefficients in order; the places hold 0 again.
    pub(crate) fn take(&mut self, alloc: Global) -> Result<Coefficients, AllocError>
        ensures coefficients { IfOk result
            (λ r. (j : ℕ) → coef_in r j ≡ place_in self.old j) }
        ensures zeros { OnOk result (AreZeros self.new) }
        ensures count { OnOk result (length self.new ≡ length self.old) }
    {
        if self.listed.items().is_empty() {
            return self.places.take(alloc);
        }
        let terms = FractionTerms::of_slice(alloc, self.listed.items())?;
        self.listed.clear();
        Ok(Coefficients::of_fractions(terms))
    }
}

// Makes the places where there are none.
fn make_places(
    alloc: Global,
    count: u32,
    empty: Frac,
    places: &mut MarkedPlaces,
) -> Result<(), AllocError>
    requires { frac_value empty ≡ zero_ℚ }
    ensures made { OnOk result (places.new ≡ all_places count empty places.old) }
    ensures kept { OnErr result (places.new ≡ places.old) }
{
    if !places.is_empty() {
        return Ok(());
    }
    *places = MarkedPlaces::new(alloc, count, empty)?;
    Ok(())
}

// Puts listed terms at their places.
fn put_listed(
    alloc: Global,
    count: u32,
    empty: Frac,
    places: &mut MarkedPlaces,
    listed: &FractionTerms,
) -> Result<(), AllocError>
    requires zero { frac_value empty ≡ zero_ℚ }
    requires below { AreBelow (length (all_places count empty places.old)) listed.now }
    ensures puts { OnOk result
        (places.new ≡ put_all listed.now (all_places count empty places.old)) }
    ensures count { length (all_places count empty places.new)
        ≡ length (all_places count empty places.old) }
{
    make_places(alloc, count, empty, places)?;
    places.put_all(listed.items())
}

// Whether a variable comes after each that is listed, and no place holds anything but 0.
#[inline]
fn comes_last(listed: &FractionTerms, places: &MarkedPlaces, variable: u32) -> bool
    requires { listed.now ≢ [] → AreZeros places.now }
    ensures last { result ≡ true → AreBelow variable listed.now }
    ensures zeros { result ≡ true → AreZeros places.now }
    ensures found { listed.now ≢ [] → AreBelow variable listed.now → result ≡ true }
{
    if listed.items().is_empty() {
        return places.are_untouched();
    }
    listed.comes_last(variable)
}
