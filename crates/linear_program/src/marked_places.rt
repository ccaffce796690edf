// Places for coefficients, of which those that may hold anything but 0 are known.
ghost use Rattle.std.specs.Prelude.{◌≡◌, ◌+◌, ◌<◌, ◌∷◌, ◌==◌, ℕ, [], drop, length, replicate, slice_set, IfOk, IfSome, None, OnOk, true, false};
ghost use Rattle.exact_numbers.specs.Values.{frac_value};
ghost use Rattle.exact_numbers.specs.Rational.{zero_ℚ};
ghost use Rattle.linear_program.specs.Coefs.{AddsAt, AreBelow, coef_in};
ghost use Rattle.linear_program.specs.Places.{AreZeros, place_in, put_all, terms_from};

use crate::coefficients::Coefficients;
use crate::too_wide::Wide;
use exact_numbers::Frac;
use std::alloc::{AllocError, Global};
use std::marker::Model;
use std::mem;
use text_base::Stop;

/// A place for each variable, and the touched places: those that may hold anything but 0.
#[derive(Drop)]
pub struct MarkedPlaces {
    alloc: Global,
    places: Vec<Frac>,
    touched: Vec<u32>,
}

impl Model for MarkedPlaces {
    ghost use Rattle.std.specs.Prelude.{List};
    ghost use Rattle.exact_numbers.specs.declared.frac.Frac.{Frac as FracFields};
    ghost use Rattle.linear_program.specs.Places.{AreMarked};

    ghost Value = { List FracFields };

    ghost view = { λ w. w.places.items };

    ghost invariant = { λ w. AreMarked w.places.items w.touched.items };
}

impl MarkedPlaces {
    /// No places.
    pub(crate) fn without_places(alloc: Global) -> MarkedPlaces
        ensures { result ≡ [] }
    {
        MarkedPlaces {
            alloc,
            places: Vec::new(alloc),
            touched: Vec::new(alloc),
        }
    }

    /// So many places, each of which holds this 0.
    pub(crate) fn new(alloc: Global, count: u32, zero: Frac) -> Result<MarkedPlaces, AllocError>
        requires { frac_value zero ≡ zero_ℚ }
        ensures { IfOk result (λ w. w ≡ replicate count zero) }
    {
        let places = Vec::from_elem(alloc, zero, count as usize)?;
        Ok(MarkedPlaces {
            alloc,
            places,
            touched: Vec::new(alloc),
        })
    }

    /// Adds a factor to the coefficient of a variable.
    pub(crate) fn add(&mut self, variable: u32, factor: Frac) -> Result<(), Stop<Wide>>
        requires { variable < length self.old }
        ensures adds { AddsAt (place_in self.old) variable (frac_value factor) (place_in self.new)
            result }
        ensures count { length self.new ≡ length self.old }
    {
        let old = self.places[variable as usize];
        let Some(sum) = old.add(factor) else {
            return Err(Stop::Fault(Wide));
        };
        if !old.is_zero() {
            self.places[variable as usize] = sum;
            return Ok(());
        }
        let Ok(()) = self.touched.push(variable) else {
            return Err(Stop::Memory);
        };
        self.places[variable as usize] = sum;
        Ok(())
    }

    /// Sets each place to 0.
    pub(crate) fn clear(&mut self)
        ensures zeros { AreZeros self.new }
        ensures count { length self.new ≡ length self.old }
    {
        'touched: while let Some(variable) = self.touched.pop() {
            self.places[variable as usize] = Frac::zero();
        }
    }
}

impl MarkedPlaces {
    /// Whether there is no place.
    #[inline]
    pub(crate) fn is_empty(&self) -> bool
        ensures { result ≡ (length self.now == 0) }
    {
        self.places.is_empty()
    }

    /// Whether nothing is touched; then each place holds 0.
    #[inline]
    pub(crate) fn are_untouched(&self) -> bool
        ensures { result ≡ true → AreZeros self.now }
    {
        self.touched.is_empty()
    }

    // How many places are touched; one that held 0 again counts each time.
    #[inline]
    pub(crate) fn touched(&self) -> usize {
        self.touched.len()
    }

    /// Puts each term at its place.
    pub(crate) fn put_all(&mut self, terms: &[(u32, Frac)]) -> Result<(), AllocError>
        requires { AreBelow (length self.old) terms.now }
        ensures puts { OnOk result (self.new ≡ put_all terms.now self.old) }
        ensures count { length self.new ≡ length self.old }
    {
        for term in terms {
            self.put(term.0, term.1)?;
        }
        Ok(())
    }

    // Puts a coefficient at a place.
    fn put(&mut self, variable: u32, factor: Frac) -> Result<(), AllocError>
        requires { variable < length self.old }
        ensures puts { OnOk result (self.new ≡ slice_set self.old variable factor) }
        ensures count { length self.new ≡ length self.old }
    {
        self.touched.push(variable)?;
        self.places[variable as usize] = factor;
        Ok(())
    }

    /// The first term from a place on.
    pub(crate) fn term_from(&self, first: usize) -> Option<(u32, Frac)>
        ensures none { result ≡ None → terms_from first (drop first self.now) ≡ [] }
        ensures term { IfSome result
            (λ t. terms_from first (drop first self.now)
            ≡ t ∷ terms_from (t.0 + 1) (drop (t.0 + 1) self.now)) }
    {
        for place in first..self.places.len() {
            let value = self.places[place];
            if !value.is_zero() {
                return Some((place as u32, value));
            }
        }
        None
    }

    // The coefficients in order, and the places, which hold 0 again.
    fn close(self) -> Result<(Coefficients, MarkedPlaces), AllocError>
        ensures coefficients { IfOk result (λ r. (j : ℕ) → coef_in r.0 j ≡ place_in self j) }
        ensures zeros { IfOk result (λ r. AreZeros r.1) }
        ensures count { IfOk result (λ r. length r.1 ≡ length self) }
    {
        let MarkedPlaces {
            alloc,
            mut places,
            mut touched,
        } = self;
        touched.sort_unstable();
        let mut items: Vec<(u32, Frac)> = Vec::with_capacity(alloc, touched.len())?;
        for variable in &touched {
            let value = places[*variable as usize];
            if !value.is_zero() {
                items.push((*variable, value))?;
                places[*variable as usize] = Frac::zero();
            }
        }
        touched.clear();
        let marked = MarkedPlaces {
            alloc,
            places,
            touched,
        };
        Ok((Coefficients::of_items(items), marked))
    }

    // The coefficients in order; the places hold 0 again.
    pub(crate) fn take(&mut self, alloc: Global) -> Result<Coefficients, AllocError>
        ensures coefficients { IfOk result
            (λ r. (j : ℕ) → coef_in r j ≡ place_in self.old j) }
        ensures zeros { OnOk result (AreZeros self.new) }
        ensures count { OnOk result (length self.new ≡ length self.old) }
    {
        let none = MarkedPlaces::without_places(alloc);
        let full = mem::replace(self, none);
        let (coefficients, empty) = full.close()?;
        *self = empty;
        Ok(coefficients)
    }
}
