// The numbers of pairs, in a list with a place for each index.
ghost use Rattle.std.specs.Prelude.{◌≡◌, IfOk, length, map, true};
ghost use Rattle.exact_numbers.specs.Fits.{fits};
ghost use Rattle.exact_numbers.specs.Values.{frac_value};
ghost use Rattle.certificates.specs.Certificates.{AreNumbers};
ghost use Rattle.linear_program.specs.Numbers.{spread, number_value};

use exact_numbers::Frac;
use linear_program::Number;
use std::alloc::{AllocError, Global};

// A number that fits, as a fraction.
pub(crate) fn fraction(number: &Number) -> Frac
    requires { fits (number_value number.now) ≡ true }
    ensures { frac_value result ≡ number_value number.now }
{
    match number.fraction() {
        Some(fraction) => fraction,
        None => unreachable!(),
    }
}

/// The numbers of n indices; those without a pair are 0. The judge of a point and a ray asks, and
/// who makes a .sol file of a certificate.
#[tactic(auto, using(crate::proofs::Written::writes))]
pub fn numbers_of(alloc: Global, n: u32, pairs: &[(u32, Number)]) -> Result<Vec<Frac>, AllocError>
    requires { AreNumbers 0 n pairs.now }
    ensures numbers { IfOk result (λ v. map frac_value v.items ≡ spread n pairs.now) }
    ensures count { IfOk result (λ v. length v.items ≡ n) }
{
    let mut numbers = Vec::from_elem(alloc, Frac::zero(), n as usize)?;
    for pair in pairs {
        numbers[pair.0 as usize] = fraction(&pair.1);
    }
    Ok(numbers)
}
