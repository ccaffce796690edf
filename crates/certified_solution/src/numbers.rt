// The numbers of pairs as decimals.
ghost use Rattle.std.specs.Prelude.{IfOk, map};
ghost use Rattle.exact_numbers.specs.Values.{frac_value};
ghost use Rattle.certificates.specs.Certificates.{AreNumbers};
ghost use Rattle.linear_program.specs.Numbers.{spread};
ghost use Rattle.certified_solution.specs.Solution.{AreDecimalsOf};

use certificate_judge::numbers_of;
use exact_numbers::Frac;
use linear_program::Number;
use nl_model::Decs;
use std::alloc::{AllocError, Global};

// The decimals of these numbers, or none where a number has none.
#[tactic(auto, using(crate::proofs::Decimals::none_first, crate::proofs::Decimals::one_more))]
fn decimals_of(alloc: Global, numbers: &[Frac]) -> Result<Option<Decs>, AllocError>
    ensures { IfOk result (λ o. AreDecimalsOf o (map frac_value numbers.now)) }
{
    let mut decimals = Decs::new(alloc);
    'numbers: for number in numbers {
        let Some(decimal) = number.to_dec() else {
            return Ok(None);
        };
        decimals.push(decimal)?;
    }
    Ok(Some(decimals))
}

/// The decimals of n indices, those without a pair being 0; none where a number has none.
pub(crate) fn spread_decimals(
    alloc: Global,
    n: u32,
    pairs: &[(u32, Number)],
) -> Result<Option<Decs>, AllocError>
    requires { AreNumbers 0 n pairs.now }
    ensures { IfOk result (λ o. AreDecimalsOf o (spread n pairs.now)) }
{
    let numbers = numbers_of(alloc, n, pairs)?;
    decimals_of(alloc, &numbers)
}
