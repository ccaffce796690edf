// The sides of a row as fractions, and as decimals once they are multiplied by a factor.
ghost use Rattle.std.specs.Prelude.{◌≡◌, ◌↔◌, IsTrue, MatchOption, MatchResult};
ghost use Rattle.exact_numbers.specs.Rational.{◌*ℚ◌};
ghost use Rattle.exact_numbers.specs.Values.{dec_value, frac_value, FitsDec};
ghost use Rattle.scaled_program.specs.Fits.{IfSide, IfBoth, RangeFits};
ghost use Rattle.scaled_program.specs.Program.{range_of};
ghost use Rattle.row_scaling.specs.Fitting.{frac_side, less_side, times_side, LessFits, ProductFits, NumberFits, AreSidesFit};
ghost use Rattle.row_scaling.specs.Rows.{side_value};

use crate::decimals::decimal_of;
use exact_numbers::{Dec, Frac};
use linear_program::{Interval, Wide};
use std::cmp::Ordering;

/// Two sides, each of which may be missing.
#[derive(Clone, Copy)]
pub(crate) struct FractionSides {
    pub(crate) lo: Option<Frac>,
    pub(crate) hi: Option<Frac>,
}

/// Two sides as decimals, and the upper less the lower, where both are there and differ.
#[derive(Clone, Copy)]
pub(crate) struct DecimalSides {
    pub(crate) side: Interval,
    pub(crate) range: Option<Dec>,
}

// A side less the constant. Wide exactly where a number does not fit.
fn less(side: Option<Dec>, constant: Frac) -> Result<Option<Frac>, Wide>
    ensures { MatchResult result
        (λ s. IfSide (LessFits (frac_value constant)) (side_value side)
        × (frac_side s ≡ less_side (frac_value constant) (side_value side)))
        (λ _. ¬ IfSide (LessFits (frac_value constant)) (side_value side)) }
{
    let Some(decimal) = side else {
        return Ok(None);
    };
    let Some(number) = Frac::of_dec(decimal) else {
        return Err(Wide);
    };
    let Some(rest) = number.sub(constant) else {
        return Err(Wide);
    };
    Ok(Some(rest))
}

// A side times the factor. Wide exactly where it does not fit.
fn times(side: Option<Frac>, factor: Frac) -> Result<Option<Frac>, Wide>
    ensures { MatchResult result
        (λ s. IfSide (ProductFits (frac_value factor)) (frac_side side)
        × (frac_side s ≡ times_side (frac_value factor) (frac_side side)))
        (λ _. ¬ IfSide (ProductFits (frac_value factor)) (frac_side side)) }
{
    let Some(number) = side else {
        return Ok(None);
    };
    let Some(product) = factor.mul(number) else {
        return Err(Wide);
    };
    Ok(Some(product))
}

// A side as a decimal. Wide exactly where it is none.
fn decimal(side: Option<Frac>) -> Result<Option<Dec>, Wide>
    ensures { MatchResult result
        (λ s. IfSide FitsDec (frac_side side) × (side_value s ≡ frac_side side))
        (λ _. ¬ IfSide FitsDec (frac_side side)) }
{
    let Some(number) = side else {
        return Ok(None);
    };
    let Some(dec) = decimal_of(number) else {
        return Err(Wide);
    };
    Ok(Some(dec))
}

fn same_fraction(a: Frac, b: Frac) -> bool
    ensures { IsTrue result ↔ (frac_value a ≡ frac_value b) }
{
    a.order(b) == Ordering::Equal
}

// The upper number less the lower one, none where they do not differ. Wide exactly where it does
// not fit.
#[tactic(auto, using(crate::proofs::SharedLemmas::same_sides, crate::proofs::SharedLemmas::too_wide, crate::proofs::SharedLemmas::no_decimal, crate::proofs::SharedLemmas::range_there))]
pub(crate) fn difference(lower: Frac, upper: Frac) -> Result<Option<Dec>, Wide>
    ensures { MatchResult result
        (λ r. IfBoth RangeFits (Some (frac_value lower)) (Some (frac_value upper))
        × (side_value r ≡ range_of (Some (frac_value lower)) (Some (frac_value upper))))
        (λ _. ¬ IfBoth RangeFits (Some (frac_value lower)) (Some (frac_value upper))) }
{
    if same_fraction(lower, upper) {
        return Ok(None);
    }
    let Some(number) = upper.sub(lower) else {
        return Err(Wide);
    };
    let Some(dec) = decimal_of(number) else {
        return Err(Wide);
    };
    Ok(Some(dec))
}

// The difference of two sides, where both are there and differ. Wide exactly where it does not fit.
fn range(lower: Option<Frac>, upper: Option<Frac>) -> Result<Option<Dec>, Wide>
    ensures { MatchResult result
        (λ r. IfBoth RangeFits (frac_side lower) (frac_side upper)
        × (side_value r ≡ range_of (frac_side lower) (frac_side upper)))
        (λ _. ¬ IfBoth RangeFits (frac_side lower) (frac_side upper)) }
{
    match (lower, upper) {
        (Some(l), Some(u)) => difference(l, u),
        _ => Ok(None),
    }
}

// The sides of a row less its body's constant. Wide exactly where a number does not fit.
pub(crate) fn sides_less(side: Interval, constant: Frac) -> Result<FractionSides, Wide>
    ensures { MatchResult result
        (λ s. IfSide (LessFits (frac_value constant)) (side_value side.lo)
        × IfSide (LessFits (frac_value constant)) (side_value side.hi)
        × (frac_side s.lo ≡ less_side (frac_value constant) (side_value side.lo))
        × (frac_side s.hi ≡ less_side (frac_value constant) (side_value side.hi)))
        (λ _. (IfSide (LessFits (frac_value constant)) (side_value side.lo)
        × IfSide (LessFits (frac_value constant)) (side_value side.hi)) → ⊥) }
{
    let Ok(lo) = less(side.lo, constant) else {
        return Err(Wide);
    };
    let Ok(hi) = less(side.hi, constant) else {
        return Err(Wide);
    };
    Ok(FractionSides { lo, hi })
}

// Both sides times the factor, as fractions. Wide exactly where a number does not fit.
fn sides_times(sides: &FractionSides, factor: Frac) -> Result<FractionSides, Wide>
    ensures { MatchResult result
        (λ s. IfSide (ProductFits (frac_value factor)) (frac_side sides.now.lo)
        × IfSide (ProductFits (frac_value factor)) (frac_side sides.now.hi)
        × (frac_side s.lo ≡ times_side (frac_value factor) (frac_side sides.now.lo))
        × (frac_side s.hi ≡ times_side (frac_value factor) (frac_side sides.now.hi)))
        (λ _. (IfSide (ProductFits (frac_value factor)) (frac_side sides.now.lo)
        × IfSide (ProductFits (frac_value factor)) (frac_side sides.now.hi)) → ⊥) }
{
    let Ok(lo) = times(sides.lo, factor) else {
        return Err(Wide);
    };
    let Ok(hi) = times(sides.hi, factor) else {
        return Err(Wide);
    };
    Ok(FractionSides { lo, hi })
}

// Sides as decimals, with their range. Wide exactly where one of the three is none.
fn decimal_sides(sides: &FractionSides) -> Result<DecimalSides, Wide>
    ensures { MatchResult result
        (λ s. IfSide FitsDec (frac_side sides.now.lo) × IfSide FitsDec (frac_side sides.now.hi)
        × IfBoth RangeFits (frac_side sides.now.lo) (frac_side sides.now.hi)
        × (side_value s.side.lo ≡ frac_side sides.now.lo)
        × (side_value s.side.hi ≡ frac_side sides.now.hi)
        × (side_value s.range ≡ range_of (frac_side sides.now.lo) (frac_side sides.now.hi)))
        (λ _. (IfSide FitsDec (frac_side sides.now.lo) × IfSide FitsDec (frac_side sides.now.hi)
        × IfBoth RangeFits (frac_side sides.now.lo) (frac_side sides.now.hi)) → ⊥) }
{
    let Ok(lo) = decimal(sides.lo) else {
        return Err(Wide);
    };
    let Ok(hi) = decimal(sides.hi) else {
        return Err(Wide);
    };
    let Ok(range) = range(sides.lo, sides.hi) else {
        return Err(Wide);
    };
    Ok(DecimalSides {
        side: Interval { lo, hi },
        range,
    })
}

// Both sides times the factor, as decimals, with their range. Wide exactly where a number does not
// fit.
pub(crate) fn scaled_sides(sides: &FractionSides, factor: Frac) -> Result<DecimalSides, Wide>
    ensures { MatchResult result
        (λ s. AreSidesFit (frac_value factor) (frac_side sides.now.lo) (frac_side sides.now.hi)
        × (side_value s.side.lo ≡ times_side (frac_value factor) (frac_side sides.now.lo))
        × (side_value s.side.hi ≡ times_side (frac_value factor) (frac_side sides.now.hi))
        × (side_value s.range ≡ range_of (side_value s.side.lo) (side_value s.side.hi)))
        (λ _. ¬ AreSidesFit (frac_value factor) (frac_side sides.now.lo) (frac_side sides.now.hi)) }
{
    let Ok(scaled) = sides_times(sides, factor) else {
        return Err(Wide);
    };
    decimal_sides(&scaled)
}
