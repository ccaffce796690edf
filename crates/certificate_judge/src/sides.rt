// The sides of variables, and what a cut does to them.
ghost use Rattle.std.specs.Prelude.{◌≡◌, ◌<◌, List, Option, length, slice_set, true, pos, ◌+ℤ◌};
ghost use Rattle.exact_numbers.specs.declared.dec.Dec.{Dec as DecValue};
ghost use Rattle.exact_numbers.specs.Fits.{fits};
ghost use Rattle.exact_numbers.specs.Rational.{whole};
ghost use Rattle.certificates.specs.Checked.{is_at_most};
ghost use Rattle.certificates.specs.Parts.{capped, greatest, least, raised};
ghost use Rattle.exact_numbers.specs.Values.{dec_value};
ghost use Rattle.exact_checks.specs.Lists.{bounds_in};
ghost use Rattle.exact_checks.specs.Terms.{side_value};

use exact_numbers::Dec;

// The whole number as a decimal.
pub(crate) fn whole_dec(number: i128) -> Dec
    requires { fits (whole number) ≡ true }
    ensures { dec_value result ≡ whole number }
{
    match Dec::new(number, 0) {
        Some(dec) => dec,
        None => unreachable!(),
    }
}

// The next whole number.
#[tactic(auto, using(crate::proofs::WholeDecimals::whole_fits))]
pub(crate) fn next(number: i128) -> i128
    requires { fits (whole (number +ℤ pos 1)) ≡ true }
    ensures { result ≡ number +ℤ pos 1 }
{
    number + 1
}

#[tactic(auto, using(exact_checks::proofs::Numbers::order_test))]
fn is_at_most(a: Dec, b: Dec) -> bool
    ensures { result ≡ is_at_most (dec_value a) (dec_value b) }
{
    a.order(b).is_le()
}

// The lesser of a side and a number.
fn least(side: Option<Dec>, most: Dec) -> Option<Dec>
    ensures { side_value result ≡ least (side_value side) (dec_value most) }
{
    match side {
        Some(number) if is_at_most(number, most) => side,
        _ => Some(most),
    }
}

// The greater of a side and a number.
fn greatest(side: Option<Dec>, least: Dec) -> Option<Dec>
    ensures { side_value result ≡ greatest (side_value side) (dec_value least) }
{
    match side {
        Some(number) if !is_at_most(number, least) => side,
        _ => Some(least),
    }
}

// Caps a variable, and hands out the side that was there.
#[tactic(auto, using(crate::proofs::Boxes::set_back))]
pub(crate) fn cap(hi: &mut [Option<Dec>], j: usize, most: Dec) -> Option<Dec>
    requires { j < length hi.old }
    ensures bounds { (lo : List (Option DecValue))
        → bounds_in lo hi.new ≡ capped (bounds_in lo hi.old) j (dec_value most) }
    ensures back { slice_set hi.new j result ≡ hi.old }
    ensures count { length hi.new ≡ length hi.old }
{
    let before = hi[j];
    let side = before;
    hi[j] = least(side, most);
    before
}

// Raises a variable, and hands out the side that was there.
#[tactic(auto, using(crate::proofs::Boxes::set_back))]
pub(crate) fn raise(lo: &mut [Option<Dec>], j: usize, least: Dec) -> Option<Dec>
    requires { j < length lo.old }
    ensures bounds { (hi : List (Option DecValue))
        → bounds_in lo.new hi ≡ raised (bounds_in lo.old hi) j (dec_value least) }
    ensures back { slice_set lo.new j result ≡ lo.old }
    ensures count { length lo.new ≡ length lo.old }
{
    let before = lo[j];
    let side = before;
    lo[j] = greatest(side, least);
    before
}
