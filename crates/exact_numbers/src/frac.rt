ghost use Rattle.exact_numbers.specs.Fraction.{IsFrac};

/// The fraction num / den in lowest terms, den above 0.
#[derive(Clone, Copy, PartialEq, Eq)]
pub struct Frac {
    pub(crate) num: i128,
    pub(crate) den: u128,
    pub ghost spelled: { IsFrac num den },
}
