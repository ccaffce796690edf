// Short fractions.
ghost use Rattle.std.specs.Prelude.{◌<◌, ◌≤◌, ◌^◌, unsigned_abs};

/// The fraction num / den, which need not be in lowest terms.
#[derive(Clone, Copy)]
pub(crate) struct ShortFraction {
    pub(crate) num: i64,
    pub(crate) den: u64,
    pub ghost size: { unsigned_abs num ≤ 2 ^ 63 },
    pub ghost above: { 0 < den },
    pub ghost small: { den < 2 ^ 63 },
}
