// Intervals.
ghost use Rattle.std.specs.Prelude.{◌≡◌};
ghost use Rattle.linear_program.specs.Intervals.{is_sided};

use exact_numbers::Dec;

/// The sides of a constraint or a variable; each may be missing.
#[derive(Clone, Copy)]
pub struct Interval {
    pub lo: Option<Dec>,
    pub hi: Option<Dec>,
}

impl Interval {
    /// Whether one of the sides is there.
    pub fn has_side(&self) -> bool
        ensures { result ≡ is_sided self.now }
    {
        match (self.lo, self.hi) {
            (None, None) => false,
            _ => true,
        }
    }
}
