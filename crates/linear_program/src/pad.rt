// Pads: where forms are added up.
ghost use Rattle.std.specs.Prelude.{◌≡◌, IfOk, length};
ghost use Rattle.linear_program.specs.Places.{AreZeros};

use crate::accumulator::Accumulator;
use std::alloc::{AllocError, Global};
use std::marker::Model;

/// A working area: an empty sparse accumulator with a place for each variable.
#[derive(Drop)]
pub struct Pad {
    accumulator: Box<Accumulator>,
}

impl Model for Pad {
    ghost use Rattle.std.specs.Prelude.{ℕ, length};
    ghost use Rattle.linear_program.specs.Places.{AreZeros};

    ghost Value = { ℕ };

    ghost view = { λ p. length p.accumulator.value };

    ghost invariant = { λ p. AreZeros p.accumulator.value };
}

impl Pad {
    /// An empty pad of so many places.
    pub fn new(alloc: Global, n_var: u32) -> Result<Pad, AllocError>
        ensures { IfOk result (λ p. p ≡ n_var) }
    {
        let accumulator = Accumulator::new(alloc, n_var);
        let accumulator = Box::new(alloc, accumulator)?;
        Ok(Pad { accumulator })
    }

    pub(crate) fn of_accumulator(accumulator: Box<Accumulator>) -> Pad
        requires { AreZeros accumulator.value }
        ensures { result ≡ length accumulator.value }
    {
        Pad { accumulator }
    }

    pub(crate) fn into_accumulator(self) -> Box<Accumulator>
        ensures zeros { AreZeros result.value }
        ensures count { length result.value ≡ self }
    {
        let Pad { accumulator } = self;
        accumulator
    }
}
