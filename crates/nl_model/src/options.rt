// The options of the first header line.
ghost use Rattle.std.specs.Prelude.{◌≡◌, ◌<◌, ◌++◌, ◌∷◌, [], length, Some, slice_get};
ghost use Rattle.nl_model.specs.Options.{has_second_three};

use std::marker::Model;

/// Up to nine numbers.
#[derive(Drop)]
pub struct Options {
    values: [i32; 9],
    count: usize,
}

impl Model for Options {
    ghost use Rattle.std.specs.Prelude.{List, ℤ, take, ◌≤◌};

    ghost Value = { List ℤ };

    ghost view = { λ o. take o.count o.values };

    ghost invariant = { λ o. o.count ≤ 9 };
}

impl Options {
    /// No numbers.
    pub fn new() -> Options
        ensures { result ≡ [] }
    {
        Options {
            values: [0; 9],
            count: 0,
        }
    }

    /// Adds a number at the end.
    pub fn push(&mut self, value: i32)
        requires { length self.old < 9 }
        ensures { self.new ≡ self.old ++ value ∷ [] }
    {
        self.values[self.count] = value;
        self.count += 1;
    }

    /// How many numbers there are.
    pub fn len(&self) -> usize
        ensures { result ≡ length self.now }
    {
        self.count
    }

    /// The number at i, counted from 0.
    pub fn get(&self, i: usize) -> i32
        requires { i < length self.now }
        ensures { slice_get self.now i ≡ Some result }
    {
        self.items()[i]
    }

    /// All numbers in order.
    pub fn items(&self) -> &[i32]
        ensures { result.now ≡ self.now }
    {
        &self.values[..self.count]
    }
}

/// Whether the second option is 3.
pub fn has_second_three(options: &[i32]) -> bool
    ensures { result ≡ has_second_three options.now }
{
    match options {
        [_, second, ..] => *second == 3,
        _ => false,
    }
}
