// The one fault of a sum of forms, and of a form times a number.

/// A number beyond fractions of 128 bits.
#[derive(Clone, Copy, Debug, PartialEq, Eq)]
pub struct Wide;
