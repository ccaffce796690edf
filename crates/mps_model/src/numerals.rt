// Names that are a letter and a number.
ghost use Rattle.std.specs.Prelude.{◌≡◌, ◌≢◌, ◌<◌, ◌≤◌, ◌^◌, ◌∷◌, ℕ, drop, MatchOption};
ghost use Rattle.std.specs.Fmt.{decimal};
ghost use Rattle.mps_model.specs.Names.{index_named};

use exact_numbers::whole_of;

// The bytes after the first.
fn after_first(text: &[u8]) -> &[u8]
    ensures { result.now ≡ drop 1 text.now }
{
    match text {
        [_, rest @ ..] => rest,
        [] => text,
    }
}

// The number that is written with these digits: none stands before it but a single 0.
fn plain_number(digits: &[u8]) -> Option<u32>
    ensures { MatchOption result ((n : ℕ) → n < 2 ^ 31 → decimal n ≢ digits.now) (λ n. (n < 2 ^ 31)
        × (decimal n ≡ digits.now)) }
{
    if digits.len() > 1 && digits[0] == b'0' {
        return None;
    }
    whole_of(digits)
}

/// The number below `count` of the name that is a letter and this number.
pub fn numbered(letter: u8, text: &[u8], count: u32) -> Option<u32>
    requires { count ≤ 2 ^ 31 }
    ensures { result ≡ index_named (λ j. letter ∷ decimal j) count text.now }
{
    let [first, ..] = text else {
        return None;
    };
    if *first != letter {
        return None;
    }
    match plain_number(after_first(text)) {
        Some(number) if number < count => Some(number),
        _ => None,
    }
}
