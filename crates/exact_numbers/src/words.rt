// Whole numbers of 128 bits as words of 32, so that they are aligned to 4 bytes and not to 16.
ghost use Rattle.std.specs.Prelude.{◌≡◌};

// One more than the largest word.
const BEYOND: u128 = 0x1_0000_0000;

/// The bits of a whole number, the lowest first.
#[derive(Clone, Copy)]
pub struct Words {
    first: u32,
    second: u32,
    third: u32,
    fourth: u32,
}

impl Words {
    ghost use Rattle.exact_numbers.specs.InsidePacked.{size_of, whole_of, AreWords};

    // The words of a number from 0 on.
    #[inline]
    pub(crate) fn of_size(n: u128) -> Words
        ensures value { size_of result ≡ n }
        ensures words { AreWords result }
    {
        Words {
            first: (n % BEYOND) as u32,
            second: (n / BEYOND % BEYOND) as u32,
            third: (n / BEYOND / BEYOND % BEYOND) as u32,
            fourth: (n / BEYOND / BEYOND / BEYOND) as u32,
        }
    }

    // The number from 0 on.
    #[inline]
    pub(crate) fn size(self) -> u128
        ensures { result ≡ size_of self }
    {
        self.first as u128
            + self.second as u128 * BEYOND
            + self.third as u128 * (BEYOND * BEYOND)
            + self.fourth as u128 * (BEYOND * BEYOND * BEYOND)
    }

    // The words of a number of either sign.
    #[inline]
    #[tactic(auto, unfolding(crate::specs::InsidePacked::whole_of))]
    pub(crate) fn of_whole(n: i128) -> Words
        ensures value { whole_of result ≡ n }
        ensures words { AreWords result }
    {
        Words::of_size(n.cast_unsigned())
    }

    // The number of either sign.
    #[inline]
    #[tactic(auto, unfolding(crate::specs::InsidePacked::whole_of))]
    pub(crate) fn whole(self) -> i128
        ensures { result ≡ whole_of self }
    {
        self.size().cast_signed()
    }
}
