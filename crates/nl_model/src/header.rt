// Headers.
ghost use Rattle.std.specs.Prelude.{IsTrue};
ghost use Rattle.nl_model.specs.HeaderRules.{is_header};

use crate::Options;
use crate::header_counts::Counts;

/// The first ten lines of a file that hold words: options and counts that keep the rules.
#[derive(Drop)]
pub struct Header {
    pub(crate) options: Options,
    pub(crate) counts: Counts,
    pub ghost ruled: { IsTrue (is_header options counts) },
}
