// The first header line: the letter of text files, and the options.
ghost use Rattle.std.specs.Prelude.{◌≡◌, ℕ, ◌<◌, ◌≤◌, ◌++◌, option_to_list, length, filter_map, slice_index};
ghost use Rattle.text_base.specs.Judged.{Decides};
ghost use Rattle.text_base.specs.Words.{texts};
ghost use Rattle.exact_numbers.specs.Numbers.{signed_of};
ghost use Rattle.nl_header.specs.Head.{begins_with, option_count, options_of, first_line_tests};

use crate::fault::HeadFault;
use exact_numbers::{signed_of, whole_of};
use nl_model::{Options, has_second_three};

/// At most so many options.
const MOST_OPTIONS: u32 = 4;

fn begins_with(byte: u8, word: &[u8]) -> bool
    requires { 0 < byte }
    ensures { result ≡ begins_with byte word.now }
{
    match word {
        [first, ..] => *first == byte,
        [] => false,
    }
}

// The number directly after the `g` of the first word.
fn option_count(words: &[&[u8]]) -> Option<u32>
    requires { 0 < length words.now }
    ensures { result ≡ option_count (texts words.now) }
{
    let first = words[0];
    if !begins_with(b'g', first) {
        return None;
    }
    whole_of(&first[1..])
}

fn push_some(options: &mut Options, number: Option<i32>)
    requires { length options.old < 9 }
    ensures { options.new ≡ options.old ++ option_to_list number }
{
    if let Some(number) = number {
        options.push(number);
    }
}

// The signed whole numbers among the words.
fn signed_numbers(words: &[&[u8]]) -> Options
    requires { length words.now ≤ 9 }
    ensures { result ≡ filter_map signed_of (texts words.now) }
{
    let mut options = Options::new();
    'words: for word in words {
        let number = signed_of(word);
        push_some(&mut options, number);
    }
    options
}

/// The options of the first line, from its words.
#[tactic(auto, unfolding(crate::specs::Head::first_line_tests))]
pub fn read_first(words: &[&[u8]]) -> Result<Options, HeadFault>
    requires { 0 < length words.now }
    ensures { Decides (first_line_tests (texts words.now))
        (λ o. o ≡ options_of (texts words.now)) result }
{
    if begins_with(b'b', words[0]) {
        return Err(HeadFault::BinaryFile);
    }
    let Some(count) = option_count(words) else {
        return Err(HeadFault::BadFirstLine);
    };
    let rest = &words[1..];
    if count > MOST_OPTIONS || rest.len() != count as usize {
        return Err(HeadFault::Options);
    }
    let options = signed_numbers(rest);
    if options.len() != count as usize || has_second_three(options.items()) {
        return Err(HeadFault::Options);
    }
    Ok(options)
}
