// Rows, by their first words and by how many words they have.
ghost use Rattle.std.specs.Prelude.{◌≡◌};
ghost use Rattle.text_base.specs.Words.{texts};
ghost use Rattle.certificate_text.specs.TextRows.{is_first_row, is_row};

use text_base::begins;

/// Whether a row has this first word, and so many words.
pub fn is_row(first: &[u8], count: usize, words: &[&[u8]]) -> bool
    ensures { result ≡ is_row first.now count (texts words.now) }
{
    begins(words, first) && words.len() == count
}

/// Whether a row is the first one of a text of this format.
pub fn is_first_row(format: &[u8], words: &[&[u8]]) -> bool
    ensures { result ≡ is_first_row format.now (texts words.now) }
{
    words.len() == 2 && words[0] == format && words[1] == b"1".as_slice()
}
