// Written texts are read as they were written.
ghost use Rattle.std.specs.Prelude.{◌≡◌, ℕ, ℤ, ◌^◌, ◌<◌, ◌≤◌, List, length, map, unsigned_abs, true, Some};
ghost use Rattle.std.specs.List.{AllByRecursion};
ghost use Rattle.std.specs.Fmt.{decimal, signed_decimal};
ghost use Rattle.text_base.specs.Judged.{End};
ghost use Rattle.text_base.specs.Reading.{lines_of, last_of};
ghost use Rattle.text_base.specs.Words.{words_of, without_comment};
ghost use Rattle.exact_numbers.specs.declared.dec.Dec.{Dec};
ghost use Rattle.exact_numbers.specs.Numbers.{dec_of, has_31_bits, signed_of, whole_of};
ghost use Rattle.exact_numbers.specs.Values.{text_of};
ghost use Rattle.text_base.specs.WordLines.{WordLine, indented, lines_text, spaced};
ghost use Rattle.written_texts.specs.Words.{IsWord, IsKeptWord, IsWordLine};

/// Words with a space between them, or a space before each, are read as themselves, and as no
/// comment.
pub fn words_are_read()
    ensures words { (words : WordLine)
        → AllByRecursion IsWord words → words_of (spaced words) ≡ words }
    ensures indented { (words : WordLine)
        → AllByRecursion IsWord words → words_of (spaced (indented words)) ≡ words }
    ensures comments { (words : WordLine)
        → AllByRecursion IsKeptWord words → without_comment (spaced words) ≡ spaced words }
{}

/// Numbers that are written are words, and no comments.
pub fn numbers_are_words()
    ensures whole { (n : ℕ) → n < 10 ^ 64 → IsKeptWord (decimal n) }
    ensures signed { (z : ℤ) → unsigned_abs z < 10 ^ 64 → IsKeptWord (signed_decimal z) }
    ensures decimals { (d : Dec) → IsKeptWord (text_of d) }
{}

/// Numbers that are written are read as themselves.
pub fn numbers_are_read()
    ensures whole { (n : ℕ) → n < 2 ^ 31 → whole_of (decimal n) ≡ Some n }
    ensures signed { (z : ℤ) → has_31_bits z ≡ true → signed_of (signed_decimal z) ≡ Some z }
    ensures decimals { (d : Dec) → dec_of (text_of d) ≡ Some d }
{}

/// The lines of a written text are the lines that were written.
pub fn lines_are_read()
    ensures lines { (lines : List WordLine)
        → AllByRecursion IsWordLine lines → length (lines_text lines) ≤ 2 ^ 31
        → lines_of (lines_text lines) ≡ map spaced lines }
    ensures end { (lines : List WordLine)
        → AllByRecursion IsWordLine lines → length (lines_text lines) ≤ 2 ^ 31
        → last_of (lines_text lines) ≡ End }
{}
