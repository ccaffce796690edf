// The laws of written .nl texts.
ghost use Rattle.round_trips.specs.Writable.{WrittenIsRead};
ghost use Rattle.round_trips.specs.ReadBack.{WrittenReadsBack};
ghost use Rattle.round_trips.specs.Rewritten.{ReadIsWritable, ReadIsWrittenAgain};

/// What is written of a file that can be written is a text of the profile, without faults, that
/// says the file.
pub fn written_is_read()
    ensures { WrittenIsRead }
{}

/// Whatever `read_nl` or `NlReader::finish` answers, in any cut, to what `write_nl` wrote of a file
/// that can be written, it is that file or want of memory.
pub fn written_reads_back()
    ensures { WrittenReadsBack }
{}

/// A file that a text says can be written: its written text, too, is within the limits of texts.
pub fn what_is_read_is_writable()
    ensures { ReadIsWritable }
{}

/// What is written of a file that a text says is a text that says this file.
pub fn what_is_read_is_written_again()
    ensures { ReadIsWrittenAgain }
{}
