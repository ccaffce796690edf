// What there is to know of each segment: one table.
ghost use Rattle.std.specs.Prelude.{◌≡◌, true};
ghost use Rattle.nl_lines.specs.Segment.{plain, segment_of};
ghost use Rattle.nl_lines.specs.declared.segment.Lines.TheVariants.{Pairs};
ghost use Rattle.nl_lines.specs.declared.segment.Subject.TheVariants.{File};
ghost use Rattle.nl_lines.specs.declared.segment.Total.TheVariants.{Linear};

use crate::head::Head;

/// What a segment is of.
#[derive(Clone, Copy)]
pub enum Subject {
    File,
    Constraint(u32),
    Objective(u32),
    /// A defined variable, by its index.
    Defined(u32),
    /// What suffixes of this kind are for.
    Suffixes(u8),
}

/// Which lines follow a head, before any expression.
#[derive(Clone, Copy)]
pub enum Lines {
    /// So many lines of an index and a value.
    Pairs(u32),
    /// The interval of each constraint.
    EachConstraint,
    /// The interval of each variable.
    EachVariable,
    /// So many whole numbers of columns.
    Columns(u32),
}

/// What the indices of pairs are of.
#[derive(Clone, Copy)]
pub enum Indices {
    Variables,
    Constraints,
    /// What a suffix of this kind is for.
    Objects(u8),
}

/// Which total pairs count for.
#[derive(Clone, Copy)]
pub enum Total {
    Neither,
    /// Linear terms.
    Linear,
    /// Values of suffixes.
    SuffixValues,
}

/// What there is to know of a segment.
#[derive(Clone, Copy)]
pub struct Segment {
    /// The number of its letter, in the order in which segments are written.
    pub letter: u32,
    pub subject: Subject,
    pub lines: Lines,
    /// An expression follows the lines.
    pub has_tree: bool,
    pub indices: Indices,
    /// An index comes once.
    pub once: bool,
    /// Pairs are kept until the piece is complete.
    pub kept: bool,
    pub total: Total,
}

// A segment of these lines alone.
fn plain(letter: u32, subject: Subject, lines: Lines) -> Segment
    ensures { result ≡ plain letter subject lines }
{
    Segment {
        letter,
        subject,
        lines,
        has_tree: false,
        indices: Indices::Variables,
        once: false,
        kept: false,
        total: Total::Neither,
    }
}

// A segment of an expression alone.
fn expression(letter: u32, subject: Subject) -> Segment
    ensures { result ≡ record (plain letter subject (Pairs 0)) { has_tree = true } }
{
    Segment {
        has_tree: true,
        ..plain(letter, subject, Lines::Pairs(0))
    }
}

// A segment of so many linear terms.
fn linear(letter: u32, subject: Subject, n: u32) -> Segment
    ensures { result ≡ record (plain letter subject (Pairs n)) { total = Linear } }
{
    Segment {
        total: Total::Linear,
        ..plain(letter, subject, Lines::Pairs(n))
    }
}

// A segment of so many guesses.
fn guesses(letter: u32, n: u32, indices: Indices) -> Segment
    ensures { result ≡ record (plain letter File (Pairs n)) { indices = indices; once = true } }
{
    Segment {
        indices,
        once: true,
        ..plain(letter, Subject::File, Lines::Pairs(n))
    }
}

/// What there is to know of the segment of a head.
pub fn segment_of(head: Head) -> Segment
    ensures { result ≡ segment_of head }
{
    match head {
        Head::Suffix(kind, n) => Segment {
            subject: Subject::Suffixes(kind),
            kept: true,
            total: Total::SuffixValues,
            ..guesses(0, n, Indices::Objects(kind))
        },
        Head::Definition(i, n, _) => Segment {
            has_tree: true,
            kept: true,
            ..linear(1, Subject::Defined(i), n)
        },
        Head::Body(i) => expression(2, Subject::Constraint(i)),
        Head::Objective(k, _) => expression(3, Subject::Objective(k)),
        Head::DualGuesses(n) => guesses(4, n, Indices::Constraints),
        Head::PrimalGuesses(n) => guesses(5, n, Indices::Variables),
        Head::Sides => plain(6, Subject::File, Lines::EachConstraint),
        Head::Bounds => plain(7, Subject::File, Lines::EachVariable),
        Head::ColumnCounts(n) => plain(8, Subject::File, Lines::Columns(n)),
        Head::Terms(i, n) => linear(9, Subject::Constraint(i), n),
        Head::Slopes(k, n) => linear(10, Subject::Objective(k), n),
    }
}
