// The lines of a text that comes in pieces.
ghost use Rattle.std.specs.Prelude.{◌≡◌, ◌+◌, ◌-◌, ◌<◌, ◌≤◌, ◌^◌, ◌++◌, ◌==◌, List, ℕ, position, [], length, take, IfOk, IfSome, MatchOption, IsSome, IsTrue, ◌↔◌, None, Some, IsNone, false, true};
ghost use Rattle.text_base.specs.Cut.{IsTextLine};
ghost use Rattle.text_base.specs.Fronts.{after_front};
ghost use Rattle.text_base.specs.Lines.{new_state, StandsFor, GoesOn, IfLine, TakesWhole, EndsLine, taken_of, scan, number_of, trimmed, front_of, TakesPiece, end_done};

use crate::grammar::Front;
use std::alloc::{AllocError, Global};
use std::fmt;
use std::marker::Model;

/// A line has at most so many bytes before its LF.
pub const LONGEST_LINE: usize = 65536;

/// An input has at most so many bytes.
pub const LONGEST_INPUT: u32 = 0x8000_0000;

/// Why a line was not read.
#[derive(Clone, Copy, Debug, PartialEq, Eq)]
pub enum LineFault {
    LineTooLong,
    InputTooLong,
}

impl LineFault {
    ghost use Rattle.text_base.specs.Reasons.{line_fault_text};

    /// What is said of it.
    pub fn text(self) -> &'static str
        ensures text { result.now ≡ line_fault_text self }
        ensures brief { length result.now ≤ 24 }
    {
        match self {
            LineFault::LineTooLong => "line too long",
            LineFault::InputTooLong => "input too long",
        }
    }
}

impl fmt::Display for LineFault {
    ghost use Rattle.text_base.specs.Reasons.{line_fault_text};

    ghost output = { λ fault. Some (line_fault_text fault) };

    fn fmt<W: fmt::Write>(&self, f: &mut fmt::Formatter<W>) -> fmt::Result {
        f.write_str(self.text())
    }
}

/// What came of a piece.
#[derive(Clone, Copy, PartialEq, Eq)]
pub enum Taken {
    /// So many bytes were taken, and a line has ended.
    Line(usize),
    /// All bytes were taken, and no line ended.
    More,
    Fault(LineFault),
}

/// A line that lies whole in a piece, its number, and how many bytes it and its LF are.
#[derive(Clone, Copy)]
pub(crate) struct Whole<'a> {
    pub(crate) line: &'a [u8],
    pub(crate) number: u32,
    pub(crate) len: usize,
}

/// A reader of lines. It holds one line.
#[derive(Drop)]
pub struct Lines {
    line: Vec<u8>,
    ended: bool,
    count: u32,
    total: u32,
    fault: Option<LineFault>,
}

impl Model for Lines {
    ghost use Rattle.text_base.specs.Lines.{LinesState};

    ghost Value = { LinesState };

    ghost use Rattle.text_base.specs.InsideLinesFields.{lines_state, IsLines};

    ghost view = { lines_state };

    ghost invariant = { IsLines };
}

// The place of the first line end, byte by byte.
#[inline]
fn first_end(piece: &[u8]) -> Option<usize>
    ensures { result ≡ position (λ b. b == 10) piece.now }
{
    piece.iter().position(|b| *b == b'\n')
}

// The place of the first line end. Four bytes are looked at in a step.
fn line_end(piece: &[u8]) -> Option<usize>
    ensures { result ≡ position (λ b. b == 10) piece.now }
{
    let mut rest = piece;
    let mut passed = 0;
    'fours: while let [first, second, third, fourth, more @ ..] = rest {
        if *first == b'\n' {
            return Some(passed);
        }
        if *second == b'\n' {
            return Some(passed + 1);
        }
        if *third == b'\n' {
            return Some(passed + 2);
        }
        if *fourth == b'\n' {
            return Some(passed + 3);
        }
        rest = more;
        passed += 4;
    }
    let Some(place) = first_end(rest) else {
        return None;
    };
    Some(passed + place)
}

// The length of the front without a line end.
fn front_len(piece: &[u8]) -> usize
    ensures { result ≡ length (front_of piece.now) }
{
    match line_end(piece) {
        Some(place) => place,
        None => piece.len(),
    }
}

// The bytes without the CR bytes at their end.
fn trim(bytes: &[u8]) -> &[u8]
    ensures { result.now ≡ trimmed bytes.now }
{
    let mut len = bytes.len();
    'cutting: while len > 0 && bytes[len - 1] == b'\r' {
        len -= 1;
    }
    &bytes[..len]
}

impl Lines {
    /// A reader of a new text, with room for one line.
    pub fn new(alloc: Global) -> Result<Lines, AllocError>
        ensures state { IfOk result (λ lines. lines ≡ new_state) }
        ensures text { IfOk result (λ lines. StandsFor [] lines) }
    {
        Ok(Lines {
            line: Vec::with_capacity(alloc, LONGEST_LINE)?,
            ended: false,
            count: 0,
            total: 0,
            fault: None,
        })
    }

    /// Takes bytes until a line ends or the piece is used.
    pub fn take(&mut self, piece: &[u8]) -> Taken
        ensures exact { TakesPiece self.old piece.now result self.new }
        ensures within { IfLine result
            (λ n. (0 < n) × (n ≤ length piece.now) × IsSome self.new.line) }

        // However the text was cut into pieces, the lines are its lines.
        ensures text { (text : List ℕ) → StandsFor text self.old
            → StandsFor (text ++ taken_of result piece.now) self.new }
        ensures lines { (text : List ℕ) → StandsFor text self.old
            → GoesOn (scan text) (scan (text ++ taken_of result piece.now)) result self.new }
    {
        self.take_piece(piece)
    }

    fn take_piece(&mut self, piece: &[u8]) -> Taken
        ensures { TakesPiece self.old piece.now result self.new }
    {
        if let Some(fault) = self.fault {
            return Taken::Fault(fault);
        }
        if self.ended {
            self.line.clear();
            self.ended = false;
        }
        let front = front_len(piece);
        let ends = front < piece.len();
        let count = if ends { front + 1 } else { front };
        let line_room = LONGEST_LINE - self.line.len();
        let input_room = (LONGEST_INPUT - self.total) as usize;
        if count > input_room && (input_room <= line_room || front <= line_room) {
            self.fault = Some(LineFault::InputTooLong);
            return Taken::Fault(LineFault::InputTooLong);
        }
        if front > line_room {
            self.fault = Some(LineFault::LineTooLong);
            return Taken::Fault(LineFault::LineTooLong);
        }
        match self.line.extend_from_slice(&piece[..front]) {
            Ok(()) => {}
            Err(_) => unreachable!(),
        }
        self.total += count as u32;
        if !ends {
            return Taken::More;
        }
        self.count += 1;
        self.ended = true;
        Taken::Line(count)
    }

    /// Whether no line was begun and nothing is wrong.
    pub(crate) fn is_between(&self) -> bool
        ensures { result ≡ true → (self.now.fault ≡ None) × (self.now.rest ≡ []) }
    {
        self.fault.is_none() && (self.ended || self.line.is_empty())
    }

    /// How many bytes may still come.
    pub(crate) fn room(&self) -> usize
        ensures { self.now.total + result ≡ 2 ^ 31 }
    {
        (LONGEST_INPUT - self.total) as usize
    }

    /// The number of the line that comes next, where none was begun.
    pub(crate) fn next_number(&self) -> u32
        ensures value { result ≡ self.now.count + 1 }
        ensures few { result ≤ self.now.total + 1 }
    {
        self.count + 1
    }

    /// Goes on by lines that are held elsewhere.
    pub(crate) fn pass(&mut self, front: Front)
        requires fault { self.old.fault ≡ None }
        requires rest { self.old.rest ≡ [] }
        requires few { front.lines ≤ front.len }
        requires room { self.old.total + front.len ≤ 2 ^ 31 }
        ensures { self.new ≡ after_front self.old front }
    {
        self.line.clear();
        self.ended = false;
        self.count += front.lines;
        self.total += front.len as u32;
    }

    fn take_front<'a>(&mut self, piece: &'a [u8]) -> Option<Whole<'a>>
        ensures { MatchOption result (self.new ≡ self.old)
            (λ w. TakesWhole self.old piece.now w.line.now w.len self.new
            × (w.number ≡ self.new.count)) }
    {
        if !self.is_between() {
            return None;
        }
        let Some(front) = line_end(piece) else {
            return None;
        };
        if front > LONGEST_LINE || front >= (LONGEST_INPUT - self.total) as usize {
            return None;
        }
        let len = front + 1;
        self.pass(Front { len, lines: 1 });
        Some(Whole {
            line: trim(&piece[..front]),
            number: self.count,
            len,
        })
    }

    /// Takes a line that lies whole in the piece, where none was begun, and copies nothing. After a
    /// None nothing has changed, and `take` says what comes of the piece.
    pub(crate) fn take_whole<'a>(&mut self, piece: &'a [u8]) -> Option<Whole<'a>>
        ensures none { result ≡ None → self.new ≡ self.old }
        ensures within { IfSome result (λ w. (0 < w.len) × (w.len ≤ length piece.now)) }
        ensures number { IfSome result (λ w. w.number ≡ self.new.count) }
        ensures one { IfSome result (λ w. IsTextLine w.line.now) }
        ensures text { IfSome result (λ w. (text : List ℕ) → StandsFor text self.old
            → StandsFor (text ++ take w.len piece.now) self.new) }
        ensures line { IfSome result (λ w. (text : List ℕ) → StandsFor text self.old
            → EndsLine (scan text) (scan (text ++ take w.len piece.now)) w.line.now) }
    {
        self.take_front(piece)
    }

    /// Whether bytes stand after the last line end. They are then the line.
    pub fn end(&mut self) -> bool
        ensures exact { self.new ≡ end_done self.old }
        ensures rest { IsTrue result ↔ (0 < length self.old.rest) }
        ensures line { result ≡ true
            → (self.new.line ≡ Some (trimmed self.old.rest))
            × (self.new.count ≡ self.old.count + 1) }
        ensures none { result ≡ false → (self.new.line ≡ None) × (self.new.count ≡ self.old.count) }
    {
        if self.ended || self.line.is_empty() {
            self.line.clear();
            self.ended = false;
            return false;
        }
        self.count += 1;
        self.ended = true;
        true
    }

    /// The line that was given.
    pub fn line(&self) -> &[u8]
        requires { IsSome self.now.line }
        ensures value { Some result.now ≡ self.now.line }
        ensures one { IsTextLine result.now }
    {
        trim(&self.line)
    }

    /// The number of the line that was given, of the one that has a fault, or of the one that is
    /// awaited.
    pub fn number(&self) -> u32
        ensures value { result ≡ number_of self.now }
        ensures room { result ≤ 2 ^ 31 + 1 }
    {
        if self.ended {
            self.count
        } else {
            self.count + 1
        }
    }
}
