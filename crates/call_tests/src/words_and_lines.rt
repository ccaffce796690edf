// The desk, lines, words, names and the reader of lines.
ghost use Rattle.std.specs.Prelude.{◌≡◌, List, ℕ, length, None};

use std::alloc::Global;
use std::process::Abort;
use text_base::{
    BadName, Desk, Failed, Grammar, LineFault, Lines, Marks, MemoryDesk, Name, Row, Stop, Taken,
    TextFault, TextLines, is_name, read, read_pieces, strip_comment, words,
};

// Puts a text twice under one name, with a read of one byte, and a call that fails.
fn fill(rt: &impl Abort, desk: &mut MemoryDesk) {
    desk.put("a", b"older").expect(rt, "memory");
    desk.put("a", b"abcd").expect(rt, "memory");
    desk.cut(1).expect(rt, "memory");
    desk.fail(2).expect(rt, "memory");
}

#[test]
fn desk_gives_texts_in_cuts(rt: HostRuntime) {
    let mut desk = MemoryDesk::new(rt.alloc(), 0).expect(&rt, "memory");
    fill(&rt, &mut desk);
    let mut buf = [0; 8];
    assert!(rt; desk.start("a") == Ok(()));
    assert!(rt; desk.read(&mut buf) == Ok(1));
    assert!(rt; desk.read(&mut buf) == Err(Failed));
    assert!(rt; desk.read(&mut buf) == Ok(3));
    assert!(rt; buf[0] == b'b');
    assert!(rt; desk.read(&mut buf) == Ok(0));
    assert!(rt; desk.start("b") == Err(Failed));
    drop(desk);
}

#[test]
fn lines_lose_their_returns(rt: HostRuntime) {
    let mut lines = Lines::new(rt.alloc()).expect(&rt, "memory");
    assert!(rt; lines.take(b"a\rb\r\r\nc\r") == Taken::Line(6));
    assert!(rt; lines.line() == b"a\rb".as_slice());
    assert!(rt; lines.number() == 1);
    drop(lines);
}

// Whether so many pieces are a line each.
fn are_lines(lines: &mut Lines, piece: &[u8], count: u32) -> bool {
    for _ in 0..count {
        if lines.take(piece) != Taken::Line(piece.len()) {
            return false;
        }
    }
    true
}

// 32,768 lines of 65,536 bytes with their LF, and then one byte.
#[test]
fn an_input_has_2_to_the_31_bytes(rt: HostRuntime) {
    let mut piece = vec![in rt.alloc(); b'x'; 65_535].expect(&rt, "memory");
    piece.push(b'\n').expect(&rt, "memory");
    let mut lines = Lines::new(rt.alloc()).expect(&rt, "memory");
    assert!(rt; are_lines(&mut lines, &piece, 32_768));
    assert!(rt; lines.take(b"x") == Taken::Fault(LineFault::InputTooLong));
    assert!(rt; lines.number() == 32_769);
    drop(lines);
}

// Whether the text is a name, and a copy of it the same name.
fn is_copied(alloc: Global, text: &[u8]) -> bool {
    let Ok(name) = Name::of(alloc, text) else {
        return false;
    };
    let made = name.copy(alloc);
    drop(name);
    made.is_ok_and(|copy| copy.bytes() == text)
}

fn is_bad_name<T: Drop>(answer: Result<T, Stop<BadName>>) -> bool {
    matches!(&answer, Err(Stop::Fault(BadName)))
}

#[test]
fn names_have_1_to_255_bytes(rt: HostRuntime) {
    let alloc = rt.alloc();
    let bytes = vec![in alloc; b'!'; 256].expect(&rt, "memory");
    assert!(rt; is_copied(alloc, &bytes[..255]));
    for text in [bytes.as_slice(), b"".as_slice(), b"a b".as_slice()] {
        assert!(rt; is_bad_name(Name::of(alloc, text)));
    }
}

// A copy of the text by its test, where it is a name.
fn tested(alloc: Global, text: &[u8]) -> Option<Name> {
    if !is_name(text) {
        return None;
    }
    Name::tested(alloc, text).ok()
}

#[test]
fn a_tested_name(rt: HostRuntime) {
    let name = tested(rt.alloc(), b"x[1]").expect(&rt, "a name");
    assert!(rt; name.bytes() == b"x[1]".as_slice());
    drop(name);
}

#[test]
fn marks_are_taken_away_at_once(rt: HostRuntime) {
    let mut marks = Marks::new(rt.alloc(), 2).expect(&rt, "memory");
    marks.mark(1);
    assert!(rt; marks.is_marked(1));
    assert!(rt; !marks.is_marked(0));
    marks.begin(rt.alloc(), 4).expect(&rt, "memory");
    assert!(rt; !marks.is_marked(1));
}

#[test]
fn text_lines_keep_each_line(rt: HostRuntime) {
    let mut lines = TextLines::new(rt.alloc());
    assert!(rt; lines.push(b"").is_ok());
    assert!(rt; lines.push(b"c d").is_ok());
    assert!(rt; lines.len() == 2);
    assert!(rt; lines.get(1) == b"c d".as_slice());
    drop(lines);
}

#[test]
fn words_stand_between_blanks(rt: HostRuntime) {
    let mut rest = words(b" a\tbc#  ");
    for word in [Some(b"a".as_slice()), Some(b"bc#".as_slice()), None] {
        assert!(rt; rest.next() == word);
    }
    let row = Row::of(b"1 2 3 4 5 6 7 8 9 10 11 12 13");
    assert!(rt; row.words().len() == 12);
    let cases: [(&[u8], &[u8]); 2] = [(b"a#b #c", b"a#b "), (b"# a", b"")];
    for (line, wanted) in cases {
        assert!(rt; strip_comment(line) == wanted);
    }
}

// How many lines a text has.
#[derive(Drop)]
struct LineCount {
    count: u32,
}

impl Grammar for LineCount {
    type Reason = LineFault;

    type Value = u32;

    ghost Setting = { Unit {0} };

    ghost setting = { λ _. tt };

    ghost rules = { λ _. record { at_line = λ _ _. None; at_fault = λ _ fault. fault; at_end = λ _. None } };

    ghost took = { λ s lines. s.count ≡ length lines };

    ghost says = { λ _ lines value. value ≡ length lines };

    fn take(&mut self, _line: &[u8], number: u32) -> Result<(), Stop<LineFault>> {
        self.count = number;
        Ok(())
    }

    fn line_fault(&self, fault: LineFault) -> LineFault {
        fault
    }

    fn finish(self) -> Result<u32, Stop<LineFault>> {
        Ok(self.count)
    }
}

#[test]
fn a_reader_gives_each_line(rt: HostRuntime) {
    let alloc = rt.alloc();
    assert!(rt; read(alloc, LineCount { count: 0 }, b"a\n\nb") == Ok(3));
    assert!(rt; read(alloc, LineCount { count: 0 }, b"a\n") == Ok(1));
    let most = vec![in alloc; b'x'; 65_536].expect(&rt, "memory");
    assert!(rt; read(alloc, LineCount { count: 0 }, &most) == Ok(1));
    let ends = vec![in alloc; b'\n'; 2].expect(&rt, "memory");
    let long = vec![in alloc; b'x'; 65_537].expect(&rt, "memory");
    let pieces = vec![in alloc; ends, long].expect(&rt, "memory");
    let fault = TextFault {
        reason: LineFault::LineTooLong,
        line: 3,
    };
    assert!(rt; read_pieces(alloc, LineCount { count: 0 }, &pieces) == Err(Stop::Fault(fault)));
}
