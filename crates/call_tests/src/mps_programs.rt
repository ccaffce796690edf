// MPS programs as linear programs.

use linear_program::{Form, Kind, Linear};
use mps_program::{MpsFault, linear_of};
use mps_reader::MpsReader;
use std::alloc::Global;
use std::process::Abort;
use text_base::Stop;

// The linear program of the program of a text, or its first fault.
fn read_linear(rt: &impl Abort, alloc: Global, text: &str) -> Result<Linear, Stop<MpsFault>> {
    let mut reader = MpsReader::new(alloc).expect(rt, "memory");
    // The reader keeps an error, and answers it at the end.
    let _ = reader.feed(text.as_bytes());
    let mps = reader.finish().expect(rt, "a program");
    let answer = linear_of(alloc, &mps);
    drop(mps);
    answer
}

// Whether a form has these whole numbers and no others.
fn is_form(form: &Form, constant: i128, wanted: &[(u32, i128)]) -> bool {
    if form.constant().num() != constant || form.constant().den() != 1 {
        return false;
    }
    let mut place = 0;
    for term in form.terms() {
        if place >= wanted.len() {
            return false;
        }
        let (variable, number) = wanted[place];
        if term.0 != variable || term.1.num() != number || term.1.den() != 1 {
            return false;
        }
        place += 1;
    }
    place == wanted.len()
}

// Rows G, N, L and E, the second of which is the objective; an integer, a binary and a continuous
// column. The entry of Z in the objective is 0.
const ROWS: &str =
    "OBJSENSE MAX\nROWS\n G A\n N C\n N D\n L B\nCOLUMNS\n M 'MARKER' 'INTORG'\n Y C 2 A 1\n Y D 8\n M 'MARKER' 'INTEND'\n Z A 3 C 0\n X C -1 B 7\nRHS\n RHS C -5 A 1\nRANGES\n RNG A -3\nBOUNDS\n BV BND Z\nENDATA\n";

// Constraints are the rows that are no N row, variables the columns, each in the order of the text.
#[test]
fn a_program_keeps_its_numbering(rt: HostRuntime) {
    let linear = read_linear(&rt, rt.alloc(), ROWS).expect(&rt, "a linear program");
    assert!(rt; linear.bodies().len() == 2 && linear.maximise());
    assert!(rt; is_form(&linear.bodies()[0], 0, &[(0, 1), (1, 3)]));
    assert!(rt; is_form(&linear.bodies()[1], 0, &[(2, 7)]));
    assert!(rt; is_form(linear.objective(), 5, &[(0, 2), (2, -1)]));
    assert!(rt; linear.kinds() == [Kind::Integer, Kind::Binary, Kind::Continuous].as_slice());
    drop(linear);
}
