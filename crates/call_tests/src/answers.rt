// Answers that come in pieces, and .sol files that are made of them.
ghost use Rattle.std.specs.Prelude.{◌≡◌, ◌<◌};
ghost use Rattle.dual_return.specs.Return.{IsAnswerFor};

use answer_file::{Answer, AnswerFault, AnswerReader, read_answer};
use dual_return::{ReturnFault, solution};
use exact_numbers::Dec;
use example_texts::nl_texts::{Sizes, header, text_of};
use linear_fold::fold_all;
use nl_model::NlFile;
use nl_segments::{NlRead, read_nl};
use row_scaling::scale_rows;
use sol_files::{Sol, write_sol};
use std::alloc::Global;
use std::marker::Brand;
use std::process::Abort;
use text_base::{Blank, Ledger, Steps, Stop};

fn read_file(rt: &impl Abort, alloc: Global, sizes: &Sizes, body: &str) -> NlRead {
    let text = text_of(alloc, sizes, body).expect(rt, "memory");
    let read = read_nl(alloc, text.as_bytes());
    drop(text);
    read.expect(rt, "a file")
}

// Two variables and three constraints, of which the second has no side.
fn three_rows(rt: &impl Abort, alloc: Global) -> NlRead {
    let sizes = header("2 3 0", "3 0", "0");
    read_file(
        rt,
        alloc,
        &sizes,
        "r\n1 7\n3\n1 7\nb\n3\n3\nJ0 1\n0 1\nJ1 1\n0 1\nJ2 1\n1 1\n",
    )
}

fn read_in_pieces(
    alloc: Global,
    file: &NlFile,
    text: &[u8],
    len: usize,
) -> Result<Answer, Stop<AnswerFault>> {
    let mut reader = AnswerReader::new(alloc, file)?;
    let mut rest = text;
    for _ in 0..text.len() {
        let (piece, more) = rest.split_at(rest.len().min(len));
        // The reader keeps an error, and answers it at the end.
        let _ = reader.feed(piece);
        rest = more;
    }
    reader.finish()
}

const WHOLE: &[u8] =
    b"\nanswer 1\nstatus 100\n message  done \nmessage\nsign min\nobjno 3\ncol x0 1\ncol x1 2e1\nrow c0 0.5\nrow c2 -1\nsuffix 0 sstatus x1 1\nsuffix 5 slack c0 0.5\nsuffix 0 sstatus x0 3\nsuffix 2 cost obj 7\nsuffix 3 size problem 9\ncol z 1\nrow zdef 1\nrow zdef 2\nsuffix 4 sstatus z 0.5";

fn value_at(answer: &Answer, suffix: usize, place: usize) -> Option<(u32, Dec)> {
    let suffix = answer.suffixes().get(suffix)?;
    suffix.values.items().get(place).copied()
}

fn are_lines_read(answer: &Answer) -> bool {
    let message = answer.message();
    answer.status() == Some(100)
        && answer.min_sign()
        && answer.objective() == 3
        && message.len() == 2
        && message.get(0) == b" done ".as_slice()
        && message.get(1) == b"".as_slice()
}

fn are_values_read(answer: &Answer) -> bool {
    answer.has_cols()
        && answer.has_rows()
        && answer.col(0) == Dec::new(1, 0)
        && answer.col(1) == Dec::new(20, 0)
        && answer.col(2) == None
        && answer.row(0) == Dec::new(5, -1)
        && answer.row(1) == None
        && answer.row(2) == Dec::new(-1, 0)
}

fn is_pair(pair: Option<(u32, Dec)>, place: u32, value: i128) -> bool {
    match (pair, Dec::new(value, 0)) {
        (Some((at, found)), Some(wanted)) => at == place && found == wanted,
        _ => false,
    }
}

fn are_suffixes_read(answer: &Answer) -> bool {
    answer.suffixes().len() == 4
        && is_pair(value_at(answer, 0, 0), 1, 1)
        && is_pair(value_at(answer, 0, 1), 0, 3)
        && value_at(answer, 0, 2) == None
        && is_pair(value_at(answer, 2, 0), 3, 7)
        && is_pair(value_at(answer, 3, 0), 0, 9)
}

#[test]
fn a_whole_answer_in_pieces(rt: HostRuntime) {
    let read = three_rows(&rt, rt.alloc());
    for len in [1, 2, 3, 7, 1000] {
        let answer = read_in_pieces(rt.alloc(), &read.file, WHOLE, len).expect(&rt, "an answer");
        assert!(rt; are_lines_read(&answer));
        assert!(rt; are_values_read(&answer));
        assert!(rt; are_suffixes_read(&answer));
        drop(answer);
    }
    drop(read);
}

// The .sol value of an answer that was read.
fn solved<L: Ledger>(
    alloc: Global,
    file: &NlFile,
    answer: &Answer,
    steps: &mut Steps<L>,
) -> Result<Sol, Stop<ReturnFault>>
    requires { IsAnswerFor file.now answer.now }
{
    let Ok(linear) = fold_all(alloc, file, answer.objective(), steps) else {
        return Err(Stop::Memory);
    };
    let rows = scale_rows(alloc, &linear);
    drop(linear);
    let Ok(scaled) = rows else {
        return Err(Stop::Memory);
    };
    let sol = solution(alloc, file, &scaled, answer);
    drop(scaled);
    sol
}

// The .sol value of an answer that has no fault.
fn returned<L: Ledger>(
    alloc: Global,
    file: &NlFile,
    text: &[u8],
    blank: Blank,
) -> Result<Sol, Stop<ReturnFault>>
    requires name { blank.name ≡ L.name }
    requires parts { blank.parts ≡ L.parts }
    requires some { 0 < blank.parts }
{
    let mut steps = Steps::<L>::new(blank);
    let Ok(answer) = read_answer(alloc, file, text) else {
        return Err(Stop::Memory);
    };
    let sol = solved(alloc, file, &answer, &mut steps);
    drop(answer);
    sol
}

// Whether an answer for a file is returned as this text.
fn is_returned(
    rt: &impl Abort,
    alloc: Global,
    file: (&Sizes, &str),
    answer: &str,
    wanted: &str,
) -> bool {
    let (sizes, body) = file;
    let read = read_file(rt, alloc, sizes, body);
    let answered = returned::<Brand>(alloc, &read.file, answer.as_bytes(), Blank::new(1));
    drop(read);
    let sol = answered.expect(rt, "a solution");
    let written = write_sol(alloc, &sol);
    drop(sol);
    let text = written.expect(rt, "memory");
    let is_wanted = text.as_slice() == wanted.as_bytes();
    drop(text);
    is_wanted
}

// A maximised file, whose dual is turned, and a row whose factor is 3.
#[test]
fn duals_are_turned_and_unscaled(rt: HostRuntime) {
    let cases = [
        (
            header("1 1 1", "1 1", "0"),
            "O0 1\nn0\nr\n1 7\nb\n2 0\nJ0 1\n0 2\nG0 1\n0 3\n",
            "answer 1\nstatus 0\nmessage done\nsign min\ncol x0 3.5\nrow c0 -1.5",
            "done\n\nOptions\n3\n1\n1\n0\n1\n1\n1\n1\n1.5\n3.5\nobjno 0 0\n",
        ),
        (
            header("2 1 0", "2 0", "0"),
            "C0\no0\no3\nv0\nn3\nv1\nr\n1 1\nb\n3\n3\nJ0 2\n0 0\n1 0\n",
            "answer 1\nstatus 0\nrow c0 0.5",
            "\nOptions\n3\n1\n1\n0\n1\n1\n2\n0\n1.5\nobjno 0 0\n",
        ),
    ];
    for (sizes, body, answer, wanted) in &cases {
        assert!(rt; is_returned(&rt, rt.alloc(), (sizes, body), answer, wanted));
    }
}
