// Each command over a desk whose calls move few bytes, and of which one fails.

use crate::commands::command;
use crate::short_desk::{ShortDesk, front};
use example_texts::mps_texts::{FIXED, PAIRS};
use example_texts::nl_texts::KNAPSACK;
use example_texts::proof_texts::{ONE_WHOLE, TWO_LEAVES};
use std::alloc::Global;
use std::process::Abort;

// Of ONE_WHOLE: an answer; one with the name `n` for its row and its column; the optimum of the
// relaxed program; a point that is feasible, and not the best; the whole optimum with its tree; a
// claim that does not hold.
const ANSWER: &str = "answer 1\nstatus 0\nmessage done\ncol x0 2\nrow c0 0.5\n";

const NAMED: &str = "answer 1\nstatus 0\nmessage done\ncol n 2\nrow n 0.5\n";

const BEST: &str = "done\n\nOptions\n0\n1\n1\n1\n1\n0.5\n1.5\n";

const WORSE: &str = "done\n\nOptions\n0\n1\n1\n1\n1\n0.5\n2\n";

const BEST_WHOLE: &str =
    "certificate 1\noptimal 0\npoint 1\n0 2\nsplit 0 1\nweights 1\n0 1\nduals 0\n";

const NOT_BEST: &str = "certificate 1\noptimal 0\npoint 1\n0 3\nduals 0\n";

// A command, the texts that it starts, and its status where no call fails.
#[derive(Clone, Copy)]
struct Case {
    command: &'static str,
    files: u8,
    first: Option<&'static str>,
    second: Option<&'static str>,
    lists: Option<&'static str>,
    status: u8,
}

// A command that starts no second text, whatever its words.
fn of_first(command: &'static str, files: u8, first: Option<&'static str>, status: u8) -> Case {
    Case {
        command,
        files,
        first,
        second: None,
        lists: None,
        status,
    }
}

fn of_one(command: &'static str, text: &'static str, status: u8) -> Case {
    of_first(command, 1, Some(text), status)
}

fn of_two(command: &'static str, text: &'static str, second: &'static str, status: u8) -> Case {
    Case {
        command,
        files: 2,
        first: Some(text),
        second: Some(second),
        lists: None,
        status,
    }
}

// With the names of two lists, which are both this text.
fn with_names(case: Case, files: u8, list: &'static str) -> Case {
    Case {
        files,
        lists: Some(list),
        ..case
    }
}

// A run that has ended.
#[derive(Drop)]
struct Ended {
    status: u8,
    desk: ShortDesk,
}

// Puts the texts of a case.
fn put_texts(rt: &impl Abort, desk: &mut ShortDesk, case: &Case) {
    if let Some(text) = case.first {
        desk.put("a", text.as_bytes()).expect(rt, "memory");
    }
    if let Some(text) = case.second {
        desk.put("b", text.as_bytes()).expect(rt, "memory");
    }
    if let Some(text) = case.lists {
        desk.put("c", text.as_bytes()).expect(rt, "memory");
        desk.put("d", text.as_bytes()).expect(rt, "memory");
    }
}

// Puts the texts of a case, and works its command.
fn work(rt: &impl Abort, alloc: Global, desk: &mut ShortDesk, case: &Case) -> u8 {
    put_texts(rt, desk, case);
    match case.files {
        0 => command(rt, alloc, desk, &[case.command, "1", "1"]),
        1 => command(rt, alloc, desk, &[case.command, "a"]),
        3 => command(rt, alloc, desk, &[case.command, "a", "0", "c", "d"]),
        4 => command(rt, alloc, desk, &[case.command, "a", "b", "c", "d"]),
        _ => command(rt, alloc, desk, &[case.command, "a", "b"]),
    }
}

// The run where each call moves at most so many bytes, and those of these numbers fail.
fn run(rt: &impl Abort, alloc: Global, case: &Case, most: usize, failing: &[u64]) -> Ended {
    let mut desk = ShortDesk::new(rt, alloc, most, failing);
    let status = work(rt, alloc, &mut desk, case);
    Ended { status, desk }
}

// The calls that give a text: its start, its pieces and its end.
fn input_calls(text: Option<&str>, most: usize) -> usize {
    match text {
        None => 0,
        Some(text) => text.len().div_ceil(most.max(1)).saturating_add(2),
    }
}

// The calls that give all texts of a run.
fn all_input_calls(case: &Case, most: usize) -> usize {
    input_calls(case.first, most)
        .saturating_add(input_calls(case.second, most))
        .saturating_add(input_calls(case.lists, most))
        .saturating_add(input_calls(case.lists, most))
}

// Whether a run ended as it must where one call failed, by the whole run. A failed start or read
// leaves nothing written; a failed write what was moved before it; a failed tell changes the line
// alone.
fn ends_well(run: &Ended, whole: &Ended, input_failed: bool, moved: usize) -> bool {
    if input_failed {
        return run.status == 4
            && run.desk.written().is_empty()
            && run.desk.told() == b"input fault\n".as_slice();
    }
    if moved < whole.desk.written().len() {
        return run.status == 5
            && run.desk.written() == front(whole.desk.written(), moved)
            && run.desk.told() == b"output fault\n".as_slice();
    }
    run.status == whole.status
        && run.desk.written() == whole.desk.written()
        && run.desk.told() == front(whole.desk.told(), moved)
}

// Whether a run where the next call failed too has the same status, and could not tell its fault.
fn ends_untold(status: u8, other: &Ended) -> bool {
    other.status == status && (status < 4 || other.desk.told().is_empty())
}

// Whether all is well where call n fails, alone and with the next.
fn fails_so(
    rt: &impl Abort,
    alloc: Global,
    case: &Case,
    whole: &Ended,
    most: usize,
    n: usize,
) -> bool {
    let inputs = all_input_calls(case, most);
    let moved = n.saturating_sub(inputs).saturating_mul(most);
    let call = n as u64;
    let one = run(rt, alloc, case, most, &[call]);
    let status = one.status;
    let is_well = ends_well(&one, whole, n < inputs, moved);
    drop(one);
    let two = run(rt, alloc, case, most, &[call, call.saturating_add(1)]);
    let is_untold = ends_untold(status, &two);
    drop(two);
    is_well && is_untold
}

// How many calls a run makes.
fn call_count(case: &Case, whole: &Ended, most: usize) -> usize {
    let inputs = all_input_calls(case, most);
    let written = whole.desk.written().len().div_ceil(most.max(1));
    let told = whole.desk.told().len().div_ceil(most.max(1));
    inputs.saturating_add(written).saturating_add(told)
}

// Whether all is well for each call that fails, and for none: then the run ends as it does in whole
// pieces.
fn each_fails_so(rt: &impl Abort, alloc: Global, case: &Case, whole: &Ended, most: usize) -> bool {
    if whole.status != case.status {
        return false;
    }
    let calls = call_count(case, whole, most);
    for n in 0..calls.saturating_add(1) {
        if !fails_so(rt, alloc, case, whole, most, n) {
            return false;
        }
    }
    true
}

fn each_call_may_fail(rt: &impl Abort, alloc: Global, case: &Case, most: usize) -> bool {
    let whole = run(rt, alloc, case, 4000, &[]);
    let fail_so = each_fails_so(rt, alloc, case, &whole, most);
    drop(whole);
    fail_so
}

// Whether all is as in the whole run where each call moves one byte.
fn ends_so_in_bytes(rt: &impl Abort, alloc: Global, case: &Case, whole: &Ended) -> bool {
    let bytes = run(rt, alloc, case, 1, &[]);
    let is_the_same = bytes.status == case.status
        && whole.status == case.status
        && bytes.desk.written() == whole.desk.written()
        && bytes.desk.told() == whole.desk.told();
    drop(bytes);
    is_the_same
}

fn is_the_same_in_bytes(rt: &impl Abort, alloc: Global, case: &Case) -> bool {
    let whole = run(rt, alloc, case, 4000, &[]);
    let is_the_same = ends_so_in_bytes(rt, alloc, case, &whole);
    drop(whole);
    is_the_same
}

#[test]
fn calls_of_commands_fail(rt: HostRuntime) {
    let cases = [
        of_one("nl", ONE_WHOLE, 0),
        of_one("mps", PAIRS, 0),
        of_one("sol", BEST, 0),
        of_one("import", PAIRS, 0),
        of_one("fixed", FIXED, 0),
        of_two("return", ONE_WHOLE, ANSWER, 0),
        with_names(of_one("export", ONE_WHOLE, 0), 3, "n\n"),
        with_names(of_two("return", ONE_WHOLE, NAMED, 0), 4, "n\n"),
        of_two("check", ONE_WHOLE, BEST, 0),
        of_two("check", ONE_WHOLE, WORSE, 1),
        of_two("prove", ONE_WHOLE, TWO_LEAVES, 0),
        of_two("verify", ONE_WHOLE, BEST_WHOLE, 0),
        of_two("certified", ONE_WHOLE, BEST_WHOLE, 0),
        of_two("certified", ONE_WHOLE, NOT_BEST, 1),
    ];
    for case in cases {
        assert!(rt; is_the_same_in_bytes(&rt, rt.alloc(), &case));
        for most in [7, 4000] {
            assert!(rt;
                each_call_may_fail(&rt, rt.alloc(), &case, most),
                "at {}",
                case.command
            );
        }
    }
}

// Whether a run ended with a front of what the whole run wrote, since a write failed.
fn ends_short(run: &Ended, whole: &Ended) -> bool {
    let count = run.desk.written().len();
    run.status == 5
        && count < whole.desk.written().len()
        && run.desk.written() == front(whole.desk.written(), count)
        && run.desk.told() == b"output fault\n".as_slice()
}

// An export writes in pieces: here all up to the columns, and then the rest.
#[test]
fn writes_of_pieces_fail(rt: HostRuntime) {
    let case = of_one("export", KNAPSACK, 0);
    assert!(rt; is_the_same_in_bytes(&rt, rt.alloc(), &case));
    let whole = run(&rt, rt.alloc(), &case, 4000, &[]);
    let first = all_input_calls(&case, 4000) as u64;
    for call in [first, first.saturating_add(1)] {
        let one = run(&rt, rt.alloc(), &case, 4000, &[call]);
        assert!(rt; ends_short(&one, &whole));
        drop(one);
    }
    drop(whole);
}

#[test]
fn calls_of_other_commands_fail(rt: HostRuntime) {
    let cases = [
        of_first("make", 0, None, 0),
        of_first("none", 1, None, 3),
        of_first("prove", 2, Some(TWO_LEAVES), 2),
        of_one("export", ANSWER, 2),
        of_two("return", ONE_WHOLE, TWO_LEAVES, 2),
    ];
    for case in cases {
        assert!(rt; is_the_same_in_bytes(&rt, rt.alloc(), &case));
        for most in [7, 4000] {
            assert!(rt;
                each_call_may_fail(&rt, rt.alloc(), &case, most),
                "at {}",
                case.command
            );
        }
    }
}
