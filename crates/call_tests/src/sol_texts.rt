// .sol texts that come in pieces, and a value that is built and written.
ghost use Rattle.std.specs.Prelude.{◌≡◌, []};

use exact_numbers::Dec;
use nl_model::{Options, Terms};
use sol_files::{Sol, SolBuilder, SolFault, SolReader, SolSuffix, write_sol};
use std::alloc::Global;
use std::process::Abort;
use text_base::{Name, Stop, TextLines};

// Without a last line end.
const SOLVED: &[u8] =
    b"\nsolver: done\n\nOptions\n3\n1\n1\n0\n1\n0\n2\n2\n1.1102230246251565e-32\n2\nobjno 0 0\nsuffix 0 2 8 0 0\nsstatus\n0 1\n1 3";

const WRITTEN: &[u8] =
    b"\nsolver: done\n\nOptions\n3\n1\n1\n0\n1\n0\n2\n2\n11102230246251565e-48\n2\nobjno 0 0\nsuffix 0 2 8 0 0\nsstatus\n0 1\n1 3\n";

fn read_in_pieces(alloc: Global, text: &[u8], len: usize) -> Result<Sol, Stop<SolFault>> {
    let mut reader = SolReader::new(alloc)?;
    let mut rest = text;
    for _ in 0..text.len() {
        let (piece, more) = rest.split_at(rest.len().min(len));
        // The reader keeps an error, and answers it at the end.
        let _ = reader.feed(piece);
        rest = more;
    }
    reader.finish()
}

fn is_solved(sol: &Sol) -> bool {
    sol.message().len() == 2
        && sol.options().len() == 3
        && sol.n_con() == 1
        && sol.duals().len() == 0
        && sol.n_var() == 2
        && sol.primals().len() == 2
        && sol.objno() == Some((0, 0))
        && sol.suffixes().len() == 1
}

#[test]
fn a_solved_file_in_pieces(rt: HostRuntime) {
    for len in [1, 2, 3, 7, 1000] {
        let sol = read_in_pieces(rt.alloc(), SOLVED, len).expect(&rt, "a solution");
        assert!(rt; is_solved(&sol));
        drop(sol);
    }
}

// Whether the solution is written so.
fn is_written(rt: &impl Abort, alloc: Global, sol: Sol, wanted: &[u8]) -> bool {
    let text = write_sol(alloc, &sol).expect(rt, "memory");
    drop(sol);
    let is_wanted = text.as_slice() == wanted;
    drop(text);
    is_wanted
}

#[test]
fn a_solved_file_is_written(rt: HostRuntime) {
    let sol = read_in_pieces(rt.alloc(), SOLVED, 1000).expect(&rt, "a solution");
    assert!(rt; is_written(&rt, rt.alloc(), sol, WRITTEN));
}

// A suffix without a table.
fn slack(rt: &impl Abort, alloc: Global, value: Dec) -> SolSuffix
    ensures { result.table ≡ [] }
{
    let mut values = Terms::new(alloc);
    values.push((0, value)).expect(rt, "memory");
    SolSuffix {
        kind: 5,
        name: Name::of(alloc, b"slack").expect(rt, "a name"),
        name_len: 6,
        table_len: 0,
        table: TextLines::new(alloc),
        values,
    }
}

const BUILT: &[u8] =
    b"done\n\nOptions\n1\n-1\n1\n1\n1\n1\n0.5\n0.5\nobjno -1 7\nsuffix 5 1 6 0 0\nslack\n0 0.5\n";

#[test]
fn a_value_is_built(rt: HostRuntime) {
    let alloc = rt.alloc();
    let half = Dec::new(5, -1).expect(&rt, "a number");
    let mut options = Options::new();
    options.push(-1);
    let mut built = SolBuilder::new(alloc, options, 1, 1);
    built.say(b"done").expect(&rt, "memory");
    built.dual(half).expect(&rt, "memory");
    built.primal(half).expect(&rt, "memory");
    built.set_objno(-1, 7);
    let suffix = slack(&rt, alloc, half);
    built.suffix(suffix).expect(&rt, "memory");
    assert!(rt; is_written(&rt, alloc, built.finish(), BUILT));
}
