// A program that is built part by part, and its text.
ghost use Rattle.std.specs.Prelude.{◌≡◌};

use crate::programs::is_program;
use exact_numbers::Dec;
use mps_model::{BoundKind, MpsBuilder, RowKind};
use mps_writer::put_change;
use std::alloc::Global;
use std::process::Abort;
use text_base::Name;
use written_texts::{
    put, put_dec, put_end, put_line, put_next, put_next_dec, put_next_number, put_next_numbers,
    put_next_signed, put_number, put_signed,
};

fn name(rt: &impl Abort, alloc: Global, text: &[u8]) -> Name
    ensures { result ≡ text.now }
{
    Name::of(alloc, text).expect(rt, "a name")
}

const BUILT: &str =
    "NAME nl\nOBJSENSE\n MAX\nROWS\n N obj\n G c0\nCOLUMNS\n M0 'MARKER' 'INTORG'\n x0 c0 -1.5\n M1 'MARKER' 'INTEND'\nRHS\n RHS c0 -1.5\nRANGES\n RNG c0 -1.5\nBOUNDS\n FR BND x0\nENDATA\n";

// A row from below by -1 with a range of 7, and a free whole column.
#[test]
fn writes_a_program(rt: HostRuntime) {
    let alloc = rt.alloc();
    let side = Dec::new(-15, -1).expect(&rt, "a side");
    let mut built = MpsBuilder::new(alloc, Some(name(&rt, alloc, b"nl")), false);
    built.set_maximise(true);
    built
        .add_row(name(&rt, alloc, b"obj"), RowKind::N)
        .expect(&rt, "memory");
    built
        .add_row(name(&rt, alloc, b"c0"), RowKind::G)
        .expect(&rt, "memory");
    built
        .add_col(name(&rt, alloc, b"x0"), true)
        .expect(&rt, "memory");
    built.add_entry(1, side).expect(&rt, "memory");
    built.add_rhs(1, side).expect(&rt, "memory");
    built.add_range(1, side).expect(&rt, "memory");
    built
        .add_bound(BoundKind::Fr, 0, Dec::zero())
        .expect(&rt, "memory");
    let mps = built.finish();
    assert!(rt; is_program(&rt, alloc, mps, BUILT));
}

// Each kind of word once.
fn put_words(rt: &impl Abort, out: &mut Vec<u8>, half: Dec) {
    put_line(out, b"ROWS").expect(rt, "memory");
    put(out, b"g").expect(rt, "memory");
    put_number(out, 3).expect(rt, "memory");
    put_next(out, b"a").expect(rt, "memory");
    put_next_number(out, 18_446_744_073_709_551_615).expect(rt, "memory");
    put_next_numbers(out, &[0, 4_294_967_295]).expect(rt, "memory");
    put_next_signed(out, -2_147_483_648).expect(rt, "memory");
    put_next_dec(out, half).expect(rt, "memory");
    put_end(out).expect(rt, "memory");
    put_signed(out, 7).expect(rt, "memory");
    put_end(out).expect(rt, "memory");
    put_dec(out, half.neg()).expect(rt, "memory");
}

const WORDS: &[u8] = b"ROWS\ng3 a 18446744073709551615 0 4294967295 -2147483648 0.5\n7\n-0.5";

#[test]
fn words_of_lines_are_written(rt: HostRuntime) {
    let half = Dec::new(5, -1).expect(&rt, "a number");
    let mut out = Vec::new(rt.alloc());
    put_words(&rt, &mut out, half);
    assert!(rt; out.as_slice() == WORDS);
    drop(out);
}

const MARKERS: &[u8] = b" M0 'MARKER' 'INTORG'\n M1 'MARKER' 'INTEND'\n";

// A marker line stands before the first of whole columns, and behind the last.
#[test]
fn whole_columns_are_marked(rt: HostRuntime) {
    let mut out = Vec::new(rt.alloc());
    let before = put_change(&mut out, false, true, 0).expect(&rt, "memory");
    let between = put_change(&mut out, true, true, 1).expect(&rt, "memory");
    let behind = put_change(&mut out, true, false, 1).expect(&rt, "memory");
    assert!(rt; before == 1 && between == 1 && behind == 2);
    assert!(rt; out.as_slice() == MARKERS);
    drop(out);
}
