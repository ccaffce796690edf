// The verdict on points of a small file, over its folded rows by columns.
ghost use Rattle.std.specs.Prelude.{◌≡◌, ◌<◌};

use certificate_check::{BoundVerdict, Columns, Goal, Spot, Verdict, certify, dual_bound};
use exact_numbers::{Dec, Frac};
use example_texts::nl_texts::{one_row, text_of};
use linear_fold::fold_all;
use linear_program::empty_columns;
use nl_model::NlFile;
use nl_segments::read_nl;
use std::alloc::Global;
use std::marker::Brand;
use std::process::Abort;
use text_base::{Blank, Ledger, Steps};

// 2 x0 is at least 3, and x0 is at most 1.
fn small_file(rt: &impl Abort, alloc: Global) -> NlFile {
    let text = text_of(alloc, &one_row(), "r\n2 3\nb\n1 1\nJ0 1\n0 2\n").expect(rt, "memory");
    let read = read_nl(alloc, text.as_bytes());
    drop(text);
    read.expect(rt, "a file").file
}

fn columns_of<L: Ledger>(rt: &impl Abort, alloc: Global, file: &NlFile, blank: Blank) -> Columns
    requires name { blank.name ≡ L.name }
    requires parts { blank.parts ≡ L.parts }
    requires some { 0 < blank.parts }
{
    let mut steps = Steps::<L>::new(blank);
    let linear = fold_all(alloc, file, 0, &mut steps).expect(rt, "a program");
    let columns = Columns::of(alloc, &linear);
    drop(linear);
    columns.expect(rt, "memory")
}

// The verdict, where the lists have the lengths of the columns.
fn verdict_on(columns: &Columns, x: &[Dec], y: &[Dec]) -> Option<Verdict> {
    if x.len() != columns.n_var() as usize || y.len() != columns.n_con() as usize {
        return None;
    }
    Some(certify(columns, x, y))
}

// The bound for the objective 0, where the lists have the lengths of the columns.
fn bound_on(
    columns: &Columns,
    lo: &[Option<Dec>],
    hi: &[Option<Dec>],
    y: &[Dec],
) -> Option<BoundVerdict> {
    if lo.len() != columns.n_var() as usize || hi.len() != columns.n_var() as usize {
        return None;
    }
    if y.len() != columns.n_con() as usize {
        return None;
    }
    Some(dual_bound(columns, Goal::Zero, lo, hi, y))
}

#[test]
fn a_file_is_judged(rt: HostRuntime) {
    let file = small_file(&rt, rt.alloc());
    let columns = columns_of::<Brand>(&rt, rt.alloc(), &file, Blank::new(1));
    drop(file);
    let tiny = Dec::new(1, -400).expect(&rt, "a number");
    let one = Dec::of_whole(1);
    let points = [
        (one, Verdict::RowBroken(0)),
        (Dec::of_whole(2), Verdict::BoundBroken(0)),
        (tiny, Verdict::TooWide(Spot::Row(0))),
    ];
    for (x, wanted) in points {
        assert!(rt; verdict_on(&columns, &[x], &[one]) == Some(wanted));
    }
    let bounds = [
        (None, Some(one), BoundVerdict::Bound(Frac::one())),
        (Some(one), None, BoundVerdict::BoundSideMissing(0)),
    ];
    for (lo, hi, wanted) in bounds {
        assert!(rt; bound_on(&columns, &[lo], &[hi], &[one]) == Some(wanted));
    }
    drop(columns);
}

#[test]
fn columns_begin_without_terms(rt: HostRuntime) {
    let columns: Vec<Vec<(u32, Dec)>> = empty_columns(rt.alloc(), &[2, 0]).expect(&rt, "memory");
    assert!(rt; columns.len() == 2);
    assert!(rt; columns.iter().all(|column| column.is_empty()));
    drop(columns);
}
