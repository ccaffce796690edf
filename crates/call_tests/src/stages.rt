// The stages of an export, one after the other.
ghost use Rattle.std.specs.Prelude.{◌≡◌, ◌<◌};

use crate::segments::file_of;
use exact_numbers::{Dec, Frac};
use example_texts::nl_texts::{KNAPSACK, KNAPSACK_WRITTEN};
use linear_fold::{Form, Linear, Pad, fold_all, fold_file};
use mps_writer::write_mps;
use nl_model::NlFile;
use nl_segments::read_nl;
use row_scaling::{program, scale_rows, write_exported};
use std::alloc::Global;
use std::marker::Brand;
use std::process::Abort;
use text_base::{Blank, Ledger, Steps};

// Adds twice a constant to the form 0 on a pad, and closes it.
fn doubled<L: Ledger>(rt: &impl Abort, alloc: Global, value: Frac, blank: Blank) -> Frac
    requires name { blank.name ≡ L.name }
    requires parts { blank.parts ≡ L.parts }
    requires some { 0 < blank.parts }
{
    let mut steps = Steps::<L>::new(blank);
    let two = Frac::one().add(Frac::one()).expect(rt, "two");
    let pad = Pad::new(alloc, 4).expect(rt, "memory");
    let mut sum = Form::on_pad(pad);
    let other = Form::of_constant(alloc, value);
    assert!(*rt; sum.add_scaled(&other, two, &mut steps).is_ok());
    drop(other);
    let (form, pad) = sum.close().expect(rt, "memory");
    let constant = form.constant();
    drop(form);
    drop(pad);
    constant
}

// Adds twice a constant to the closed form 0.
fn doubled_closed<L: Ledger>(rt: &impl Abort, alloc: Global, value: Frac, blank: Blank) -> Frac
    requires name { blank.name ≡ L.name }
    requires parts { blank.parts ≡ L.parts }
    requires some { 0 < blank.parts }
{
    let mut steps = Steps::<L>::new(blank);
    let two = Frac::one().add(Frac::one()).expect(rt, "two");
    let mut sum = Form::new(alloc);
    let other = Form::of_constant(alloc, value);
    assert!(*rt; sum.add_scaled(&other, two, &mut steps).is_ok());
    drop(other);
    let constant = sum.constant();
    drop(sum);
    constant
}

#[test]
fn a_multiple_is_added(rt: HostRuntime) {
    let three = Frac::new(3, 1).expect(&rt, "three");
    let open = doubled::<Brand>(&rt, rt.alloc(), three, Blank::new(1));
    let closed = doubled_closed::<Brand>(&rt, rt.alloc(), three, Blank::new(1));
    assert!(rt; Some(open) == Frac::new(6, 1));
    assert!(rt; Some(closed) == Frac::new(6, 1));
}

// The written text of a file with its first objective, by its program and without it.
fn exported<L: Ledger>(
    rt: &impl Abort,
    alloc: Global,
    file: &NlFile,
    blank: Blank,
) -> (Vec<u8>, Vec<u8>)
    requires name { blank.name ≡ L.name }
    requires parts { blank.parts ≡ L.parts }
    requires some { 0 < blank.parts }
{
    let mut steps = Steps::<L>::new(blank);
    let linear = fold_all(alloc, file, 0, &mut steps).expect(rt, "a program");
    let scaled = scale_rows(alloc, &linear).expect(rt, "rows");
    drop(linear);
    let mps = program(alloc, &scaled).expect(rt, "memory");
    let text = write_exported(alloc, &scaled).expect(rt, "memory");
    drop(scaled);
    let out = write_mps(alloc, &mps).expect(rt, "memory");
    drop(mps);
    (out, text)
}

#[test]
fn a_file_goes_through_all_stages(rt: HostRuntime) {
    let read = read_nl(rt.alloc(), KNAPSACK.as_bytes()).expect(&rt, "refused");
    let (out, text) = exported::<Brand>(&rt, rt.alloc(), &read.file, Blank::new(1));
    drop(read);
    assert!(rt; out.as_slice() == KNAPSACK_WRITTEN.as_bytes());
    assert!(rt; text.as_slice() == KNAPSACK_WRITTEN.as_bytes());
    drop(out);
    drop(text);
}

// The decimals of the first body, where they are kept.
fn first_decimals(linear: &Linear) -> Option<&[(u32, Dec)]> {
    linear.bodies().first()?.decimals()
}

// Whether the terms of the first body are kept as these decimals.
fn keeps_decimals<L: Ledger>(
    alloc: Global,
    file: &NlFile,
    wanted: &[(u32, Dec)],
    blank: Blank,
) -> bool
    requires name { blank.name ≡ L.name }
    requires parts { blank.parts ≡ L.parts }
    requires some { 0 < blank.parts }
{
    let mut steps = Steps::<L>::new(blank);
    let Ok(linear) = fold_all(alloc, file, 0, &mut steps) else {
        return false;
    };
    let is_kept = first_decimals(&linear) == Some(wanted);
    drop(linear);
    is_kept
}

// A body whose terms are ascending decimals. The clause lets the call answer none.
#[test]
fn decimals_are_kept(rt: HostRuntime) {
    let read = read_nl(rt.alloc(), KNAPSACK.as_bytes()).expect(&rt, "refused");
    let last = Dec::new(65, -1).expect(&rt, "a number");
    let terms = [(0, Dec::of_whole(5)), (1, Dec::of_whole(4)), (2, last)];
    let is_kept = keeps_decimals::<Brand>(rt.alloc(), &read.file, &terms, Blank::new(1));
    drop(read);
    assert!(rt; is_kept);
}

// The same of a file that is let go.
fn hands_on_decimals<L: Ledger>(
    alloc: Global,
    file: NlFile,
    wanted: &[(u32, Dec)],
    blank: Blank,
) -> bool
    requires name { blank.name ≡ L.name }
    requires parts { blank.parts ≡ L.parts }
    requires some { 0 < blank.parts }
{
    let mut steps = Steps::<L>::new(blank);
    let Ok(linear) = fold_file(alloc, file, 0, &mut steps) else {
        return false;
    };
    let is_kept = first_decimals(&linear) == Some(wanted);
    drop(linear);
    is_kept
}

#[test]
fn decimals_are_handed_on(rt: HostRuntime) {
    let file = file_of(&rt, rt.alloc(), KNAPSACK);
    let last = Dec::new(65, -1).expect(&rt, "a number");
    let terms = [(0, Dec::of_whole(5)), (1, Dec::of_whole(4)), (2, last)];
    let is_kept = hands_on_decimals::<Brand>(rt.alloc(), file, &terms, Blank::new(1));
    assert!(rt; is_kept);
}
