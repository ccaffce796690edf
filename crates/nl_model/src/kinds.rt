// The kinds of variables, by the groups in which they stand.
ghost use Rattle.std.specs.Prelude.{◌≡◌, ◌<◌, ◌≤◌, ◌-◌, ◌++◌, length, min, replicate, IfOk, OnOk};
ghost use Rattle.nl_model.specs.HeaderWords.{header_counts};
ghost use Rattle.nl_model.specs.InsideKinds.{kind_among, run_of, runs};
ghost use Rattle.linear_program.specs.declared.kind.Kind.TheVariants.{Continuous, Integer};
ghost use Rattle.nl_model.specs.Kinds.{kinds_in, variable_kind};

use crate::file::NlFile;
use crate::header::Header;
use crate::header_counts::Counts;
use linear_program::Kind;
use std::alloc::{AllocError, Global};

/// So many variables of one kind that follow one another.
#[derive(Clone, Copy)]
pub struct Run {
    size: u32,
    kind: Kind,
}

fn continuous(size: u32) -> Run
    ensures { result ≡ run_of size Continuous }
{
    Run {
        size,
        kind: Kind::Continuous,
    }
}

fn integer(size: u32) -> Run
    ensures { result ≡ run_of size Integer }
{
    Run {
        size,
        kind: Kind::Integer,
    }
}

// The runs of a file's variables: nonlinear in constraints and objectives, in constraints only, in
// objectives only; then linear, binary, integer.
fn runs_of(counts: &Counts) -> [Run; 9]
    ensures { result ≡ runs counts.now }
{
    let rows = counts.nlvc.saturating_sub(counts.nlvb);
    let objectives = counts.nlvo.saturating_sub(counts.nlvc);
    let linear = counts.n_var.saturating_sub(counts.nlvc.max(counts.nlvo));
    [
        continuous(counts.nlvb.saturating_sub(counts.nlvbi)),
        integer(counts.nlvbi),
        continuous(rows.saturating_sub(counts.nlvci)),
        integer(counts.nlvci),
        continuous(objectives.saturating_sub(counts.nlvoi)),
        integer(counts.nlvoi),
        continuous(linear.saturating_sub(counts.nbv).saturating_sub(counts.niv)),
        Run {
            size: counts.nbv,
            kind: Kind::Binary,
        },
        integer(counts.niv),
    ]
}

// The kind at a place, where runs follow one another.
fn kind_at(runs: &[Run], place: u32) -> Kind
    ensures { result ≡ kind_among runs.now place }
{
    let mut left = place;
    'runs: for i in 0..runs.len() {
        let run = runs[i];
        if left < run.size {
            return run.kind;
        }
        left -= run.size;
    }
    Kind::Continuous
}

/// The kind of a variable, by its place in the order of variables.
pub fn kinds_of(header: &Header, var: u32) -> Kind
    requires { var < (header_counts header.now).n_var }
    ensures { result ≡ variable_kind (header_counts header.now) var }
{
    kind_at(&runs_of(header.counts()), var)
}

// Adds the variables of a run, as many as there are up to a number of all.
fn push_run(kinds: &mut Vec<Kind>, run: Run, count: usize) -> Result<(), AllocError>
    requires { length kinds.old.items ≤ count }
    ensures items { OnOk result (kinds.new.items
        ≡ kinds.old.items ++ replicate (min (count - length kinds.old.items) run.size) run.kind) }
{
    let len = kinds.len();
    kinds.resize(len + (count - len).min(run.size as usize), run.kind)?;
    Ok(())
}

/// The kinds of all variables of a file, in order.
pub fn all_kinds(alloc: Global, file: &NlFile) -> Result<Vec<Kind>, AllocError>
    ensures { IfOk result (λ v. v.items ≡ kinds_in file.now) }
{
    let counts = file.header().counts();
    let runs = runs_of(counts);
    let count = counts.n_var as usize;
    let mut kinds = Vec::with_capacity(alloc, count)?;
    'runs: for i in 0..runs.len() {
        push_run(&mut kinds, runs[i], count)?;
    }
    kinds.resize(count, Kind::Continuous)?;
    Ok(kinds)
}
