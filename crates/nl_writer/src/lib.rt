//! The written text of .nl files: one spelling for each file.
#![tactic(auto)]

ghost use Rattle.std.specs.Prelude.{◌≡◌, IfOk};
ghost use Rattle.nl_writer.specs.Written.{nl_text};

mod columns;
mod header;
mod intervals;
mod pieces;
mod trees;
mod words;

use columns::put_columns;
use header::put_header;
use intervals::{put_bounds, put_sides};
use nl_model::NlFile;
use pieces::{
    put_bodies, put_definitions, put_guesses, put_objectives, put_slopes, put_suffixes, put_terms,
};
use std::alloc::{AllocError, Global};

/// The one written text of a file.
pub fn write_nl(alloc: Global, file: &NlFile) -> Result<Vec<u8>, AllocError>
    ensures { IfOk result (λ v. v.items ≡ nl_text file.now) }
{
    let mut out = Vec::new(alloc);
    put_header(&mut out, file)?;
    put_suffixes(&mut out, file.suffixes())?;
    put_definitions(&mut out, file.defs())?;
    put_bodies(&mut out, file)?;
    put_objectives(&mut out, file)?;
    put_guesses(&mut out, b"d", file.dual_guesses())?;
    put_guesses(&mut out, b"x", file.primal_guesses())?;
    put_sides(&mut out, file)?;
    put_bounds(&mut out, file)?;
    put_columns(alloc, &mut out, file)?;
    put_terms(&mut out, file)?;
    put_slopes(&mut out, file)?;
    Ok(out)
}
