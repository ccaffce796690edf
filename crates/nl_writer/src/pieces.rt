// The pieces of suffixes, defined variables, bodies, objectives, guesses and terms.
ghost use Rattle.std.specs.Prelude.{◌≡◌, ◌<◌, ◌++◌, ◌∷◌, [], OnOk, Some, codes, length, slice_get};
ghost use Rattle.std.specs.List.{flat_map};
ghost use Rattle.std.specs.Option.{option_copied};
ghost use Rattle.std.specs.Fmt.{decimal};
ghost use Rattle.text_base.specs.WordLines.{line_text, lines_text};
ghost use Rattle.nl_writer.specs.Trees.{tree_lines};
ghost use Rattle.nl_writer.specs.Written.{lettered, by_number, suffix_piece, definition_piece, body_piece, sense_word, objective_piece, guess_piece, term_piece};

use crate::trees::put_tree;
use crate::words::{put_lettered, put_term_lines};
use nl_model::{Def, Expr, NlFile, Suffix, Terms};
use std::alloc::AllocError;
use written_texts::{put_end, put_next, put_next_number};

fn put_suffix(out: &mut Vec<u8>, suffix: &Suffix) -> Result<(), AllocError>
    ensures { OnOk result (out.new.items ≡ out.old.items ++ lines_text (suffix_piece suffix.now)) }
{
    let values = suffix.values.items();
    put_lettered(out, b"S", suffix.kind as u64)?;
    put_next_number(out, values.len() as u64)?;
    put_next(out, suffix.name.bytes())?;
    put_end(out)?;
    put_term_lines(out, values)
}

pub(crate) fn put_suffixes(out: &mut Vec<u8>, suffixes: &[Suffix]) -> Result<(), AllocError>
    ensures { OnOk result (out.new.items
        ≡ out.old.items ++ lines_text (flat_map suffix_piece suffixes.now)) }
{
    for suffix in suffixes {
        put_suffix(out, suffix)?;
    }
    Ok(())
}

fn put_definition(out: &mut Vec<u8>, definition: &Def) -> Result<(), AllocError>
    ensures { OnOk result (out.new.items
        ≡ out.old.items ++ lines_text (definition_piece definition.now)) }
{
    let terms = definition.terms.items();
    put_lettered(out, b"V", definition.index as u64)?;
    put_next_number(out, terms.len() as u64)?;
    put_next_number(out, definition.usage as u64)?;
    put_end(out)?;
    put_term_lines(out, terms)?;
    put_tree(out, &definition.tree)
}

pub(crate) fn put_definitions(out: &mut Vec<u8>, definitions: &[Def]) -> Result<(), AllocError>
    ensures { OnOk result (out.new.items
        ≡ out.old.items ++ lines_text (flat_map definition_piece definitions.now)) }
{
    for definition in definitions {
        put_definition(out, definition)?;
    }
    Ok(())
}

// The body of a constraint, where it was given.
fn put_body(out: &mut Vec<u8>, con: u32, body: Option<&Expr>) -> Result<(), AllocError>
    ensures { OnOk result (out.new.items
        ≡ out.old.items ++ lines_text (body_piece con (option_copied body.entry))) }
{
    let Some(tree) = body else {
        return Ok(());
    };
    put_lettered(out, b"C", con as u64)?;
    put_end(out)?;
    put_tree(out, tree)
}

// The body of a constraint, where it was given.
fn body_at(file: &NlFile, con: u32) -> Option<&Expr>
    requires { con < file.now.counts.n_con }
    ensures { slice_get file.now.bodies con ≡ Some (option_copied result) }
{
    file.body(con)
}

pub(crate) fn put_bodies(out: &mut Vec<u8>, file: &NlFile) -> Result<(), AllocError>
    ensures { OnOk result (out.new.items
        ≡ out.old.items ++ lines_text (by_number body_piece 0 file.now.bodies)) }
{
    let count = file.header().counts().n_con;
    for con in 0..count {
        put_body(out, con, body_at(file, con))?;
    }
    Ok(())
}

fn sense_word(maximise: bool) -> &'static [u8]
    ensures { result.now ≡ sense_word maximise }
{
    if maximise { b"1" } else { b"0" }
}

fn put_objective(out: &mut Vec<u8>, k: u32, maximise: bool, tree: &Expr) -> Result<(), AllocError>
    ensures { OnOk result (out.new.items
        ≡ out.old.items ++ lines_text
        (objective_piece k (record { maximise = maximise; tree = tree.now }))) }
{
    put_lettered(out, b"O", k as u64)?;
    put_next(out, sense_word(maximise))?;
    put_end(out)?;
    put_tree(out, tree)
}

pub(crate) fn put_objectives(out: &mut Vec<u8>, file: &NlFile) -> Result<(), AllocError>
    ensures { OnOk result (out.new.items
        ≡ out.old.items ++ lines_text (by_number objective_piece 0 file.now.objectives)) }
{
    let count = file.header().counts().n_obj;
    for k in 0..count {
        put_objective(out, k, file.maximise(k), file.objective(k))?;
    }
    Ok(())
}

// Guesses; nothing where there is none.
pub(crate) fn put_guesses(
    out: &mut Vec<u8>,
    letter: &[u8],
    guesses: &Terms,
) -> Result<(), AllocError>
    ensures { OnOk result (out.new.items
        ≡ out.old.items ++ lines_text (guess_piece letter.now guesses.now)) }
{
    let lines = guesses.items();
    if lines.is_empty() {
        return Ok(());
    }
    put_lettered(out, letter, lines.len() as u64)?;
    put_end(out)?;
    put_term_lines(out, lines)
}

// The terms of a constraint or an objective; nothing where there is none.
fn put_row(out: &mut Vec<u8>, letter: &[u8], number: u32, terms: &Terms) -> Result<(), AllocError>
    ensures { OnOk result (out.new.items
        ≡ out.old.items ++ lines_text (term_piece letter.now number terms.now)) }
{
    let lines = terms.items();
    if lines.is_empty() {
        return Ok(());
    }
    put_lettered(out, letter, number as u64)?;
    put_next_number(out, lines.len() as u64)?;
    put_end(out)?;
    put_term_lines(out, lines)
}

pub(crate) fn put_terms(out: &mut Vec<u8>, file: &NlFile) -> Result<(), AllocError>
    ensures { OnOk result (out.new.items
        ≡ out.old.items ++ lines_text (by_number (term_piece (codes "J")) 0 file.now.terms)) }
{
    let count = file.header().counts().n_con;
    for con in 0..count {
        put_row(out, b"J", con, file.terms(con))?;
    }
    Ok(())
}

pub(crate) fn put_slopes(out: &mut Vec<u8>, file: &NlFile) -> Result<(), AllocError>
    ensures { OnOk result (out.new.items
        ≡ out.old.items ++ lines_text (by_number (term_piece (codes "G")) 0 file.now.slopes)) }
{
    let count = file.header().counts().n_obj;
    for k in 0..count {
        put_row(out, b"G", k, file.slopes(k))?;
    }
    Ok(())
}
