// The lines of the right sides and ranges.
ghost use Rattle.std.specs.Prelude.{◌≡◌, ℕ, ◌++◌, ◌∷◌, [], codes, OnOk, cond, List};
ghost use Rattle.std.specs.List.{flat_map};
ghost use Rattle.exact_numbers.specs.Values.{value_text};
ghost use Rattle.mps_model.specs.Text.{entry_lines, section};
ghost use Rattle.row_scaling.specs.Parts.{rows_in};
ghost use Rattle.text_base.specs.WordLines.{WordLine, lines_text, unless_empty};
ghost use Rattle.row_scaling.specs.InsideSections.{all_ranges, all_rows, all_sides, range_lines};

use crate::listed_rows::{RowSection, put_listed, put_value};
use crate::numbers::{negated, nonzero};
use crate::pieces::{Pieces, put_line};
use crate::{FactoredRow, Scaled};
use mps_writer::MpsName;
use std::alloc::AllocError;
use written_texts::LineText;

/// Writes the right sides; minus the objective's constant comes first, where that is not 0.
#[tactic(auto, using(crate::proofs::LineLemmas::sides_written))]
pub(crate) fn put_sides(out: &mut Pieces, scaled: &Scaled) -> Result<(), AllocError>
    ensures { OnOk result (out.new ≡ out.old ++ lines_text
        (section (codes "RHS")
        ∷ entry_lines value_text (all_rows scaled.now) (codes "RHS") (all_sides scaled.now))) }
{
    put_line(out, b"RHS")?;
    let objective = scaled.program_objective();
    let side = nonzero(negated(objective.constant));
    let mut line = LineText::<2048>::new();
    put_value(out, &mut line, b"RHS", &MpsName::Word(b"obj"), side)?;
    put_listed(out, &mut line, RowSection::Sides, scaled)
}

// Whether a row has a range.
fn has_ranges(rows: &[Option<FactoredRow>]) -> bool
    ensures { (name : ℕ → List ℕ) (lines : List WordLine)
        → unless_empty (flat_map range_lines (rows_in name 0 rows.now)) lines
        ≡ cond result lines [] }
{
    for row in rows {
        let Some(factored) = row else {
            continue;
        };
        if factored.row.range().is_some() {
            return true;
        }
    }
    false
}

/// Writes the ranges; nothing where there is none.
pub(crate) fn put_ranges(out: &mut Pieces, scaled: &Scaled) -> Result<(), AllocError>
    ensures { OnOk result (out.new ≡ out.old ++ lines_text
        (unless_empty (all_ranges scaled.now) (section (codes "RANGES")
        ∷ entry_lines value_text (all_rows scaled.now) (codes "RNG")
        (all_ranges scaled.now)))) }
{
    if !has_ranges(scaled.program_rows()) {
        return Ok(());
    }
    put_line(out, b"RANGES")?;
    let mut line = LineText::<2048>::new();
    put_listed(out, &mut line, RowSection::Ranges, scaled)
}
