// The lines of the rows.
ghost use Rattle.std.specs.Prelude.{◌≡◌, ◌++◌, ◌∷◌, map, codes, OnOk};
ghost use Rattle.mps_model.specs.Text.{row_line, section};
ghost use Rattle.text_base.specs.WordLines.{lines_text};
ghost use Rattle.row_scaling.specs.InsideSections.{all_rows};

use crate::Scaled;
use crate::listed_rows::{RowSection, put_listed};
use crate::pieces::{Pieces, put_line, put_row};
use mps_model::RowKind;
use mps_writer::MpsName;
use std::alloc::AllocError;
use written_texts::LineText;

/// Writes the rows, the objective first.
pub(crate) fn put_rows(out: &mut Pieces, scaled: &Scaled) -> Result<(), AllocError>
    ensures { OnOk result (out.new ≡ out.old ++ lines_text
        (section (codes "ROWS") ∷ map row_line (all_rows scaled.now))) }
{
    put_line(out, b"ROWS")?;
    let mut line = LineText::<2048>::new();
    put_row(out, &mut line, &MpsName::Word(b"obj"), RowKind::N)?;
    put_listed(out, &mut line, RowSection::Rows, scaled)?;
    Ok(())
}
