// The MPS program of a scaled program.
ghost use Rattle.std.specs.Prelude.{◌≡◌, IfOk};
ghost use Rattle.exact_numbers.specs.Values.{dec_value};
ghost use Rattle.mps_model.specs.Mps.{with_values};
ghost use Rattle.scaled_program.specs.ExportedProgram.{mps_of};
ghost use Rattle.row_scaling.specs.Exported.{scaled_as};

use crate::Scaled;
use crate::bounds::add_bounds;
use crate::columns::by_column;
use crate::names::name_of;
use crate::program_columns::add_columns;
use crate::rows::add_rows;
use crate::sides::{add_ranges, add_sides};
use mps_model::{Mps, MpsBuilder};
use mps_writer::MpsName;
use std::alloc::{AllocError, Global};

// Makes room for the rows, columns and bounds of the program: two bounds a column are the most.
fn make_room(builder: &mut MpsBuilder, scaled: &Scaled) -> Result<(), AllocError>
    ensures { builder.new ≡ builder.old }
{
    let rows = scaled.program_rows().len().saturating_add(1);
    let columns = scaled.program_bounds().len();
    builder.make_room(rows, columns, columns.saturating_mul(2))
}

/// The MPS program: its rows are the scaled ones, its objective is as it is or tied to a
/// column of its own.
pub fn program(alloc: Global, scaled: &Scaled) -> Result<Mps, AllocError>
    ensures { IfOk result (λ m. with_values dec_value m ≡ mps_of (scaled_as scaled.now)) }
{
    let name = name_of(alloc, &MpsName::Word(b"nl"))?;
    let columns = by_column(alloc, scaled)?;
    let mut builder = MpsBuilder::new(alloc, Some(name), scaled.maximise());
    make_room(&mut builder, scaled)?;
    add_rows(&mut builder, alloc, scaled)?;
    add_columns(&mut builder, alloc, scaled, columns)?;
    add_sides(&mut builder, scaled)?;
    add_ranges(&mut builder, scaled)?;
    add_bounds(&mut builder, scaled)?;
    Ok(builder.finish())
}
