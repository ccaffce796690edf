// The scaled program of a linear program.
ghost use Rattle.std.specs.Prelude.{◌≡◌, IfOk, IfErr, OnOk};
ghost use Rattle.text_base.specs.Stopped.{IfFault};
ghost use Rattle.linear_program.specs.Programs.{linear_value};
ghost use Rattle.row_scaling.specs.Factored.{AreScaledRows, IsTiedOrPlain};
ghost use Rattle.row_scaling.specs.Scaling.{HasNoScaleFault, HasScaleFault, IsScaledOf};

use crate::objectives::{TiedObjective, scaled_objective};
use crate::scale_fault::ScaleFault;
use crate::scaled::Scaled;
use crate::scaled_rows::{moved_rows, scaled_rows};
use linear_program::{Linear, LinearParts};
use std::alloc::Global;
use text_base::Stop;

/// Multiplies each row that has a side by its least factor, and the objective where it is not
/// decimal.
pub fn scale_rows(alloc: Global, linear: &Linear) -> Result<Scaled, Stop<ScaleFault>>
    // Each row that has a side is this row times its least factor, and so are its sides less its
    // constant.
    ensures rows { IfOk result (λ s. AreScaledRows (linear_value linear.now) s.rows) }

    // The objective is as it is, or times its least factor where it is not decimal.
    ensures objective { IfOk result (λ s. IsTiedOrPlain linear.now.objective s.objective s.tie) }

    // The sense, the bounds and the kinds are as they were.
    ensures sense { IfOk result (λ s. s.maximise ≡ linear.now.maximise) }
    ensures bounds { IfOk result (λ s. s.bounds ≡ linear.now.bounds) }
    ensures kinds { IfOk result (λ s. s.kinds ≡ linear.now.kinds) }

    // The program that it is exported as, or the first row or the objective that is too wide.
    ensures scaled { IfOk result (λ s. IsScaledOf (linear_value linear.now) s) }
    ensures fine { OnOk result (HasNoScaleFault (linear_value linear.now)) }
    ensures fault { IfErr result
        (λ stop. IfFault stop (λ fault. HasScaleFault (linear_value linear.now) fault)) }
{
    let rows = match scaled_rows(alloc, linear) {
        Ok(rows) => rows,
        Err(stop) => return Err(stop),
    };
    let parts = match scaled_objective(alloc, linear.objective()) {
        Ok(parts) => parts,
        Err(Stop::Memory) => return Err(Stop::Memory),
        Err(Stop::Fault(_)) => return Err(Stop::Fault(ScaleFault::ObjectiveTooWide)),
    };
    let mut bounds = Vec::new(alloc);
    bounds.extend_from_slice(linear.bounds())?;
    let mut kinds = Vec::new(alloc);
    kinds.extend_from_slice(linear.kinds())?;
    let TiedObjective { objective, tie } = parts;
    let maximise = linear.maximise();
    Ok(Scaled::new(alloc, rows, objective, tie, maximise, bounds, kinds)?)
}

/// The same of a program that is let go: its bounds and kinds are handed on, and so are the terms
/// and the sides of each row that stays as it is.
pub fn scale_program(alloc: Global, linear: Linear) -> Result<Scaled, Stop<ScaleFault>>
    // Each row that has a side is this row times its least factor, and so are its sides less its
    // constant.
    ensures rows { IfOk result (λ s. AreScaledRows (linear_value linear) s.rows) }

    // The objective is as it is, or times its least factor where it is not decimal.
    ensures objective { IfOk result (λ s. IsTiedOrPlain linear.objective s.objective s.tie) }

    // The sense, the bounds and the kinds are as they were.
    ensures sense { IfOk result (λ s. s.maximise ≡ linear.maximise) }
    ensures bounds { IfOk result (λ s. s.bounds ≡ linear.bounds) }
    ensures kinds { IfOk result (λ s. s.kinds ≡ linear.kinds) }

    // The program that it is exported as, or the first row or the objective that is too wide.
    ensures scaled { IfOk result (λ s. IsScaledOf (linear_value linear) s) }
    ensures fine { OnOk result (HasNoScaleFault (linear_value linear)) }
    ensures fault { IfErr result
        (λ stop. IfFault stop (λ fault. HasScaleFault (linear_value linear) fault)) }
{
    let LinearParts {
        bodies,
        objective,
        number: _,
        maximise,
        sides,
        bounds,
        kinds,
    } = linear.into_parts();
    let rows = match moved_rows(alloc, bodies, &sides) {
        Ok(rows) => rows,
        Err(stop) => return Err(stop),
    };
    drop(sides);
    let parts = match scaled_objective(alloc, &objective) {
        Ok(parts) => parts,
        Err(Stop::Memory) => return Err(Stop::Memory),
        Err(Stop::Fault(_)) => return Err(Stop::Fault(ScaleFault::ObjectiveTooWide)),
    };
    drop(objective);
    let TiedObjective { objective, tie } = parts;
    Ok(Scaled::new(alloc, rows, objective, tie, maximise, bounds, kinds)?)
}
