// The stages that commands share: folding, scaling and exporting. Where a stage takes what it works
// on by value, that is let go before the next stage.
ghost use Rattle.std.specs.Prelude.{◌≡◌, ◌+◌, ◌≤◌, IfOk};
ghost use Rattle.exact_numbers.specs.Values.{dec_value};
ghost use Rattle.linear_program.specs.Programs.{linear_value};
ghost use Rattle.mps_model.specs.Mps.{with_values};
ghost use Rattle.nl_model.specs.Rules.{IsFile};
ghost use Rattle.nl_segments.specs.Reader.{HasLines, value_of};
ghost use Rattle.scaled_program.specs.ExportedProgram.{mps_of};
ghost use Rattle.row_scaling.specs.Exported.{scaled_as};
ghost use Rattle.command_parts.specs.Stages.{Folds, Scales, fold_steps};

use crate::nl_told::{fold_refusal, scale_refusal};
use command_core::Refusal;
use linear_fold::fold_file;
use linear_program::Linear;
use mps_model::Mps;
use nl_segments::NlRead;
use row_scaling::{Scaled, program, scale_program};
use std::alloc::{AllocError, Global};
use text_base::{Ledger, Steps, Stop};

/// The linear program of what was read, which is let go, or its first fault. A fault that was found
/// wants no memory.
pub fn fold_read<L: Ledger>(
    alloc: Global,
    read: NlRead,
    objective: u32,
    steps: &mut Steps<L>,
) -> Result<Linear, Stop<Refusal>>
    requires { HasLines read }
    ensures folds { Folds (value_of read) objective result }
    ensures file { IsFile read.file }
    ensures above { steps.old ≤ steps.new }
    ensures counts { steps.new ≤ steps.old + fold_steps (value_of read) objective }
{
    let NlRead { file, places } = read;
    // for the prover alone: it brings what an `NlFile` always keeps
    let _ = file.header();
    match fold_file(alloc, file, objective, steps) {
        Ok(linear) => Ok(linear),
        Err(Stop::Memory) => Err(Stop::Memory),
        Err(Stop::Fault(fault)) => Err(Stop::Fault(fold_refusal(&places, fault))),
    }
}

/// The scaled program, or its first fault.
pub fn scale(alloc: Global, linear: Linear, objective: u32) -> Result<Scaled, Stop<Refusal>>
    ensures { Scales (linear_value linear) objective result }
{
    let scaled = scale_program(alloc, linear);
    match scaled {
        Ok(scaled) => Ok(scaled),
        Err(Stop::Fault(fault)) => Err(Stop::Fault(scale_refusal(objective, fault))),
        Err(Stop::Memory) => Err(Stop::Memory),
    }
}

/// The program that a scaled one is exported as.
pub fn exported(alloc: Global, scaled: Scaled) -> Result<Mps, AllocError>
    ensures { IfOk result (λ m. with_values dec_value m ≡ mps_of (scaled_as scaled)) }
{
    program(alloc, &scaled)
}
