//! Tests of the commands, on a desk in memory: what is written and told for whole texts.
#![tactic(auto)]

#[cfg(test)]
mod certificate_commands;
#[cfg(test)]
mod check_commands;
#[cfg(test)]
mod commands;
#[cfg(test)]
mod exports;
#[cfg(test)]
mod failing_calls;
#[cfg(test)]
mod fixed_commands;
#[cfg(test)]
mod import_commands;
#[cfg(test)]
mod make_commands;
#[cfg(test)]
mod mps_commands;
#[cfg(test)]
mod name_commands;
#[cfg(test)]
mod program_commands;
#[cfg(test)]
mod proof_commands;
#[cfg(test)]
mod return_commands;
#[cfg(test)]
mod short_desk;
#[cfg(test)]
mod sol_commands;
