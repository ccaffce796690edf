//! Tests of library calls: values from outside, printed texts, and each call that can want memory
//! with memory to spare.
#![tactic(auto)]

#[cfg(test)]
mod answers;
#[cfg(test)]
mod branch_proofs;
#[cfg(test)]
mod certificate_texts;
#[cfg(test)]
mod fixed_texts;
#[cfg(test)]
mod headers;
#[cfg(test)]
mod imports;
#[cfg(test)]
mod made_instances;
#[cfg(test)]
mod mps_programs;
#[cfg(test)]
mod named_texts;
#[cfg(test)]
mod numbers;
#[cfg(test)]
mod parts;
#[cfg(test)]
mod points;
#[cfg(test)]
mod programs;
#[cfg(test)]
mod rewritten;
#[cfg(test)]
mod segments;
#[cfg(test)]
mod sol_texts;
#[cfg(test)]
mod stages;
#[cfg(test)]
mod words_and_lines;
#[cfg(test)]
mod written;
