//! What an instruction costs, in running cycles of its part.
//!
//! `specs/Cost` is the table: a cost goes by the registers and the word alone, so it can be told before
//! the instruction has its effect.
#![tactic(auto)]

/// The cost of a word.
mod table;
/// Words from outside.
#[cfg(test)]
mod tests;

pub use table::{DEVICE_BASE, cost, instr_cost};
