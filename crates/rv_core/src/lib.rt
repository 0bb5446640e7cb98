//! RV32IM, the 32-bit base instructions of RISC-V with multiplication and division: an instruction
//! from its word and back, and one step of a hart over any bus.
//!
//! `specs/` goes by the chapters of the RISC-V Unprivileged ISA: `Registers`, `Arithmetic` (what an
//! instruction computes), `Formats` (the fields of a word and the immediates in them), `Table` (the
//! opcodes, as an encoder), `Decoding` (its inverse), `Access` (what a bus may answer) and `Effect`
//! (what a step does). `proofs/RoundTrip.antt` has that decoding undoes encoding.
#![tactic(auto)]

/// What the instructions compute.
mod arithmetic;
/// What a hart reads from and writes to.
mod bus;
/// Instructions from words.
mod decoding;
/// Words from instructions.
mod encoding;
/// One step of a hart.
mod execution;
/// The fields of a word.
mod fields;
/// The fields of an instruction, by its format.
mod format;
/// The constants within instructions.
mod immediate;
/// The instructions.
mod instr;
/// The major opcodes.
mod opcode;
/// The registers of a hart.
mod regs;

/// Steps from outside.
#[cfg(test)]
mod step_tests;
/// Words from outside.
#[cfg(test)]
mod word_tests;

pub use bus::{Answer, Bus};
pub use decoding::decode;
pub use encoding::encode;
pub use execution::{Outcome, execute};
pub use instr::{BranchOp, ImmOp, Instr, LoadOp, RegOp, StoreOp};
pub use regs::Regs;
pub use soc_base::{Cause, Width};
