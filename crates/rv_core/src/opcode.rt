//! The major opcodes, bits 6 to 0 of a word, by their names in the opcode map (RISC-V Unprivileged
//! ISA, "RV32/64G Instruction Set Listings").

/// Loads.
pub(crate) const LOAD: u8 = 0b0000011;
/// FENCE.
pub(crate) const MISC_MEM: u8 = 0b0001111;
/// Operations on a register and a constant.
pub(crate) const OP_IMM: u8 = 0b0010011;
/// AUIPC.
pub(crate) const AUIPC: u8 = 0b0010111;
/// Stores.
pub(crate) const STORE: u8 = 0b0100011;
/// Operations on two registers.
pub(crate) const OP: u8 = 0b0110011;
/// LUI.
pub(crate) const LUI: u8 = 0b0110111;
/// Conditional branches.
pub(crate) const BRANCH: u8 = 0b1100011;
/// JALR.
pub(crate) const JALR: u8 = 0b1100111;
/// JAL.
pub(crate) const JAL: u8 = 0b1101111;
/// ECALL and EBREAK.
pub(crate) const SYSTEM: u8 = 0b1110011;
