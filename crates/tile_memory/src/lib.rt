//! The memory of one tile, as bytes, and the regions of it that parts see.
//!
//! `specs/Bytes` says what a load reads and a store leaves: words and half words are little-endian
//! (RISC-V Unprivileged ISA, "Load and Store Instructions"), and a region is a range of the memory that
//! begins at address 0 for the part that holds it.
#![tactic(auto)]

/// Loads and stores in the bytes of one region.
mod access;
/// The memory, its regions and its faults.
mod memory;

pub use memory::{MemFault, TileMemory};
pub use soc_base::{Region, Width};
