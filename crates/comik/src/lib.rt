//! The microkernel of a tile: one register file that partitions share, switched at exact cycles
//! (CoMik: fixed microkernel slots alternate with partition slots).
//!
//! `specs/` has the meanings: `Context` (the 33 words of a part), `Kernel` (what the microkernel keeps),
//! `Parts` (how a part comes and leaves), `Table` (what it does at each offset), `Switching` (where a
//! part's words are while they are copied, and what is in step), `Turn` (which part is held) and
//! `Places` (where a cycle lies in the frame).
#![tactic(auto)]

/// The words of a part.
mod context;
/// The microkernel.
mod kernel;
/// The owners of the partition slots.
mod owner;
/// Where a cycle lies in the frame.
mod place;
/// The table cycle by cycle, and parts that come and leave.
#[cfg(test)]
mod tests;

pub use context::Context;
pub use kernel::Kernel;
pub use place::{FramePlace, frame_place, place_after};
pub use soc_base::{Frame, instance_of, runs};
