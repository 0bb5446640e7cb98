//! The words that every layer of the emulator shares: slots and cycles, numbers as text, labels,
//! flits, and small containers that contracts see as lists.
//!
//! `specs/` has the meanings that the crates above cite: `Time` (slots, instances, when a part
//! runs), `Steps` (a state after so many steps), `Text` (numbers as text, and back) and `Port`
//! (a port of a network interface).
#![tactic(auto)]

/// Why a part of an application ended by a fault.
mod cause;
/// One word and its credits on a link.
mod flit;
/// The frame by which partitions share a core, and when a part runs.
mod frame;
/// A `Vec` and a `String` that contracts see as lists.
mod items;
/// The name of one load command.
mod label;
/// The limits of platforms, bundles, files and runs.
mod limits;
/// Lines of printed text.
mod line;
/// Want of memory.
mod memory;
/// Numbers read from text.
mod number;
/// A part of a tile's memory, and the widths of its accesses.
mod region;
/// Slots of cycles.
mod slot;
/// Lists in which two items are alike.
mod twins;
/// The words of a command line.
mod words;

pub use cause::Cause;
pub use flit::Flit;
pub use frame::{Frame, has_slot, instance_of, runs};
pub use items::{Items, Text};
pub use label::Label;
pub use limits::{
    LAST_CYCLE, LAST_STATED_CYCLE, LEAST_KERNEL_CYCLES, LEAST_MEMORY, MOST_COMMANDS, MOST_COST,
    MOST_FILE_BYTES, MOST_KERNEL_CYCLES, MOST_LINKS, MOST_MEMORY, MOST_PARTITION_CYCLES,
    MOST_PARTITION_SLOTS, MOST_PATH, MOST_PORTS, MOST_QUEUE, MOST_RESOURCES, MOST_ROWS,
    MOST_SCRIPTS, MOST_SLOT_CYCLES, MOST_TABLE_SLOTS, MOST_TILES, ROUTER_PORTS,
};
pub use line::{Line, push_hex, push_number};
pub use memory::NoMemory;
pub use number::{NumFault, read_number};
pub use region::{Region, Width};
pub use slot::slot_up;
pub use twins::{Likeness, has_twin};
pub use words::Words;
