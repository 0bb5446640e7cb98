//! One part on a tile: its bus, which is its region of the tile's memory and the device registers, and its
//! cycles.
//!
//! What the bus answers and what a cycle does are `part_model`'s `Answers` and `Part`; this crate says it of
//! real memory and a real log, by what `specs/State` and `specs/Part` see in them.
#![tactic(auto)]

/// The bus of one part.
mod part_bus;
/// The cycles of a part over its region.
mod run;

/// Accesses and cycles worked out by hand.
#[cfg(test)]
mod tests;

pub use part_bus::PartBus;
pub use run::PartOnTile;
