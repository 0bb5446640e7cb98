//! The slot tables of a tile's router and network interface (dAElite): which port injects in a slot, from
//! where each output takes its flit, and where an arriving flit is delivered. Flits meet no queue and no
//! arbiter on their way: tables that hold each place for one label at most leave nothing to decide.
//!
//! `specs/Rows` says what tables hold, `specs/Routing` what a slot does by them, and `specs/Spots` reads
//! them place by place.
#![tactic(auto)]

/// What stands in a place of a table.
mod entries;
/// What a tile does with the flits of a slot.
mod routing;
/// The places of one slot.
mod rows;
/// The tables of a tile.
mod tables;
/// Tables and routes that were worked out by hand.
#[cfg(test)]
mod tests;

pub use entries::{Arrival, Entry, Source, TableEntry};
pub use routing::{Delivery, Outputs};
pub use rows::Row;
pub use tables::SlotTables;
