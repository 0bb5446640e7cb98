//! The slot tables of a tile under grants: what entries a grant has there, and how the tables change when
//! grants end and begin.
//!
//! `specs/Turns` says when a grant ends and begins in a slot, `specs/Entries` which entries a bundle has in
//! the tables of which tile, each with the resource that claims its place, `specs/Tables` what tables are
//! once the grants of a slot have ended and begun and that they hold the entries of the standing grants and
//! no other, and `specs/Claims` what the channels of standing grants claim, claim by claim.
#![tactic(auto)]

/// Entries of the channels of a bundle, installed in the tables of one tile.
mod channels;
/// Entries of grants that end and begin.
mod entries;
/// The laws of slot tables under grants.
mod law;
/// Three tiles in a row, with entries that were worked out by hand.
#[cfg(test)]
mod tests;
/// Grants that end and begin in a slot.
mod turns;

pub use entries::settle_tables;
pub use law::{tables_are_read, tables_follow};
pub use turns::{begins_in, ends_in, is_quiet, next_turn};
