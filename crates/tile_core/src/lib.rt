//! A tile: its microkernel and memory, the applications that are installed on it, and one slot of all of
//! them.
//!
//! `specs/Tile` says what a tile is between two slots and what it answers, `specs/Cycle` what it does in a
//! cycle, `specs/Slot` in a slot (grants that end, grants that begin, the injection, its cycles one by one,
//! the delivery, what its outputs carry), `specs/Lockstep` how all tiles go on together, and `specs/Fit`
//! which grants are installed and what a tile needs for a slot. `specs/Views`, `specs/Holds` and `specs/Law`
//! state the law: a tile holds each of its parts as that part is by itself. `specs/Paced` says that a slot
//! looks at nothing later. `specs/Wires`, `specs/Station` and `specs/Turns` say what a tile with its links is,
//! and how far it goes on by itself. `specs/inner` has words of the code's own functions.
#![tactic(auto)]

/// The calls of all ends of a station.
mod calls;
/// The law.
mod law;
/// The stations of a platform, joined by its links.
mod making;
/// A tile and its links.
mod station;
/// A tile, slot by slot.
mod tile;
/// What a try of a slot comes to.
mod turn;
/// The ends of a tile's links.
mod wire;

/// Tiles followed by hand.
#[cfg(test)]
mod tests;

pub use law::{tile_fits, tile_holds, tiles_are_paced};
pub use making::build;
pub use station::Station;
pub use tile::Tile;
pub use turn::{Lack, Turn};
pub use wire::Wire;
