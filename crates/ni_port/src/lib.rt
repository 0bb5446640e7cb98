//! A port of a tile's network interface, with end-to-end credits (dAElite): what a program stores waits
//! in a send queue until the far port is known to have a place for it, and what arrives waits in a
//! receive queue until the program loads it.
//!
//! What the moves of a port do is `Port` of `soc_base/specs`; `specs/SizedPort` adds how many words the
//! queues hold.
#![tactic(auto)]

/// A port and its moves.
mod port;
/// Moves with states that were worked out by hand.
#[cfg(test)]
mod tests;

pub use port::{Empty, Full, Port};
