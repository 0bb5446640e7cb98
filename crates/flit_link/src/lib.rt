//! Flits from one tile to the next: a ring buffer with a latch at each end, so that the tiles at both ends
//! may stand at different slots, on threads of their own.
//!
//! `specs/Packing` says how a flit stands in a word of 64 bits, `specs/Link` what the ends of a link are.
#![tactic(auto)]

/// The two ends of a link.
mod ends;
/// New links, and the law that flits come in order.
mod making;
/// Flits as words of 64 bits.
mod packing;
/// Flits that were packed by hand, and full rings.
#[cfg(test)]
mod tests;

pub use ends::{LinkIn, LinkOut, Packed};
pub use making::{link, taken_first};
pub use packing::{BadFlit, pack, unpack};
