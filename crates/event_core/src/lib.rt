//! The core of the emulator: the manager, the tiles, each at a slot of its own, and the flits between them,
//! event by event.
//!
//! `specs/Core` says what a core is and what an event does to it, `specs/Stands` and `specs/Links` how grants
//! stand on tiles that are all in step and what their links carry, and `specs/Worlds` that every list of
//! events leaves this true of a core. The laws are functions with empty bodies.
#![tactic(auto)]

/// The core.
mod engine;
/// Events of the core.
mod event;
/// The laws of all tiles in step.
mod law;
/// The links of the core.
mod wires;
/// The laws of a core after events, and of two cores.
mod worlds;

/// Cores followed by hand.
#[cfg(test)]
mod core_tests;

pub use engine::Core;
pub use event::{Event, Step, Why};
pub use law::{grants_stand, hops_are_delay, links_follow, logs_are_alone};
pub use worlds::{cores_are_in_step, cores_stand, two_worlds};
