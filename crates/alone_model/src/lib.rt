//! One application alone on the empty platform: what its trace must be, whatever else is loaded.
//!
//! `specs/App` is the definition: a list of parts, each stepped in the cycles in which it runs, with no
//! other application, no microkernel and no shared memory. `specs/Trace` says what a trace tells of it.
//! `alone` is the plain engine that computes it.
#![tactic(auto)]

/// An application, slot by slot.
mod application;
/// The trace of an application alone.
mod engine;
/// What the channels of an application do in a slot.
mod exchange;
/// Laws of the definitions.
mod law;
/// One part with registers, a memory and ports of its own.
mod part;
/// The ports of a part, which inject and receive in the slots of their channels.
mod port;
/// Traces.
mod trace;

/// Applications followed alone.
#[cfg(test)]
mod tests;

pub use engine::alone;
pub use law::{alone_is_slots, credits_balance};
pub use trace::{AppTrace, PartTrace};
