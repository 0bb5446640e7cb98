//! The core over every list of events: one history, tiles at different slots, links as lists of flits, over
//! tiles of any kind.
//!
//! `specs/Core` says what the core is and what an event does to it, `specs/Order` what holds between any two
//! events, and `specs/Law` the laws, which are functions with empty bodies: whatever order sessions and tiles
//! go on in, each tile is what it would be with all tiles in step.
#![tactic(auto)]

/// The laws.
mod law;

pub use law::{cores_are_in_order, histories_stay, least_may_go};
