//! Machines in step: tiles of any kind, joined by the links of a platform, that go on slot by slot together,
//! and the laws by which tiles that go on one by one are the same.
//!
//! `specs/Hardware` says what a tile is to the machine, `specs/Lockstep` what all tiles in step are and what
//! one tile by itself is, `specs/Solution` when tiles by themselves are those in step, `specs/Seen` what is
//! known of grants in a slot, and `specs/Stays` that a slot depends on nothing later. The laws are functions
//! with empty bodies, whose contracts are the laws.
#![tactic(auto)]

/// The laws.
mod law;

pub use law::{done_stays, grants_are_seen_alike, one_solution, rings_agree, tiles_run_alone};
