//! The threads of a run, as far as sessions and tiles share them, and the work of those that take the tiles on:
//! the gate that each thread comes to, the feed that keeps a worker's schedule up to date, and the work of a
//! group of tiles.
//!
//! `specs/Work` says what a worker goes by and what it ends with.
#![tactic(auto)]

/// Where a worker learns of the grants.
mod feed;
/// Where a thread of a run may be held up.
mod gate;
/// The tiles of one worker.
mod group;
/// One turn of a worker.
mod passing;
/// The work of one worker.
mod working;

/// Groups that are worked on.
#[cfg(test)]
mod tests;

pub use feed::Feed;
pub use gate::{Free, Gate, Who};
pub use group::{Group, WorkEnd};
pub use working::{MOST_IDLE_TURNS, work};
