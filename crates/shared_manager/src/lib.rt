//! The manager behind a lock: threads commit the sessions' commands and read the schedule, each in turns of
//! its own, and make one legal history.
//!
//! `specs/Commits` says what a commit tells of this history.
#![tactic(auto)]

/// The manager as a value that a lock keeps.
mod held;
/// The manager behind the lock.
mod shared;

/// Two passes by turns.
#[cfg(test)]
mod tests;

pub use held::Held;
pub use shared::{Pass, SharedManager};
