//! A whole run on one thread: every command is committed, and then every tile goes on to the end.
//!
//! `specs/Run` says what stations need to go on and what a run ends with.
#![tactic(auto)]

/// Flits from one station to another on one thread.
mod carrying;
/// What a run ends with.
mod end;
/// All stations of a platform, brought to one slot on one thread.
mod finishing;
/// Where the two ends of each link are.
mod hops;
/// A run of all sessions.
mod serial;

/// Runs followed by hand.
#[cfg(test)]
mod tests;

pub use end::RunEnd;
pub use finishing::finish;
pub use serial::serial_all;
