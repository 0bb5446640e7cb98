//! A ticket lock whose value has a history, which only grows; each pass to the lock knows a beginning of
//! this one history.
//!
//! `specs/Seen` says what callers see of a lock and of a pass. `specs/Rule` says what holds between any two
//! steps of any threads, and `specs/Steps` what each kind of step changes. `specs/Hands` has what only clauses
//! of private functions and invariants cite.
#![tactic(auto)]

/// What a lock keeps.
mod kept;
/// The lock's words and its slot, step by step.
mod line;
/// Each kind of step on the lock's words.
mod steps;
/// The lock and its passes, as callers see them.
mod turns;
/// What a thread knows.
mod view;

/// Calls in many orders, and from two threads.
#[cfg(test)]
mod tests;

pub use kept::Kept;
pub use turns::{Pass, Turns};
