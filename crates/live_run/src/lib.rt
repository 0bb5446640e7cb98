//! A whole run by threads: each session commits its own script, in whatever order the threads come to the lock,
//! while workers take the tiles on by what stands in the history, and then every tile goes on to the end.
//!
//! What a run ends with is said by `serial_run` and `vep_manager`: a legal and complete history, and the
//! tiles and rings of its grants in step. `specs/inner` has what only clauses of private functions cite.
#![tactic(auto)]

/// Committing the commands of sessions.
mod commits;
/// The workers of a run: their tiles are dealt out before it and gathered after it.
mod crew;
/// Work for one thread.
mod job;
/// A run of all sessions and tiles.
mod run;
/// What a worker's schedule is kept up to date by.
mod seat;
/// What threads share to serve sessions and tiles.
mod service;
/// A thread for each session.
mod threads;
/// A worker: tiles, and what it knows of the grants.
mod worker;
/// A thread for each worker.
mod working;

/// Runs by threads, and what is the same in each of their orders.
#[cfg(test)]
mod tests;

pub use run::live;
