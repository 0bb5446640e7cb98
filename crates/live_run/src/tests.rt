//! Runs by threads, and what is the same in each of their orders.

/// A gate that counts the commands that come to it.
mod counting;
/// The setup of a run.
mod fixture;
/// Gates that hold workers up, or see how far they come.
mod gates;
/// A gate that holds a session back.
mod holding;
/// The runs.
mod runs;
/// Waiting for another thread, but not for ever.
mod waiting;
/// Runs whose workers are held up or watched.
mod workers;
