//! Histories worked out by hand.

/// The catalog and the setup of a run.
mod fixture;
/// An index of owners.
mod owners;
/// Runs of the commands of a table, and checks of their replies.
mod runs;
/// The tables.
mod tables;
