//! What the program prints of a run and of a trace.
//!
//! `specs/Rows` says how a row and a part's end are written, `specs/Alone` the text of one application
//! alone, `specs/Commands` how a command and its reply are written, `specs/Report` the report of a run,
//! `specs/State` the sum over the tiles and their state, and `specs/Summary` the summary of a run.
//! `specs/inner` has what only clauses of private functions cite.
#![tactic(auto)]

/// The text of one application alone.
mod alone_text;
/// The applications of a run.
mod applications;
/// Pieces of the lines of commands and their replies.
mod commands;
/// The words of a tile's register file and of its context frames.
mod contexts;
/// What is counted over the parts of all applications.
mod counts;
/// The entries of a history.
mod entries;
/// Lines of a trace.
mod lines;
/// The report of a run.
mod reporter;
/// How much room the rows of an application need.
mod room;
/// The state of the tiles at the end of a run.
mod state;
/// The sum over the tiles of a platform.
mod sum;
/// The summary of a run.
mod summary;

/// Lines of a report, byte for byte.
#[cfg(test)]
mod report_tests;
/// The sum over the tiles and their state, byte for byte.
#[cfg(test)]
mod state_tests;
/// The text of a trace, byte for byte.
#[cfg(test)]
mod tests;

pub use alone_text::write_trace;
pub use reporter::Reporter;
pub use summary::write_summary;
