//! The whole program as one call: from the words of a command line, over files and a sink, to the
//! status that it ends with.
//!
//! `command_words` says what words ask for, `specs/Wants` what one file is read as and why it is refused,
//! `specs/Order` in which order files are read and which of them decides, `specs/Answers` how a request
//! ends, `specs/Exchange` what a call tells of files and sink, and `specs/Faults` the lines and statuses of
//! refusals. `specs/Alone`, `specs/Run`, `specs/Check` and `specs/Generate` say for their command which files are
//! read and what is written. `specs/inner` has what only clauses of private functions cite.
#![tactic(auto)]

/// The command `alone`.
mod alone;
/// The bundle files that scripts name.
mod catalog;
/// The command `check`.
mod check;
/// How a request ends.
mod ending;
/// Why a request is refused.
mod fault;
/// Reading and judging one file of a request.
mod file;
/// The command `generate`.
mod generate;
/// What the files of a request give.
mod inputs;
/// The command `run`.
mod run;
/// Reading and judging the scripts of a run.
mod script;
/// The setup that the files of a run give.
mod setup;
/// The top call.
mod top;

pub use alone::alone_call;
pub use check::check_call;
pub use command_words::{AloneWords, CheckWords, Request, RunWords, WordsFault, read_words};
pub use ending::Ending;
pub use fault::TopFault;
pub use generate::generate_call;
pub use run::{live_call, serial_call};
pub use setup::read_setup;
pub use top::compsoc;

/// Traces of one application, and refusals of them.
#[cfg(test)]
mod alone_tests;
/// The commands `check` and `generate`.
#[cfg(test)]
mod check_tests;
/// Whole reports.
#[cfg(test)]
mod report_tests;
/// Runs that are refused.
#[cfg(test)]
mod run_tests;
/// The sum over the platform, and the state of tiles.
#[cfg(test)]
mod state_tests;
/// One run over files and a sink in memory.
#[cfg(test)]
mod tests;
/// Platforms of several tiles.
#[cfg(test)]
mod tiles_tests;
