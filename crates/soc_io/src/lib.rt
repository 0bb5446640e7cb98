//! The outside of the program, as two traits with a written meaning: files that are read, and a sink
//! that is written. Each has an implementation over the host, of whose content nothing is told, and
//! one in memory, whose content is told and which fails where it is asked to.
//!
//! `specs/` has what a caller cites: `Counts` (when a count of faults rose), `Reading` (what a read
//! answers), `Writing` (what a write answers, and what several of them printed), `Printing` (the
//! same, as contracts over any sink say it), and the states of the two in memory, `Shelf` and `Tape`.
#![tactic(auto)]

/// Files that are read whole, by name.
mod files;
/// The host's files.
mod host_files;
/// The host's standard output.
mod host_sink;
/// Numbers of calls that fail.
mod listed;
/// Files in memory.
mod mem_files;
/// A sink in memory.
mod mem_sink;
/// A text in several writes.
mod printer;
/// A sink that is written.
mod sink;

pub use files::{Files, FilesFault};
pub use host_files::HostFiles;
pub use host_sink::HostSink;
pub use mem_files::MemFiles;
pub use mem_sink::MemSink;
pub use printer::Printer;
pub use sink::{Sink, SinkFault};
