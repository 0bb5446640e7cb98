//! The words of a command line, read by `clap`: what they ask for.
//!
//! `specs/Commands` says what words each command takes, and `specs/Request` what they ask for.
#![tactic(auto)]

/// The command `alone`.
mod alone;
/// The arguments of commands, as `clap` takes them.
mod arguments;
/// The command `check`.
mod check;
/// The command `generate`.
mod generate;
/// What `clap` makes of the words of a command.
mod matching;
/// The reader of words.
mod reading;
/// What a command line asks for.
mod request;
/// The command `run`.
mod run;
/// What words give an argument.
mod values;

pub use reading::read_words;
pub use request::{
    AloneWords, CheckWords, MOST_CHECKED, MOST_WORKERS, Request, RunWords, WordsFault,
};

#[cfg(test)]
mod tests;
