//! Scripts of sessions: the commands that a session gives the manager, one a line, and the rules by
//! which a script file is judged.
//!
//! `specs/Lines` cuts the bytes into lines and the lines into words, and `specs/Commands` says what each
//! line means by itself and which fault of a script comes first. `specs/Words` has the word of each rule.
#![tactic(auto)]

/// The commands of a session.
mod command;
/// Judging one line.
mod line;
/// Reading a whole script.
mod reader;
/// The rules of scripts.
mod rules;

/// Scripts, rule by rule.
#[cfg(test)]
mod tests;

pub use command::{Command, Script};
pub use reader::read_script;
pub use rules::{MOST_NAME_BYTES, SRule, ScriptFault};
