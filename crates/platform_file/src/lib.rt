//! Reading platform files: TOML documents that give the numbers of a platform.
//!
//! `specs/` has the meanings: `Format` (the keys of a platform file), `Reading` (the rules P1 to P12
//! over its bytes, and the platform that it gives) and `Verdicts` (that it is judged in one way).
#![tactic(auto)]

/// The keys of a platform file.
mod format;
/// Reading a platform file.
mod reading;
/// The laws of platform files.
mod verdicts;

/// Platform files, rule by rule.
#[cfg(test)]
mod tests;

pub use reading::read_platform;
pub use verdicts::files_are_judged_once;
