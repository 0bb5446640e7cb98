//! Reading bundle files: TOML documents that give the parts and channels of an application.
//!
//! `specs/` has the meanings: `Format` (the keys of a bundle file), `Image` (the words of an image),
//! `Reading` (the rules B1 to B14 over a file's bytes, and the bundle that it gives) and `Verdicts`
//! (that it is judged in one way).
#![tactic(auto)]

/// The keys of a bundle file.
mod format;
/// The words of an image.
mod image;
/// Whether a file's keys are known, and have their types.
mod keys;
/// Reading a bundle file.
mod reading;
/// The values of a file whose keys have their types.
mod values;
/// The laws of bundle files.
mod verdicts;

/// Bundle files, rule by rule.
#[cfg(test)]
mod tests;

pub use reading::read_bundle;
pub use verdicts::files_are_judged_once;
