//! Workloads: the texts of a platform, of bundles and of scripts that are drawn from a number.
//!
//! `specs/Draws` says which numbers are drawn, `specs/Documents` what the platform file and the bundle files
//! are as documents, and `specs/Texts` what the scripts say and which texts make a workload.
#![tactic(auto)]

/// The bundles.
mod bundle;
/// What one load of a session is drawn as.
mod drawn;
/// The generator of a workload's numbers.
mod draws;
/// The texts of a workload, made session by session.
mod generation;
/// The platform of every workload.
mod platform;
/// The programs of a bundle's two parts.
mod programs;
/// The names of the files, and the lines of a script.
mod script;
/// Tables and values of TOML documents.
mod tables;
#[cfg(test)]
mod tests;
/// The texts of a workload.
mod texts;

pub use drawn::Drawn;
pub use generation::generate;
pub use platform::PLATFORM_FILE;
pub use texts::{NamedText, Texts};
