//! The texts of a workload.

use soc_base::{Items, Text};

/// A file: its name and its text.
#[derive(Debug, Drop)]
pub struct NamedText {
    /// The file's name.
    pub name: Text,
    /// What stands in it.
    pub text: Text,
}

/// The texts of a workload.
#[derive(Debug, Drop)]
pub struct Texts {
    /// The platform file.
    pub platform: Text,
    /// The bundle files.
    pub bundles: Items<NamedText>,
    /// The scripts, one for each session.
    pub scripts: Items<NamedText>,
    /// The cycle at which the run ends.
    pub budget: u64,
}
