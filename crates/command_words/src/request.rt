//! What a command line asks for.

use soc_base::{Items, Text};
use thiserror::Error;

/// The most bundle files that `check` takes.
pub const MOST_CHECKED: usize = 64;

/// The most workers that `run` takes.
pub const MOST_WORKERS: u64 = 32;

/// The words of the command `run`: a platform file, a cycle from 0 to 1,000,000,000,000, 1 to 16 scripts, a
/// number of workers from 0 to 32, and whether the state is printed.
#[derive(Debug, Drop)]
pub struct RunWords {
    /// The name of the platform file.
    pub platform: Text,
    /// The cycle at which the run ends.
    pub budget: u64,
    /// The names of the scripts, one for each session.
    pub scripts: Items<Text>,
    /// How many threads take the tiles on, beside one for each session; 0 where all is done on one thread.
    pub workers: u8,
    /// Whether the report has the state of the tiles at the end of the run.
    pub state: bool,
}

/// The words of the command `alone`: a platform file, a bundle file, and two cycles from 0 to
/// 1,000,000,000,000.
#[derive(Debug, Drop)]
pub struct AloneWords {
    /// The name of the platform file.
    pub platform: Text,
    /// The name of the bundle file.
    pub bundle: Text,
    /// The cycle from which on the application is granted.
    pub start: u64,
    /// The cycle at which the run ends.
    pub budget: u64,
}

/// The words of the command `check`: a platform file and 1 to 64 bundle files.
#[derive(Debug, Drop)]
pub struct CheckWords {
    /// The name of the platform file.
    pub platform: Text,
    /// The names of the bundle files, of which one may stand several times.
    pub bundles: Items<Text>,
}

/// What a command line asks for.
#[derive(Debug, Drop)]
pub enum Request {
    /// A run of scripts on the platform, and its report.
    Run(RunWords),
    /// The trace of a bundle alone on the empty platform.
    Alone(AloneWords),
    /// Whether bundles keep their rules on a platform.
    Check(CheckWords),
    /// A run of the workload of a number, and its summary.
    Generate(u32),
}

/// Why words ask for nothing.
#[derive(Clone, Copy, Debug, PartialEq, Eq, Error)]
pub enum WordsFault {
    /// The words aren't those of a command.
    #[error("the words aren't those of a command")]
    Usage,
    /// Memory was wanted and not had.
    #[error("no memory")]
    NoMemory,
}
