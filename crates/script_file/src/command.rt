//! The commands of a session.

use soc_base::{Items, Text};

/// A command of a session to the manager. Cycles are as the script states them; in a script file they are
/// from 0 to 1,000,000,000,000.
#[derive(Debug, Drop)]
pub enum Command {
    /// Load a bundle from a cycle on: `load NAME at CYCLE`.
    Load {
        /// The name of the bundle file.
        name: Text,
        /// The cycle from which on the application is to run.
        cycle: u64,
    },
    /// Stop what a load command of the same session granted: `stop J at CYCLE`.
    Stop {
        /// The number of the load command among the session's load commands, in a script file
        /// from 1 to 256.
        load: u16,
        /// The cycle at which the application is to end.
        cycle: u64,
    },
    /// Promise to ask for nothing before a cycle: `until CYCLE`.
    Until {
        /// The cycle.
        cycle: u64,
    },
}

/// The commands of one session, in the order of its script.
#[derive(Debug, Drop)]
pub struct Script {
    /// The commands.
    pub commands: Items<Command>,
}
