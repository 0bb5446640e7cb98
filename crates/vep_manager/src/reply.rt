//! What a command is answered.

use bundle_model::{BRule, Resource};
use soc_base::Label;

/// The reply to a command. Its numbers are slots, counted from 0.
#[derive(Clone, Copy, Debug, PartialEq, Eq)]
pub enum Reply {
    /// To a load: the bundle breaks this rule, and none before it.
    Malformed(BRule),
    /// To a load or a stop: the slot granted for the stated cycle is below this horizon.
    Past(u64),
    /// To a load: a resource of the bundle is held.
    Taken {
        /// The first resource of the bundle that is held.
        resource: Resource,
        /// The load that holds it, the first in the order of the history.
        owner: Label,
        /// The slot from which on the owner doesn't hold it; none while the owner has no end.
        free_from: Option<u64>,
    },
    /// To a load: it is granted, with no end.
    Granted {
        /// The load.
        label: Label,
        /// The slot at which it begins.
        start: u64,
    },
    /// To a stop: the session has no granted load of this number.
    NoLoad,
    /// To a stop: the load has this end already.
    Already(u64),
    /// To a stop: the load ends.
    Stopped {
        /// The load.
        label: Label,
        /// The slot at which it ends.
        end: u64,
    },
    /// To an until: the horizon, this command counted.
    Horizon(u64),
}

/// One entry of a history: a command and its reply.
#[derive(Clone, Copy, Debug, PartialEq, Eq)]
pub struct Entry {
    /// The session, counted from 1.
    pub session: u8,
    /// The command's number in the session's script, counted from 1.
    pub index: u16,
    /// What it was answered.
    pub reply: Reply,
}
