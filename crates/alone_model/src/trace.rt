//! Traces.

use soc_base::Items;
use trace_log::{PartEnd, TraceRow};

/// How one part of an application ended, and how many of its rows were cut.
#[derive(Clone, Copy, Debug)]
pub struct PartTrace {
    /// The part's tile.
    pub tile: u8,
    /// How it ended, or that it is live.
    pub end: PartEnd,
    /// The rows beyond those that its trace keeps.
    pub cut: u64,
}

/// The trace of an application.
#[derive(Debug, Drop)]
pub struct AppTrace {
    /// The rows that were kept, in order of cycle, tile and phase.
    pub rows: Items<TraceRow>,
    /// The parts, in the order of the bundle.
    pub parts: Items<PartTrace>,
}
