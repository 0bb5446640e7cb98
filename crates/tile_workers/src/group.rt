//! The tiles of one worker.

use tile_core::Station;

/// The stations that one worker owns.
#[derive(Drop)]
pub struct Group {
    /// The stations.
    pub stations: Vec<Station>,
}

/// How a worker ended.
#[derive(Clone, Copy, Debug, PartialEq, Eq)]
pub enum WorkEnd {
    /// Every tile of the group is where it was to go.
    Done,
    /// For `MOST_IDLE_TURNS` turns in a row no tile of the group could move.
    Idle,
}
