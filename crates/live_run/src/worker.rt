//! A worker: tiles, and what it knows of the grants.

use bundle_model::Schedule;
use tile_workers::Group;

/// A worker.
#[derive(Drop)]
pub struct Worker {
    /// Its tiles.
    pub group: Group,
    /// The schedule by which it takes them on.
    pub schedule: Schedule,
}
