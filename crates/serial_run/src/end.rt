//! What a run ends with.

use soc_base::Items;
use tile_core::Station;
use vep_manager::Entry;

/// The end of a run.
#[derive(Drop)]
pub struct RunEnd {
    /// The history of all commands.
    pub history: Items<Entry>,
    /// The tiles at the end of the run, in their order.
    pub stations: Items<Station>,
}
