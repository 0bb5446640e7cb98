//! The limits of platforms, bundles, files and runs, each stated once.

/// The most tiles of a platform.
pub const MOST_TILES: u8 = 32;

/// The most links of a platform.
pub const MOST_LINKS: usize = 128;

/// The outputs of a router, and its inputs: they are numbered from 0 to 6.
pub const ROUTER_PORTS: u8 = 7;

/// The fewest bytes of a tile's memory.
pub const LEAST_MEMORY: u32 = 16;

/// The most bytes of a tile's memory.
pub const MOST_MEMORY: u32 = 1_048_576;

/// The most cycles of a slot.
pub const MOST_SLOT_CYCLES: u8 = 64;

/// The most slots of a slot table.
pub const MOST_TABLE_SLOTS: u8 = 64;

/// The fewest microkernel cycles of an instance: 33 to save a context and 33 to restore one.
pub const LEAST_KERNEL_CYCLES: u16 = 66;

/// The most microkernel cycles of an instance.
pub const MOST_KERNEL_CYCLES: u16 = 4096;

/// The most partition cycles of an instance.
pub const MOST_PARTITION_CYCLES: u32 = 65_536;

/// The most partition slots of a frame.
pub const MOST_PARTITION_SLOTS: u8 = 16;

/// The most ports of a tile's network interface.
pub const MOST_PORTS: u8 = 16;

/// The most words of a port's queue, and so the most credits of a flit.
pub const MOST_QUEUE: u8 = 63;

/// The most cycles that an instruction costs.
pub const MOST_COST: u8 = 64;

/// The most rows that a part's trace keeps.
pub const MOST_ROWS: u32 = 4096;

/// The most links of a channel's path.
pub const MOST_PATH: usize = 16;

/// The most resources of a bundle.
pub const MOST_RESOURCES: usize = 4096;

/// The most bytes of a file.
pub const MOST_FILE_BYTES: usize = 4_194_304;

/// The most scripts of a run, one for each session.
pub const MOST_SCRIPTS: usize = 16;

/// The most commands of a run, in all its scripts.
pub const MOST_COMMANDS: u16 = 256;

/// The greatest cycle that a script or a command line states.
pub const LAST_STATED_CYCLE: u64 = 1_000_000_000_000;

/// The greatest cycle at which a slot granted for a stated cycle can begin, where slots have at most
/// 64 cycles.
pub const LAST_CYCLE: u64 = 1_000_000_000_063;

#[cfg(test)]
mod tests {
    use super::*;

    #[test]
    fn the_last_cycle_is_that_of_the_longest_slot(rt: HostRuntime) {
        assert_eq!(rt;
            LAST_CYCLE,
            LAST_STATED_CYCLE + u64::from(MOST_SLOT_CYCLES) - 1
        );
    }
}
