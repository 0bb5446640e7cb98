//! The platform, whose type keeps the rules P4 to P12.

ghost use Rattle.std.specs.Prelude.{◌≡◌, ◌%◌, ◌<◌, ◌≤◌, pos, map, length, IsTrue, IsFalse};
ghost use Rattle.std.specs.List.{list_all};
ghost use Rattle.soc_base.specs.Twins.{has_twin};
ghost use Rattle.soc_base.specs.declared.limits.TheConstants.{MOST_TILES, MOST_LINKS, LEAST_MEMORY, MOST_MEMORY, MOST_SLOT_CYCLES, MOST_TABLE_SLOTS, LEAST_KERNEL_CYCLES, MOST_KERNEL_CYCLES, MOST_PARTITION_CYCLES, MOST_PARTITION_SLOTS, MOST_PORTS, MOST_QUEUE};
ghost use Rattle.platform_model.specs.Links.{raw_link, joins_tiles, has_router_ports, leaves_alike, enters_alike};

use crate::costs::Costs;
use crate::link::Link;
use soc_base::{Frame, Items};

/// A platform that keeps the rules P4 to P12. The limits are `soc_base`'s.
#[derive(Debug, Drop)]
pub struct Platform {
    /// The number of tiles, from 1 to `MOST_TILES`.
    pub tiles: u8,
    /// The bytes of each tile's memory: a multiple of 16, from `LEAST_MEMORY` to `MOST_MEMORY`.
    pub mem_bytes: u32,
    /// The cycles of a slot, from 1 to `MOST_SLOT_CYCLES`.
    pub slot_cycles: u8,
    /// The slots of a slot table, from 1 to `MOST_TABLE_SLOTS`.
    pub table_slots: u8,
    /// The microkernel's cycles in an instance, from `LEAST_KERNEL_CYCLES` to `MOST_KERNEL_CYCLES`.
    pub kernel_cycles: u16,
    /// The partition's cycles in an instance, from 1 to `MOST_PARTITION_CYCLES`.
    pub partition_cycles: u32,
    /// The number of partition slots, from 1 to `MOST_PARTITION_SLOTS`.
    pub partition_slots: u8,
    /// The ports of each tile's network interface, from 0 to `MOST_PORTS`.
    pub ports: u8,
    /// The words of each queue of a port, from 1 to `MOST_QUEUE`.
    pub queue: u8,
    /// The links, at most `MOST_LINKS`, in the order of the file.
    pub links: Items<Link>,
    /// What instructions cost.
    pub costs: Costs,
    pub ghost tiles_in_range: { (0 < tiles) × (tiles ≤ MOST_TILES) },
    pub ghost mem_bytes_in_range: { (LEAST_MEMORY ≤ mem_bytes) × (mem_bytes ≤ MOST_MEMORY) × (mem_bytes % 16 ≡ 0) },
    pub ghost slot_cycles_in_range: { (0 < slot_cycles) × (slot_cycles ≤ MOST_SLOT_CYCLES) },
    pub ghost table_slots_in_range: { (0 < table_slots) × (table_slots ≤ MOST_TABLE_SLOTS) },
    pub ghost kernel_cycles_in_range: { (LEAST_KERNEL_CYCLES ≤ kernel_cycles) × (kernel_cycles ≤ MOST_KERNEL_CYCLES) },
    pub ghost partition_cycles_in_range: { (0 < partition_cycles) × (partition_cycles ≤ MOST_PARTITION_CYCLES) },
    pub ghost partition_slots_in_range: { (0 < partition_slots) × (partition_slots ≤ MOST_PARTITION_SLOTS) },
    pub ghost ports_in_range: { ports ≤ MOST_PORTS },
    pub ghost queue_in_range: { (0 < queue) × (queue ≤ MOST_QUEUE) },
    pub ghost links_in_range: { length links ≤ MOST_LINKS },
    pub ghost links_join_tiles: { IsTrue (list_all (joins_tiles (pos tiles)) (map raw_link links)) },
    pub ghost links_have_ports: { IsTrue (list_all has_router_ports (map raw_link links)) },
    pub ghost links_leave_apart: { IsFalse (has_twin leaves_alike (map raw_link links)) },
    pub ghost links_enter_apart: { IsFalse (has_twin enters_alike (map raw_link links)) },
}

impl Platform {
    ghost use Rattle.platform_model.specs.Platform.{frame_of};

    /// Answers the frame by which partitions share a core of the platform.
    pub fn frame(&self) -> Frame
        ensures { result ≡ frame_of self.now }
    {
        Frame {
            kernel: self.kernel_cycles,
            partition: self.partition_cycles,
            slots: self.partition_slots,
        }
    }
}
