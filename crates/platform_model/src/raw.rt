//! The numbers of a platform file as they stand there, before any rule has judged them.

ghost use Rattle.std.specs.Prelude.{◌≡◌};
ghost use Rattle.platform_model.specs.Plain.{plain_platform};

use soc_base::Items;
use std::alloc::Global;

/// The numbers of one link, as they stand in a file.
#[derive(Clone, Copy, Debug)]
pub struct RawLink {
    /// The tile that it leaves.
    pub from: i64,
    /// The port of that tile's router.
    pub out: i64,
    /// The tile that it enters.
    pub to: i64,
    /// The port of that tile's router.
    pub input: i64,
}

/// What instructions cost, as it stands in a file.
#[derive(Clone, Copy, Debug)]
pub struct RawCosts {
    /// An instruction on integers with no row of its own.
    pub integer: i64,
    /// A multiplication.
    pub mul: i64,
    /// A division or a remainder.
    pub div: i64,
    /// A load from the region.
    pub load: i64,
    /// A store to the region.
    pub store: i64,
    /// A branch that is taken.
    pub taken: i64,
    /// A branch that isn't taken.
    pub untaken: i64,
    /// A jump.
    pub jump: i64,
    /// A load or a store at a device register.
    pub device: i64,
    /// FENCE, ECALL and EBREAK.
    pub system: i64,
}

/// What instructions cost where a platform file doesn't say otherwise.
pub const DEFAULT_COSTS: RawCosts = RawCosts {
    integer: 1,
    mul: 3,
    div: 34,
    load: 2,
    store: 2,
    taken: 3,
    untaken: 1,
    jump: 3,
    device: 4,
    system: 1,
};

/// The numbers of a platform file, as they stand there.
#[derive(Debug, Drop)]
pub struct RawPlatform {
    /// The number of tiles.
    pub tiles: i64,
    /// The bytes of each tile's memory.
    pub mem_bytes: i64,
    /// The cycles of a slot.
    pub slot_cycles: i64,
    /// The slots of a slot table.
    pub table_slots: i64,
    /// The microkernel's cycles in an instance.
    pub kernel_cycles: i64,
    /// The partition's cycles in an instance.
    pub partition_cycles: i64,
    /// The number of partition slots.
    pub partition_slots: i64,
    /// The ports of each tile's network interface.
    pub ports: i64,
    /// The words of each queue of a port.
    pub queue: i64,
    /// The links, in the order of the file.
    pub links: Items<RawLink>,
    /// What instructions cost.
    pub costs: RawCosts,
}

impl RawPlatform {
    /// Makes the numbers of the plain platform, from which tests and examples begin: one tile of 4096
    /// bytes, frames of 72 and 56 cycles with two partition slots, no links, and the default costs.
    /// Takes no memory.
    pub fn plain(alloc: Global) -> RawPlatform
        ensures { result ≡ plain_platform }
    {
        RawPlatform {
            tiles: 1,
            mem_bytes: 4096,
            slot_cycles: 8,
            table_slots: 8,
            kernel_cycles: 72,
            partition_cycles: 56,
            partition_slots: 2,
            ports: 2,
            queue: 8,
            links: Items::new(alloc),
            costs: DEFAULT_COSTS,
        }
    }
}
