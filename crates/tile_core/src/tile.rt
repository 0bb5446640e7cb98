//! A tile, slot by slot.

ghost use Rattle.std.specs.Prelude.{◌≡◌, ◌<◌, ◌≤◌, List, filter, map, replicate, is_some, IfOk};
ghost use Rattle.std.specs.Option.{option_copied};
ghost use Rattle.bundle_model.specs.World.{part_on};
ghost use Rattle.tile_core.specs.Tile.{loads_on, fresh_log, free_sized};

/// The cycles of a slot.
mod cycles;
/// Grants that end and begin in a slot.
mod grants;
/// Finding loads and their parts.
mod loads;
/// Flits that the ports of a tile inject and receive.
mod network;

use self::network::IDLE;
use bundle_model::{LoadName, Schedule, World};
use comik::Kernel;
use ni_port::Port;
use soc_base::{Flit, Label, NoMemory};
use std::alloc::Global;
use std::marker::Model;
use tdm_network::SlotTables;
use tile_memory::TileMemory;
use trace_log::PartLog;

/// A tile: its microkernel, its memory, what it keeps of each load with a part on it, and the ports of its
/// network interface with the slot tables.
#[derive(Drop)]
pub struct Tile {
    number: u8,
    slot: u64,
    microkernel: Kernel,
    bytes: TileMemory,
    // The place of the load whose part is installed with each number.
    numbers: Vec<Option<usize>>,
    names: Vec<LoadName>,
    part_logs: Vec<PartLog>,
    ports: Vec<Port>,
    tables: SlotTables,
    // How many flits other than idle each output carried.
    carried: [u64; 7],
}

impl Model for Tile {
    ghost use Rattle.tile_core.specs.Tile.{TileState};

    ghost Value = { TileState };

    ghost view = { λ t. record {
      number = t.number;
      at = t.slot;
      kernel = t.microkernel;
      memory = t.bytes;
      places = t.numbers.items;
      loads = t.names.items;
      logs = t.part_logs.items;
      ports = t.ports.items;
      tables = t.tables;
      carried = t.carried;
    } };
}

// The loads with a part on a tile.
fn loads_on(
    alloc: Global,
    world: &World,
    loads: &[LoadName],
    tile: u8,
) -> Result<Vec<LoadName>, NoMemory>
    ensures { IfOk result (λ names. names.items ≡ loads_on world.now tile loads.now) }
{
    let mut names = Vec::with_capacity(alloc, loads.len())?;
    for load in loads {
        if world.part_on(tile, load.bundle).is_some() {
            names.push_reserved(*load);
        }
    }
    Ok(names)
}

// The log of a load's part on a tile, before the load is granted.
fn fresh_log(alloc: Global, world: &World, load: &LoadName, tile: u8) -> Result<PartLog, NoMemory>
    ensures { IfOk result (λ log. log ≡ fresh_log world.now tile load.now) }
{
    let room = match world.part_on(tile, load.bundle) {
        Some(part) => part.trace,
        None => 0,
    };
    Ok(PartLog::new(alloc, room)?)
}

// The logs of loads, before any is granted.
fn fresh_logs(
    alloc: Global,
    world: &World,
    loads: &[LoadName],
    tile: u8,
) -> Result<Vec<PartLog>, NoMemory>
    ensures { IfOk result (λ logs. logs.items ≡ map (fresh_log world.now tile) loads.now) }
{
    let mut logs = Vec::with_capacity(alloc, loads.len())?;
    for load in loads {
        logs.push_reserved(fresh_log(alloc, world, load, tile)?);
    }
    Ok(logs)
}

// Ports that no application holds, with `queue` places in each queue.
fn free_ports(alloc: Global, count: u8, queue: u8) -> Result<Vec<Port>, NoMemory>
    requires some { 0 < queue }
    requires most { queue ≤ 63 }
    ensures { IfOk result (λ ports. ports.items ≡ replicate count (free_sized queue)) }
{
    let mut ports = Vec::with_capacity(alloc, usize::from(count))?;
    for _number in 0..count {
        ports.push_reserved(Port::new(alloc, queue)?);
    }
    Ok(ports)
}

impl Tile {
    ghost use Rattle.std.specs.Prelude.{◌+◌, ◌*◌, ◌^◌, length, get_or, slice_get, All, Some, true, IsTrue};
    ghost use Rattle.bundle_model.specs.declared.world.LoadName.{LoadName};
    ghost use Rattle.bundle_model.specs.World.{IsSoundWorld};
    ghost use Rattle.grant_tables.specs.Turns.{is_quiet};
    ghost use Rattle.tile_core.specs.Tile.{fresh_tile, log_of, owner_of};
    ghost use Rattle.tile_core.specs.Slot.{with_injection, with_cycles, traffic, with_traffic, tile_slot, slot_outputs};
    ghost use Rattle.tile_core.specs.Fit.{IsMadeFor, IsFit, IsUnderway, IsReady};
    ghost use Rattle.tile_core.specs.inner.Ready.{IsSoundTile};

    /// Makes a tile of a world, counted from 0, before its first slot, and takes all its memory: its own, a
    /// frame for each partition slot, a log for each load with a part on it, the queues of its ports, and its
    /// slot tables. The loads are those of the run. `NoMemory` where there is none for them.
    #[tactic(auto, unfolding(crate::specs::Tile::fresh_tile))]
    pub fn new(alloc: Global, world: &World, loads: &[LoadName], tile: u8) -> Result<Tile, NoMemory>
        requires sound { IsSoundWorld world.now loads.now }
        requires exists { tile < world.now.platform.tiles }
        ensures { IfOk result (λ t. t ≡ fresh_tile world.now loads.now tile) }
    {
        let platform = &world.platform;
        let microkernel = Kernel::new(alloc, platform.frame())?;
        let bytes = TileMemory::new(alloc, platform.mem_bytes)?;
        let numbers = Vec::from_elem(alloc, None, usize::from(platform.partition_slots))?;
        let names = loads_on(alloc, world, loads, tile)?;
        let part_logs = fresh_logs(alloc, world, names.as_slice(), tile)?;
        let ports = free_ports(alloc, platform.ports, platform.queue)?;
        let tables = SlotTables::new(alloc, platform.table_slots)?;
        Ok(Tile {
            number: tile,
            slot: 0,
            microkernel,
            bytes,
            numbers,
            names,
            part_logs,
            ports,
            tables,
            carried: [0; 7],
        })
    }

    // Lets a port inject, does the cycles of the next slot, delivers, and writes what the outputs carry in
    // the slot after.
    fn exchange_around(&mut self, world: &World, inputs: &[Flit; 7], outputs: &mut [Flit; 7])
        requires tile { IsSoundTile world.now self.old }
        requires bounded { (self.old.at + 1) * world.now.platform.slot_cycles < 2 ^ 64 }
        requires counted { All (λ count. count + 1 < 2 ^ 64) self.old.carried }
        ensures tile { self.new
            ≡ with_traffic (traffic inputs.now self.old) (with_cycles world.now (with_injection self.old)) }
        ensures links { outputs.new ≡ (traffic inputs.now self.old).links }
    {
        let delivery = self.exchange(inputs, outputs);
        self.cycles(world);
        self.finish(delivery, outputs);
    }

    // Does the next slot, whose grants have ended and begun.
    #[tactic(auto, using(crate::proofs::Resting::rests, crate::proofs::Resting::rests_idle))]
    fn work(&mut self, world: &World, inputs: &[Flit; 7], outputs: &mut [Flit; 7])
        requires tile { IsSoundTile world.now self.old }
        requires bounded { (self.old.at + 1) * world.now.platform.slot_cycles < 2 ^ 64 }
        requires counted { All (λ count. count + 1 < 2 ^ 64) self.old.carried }
        ensures tile { self.new
            ≡ with_traffic (traffic inputs.now self.old) (with_cycles world.now (with_injection self.old)) }
        ensures links { outputs.new ≡ (traffic inputs.now self.old).links }
    {
        if self.tables.is_free() {
            self.rest(world, outputs);
        } else {
            self.exchange_around(world, inputs, outputs);
        }
    }

    // Does what happens in the next slot, and writes what the outputs carry in the one after.
    #[tactic(auto, unfolding(crate::specs::Slot::tile_slot, crate::specs::Slot::slot_outputs))]
    fn advance(
        &mut self,
        world: &World,
        schedule: &Schedule,
        quiet: bool,
        inputs: &[Flit; 7],
        outputs: &mut [Flit; 7],
    )
        requires underway { IsUnderway world.now schedule.now self.old }
        requires quiet { IsTrue quiet → is_quiet schedule.now.grants.items self.old.at ≡ true }
        requires bounded { (self.old.at + 1) * world.now.platform.slot_cycles < 2 ^ 64 }
        requires counted { self.old.at + 1 < 2 ^ 64 }
        ensures slot { self.new ≡ tile_slot world.now schedule.now.grants.items inputs.now self.old }
        ensures outputs { outputs.new ≡ slot_outputs world.now schedule.now.grants.items inputs.now self.old }
    {
        let next = self.slot + 1;
        self.settle_unless(quiet, world, schedule);
        self.work(world, inputs, outputs);
        self.slot = next;
    }

    /// Does the tile's next slot by a schedule that agrees with those of earlier slots and whose horizon
    /// is above the slot. Takes the flits that its links bring in the slot, by the router's inputs 0 to 6
    /// (idle where an input has no link), and answers those that its outputs 0 to 6 carry in the slot after.
    /// What is delivered to its ports they have at the end of the slot. Takes no memory.
    pub fn slot(&mut self, world: &World, schedule: &Schedule, inputs: &[Flit; 7]) -> [Flit; 7]
        requires { IsReady world.now schedule.now self.old }
        ensures slot { self.new ≡ tile_slot world.now schedule.now.grants.items inputs.now self.old }
        ensures outputs { result ≡ slot_outputs world.now schedule.now.grants.items inputs.now self.old }
        ensures fits { IsFit world.now schedule.now.grants.items self.new }
        ensures made { (loads : List LoadName) → IsMadeFor world.now loads self.old
            → IsMadeFor world.now loads self.new }
    {
        let mut outputs = [IDLE; 7];
        self.slot_into(world, schedule, false, inputs, &mut outputs);
        outputs
    }

    /// Does the tile's next slot, as `slot`, and writes what its outputs carry in the slot after into
    /// `outputs`, whatever stood there. `quiet` may be true where no grant of the schedule ends or begins in
    /// the slot, as `grant_tables::next_turn` tells: then it doesn't look at the grants.
    pub fn slot_into(
        &mut self,
        world: &World,
        schedule: &Schedule,
        quiet: bool,
        inputs: &[Flit; 7],
        outputs: &mut [Flit; 7],
    )
        requires ready { IsReady world.now schedule.now self.old }
        requires quiet { IsTrue quiet → is_quiet schedule.now.grants.items self.old.at ≡ true }
        ensures slot { self.new ≡ tile_slot world.now schedule.now.grants.items inputs.now self.old }
        ensures outputs { outputs.new ≡ slot_outputs world.now schedule.now.grants.items inputs.now self.old }
        ensures fits { IsFit world.now schedule.now.grants.items self.new }
        ensures made { (loads : List LoadName) → IsMadeFor world.now loads self.old
            → IsMadeFor world.now loads self.new }
    {
        self.advance(world, schedule, quiet, inputs, outputs);
    }

    /// Answers the tile's number, counted from 0.
    pub fn number(&self) -> u8
        ensures { result ≡ self.now.number }
    {
        self.number
    }

    /// Answers the tile's next slot.
    pub fn at(&self) -> u64
        ensures { result ≡ self.now.at }
    {
        self.slot
    }

    /// Answers the log of a load's part on the tile. None exactly where the load has no part on it.
    pub fn log(&self, label: Label) -> Option<&PartLog>
        ensures { option_copied result ≡ log_of self.now label }
    {
        match self.load_place(label) {
            Some(place) => self.part_logs.as_slice().get(place),
            None => None,
        }
    }

    /// Answers the load whose part is installed on the tile with a number, the least of its partition
    /// slots, from 0 to one below the number of partition slots. None exactly where no part is.
    pub fn owner(&self, part: u8) -> Option<Label>
        ensures { result ≡ owner_of self.now part }
    {
        let place = match self.numbers.as_slice().get(usize::from(part)) {
            Some(place) => (*place)?,
            None => return None,
        };
        match self.names.as_slice().get(place) {
            Some(load) => Some(load.label),
            None => None,
        }
    }

    /// Answers the tile's memory.
    pub fn memory(&self) -> &TileMemory
        ensures { result.now ≡ self.now.memory }
    {
        &self.bytes
    }

    /// Answers the tile's microkernel.
    pub fn kernel(&self) -> &Kernel
        ensures { result.now ≡ self.now.kernel }
    {
        &self.microkernel
    }

    /// Answers the tile's slot tables.
    pub fn tables(&self) -> &SlotTables
        ensures { result.now ≡ self.now.tables }
    {
        &self.tables
    }

    /// Answers a port of the tile's network interface, counted from 0.
    pub fn port(&self, port: u8) -> &Port
        requires { port < length self.now.ports }
        ensures { slice_get self.now.ports port ≡ Some result.now }
    {
        &self.ports[usize::from(port)]
    }

    /// Answers how many flits other than idle an output (0 to 6) carried in the slots so far and the next one.
    pub fn carried(&self, out: u8) -> u64
        requires { out < 7 }
        ensures { result ≡ get_or self.now.carried out 0 }
    {
        self.carried[usize::from(out)]
    }
}
