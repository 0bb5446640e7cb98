//! The core: a manager, tiles at different slots, and the flits between them.

ghost use Rattle.std.specs.Prelude.{◌≡◌, ◌↔◌, ℕ, ◌<◌, ◌≤◌, ◌&&◌, true, take, map, length, nat_lt, nat_le, position, slice_get, vec_capacity, All, IfOk, OnOk, OnErr, IfSome, Some};
ghost use Rattle.std.specs.List.{range_with_len, list_all};
ghost use Rattle.soc_base.specs.Port.{WordAndCredits};
ghost use Rattle.bundle_model.specs.World.{IsSoundWorld};
ghost use Rattle.tile_core.specs.Tile.{TileState, fresh_tile};
ghost use Rattle.tile_core.specs.Slot.{tile_slot, slot_outputs};
ghost use Rattle.tile_core.specs.Fit.{IsFit, IsMadeFor, IsReady};
ghost use Rattle.vep_manager.specs.History.{IsSession, grants_of, horizon_of};
ghost use Rattle.vep_manager.specs.Setup.{IsSound};
ghost use Rattle.core_model.specs.Core.{least_ready};
ghost use Rattle.core_model.specs.Order.{IsInOrder};
ghost use Rattle.event_core.specs.declared.event.Event.{Event};
ghost use Rattle.event_core.specs.declared.event.Event.TheVariants.{Command, Slot};
ghost use Rattle.event_core.specs.Core.{hardware_of, first_core, after_event, Exists, first_waiting, hindered, why_not, step_of, is_enabled, after_events, enabled_count};
ghost use Rattle.event_core.specs.inner.Wires.{line_of};
ghost use Rattle.event_core.specs.inner.Turn.{IsTurned, IsPassedOn};

use crate::event::{Event, Step, Why};
use crate::wires::{Wire, first_waiting, fresh_wires, inputs, make_room, pass_all};
use bundle_model::{LoadName, Schedule, World};
use soc_base::{Flit, MOST_COMMANDS, MOST_LINKS, MOST_TILES, NoMemory};
use std::alloc::Global;
use std::marker::Model;
use tile_core::Tile;
use vep_manager::{Entry, Manager, Setup};

/// The core: a setup, the history of its sessions' commands, the tiles, each at a slot of its own, and the
/// flits that were put on each link and not yet taken.
#[derive(Drop)]
pub struct Core<'s> {
    manager: Manager<'s>,
    schedule: Schedule,
    places: Vec<Tile>,
    wires: Vec<Wire>,
}

impl<'s> Model for Core<'s> {
    ghost use Rattle.std.specs.Prelude.{map, vec_capacity};
    ghost use Rattle.event_core.specs.Core.{Engaged};
    ghost use Rattle.event_core.specs.inner.Wires.{line_of};
    ghost use Rattle.event_core.specs.inner.Engine.{IsEngaged};

    ghost Value = { Engaged };

    ghost view = { λ c. record { setup = c.manager.setup; core = record { history = c.manager.history; tiles = c.places.items; lines = map line_of c.wires.items } } };

    ghost invariant = { λ c. IsEngaged c.manager.setup (record { history = c.manager.history; tiles = c.places.items; lines = map line_of c.wires.items }) c.schedule.grants.items c.schedule.horizon (vec_capacity c.schedule.grants) };
}

// Does the next slot of a tile.
fn turn(
    tiles: &mut [Tile],
    number: u8,
    world: &World,
    schedule: &Schedule,
    inputs: &[Flit; 7],
) -> [Flit; 7]
    requires there { number < length tiles.old }
    requires ready { IfSome (slice_get tiles.old number) (IsReady world.now schedule.now) }
    ensures outputs { IfSome (slice_get tiles.old number) (λ tile. result ≡ slot_outputs world.now schedule.now.grants.items inputs.now tile) }
    ensures tiles { IfSome (slice_get tiles.old number) (IsTurned world.now schedule.now.grants.items inputs.now number tiles.old tiles.new) }
{
    tiles[usize::from(number)].slot(world, schedule, inputs)
}

// Does the next slot of a tile, and passes the flits on. After want of memory nothing changed.
fn go(
    tiles: &mut Vec<Tile>,
    wires: &mut Vec<Wire>,
    number: u8,
    world: &World,
    schedule: &Schedule,
) -> Result<(), NoMemory>
    requires there { number < length tiles.old.items }
    requires ready { IfSome (slice_get tiles.old.items number) (IsReady world.now schedule.now) }
    ensures done { OnOk result (IfSome (slice_get tiles.old.items number) (IsPassedOn world.now schedule.now.grants.items number tiles.old.items tiles.new.items (map line_of wires.old.items) (map line_of wires.new.items))) }
    ensures tiles { OnErr result (tiles.new.items ≡ tiles.old.items) }
    ensures wires { OnErr result (map line_of wires.new.items ≡ map line_of wires.old.items) }
{
    make_room(wires.as_mut_slice())?;
    let inputs = inputs(number, wires.as_slice());
    let outputs = turn(tiles.as_mut_slice(), number, world, schedule, &inputs);
    pass_all(number, &outputs, wires.as_mut_slice());
    Ok(())
}

// Makes the tiles of a world before their first slot.
fn fresh_tiles(alloc: Global, world: &World, loads: &[LoadName]) -> Result<Vec<Tile>, NoMemory>
    requires { IsSoundWorld world.now loads.now }
    ensures fresh { IfOk result (λ tiles. tiles.items ≡ map (fresh_tile world.now loads.now) (range_with_len 0 world.now.platform.tiles)) }
{
    let mut tiles = Vec::with_capacity(alloc, usize::from(world.platform.tiles))?;
    for number in 0..world.platform.tiles {
        let tile = Tile::new(alloc, world, loads, number)?;
        tiles.push_reserved(tile);
    }
    Ok(tiles)
}

// Makes the schedule of a manager's history, with room for every load of a run.
#[tactic(auto, using(crate::proofs::Engaged::few_loads))]
fn first_schedule(alloc: Global, manager: &Manager<'_>) -> Result<Schedule, NoMemory>
    requires { IsSound manager.now.setup }
    ensures grants { IfOk result (λ schedule. schedule.grants.items ≡ grants_of manager.now.setup manager.now.history) }
    ensures horizon { IfOk result (λ schedule. schedule.horizon ≡ horizon_of manager.now.setup manager.now.history) }
    ensures room { IfOk result (λ schedule. length manager.now.setup.loads ≤ vec_capacity schedule.grants) }
{
    let mut schedule = Schedule::new(alloc, MOST_COMMANDS as u16)?;
    manager.copy_since(&mut schedule);
    Ok(schedule)
}

// Why a tile can't take its next slot, if it can't.
fn hindrance(tiles: &[Tile], wires: &[Wire], horizon: u64, number: u8) -> Option<Why>
    requires there { number < length tiles.now }
    requires few { length wires.now ≤ MOST_LINKS }
    ensures { IfSome (slice_get tiles.now number) (λ tile. result ≡ hindered horizon tile.at (first_waiting number (map line_of wires.now))) }
{
    if horizon <= tiles[usize::from(number)].at() {
        return Some(Why::Fence(horizon));
    }
    match first_waiting(number, wires) {
        Some(link) => Some(Why::Waits(link)),
        None => None,
    }
}

// Answers whether no tile is at a slot lower than this one.
fn none_lower(slot: u64, tiles: &[Tile]) -> bool
    ensures { result ≡ list_all (λ other. nat_le slot other.at) tiles.now }
{
    for tile in tiles {
        if tile.at() < slot {
            return false;
        }
    }
    true
}

// Answers the first tile of least slot, where that lies below the horizon.
fn first_least(tiles: &[Tile], horizon: u64) -> Option<u8>
    requires { length tiles.now ≤ MOST_TILES }
    ensures { result ≡ position (λ tile. nat_lt tile.at horizon && list_all (λ other. nat_le tile.at other.at) tiles.now) tiles.now }
{
    for number in 0..tiles.len() {
        let slot = tiles[number].at();
        if slot < horizon && none_lower(slot, tiles) {
            return Some(number as u8);
        }
    }
    None
}

impl<'s> Core<'s> {
    /// Makes the core of a setup, before its first event.
    #[tactic(auto, using(crate::proofs::Engaged::fresh_engaged))]
    pub fn new(alloc: Global, setup: &'s Setup) -> Result<Core<'s>, NoMemory>
        requires { IsSound setup.now }
        ensures { IfOk result (λ core. core ≡ first_core setup.entry.now) }
    {
        let manager = Manager::new(alloc, setup)?;
        let schedule = first_schedule(alloc, &manager)?;
        let places = fresh_tiles(alloc, &setup.world, setup.loads.as_slice())?;
        let wires = fresh_wires(alloc, setup.world.platform.links.as_slice())?;
        Ok(Core {
            manager,
            schedule,
            places,
            wires,
        })
    }

    /// Answers the history of all commands that were committed.
    pub fn history(&self) -> &[Entry]
        ensures { result.now ≡ self.now.core.history }
    {
        self.manager.history()
    }

    /// Answers a tile, counted from 0.
    pub fn tile(&self, tile: u8) -> &Tile
        requires { tile < length self.now.core.tiles }
        ensures { Some result.now ≡ slice_get self.now.core.tiles tile }
    {
        &self.places[usize::from(tile)]
    }

    /// Says what is true of a core between any two events: the history is legal, each tile is at or below
    /// the horizon and is that of all tiles in step at its own slot, each link holds the flits between its
    /// two tiles, and what is installed on each tile is what stands at its slot.
    pub fn in_order(&self)
        ensures sound { IsSound self.now.setup }
        ensures order { IsInOrder TileState WordAndCredits (hardware_of self.now.setup) self.now.setup self.now.core }
        ensures made { All (IsMadeFor self.now.setup.world self.now.setup.loads) self.now.core.tiles }
        ensures fits { All (IsFit self.now.setup.world (grants_of self.now.setup self.now.core.history)) self.now.core.tiles }
    {
        // What the core knows of itself is known where one of its fields is read.
        let _ = &self.manager;
    }

    /// Answers whether an event's session or tile exists.
    pub fn exists(&self, event: Event) -> bool
        ensures { result ≡ true ↔ Exists self.now event }
    {
        match event {
            Event::Command(session) => {
                let sessions = self.manager.setup().scripts.len();
                0 < session && usize::from(session) <= sessions
            }
            Event::Slot(tile) => usize::from(tile) < self.places.len(),
        }
    }

    /// Answers the first tile of least slot, counted from 0, which can take its next slot. None where every
    /// tile is at the horizon.
    pub fn least_ready(&self) -> Option<u8>
        ensures least { result ≡ least_ready (hardware_of self.now.setup) self.now.setup self.now.core }
        ensures enabled { IfSome result (λ tile. is_enabled self.now (Slot tile) ≡ true) }
    {
        first_least(self.places.as_slice(), self.schedule.horizon)
    }

    // Why a tile can't take its next slot, if it can't.
    fn why_not(&self, tile: u8) -> Option<Why>
        requires { tile < length self.now.core.tiles }
        ensures { result ≡ why_not self.now (Slot tile) }
    {
        hindrance(
            self.places.as_slice(),
            self.wires.as_slice(),
            self.schedule.horizon,
            tile,
        )
    }

    // Commits a session's next command.
    fn command(&mut self, session: u8) -> Step
        requires { IsSession self.old.setup session }
        ensures answer { result ≡ step_of self.old (Command session) }
        ensures done { self.new ≡ after_event self.old (Command session) }
    {
        let entry = self.manager.commit(session);
        self.manager.copy_since(&mut self.schedule);
        match entry {
            Some(_) => Step::Done,
            None => Step::Disabled(Why::Spent),
        }
    }

    // Does the next slot of a tile.
    fn slot(&mut self, tile: u8) -> Result<Step, NoMemory>
        requires { tile < length self.old.core.tiles }
        ensures answer { IfOk result (λ step. step ≡ step_of self.old (Slot tile)) }
        ensures done { OnOk result (self.new ≡ after_event self.old (Slot tile)) }
        ensures kept { OnErr result (self.new ≡ self.old) }
    {
        if let Some(why) = self.why_not(tile) {
            return Ok(Step::Disabled(why));
        }
        let world = &self.manager.setup().world;
        go(
            &mut self.places,
            &mut self.wires,
            tile,
            world,
            &self.schedule,
        )?;
        Ok(Step::Done)
    }

    /// Does an event, if it is enabled, and answers what it comes to. An event that isn't enabled changes
    /// nothing, and after an `Err`, which is want of memory, nothing changed.
    pub fn step(&mut self, event: Event) -> Result<Step, NoMemory>
        requires { Exists self.old event }
        ensures answer { IfOk result (λ step. step ≡ step_of self.old event) }
        ensures done { OnOk result (self.new ≡ after_event self.old event) }
        ensures kept { OnErr result (self.new ≡ self.old) }
    {
        match event {
            Event::Command(session) => Ok(self.command(session)),
            Event::Slot(tile) => self.slot(tile),
        }
    }

    // Does an event, if it is enabled, and answers whether it is.
    fn attempt(&mut self, event: Event) -> Result<bool, NoMemory>
        ensures answer { IfOk result (λ enabled. enabled ≡ is_enabled self.old event) }
        ensures done { OnOk result (self.new ≡ after_event self.old event) }
        ensures kept { OnErr result (self.new ≡ self.old) }
    {
        if !self.exists(event) {
            return Ok(false);
        }
        match self.step(event)? {
            Step::Done => Ok(true),
            Step::Disabled(_) => Ok(false),
        }
    }

    /// Does events, one after the other, and answers how many of them were enabled. One that isn't enabled,
    /// as one of a session or a tile that doesn't exist, changes nothing and isn't counted. After an `Err`,
    /// which is want of memory, the events before some event were done and no more.
    pub fn run(&mut self, events: &[Event]) -> Result<u64, NoMemory>
        ensures done { OnOk result (self.new ≡ after_events self.old events.now) }
        ensures counted { IfOk result (λ count. count ≡ enabled_count self.old events.now) }
        ensures stopped { OnErr result ((n : ℕ) × (self.new ≡ after_events self.old (take n events.now))) }
    {
        let mut count = 0;
        for event in events {
            if self.attempt(*event)? {
                count += 1;
            }
        }
        Ok(count)
    }
}
