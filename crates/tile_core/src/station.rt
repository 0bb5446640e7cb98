//! A tile and its links.

ghost use Rattle.std.specs.Prelude.{◌≡◌, ◌+◌, ◌-◌, ◌^◌, map, min, List, [], true, IsTrue, IfSome, IfOk};
ghost use Rattle.bundle_model.specs.declared.world.LoadName.{LoadName};
ghost use Rattle.grant_tables.specs.Turns.{is_quiet};
ghost use Rattle.tile_core.specs.Wires.{out_seen, in_seen};
ghost use Rattle.tile_core.specs.Turns.{lack_of, IsTrueLack};

use crate::calls::{IDLE, offer_all, offer_each, poll_all, set_all, take_all};
use crate::tile::Tile;
use crate::turn::{Lack, Turn};
use crate::wire::Wire;
use bundle_model::{Schedule, World};
use flit_link::{LinkIn, LinkOut};
use soc_base::NoMemory;
use std::alloc::Global;

/// A tile, and the ends of its links in the order of the links' numbers.
#[derive(Drop)]
pub struct Station {
    /// The tile.
    pub tile: Tile,
    /// The links that leave the tile.
    pub outs: Vec<Wire<LinkOut>>,
    /// The links that enter it.
    pub ins: Vec<Wire<LinkIn>>,
    tries: u64,
    still: u64,
}

// Tries the links, and answers what the tile lacks for its next slot, up to the first that lacks something.
fn lack(at: u64, horizon: u64, outs: &mut [Wire<LinkOut>], ins: &mut [Wire<LinkIn>]) -> Option<Lack>
    ensures seen { (map out_seen outs.new ≡ map out_seen outs.old) × (map in_seen ins.new ≡ map in_seen ins.old) }
    ensures lack { result ≡ lack_of horizon at outs.new ins.new }
    ensures true_lack { IfSome result (λ lack. IsTrueLack lack outs.new ins.new) }
{
    if horizon <= at {
        return Some(Lack::Fence);
    }
    if let Some(link) = offer_all(outs) {
        return Some(Lack::Out(link));
    }
    match poll_all(ins) {
        Some(link) => Some(Lack::In(link)),
        None => None,
    }
}

impl Station {
    ghost use Rattle.tile_core.specs.Fit.{IsUnderway, IsReady};
    ghost use Rattle.tile_core.specs.Station.{station_state, IsFreshStation, KeepsEnds, HasRun};
    ghost use Rattle.tile_core.specs.inner.Joined.{joined};
    ghost use Rattle.tile_core.specs.Turns.{TriesSlot, still_after, Advances, CanAdvance, KeepsLines};

    // Makes a station without links, with memory for the ends of seven in each direction.
    pub(crate) fn bare(alloc: Global, tile: Tile) -> Result<Station, NoMemory>
        ensures fresh { IfOk result IsFreshStation }
        ensures state { IfOk result (λ station. station_state station ≡ joined [] tile) }
    {
        Ok(Station {
            tile,
            outs: Vec::with_capacity(alloc, 7)?,
            ins: Vec::with_capacity(alloc, 7)?,
            tries: 0,
            still: 0,
        })
    }

    /// Answers how many times a slot of the station was tried, up to the greatest u64.
    pub fn tries(&self) -> u64
        ensures { result ≡ self.now.tries }
    {
        self.tries
    }

    /// Answers how many of the latest tries in a row came to nothing, up to the greatest u64: 0 after a slot.
    pub fn still(&self) -> u64
        ensures { result ≡ self.now.still }
    {
        self.still
    }

    // Does the next slot over the flits that wait, and sets what it puts on the outputs.
    fn pass_slot(&mut self, world: &World, schedule: &Schedule, quiet: bool)
        requires ready { IsReady world.now schedule.now self.old.tile }
        requires quiet { IsTrue quiet → is_quiet schedule.now.grants.items self.old.tile.at ≡ true }
        requires can { CanAdvance self.old }
        ensures slot { Advances world.now schedule.now.grants.items self.old.ins.items
            (station_state self.old) (station_state self.new) }
        ensures counts { (self.new.tries ≡ self.old.tries) × (self.new.still ≡ self.old.still) }
        ensures lines { KeepsLines self.old self.new }
        ensures underway { IsUnderway world.now schedule.now self.new.tile }
    {
        let inputs = take_all(self.ins.as_mut_slice());
        let mut outputs = [IDLE; 7];
        self.tile
            .slot_into(world, schedule, quiet, &inputs, &mut outputs);
        set_all(self.outs.as_mut_slice(), &outputs);
    }

    /// Does the tile's next slot over the flits that wait at its inputs, and sets the flits that it puts on its
    /// outputs; for a thread that has carried what was under way. `quiet` may be true where no grant of the
    /// schedule ends or begins in the slot. Takes no memory.
    pub fn advance(&mut self, world: &World, schedule: &Schedule, quiet: bool)
        requires ready { IsReady world.now schedule.now self.old.tile }
        requires quiet { IsTrue quiet → is_quiet schedule.now.grants.items self.old.tile.at ≡ true }
        requires can { CanAdvance self.old }
        ensures slot { Advances world.now schedule.now.grants.items self.old.ins.items
            (station_state self.old) (station_state self.new) }
        ensures counts { (self.new.tries ≡ self.old.tries) × (self.new.still ≡ self.old.still) }
        ensures ends { KeepsEnds (station_state self.old) (station_state self.new) }
        ensures lines { KeepsLines self.old self.new }
        ensures underway { IsUnderway world.now schedule.now self.new.tile }
        ensures run { (loads : List LoadName)
            → HasRun world.now loads schedule.now.grants.items (station_state self.old)
            → HasRun world.now loads schedule.now.grants.items (station_state self.new) }
    {
        self.pass_slot(world, schedule, quiet);
    }

    // Tries the next slot.
    fn attempt(&mut self, world: &World, schedule: &Schedule) -> Turn
        requires { IsUnderway world.now schedule.now self.old.tile }
        ensures slot { TriesSlot world.now schedule.now self.old self.new result }
        ensures tries { self.new.tries ≡ min (self.old.tries + 1) (2 ^ 64 - 1) }
        ensures still { self.new.still ≡ still_after self.old.still result }
        ensures underway { IsUnderway world.now schedule.now self.new.tile }
    {
        self.tries = self.tries.saturating_add(1);
        let lack = lack(
            self.tile.at(),
            schedule.horizon,
            self.outs.as_mut_slice(),
            self.ins.as_mut_slice(),
        );
        match lack {
            Some(lack) => {
                self.still = self.still.saturating_add(1);
                Turn::NotYet(lack)
            }
            None => {
                self.pass_slot(world, schedule, false);
                offer_each(self.outs.as_mut_slice());
                self.still = 0;
                Turn::Moved
            }
        }
    }

    /// Tries the tile's next slot: offers each flit that waits to the ring of its link, polls each link for a
    /// flit, and then does the slot, sets its outputs and offers each once. What it lacks is judged in the
    /// order of `Lack`, and then the tile stays as it was. Waits for nobody, and takes no memory.
    pub fn try_slot(&mut self, world: &World, schedule: &Schedule) -> Turn
        requires { IsUnderway world.now schedule.now self.old.tile }
        ensures slot { TriesSlot world.now schedule.now self.old self.new result }
        ensures tries { self.new.tries ≡ min (self.old.tries + 1) (2 ^ 64 - 1) }
        ensures still { self.new.still ≡ still_after self.old.still result }
        ensures ends { KeepsEnds (station_state self.old) (station_state self.new) }
        ensures underway { IsUnderway world.now schedule.now self.new.tile }
        ensures run { (loads : List LoadName)
            → HasRun world.now loads schedule.now.grants.items (station_state self.old)
            → HasRun world.now loads schedule.now.grants.items (station_state self.new) }
    {
        self.attempt(world, schedule)
    }
}
