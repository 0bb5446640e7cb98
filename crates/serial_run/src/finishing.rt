//! All stations of a platform, brought to one slot on one thread.

ghost use Rattle.std.specs.Prelude.{◌≡◌, ◌+◌, ◌<◌, ◌≤◌, true, All, IsTrue};
ghost use Rattle.std.specs.List.{AllZip};
ghost use Rattle.grant_tables.specs.Turns.{is_quiet, AreQuiet};
ghost use Rattle.tile_core.specs.Fit.{IsUnderway};
ghost use Rattle.tile_core.specs.Turns.{CanAdvance};
ghost use Rattle.serial_run.specs.Run.{CanFinish, FinishesInStep};
ghost use Rattle.serial_run.specs.inner.Going.{Steps, AreGoing, AreWithin, KeepRuns, StayWithin};

use crate::carrying::carry_all;
use crate::hops::{Hop, find_hops};
use bundle_model::{Grant, Schedule, World};
use flit_link::taken_first;
use grant_tables::next_turn;
use tile_core::Station;

// Does the tile's next slot, if it is at this one. `quiet` tells that no grant ends or begins in the slot.
fn step(station: &mut Station, world: &World, schedule: &Schedule, slot: u64, quiet: bool)
    requires underway { IsUnderway world.now schedule.now station.old.tile }
    requires below { slot < schedule.now.horizon }
    requires quiet { IsTrue quiet → is_quiet schedule.now.grants.items slot ≡ true }
    requires can { station.old.tile.at ≡ slot → CanAdvance station.old }
    ensures { Steps world.now schedule.now slot station.old station.new }
{
    if station.tile.at() == slot {
        station.advance(world, schedule, quiet);
    }
}

// The same of each tile.
fn step_all(stations: &mut [Station], world: &World, schedule: &Schedule, slot: u64, quiet: bool)
    requires underway { All (λ station. IsUnderway world.now schedule.now station.tile) stations.old }
    requires below { slot < schedule.now.horizon }
    requires quiet { IsTrue quiet → is_quiet schedule.now.grants.items slot ≡ true }
    requires can { All (λ station. station.tile.at ≡ slot → CanAdvance station) stations.old }
    ensures { AllZip (Steps world.now schedule.now slot) stations.old stations.new }
{
    for station in stations.iter_mut() {
        step(station, world, schedule, slot, quiet);
    }
}

// A round: the next slot of each tile that is at this one, where none is before it, and then the next flit of
// each link.
fn round(
    stations: &mut [Station],
    hops: &[Hop],
    world: &World,
    schedule: &Schedule,
    slot: u64,
    quiet: bool,
)
    requires going { AreGoing world.now schedule.now hops.now slot stations.old }
    requires below { slot < schedule.now.horizon }
    requires quiet { IsTrue quiet → is_quiet schedule.now.grants.items slot ≡ true }
    ensures going { AreGoing world.now schedule.now hops.now (slot + 1) stations.new }
    ensures run { KeepRuns world.now schedule.now.grants.items stations.old stations.new }
    ensures within { StayWithin slot stations.old stations.new }
{
    step_all(stations, world, schedule, slot, quiet);
    carry_all(stations, hops, true);
}

// The least slot of a tile, where none is after `until`.
fn least_slot(stations: &[Station], until: u64) -> u64
    ensures within { result ≤ until }
    ensures least { All (λ station. result ≤ station.tile.at) stations.now }
{
    let mut least = until;
    for station in stations {
        least = least.min(station.tile.at());
    }
    least
}

// Up to which slot no grant ends or begins from a slot on, where none does so up to `turn`.
fn turn_from(grants: &[Grant], slot: u64, turn: u64) -> u64
    requires { AreQuiet grants.now slot turn }
    ensures { AreQuiet grants.now slot result }
{
    if slot < turn {
        turn
    } else {
        next_turn(grants, slot)
    }
}

// Brings every tile to the slot `until`, once the next flit of each link was carried.
fn go_on(stations: &mut [Station], hops: &[Hop], world: &World, schedule: &Schedule, until: u64)
    requires going { AreGoing world.now schedule.now hops.now 0 stations.old }
    requires within { AreWithin until stations.old }
    requires reached { until ≤ schedule.now.horizon }
    ensures going { AreGoing world.now schedule.now hops.now until stations.new }
    ensures within { AreWithin until stations.new }
    ensures run { KeepRuns world.now schedule.now.grants.items stations.old stations.new }
{
    let grants = schedule.grants.as_slice();
    // No grant ends or begins from the slot on, up to this one.
    let mut turn = 0;
    for slot in least_slot(stations, until)..until {
        turn = turn_from(grants, slot, turn);
        round(stations, hops, world, schedule, slot, slot < turn);
    }
}

/// Brings every tile to the slot `until`, by turns of tiles of least slot, on a thread that holds both ends of
/// every ring, whatever stands in the rings. Never needs a free place in a ring: from a tile of least slot at
/// most one flit is under way. The stations may stand at different slots. Takes no memory.
pub fn finish(stations: &mut [Station], world: &World, schedule: &Schedule, until: u64)
    requires { CanFinish world.now schedule.now until stations.old }
    ensures { FinishesInStep world.now schedule.now.grants.items until stations.old stations.new }
{
    let links = world.platform.links.as_slice();
    let found = find_hops(stations, links);
    let hops = &found[..links.len()];
    carry_all(stations, hops, false);
    go_on(stations, hops, world, schedule, until);
    // The flits taken from a link are the first of those set into it.
    taken_first();
}
