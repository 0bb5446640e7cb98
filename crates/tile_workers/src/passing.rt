//! One turn of a worker.

ghost use Rattle.std.specs.Prelude.{◌≡◌, ◌^◌, ◌<◌, ◌≤◌, All, length, vec_capacity};
ghost use mathlib.Core.List.{IsPrefix};
ghost use Rattle.vep_manager.specs.Setup.{IsSound};
ghost use Rattle.vep_manager.specs.Legal.{IsLegal};
ghost use Rattle.tile_core.specs.Fit.{IsUnderway};
ghost use Rattle.tile_workers.specs.Work.{IsScheduleOf, Rises};
ghost use Rattle.tile_workers.specs.inner.Passing.{is_below, IsTried, IsPassed, IsPass, HaveGoneOn, IsTurnOf, Stands};

use crate::feed::Feed;
use crate::gate::{Gate, Who};
use bundle_model::{Schedule, World};
use tile_core::{Station, Turn};

// How many times a worker comes to its stations again, at most, before it asks for the schedule anew: as often
// as a link's ring has places.
const MORE_PASSES: u64 = 64;

// Whether some tile is below a slot.
pub(crate) fn any_below(stations: &[Station], until: u64) -> bool
    ensures { result ≡ is_below until stations.now }
{
    stations.iter().any(|station| station.tile.at() < until)
}

// Tries the next slot of a station, if that lies below `until`, and comes to the gate once it is done. Answers
// whether it was done.
fn pass_one<G: Gate>(
    station: &mut Station,
    world: &World,
    schedule: &Schedule,
    gate: &G,
    until: u64,
) -> bool
    requires { IsUnderway world.now schedule.now station.old.tile }
    ensures { IsPassed world.now schedule.now until result station.old station.new }
{
    let slot = station.tile.at();
    if slot >= until {
        return false;
    }
    let moved = try_one(station, world, schedule);
    if moved {
        let tile = station.tile.number();
        gate.pass(Who::Advanced { tile, slot });
    }
    moved
}

// Tries the next slot of a station. Answers whether it was done.
fn try_one(station: &mut Station, world: &World, schedule: &Schedule) -> bool
    requires { IsUnderway world.now schedule.now station.old.tile }
    ensures { IsTried world.now schedule.now result station.old station.new }
{
    // For the proof alone: that the count was read tells that it fits in a u64.
    let _tries = station.tries();
    match station.try_slot(world, schedule) {
        Turn::Moved => true,
        Turn::NotYet(_) => false,
    }
}

// Comes to each station once. Answers whether one of them went on.
fn pass_all<G: Gate>(
    stations: &mut [Station],
    world: &World,
    schedule: &Schedule,
    gate: &G,
    until: u64,
) -> bool
    requires { All (λ station. IsUnderway world.now schedule.now station.tile) stations.old }
    ensures { IsPass world.now schedule.now until result stations.old stations.new }
{
    let mut moved = false;
    for station in stations.iter_mut() {
        if pass_one(station, world, schedule, gate, until) {
            moved = true;
        }
    }
    moved
}

// Comes to each station again and again without asking for the schedule anew, as long as one of them goes on.
fn go_on<F: Feed, G: Gate>(
    stations: &mut [Station],
    world: &World,
    schedule: &Schedule,
    feed: &F,
    gate: &G,
    until: u64,
)
    requires sound { IsSound (F.setup feed.now) }
    requires world { world.now ≡ (F.setup feed.now).world }
    requires whole { IsScheduleOf (F.setup feed.now) (F.seen feed.now) schedule.now }
    requires stands { Stands (F.setup feed.now) (F.seen feed.now) world.now until schedule.now stations.old }
    ensures gone { HaveGoneOn until stations.old stations.new }
    ensures stands { Stands (F.setup feed.now) (F.seen feed.now) world.now until schedule.now stations.new }
{
    for _ in 0..MORE_PASSES {
        if !pass_all(stations, world, schedule, gate, until) {
            return;
        }
    }
}

// Asks the feed for the schedule, and comes to each station, again where one of them went on. Answers whether
// one did.
pub(crate) fn take_turn<F: Feed, G: Gate>(
    stations: &mut [Station],
    world: &World,
    schedule: &mut Schedule,
    feed: &mut F,
    gate: &G,
    until: u64,
) -> bool
    requires sound { IsSound (F.setup feed.old) }
    requires world { world.now ≡ (F.setup feed.old).world }
    requires room { length (F.setup feed.old).loads ≤ vec_capacity schedule.old.grants }
    requires stands { Stands (F.setup feed.old) (F.seen feed.old) world.now until schedule.old stations.old }
    ensures setup { F.setup feed.new ≡ F.setup feed.old }
    ensures kept { F.kept feed.new ≡ F.kept feed.old }
    ensures begins { IsPrefix (F.seen feed.old) (F.seen feed.new) }
    ensures room { vec_capacity schedule.new.grants ≡ vec_capacity schedule.old.grants }
    ensures whole { IsScheduleOf (F.setup feed.new) (F.seen feed.new) schedule.new }
    ensures turns { Rises (F.turns feed.old) (F.turns feed.new) }
    ensures turn { IsTurnOf world.now schedule.new until result stations.old stations.new }
    ensures stands { Stands (F.setup feed.new) (F.seen feed.new) world.now until schedule.new stations.new }
{
    feed.refresh(schedule);
    let moved = pass_all(stations, world, schedule, gate, until);
    if moved {
        go_on(stations, world, schedule, feed, gate, until);
    }
    moved
}
