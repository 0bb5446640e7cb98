//! The work of one worker.

ghost use Rattle.std.specs.Prelude.{◌≡◌, ◌≤◌, ◌↔◌, length, map, vec_capacity, All};
ghost use mathlib.Core.List.{IsPrefix};
ghost use Rattle.vep_manager.specs.Setup.{IsSound};
ghost use Rattle.vep_manager.specs.History.{grants_of, horizon_of};
ghost use Rattle.vep_manager.specs.Legal.{IsLegal};
ghost use Rattle.tile_core.specs.Station.{station_state, ends_of, HasRun};
ghost use Rattle.tile_workers.specs.Work.{IsBehind, IsScheduleOf, AreWithin, AreDone, IsIdle};
ghost use Rattle.tile_workers.specs.declared.group.WorkEnd.TheVariants.{Done, Idle};

use crate::feed::Feed;
use crate::gate::Gate;
use crate::group::{Group, WorkEnd};
use crate::passing::{any_below, take_turn};
use bundle_model::{Schedule, World};
use crossbeam_utils::Backoff;

/// How many turns in a row, in which no tile could move, a worker takes before it gives up.
pub const MOST_IDLE_TURNS: u64 = 1_048_576;

/// Takes the tiles of a group to the slot `until`, as far as they can go. In each turn it asks the feed for the
/// schedule, and then tries the next slot of each station below `until` once; where one moved it comes to all of
/// them again by the same schedule, as long as one moves and up to 64 times. After each slot that was done it
/// comes to the gate. Done exactly where every tile is at `until` then. It gives up, Idle, only after
/// `MOST_IDLE_TURNS` turns in a row in which no station moved. Returns where the calls of its feed and its
/// gate return. Takes no memory.
pub fn work<F: Feed, G: Gate>(
    group: &mut Group,
    world: &World,
    schedule: &mut Schedule,
    feed: &mut F,
    gate: &G,
    until: u64,
) -> WorkEnd
    requires sound { IsSound (F.setup feed.old) }
    requires legal { IsLegal (F.setup feed.old) (F.seen feed.old) }
    requires world { world.now ≡ (F.setup feed.old).world }
    requires room { length (F.setup feed.old).loads ≤ vec_capacity schedule.old.grants }
    requires schedule { IsBehind (F.setup feed.old) (F.seen feed.old) schedule.old }
    requires run { All (HasRun world.now (F.setup feed.old).loads schedule.old.grants.items)
        (map station_state group.old.stations.items) }
    requires within { AreWithin until schedule.old.horizon group.old.stations.items }
    ensures setup { F.setup feed.new ≡ F.setup feed.old }
    ensures kept { F.kept feed.new ≡ F.kept feed.old }
    ensures begins { IsPrefix (F.seen feed.old) (F.seen feed.new) }
    ensures legal { IsLegal (F.setup feed.new) (F.seen feed.new) }
    ensures room { vec_capacity schedule.new.grants ≡ vec_capacity schedule.old.grants }
    ensures schedule { IsBehind (F.setup feed.new) (F.seen feed.new) schedule.new }
    ensures ends { map (λ station. ends_of (station_state station)) group.new.stations.items
        ≡ map (λ station. ends_of (station_state station)) group.old.stations.items }
    ensures run { All (HasRun world.now (F.setup feed.new).loads (grants_of (F.setup feed.new) (F.seen feed.new)))
        (map station_state group.new.stations.items) }
    ensures within { AreWithin until (horizon_of (F.setup feed.new) (F.seen feed.new)) group.new.stations.items }
    ensures done { result ≡ Done ↔ AreDone until group.new.stations.items }
    ensures whole { result ≡ Idle → IsScheduleOf (F.setup feed.new) (F.seen feed.new) schedule.new }
    ensures idle { result ≡ Idle → IsIdle until schedule.new group.old.stations.items group.new.stations.items
        (F.turns feed.old) (F.turns feed.new) }
{
    let backoff = Backoff::new();
    let mut idle: u64 = 0;
    while idle < MOST_IDLE_TURNS {
        if !any_below(&group.stations, until) {
            return WorkEnd::Done;
        }
        if take_turn(&mut group.stations, world, schedule, feed, gate, until) {
            idle = 0;
            backoff.reset();
        } else {
            idle += 1;
            backoff.snooze();
        }
    }
    WorkEnd::Idle
}
