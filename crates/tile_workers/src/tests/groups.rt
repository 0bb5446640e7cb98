//! The work of groups. A tile without applications puts an idle flit on its link in each slot.

ghost use Rattle.std.specs.Prelude.{◌≡◌, List, map, All, IfOk};
ghost use mathlib.Core.List.{IsPrefix};
ghost use Rattle.bundle_model.specs.declared.world.Grant.{Grant};
ghost use Rattle.bundle_model.specs.World.{IsSoundWorld};
ghost use Rattle.vep_manager.specs.Setup.{IsSound};
ghost use Rattle.vep_manager.specs.Legal.{IsLegal};
ghost use Rattle.vep_manager.specs.History.{IsSession};
ghost use Rattle.tile_core.specs.Station.{station_state, HasRun};

use super::fixture::{BUDGET, setup};
use super::watched::{Counted, Watched};
use crate::group::{Group, WorkEnd};
use crate::working::work;
use bundle_model::Schedule;
use std::alloc::Global;
use std::test::Fail;
use tile_core::{Station, build};
use vep_manager::{Manager, Setup};

// Which tiles are of the group.
#[derive(Clone, Copy)]
enum Tiles {
    // Both.
    Both,
    // The one that writes to the other.
    First,
}

// What the worker answered, how often it asked, how many slots the gate saw, and where the tiles are.
#[derive(Clone, Copy, Debug, PartialEq, Eq)]
struct Seen {
    end: WorkEnd,
    asked: u64,
    slots: u64,
    first: u64,
    second: Option<u64>,
}

// The tiles of the group before the first slot.
fn group(alloc: Global, setup: &Setup, tiles: Tiles) -> Result<Group, Fail>
    requires { IsSoundWorld setup.now.world setup.now.loads }
    ensures run { IfOk result (λ group. (grants : List Grant)
        → All (HasRun setup.now.world setup.now.loads grants) (map station_state group.stations.items)) }
    ensures fresh { IfOk result (λ group. All (λ station. station.tile.at ≡ 0) group.stations.items) }
{
    let mut stations = build(alloc, &setup.world, setup.loads.as_slice())?;
    match tiles {
        Tiles::Both => {}
        Tiles::First => stations.truncate(1),
    }
    Ok(Group { stations })
}

// Commits the session's command, where it is to be committed.
fn settle(manager: &mut Manager<'_>, settled: bool)
    requires session { IsSession manager.old.setup 1 }
    requires legal { IsLegal manager.old.setup manager.old.history }
    ensures setup { manager.new.setup ≡ manager.old.setup }
    ensures begins { IsPrefix manager.old.history manager.new.history }
    ensures legal { IsLegal manager.new.setup manager.new.history }
{
    if settled {
        manager.commit(1);
    }
}

// The slot of the tile at a place of the group, if there is one.
fn slot_at(group: &Group, place: usize) -> Option<u64> {
    group.stations.get(place).map(|station| station.tile.at())
}

// Works on a group, which begins with the horizon 0 and learns of the session's command by its feed.
fn worked(
    alloc: Global,
    setup: &Setup,
    settled: bool,
    tiles: Tiles,
    until: u64,
) -> Result<Seen, Fail>
    requires { IsSound setup.now }
{
    let mut manager = Manager::new(alloc, setup)?;
    let mut schedule = Schedule::new(alloc, 256)?;
    manager.copy_since(&mut schedule);
    settle(&mut manager, settled);
    let mut group = group(alloc, setup, tiles)?;
    let mut feed = Watched {
        manager: &manager,
        asked: 0,
    };
    let gate = Counted::new();
    let end = work(
        &mut group,
        &setup.world,
        &mut schedule,
        &mut feed,
        &gate,
        until,
    );
    Ok(Seen {
        end,
        asked: feed.asked,
        slots: gate.slots(),
        first: slot_at(&group, 0).unwrap_or(0),
        second: slot_at(&group, 1),
    })
}

#[test]
fn below_a_horizon_of_zero_no_tile_moves(rt: HostRuntime) -> Result<(), Fail> {
    let alloc = rt.alloc();
    let setup = setup(alloc)?;
    let seen = worked(alloc, &setup, false, Tiles::Both, BUDGET)?;
    let expected = Seen {
        end: WorkEnd::Idle,
        asked: 1_048_576,
        slots: 0,
        first: 0,
        second: Some(0),
    };
    assert_eq!(rt; seen, expected);
    Ok(())
}

#[test]
fn a_group_that_is_where_it_was_to_go_asks_for_nothing(rt: HostRuntime) -> Result<(), Fail> {
    let alloc = rt.alloc();
    let setup = setup(alloc)?;
    let seen = worked(alloc, &setup, false, Tiles::Both, 0)?;
    let expected = Seen {
        end: WorkEnd::Done,
        asked: 0,
        slots: 0,
        first: 0,
        second: Some(0),
    };
    assert_eq!(rt; seen, expected);
    Ok(())
}

// In each pass the first tile does a slot, and then the second, for which the flit of the slot before waits. The
// first turn has 65 passes, and the second the rest.
#[test]
fn both_tiles_come_to_the_budget(rt: HostRuntime) -> Result<(), Fail> {
    let alloc = rt.alloc();
    let setup = setup(alloc)?;
    let seen = worked(alloc, &setup, true, Tiles::Both, BUDGET)?;
    let expected = Seen {
        end: WorkEnd::Done,
        asked: 2,
        slots: 200,
        first: 100,
        second: Some(100),
    };
    assert_eq!(rt; seen, expected);
    Ok(())
}

// Nobody reads the ring: it takes the flits of the slots 0 to 63, and that of slot 64 waits to be pushed. So
// there is a turn with 65 slots, and after it as many turns in vain as a worker takes.
#[test]
fn a_tile_alone_goes_as_far_as_its_ring(rt: HostRuntime) -> Result<(), Fail> {
    let alloc = rt.alloc();
    let setup = setup(alloc)?;
    let seen = worked(alloc, &setup, true, Tiles::First, BUDGET)?;
    let expected = Seen {
        end: WorkEnd::Idle,
        asked: 1_048_577,
        slots: 65,
        first: 65,
        second: None,
    };
    assert_eq!(rt; seen, expected);
    Ok(())
}
