//! Stations that are tried by turns on one thread: what they lack, their counts, and a word that goes over.
//! Slots were counted by hand.

ghost use Rattle.std.specs.Prelude.{◌≡◌, ◌*◌, ◌≤◌, length, All, IfOk, IfSome};
ghost use Rattle.bundle_model.specs.Grants.{IsApart};
ghost use Rattle.bundle_model.specs.World.{IsSoundCatalog, IsSoundWorld, AreOfLoads};
ghost use Rattle.soc_base.specs.declared.limits.TheConstants.{LAST_CYCLE};
ghost use Rattle.tile_core.specs.Fit.{IsUnderway};

use super::fixture::{FIRST, SECOND, bundle, granted, schedule, world_with};
use super::network::{check_port, joined};
use crate::making::build;
use crate::station::Station;
use crate::turn::{Lack, Turn};
use bundle_model::{Grant, LoadName, Schedule, World};
use platform_model::{Platform, RawLink, RawPlatform};
use std::alloc::Global;
use std::process::Abort;
use std::test::Fail;

// Stations, and the schedule by which they go on.
#[derive(Drop)]
struct Built {
    stations: Vec<Station>,
    schedule: Schedule,
}

// The stations of a world, to go on by a schedule.
fn build_by(
    alloc: Global,
    world: &World,
    loads: &[LoadName],
    schedule: &Schedule,
) -> Result<Vec<Station>, Fail>
    requires sound { IsSoundWorld world.now loads.now }
    requires apart { IsApart world.now schedule.now.grants.items }
    requires of_loads { AreOfLoads loads.now schedule.now.grants.items }
    requires bounded { schedule.now.horizon * world.now.platform.slot_cycles ≤ LAST_CYCLE }
    ensures { IfOk result (λ stations. All (λ station. IsUnderway world.now schedule.now station.tile) stations.items) }
{
    let stations = build(alloc, world, loads)?;
    Ok(stations)
}

// The stations of a world with both loads granted.
fn build_for<A: Abort>(
    rt: &A,
    alloc: Global,
    world: &World,
    first: Grant,
    second: Grant,
    horizon: u64,
) -> Result<Built, Fail>
    requires sound { IsSoundCatalog world.now }
    requires two { length world.now.catalog ≡ 2 }
    requires labels { (first.label ≡ record { session = 1; load = 1 })
        × (second.label ≡ record { session = 1; load = 2 }) }
    requires bundles { (first.bundle ≡ 0) × (second.bundle ≡ 1) }
    requires begins { IfSome first.end (λ end. first.start ≤ end) }
    requires follows { IfSome second.end (λ end. second.start ≤ end) }
    requires bounded { horizon * world.now.platform.slot_cycles ≤ LAST_CYCLE }
    ensures { IfOk result (λ built.
        All (λ station. IsUnderway world.now built.schedule station.tile) built.stations.items) }
{
    let loads = [FIRST, SECOND];
    let schedule = schedule(rt, alloc, world, first, second, horizon)?;
    let stations = build_by(alloc, world, &loads, &schedule)?;
    Ok(Built { stations, schedule })
}

// Tries slots of a station up to the first that it can't do, at most so many times. Answers how many it did,
// and what it lacked.
fn tried(
    world: &World,
    schedule: &Schedule,
    station: &mut Station,
    most: u64,
) -> (u64, Option<Lack>)
    requires { IsUnderway world.now schedule.now station.old.tile }
    ensures { IsUnderway world.now schedule.now station.new.tile }
{
    for done in 0..most {
        match station.try_slot(world, schedule) {
            Turn::Moved => {}
            Turn::NotYet(lack) => return (done, Some(lack)),
        }
    }
    (most, None)
}

// Tries slots of the station of a tile, at most 200, and checks how many it did, what it lacked then, how
// many times it was tried so far, and how many times in a row nothing came of it.
fn check_tries<A: Abort>(
    rt: &A,
    world: &World,
    built: &mut Built,
    tile: usize,
    done: u64,
    lack: Lack,
    counts: (u64, u64),
)
    requires { All (λ station. IsUnderway world.now built.old.schedule station.tile) built.old.stations.items }
    ensures underway { All (λ station. IsUnderway world.now built.new.schedule station.tile) built.new.stations.items }
{
    if tile >= built.stations.len() {
        panic!(rt; "no such tile");
    }
    let station = &mut built.stations[tile];
    let was = tried(world, &built.schedule, station, 200);
    assert_eq!(rt; was, (done, Some(lack)));
    assert_eq!(rt; (station.tries(), station.still()), counts);
}

// Three tiles in a row: link 1 leads from tile 2 to tile 0, and link 0 on to tile 1.
fn row(alloc: Global) -> Result<Platform, Fail> {
    let mut raw = RawPlatform::plain(alloc);
    raw.tiles = 3;
    raw.links.push(RawLink {
        from: 0,
        out: 3,
        to: 1,
        input: 2,
    })?;
    raw.links.push(RawLink {
        from: 2,
        out: 0,
        to: 0,
        input: 6,
    })?;
    Ok(Platform::check(alloc, &raw)?)
}

// Stations of three tiles in a row.
fn build_row<A: Abort>(rt: &A, alloc: Global, horizon: u64) -> Result<(World, Built), Fail>
    requires { horizon ≤ 1000 }
    ensures { IfOk result (λ both.
        All (λ station. IsUnderway both.0 both.1.schedule station.tile) both.1.stations.items) }
{
    let platform = row(alloc)?;
    let first = bundle(alloc, &platform, 0, 0)?;
    let world = world_with(alloc, platform, first)?;
    let first = granted(FIRST, 0, None);
    let second = granted(SECOND, 1, None);
    let built = build_for(rt, alloc, &world, first, second, horizon)?;
    Ok((world, built))
}

// Checks the tries of tiles in turn: each tile, and what `check_tries` takes.
fn check_all_tries<A: Abort>(
    rt: &A,
    world: &World,
    built: &mut Built,
    cases: &[(usize, u64, Lack, (u64, u64))],
)
    requires { All (λ station. IsUnderway world.now built.old.schedule station.tile) built.old.stations.items }
{
    for &(tile, done, lack, counts) in cases {
        check_tries(rt, world, built, tile, done, lack, counts);
    }
}

#[test]
fn lacks_what_is_judged_first(rt: HostRuntime) -> Result<(), Fail> {
    let (world, mut built) = build_row(&rt, rt.alloc(), 100)?;
    // A ring holds 64 flits, and the next one waits: a tile is 65 slots ahead. Tile 0 then lacks both a place
    // for its own and a flit of tile 2.
    let cases = [
        (2, 65, Lack::Out(1), (66, 1)),
        (0, 65, Lack::Out(0), (66, 1)),
        (1, 65, Lack::In(0), (66, 1)),
        (0, 0, Lack::In(1), (67, 2)),
        // The flit that waited goes over first.
        (2, 35, Lack::Fence, (102, 1)),
        (0, 35, Lack::Fence, (103, 1)),
        (1, 35, Lack::Fence, (102, 1)),
        (1, 0, Lack::Fence, (103, 2)),
    ];
    check_all_tries(&rt, &world, &mut built, &cases);
    Ok(())
}

#[test]
fn ends_at_the_horizon_before_all_else(rt: HostRuntime) -> Result<(), Fail> {
    let (world, mut built) = build_row(&rt, rt.alloc(), 65)?;
    // At slot 65 no place is left for tile 2's last flit, and none has come to tile 1.
    let cases = [
        (2, 65, Lack::Fence, (66, 1)),
        (0, 65, Lack::Fence, (66, 1)),
        (1, 65, Lack::Fence, (66, 1)),
    ];
    check_all_tries(&rt, &world, &mut built, &cases);
    Ok(())
}

// Does the next slot of the station of a tile.
fn check_moves<A: Abort>(rt: &A, world: &World, built: &mut Built, tile: usize)
    requires { All (λ station. IsUnderway world.now built.old.schedule station.tile) built.old.stations.items }
    ensures underway { All (λ station. IsUnderway world.now built.new.schedule station.tile) built.new.stations.items }
{
    if tile >= built.stations.len() {
        panic!(rt; "no such tile");
    }
    let station = &mut built.stations[tile];
    let turn = station.try_slot(world, &built.schedule);
    assert_eq!(rt; turn, Turn::Moved);
}

// Does slots of the first two tiles, by turns.
fn check_rounds<A: Abort>(rt: &A, world: &World, built: &mut Built, rounds: u64)
    requires { All (λ station. IsUnderway world.now built.old.schedule station.tile) built.old.stations.items }
    ensures underway { All (λ station. IsUnderway world.now built.new.schedule station.tile) built.new.stations.items }
{
    for _round in 0..rounds {
        check_moves(rt, world, built, 0);
        check_moves(rt, world, built, 1);
    }
}

// What a port holds, as `check_port` takes it.
type Held = (Option<u32>, Option<u32>, u8, u8);

// Checks port 1 of a tile, as `check_port` does.
fn check_held<A: Abort>(rt: &A, world: &World, built: &Built, tile: usize, held: Held)
    requires { All (λ station. IsUnderway world.now built.now.schedule station.tile) built.now.stations.items }
{
    if tile >= built.stations.len() {
        panic!(rt; "no such tile");
    }
    check_port(rt, world, &built.stations[tile].tile, 1, held);
}

// Does so many rounds of each case, and checks then what port 1 of the case's tile holds.
fn check_held_after<A: Abort>(
    rt: &A,
    world: &World,
    built: &mut Built,
    cases: &[(u64, usize, Held)],
)
    requires { All (λ station. IsUnderway world.now built.old.schedule station.tile) built.old.stations.items }
{
    for &(rounds, tile, held) in cases {
        check_rounds(rt, world, built, rounds);
        check_held(rt, world, built, tile, held);
    }
}

#[test]
fn a_word_goes_over_in_each_direction(rt: HostRuntime) -> Result<(), Fail> {
    let alloc = rt.alloc();
    let world = joined(alloc)?;
    let first = granted(FIRST, 0, None);
    let second = granted(SECOND, 1, None);
    let mut built = build_for(&rt, alloc, &world, first, second, 16)?;
    // Both parts put their word in slot 9. That of tile 1 is on its output in slot 10 and is delivered in slot
    // 11, that of tile 0 in slots 14 and 15.
    let word = Some(0x8000_0000);
    let cases = [
        (11, 0, (word, None, 0, 8)),
        (1, 0, (word, word, 1, 8)),
        (3, 0, (None, word, 1, 7)),
        (0, 1, (None, None, 0, 7)),
        (1, 1, (None, word, 1, 7)),
    ];
    check_held_after(&rt, &world, &mut built, &cases);
    Ok(())
}
