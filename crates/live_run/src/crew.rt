//! The workers of a run: their tiles are dealt out before it and gathered after it.

ghost use Rattle.std.specs.Prelude.{◌≡◌, ◌≤◌, ◌<◌, ◌+◌, ◌%◌, ◌^◌, ◌++◌, ◌∷◌, [], ℕ, List, length, map, vec_len, vec_capacity, slice_index_or, slice_set, All, IfOk};
ghost use Rattle.std.specs.Option.{option_to_list};
ghost use Rattle.bundle_model.specs.World.{IsSoundWorld};
ghost use Rattle.bundle_model.specs.declared.world.World.{World};
ghost use Rattle.bundle_model.specs.declared.world.LoadName.{LoadName};
ghost use Rattle.tile_core.specs.declared.station.Station.{Station};
ghost use Rattle.live_run.specs.inner.Workers.{IsBlank, IsFirst, AreStaffed, hand, schedule_of};
ghost use Rattle.live_run.specs.inner.Hands.{gathered, last_of, but_last, IsDealtTo};

use crate::worker::Worker;
use bundle_model::Schedule;
use soc_base::NoMemory;
use std::alloc::Global;
use tile_core::{Station, build};
use tile_workers::Group;
use vep_manager::{Manager, Setup};

// A worker without tiles, whose schedule is the manager's.
fn hire(alloc: Global, manager: &Manager<'_>) -> Result<Worker, NoMemory>
    requires few { length manager.now.setup.loads < 2 ^ 16 }
    requires none { manager.now.history ≡ [] }
    ensures blank { IfOk result (λ worker. IsBlank manager.now.setup worker.schedule) }
    ensures free { IfOk result (λ worker. hand worker ≡ []) }
{
    let loads = manager.setup().loads.len();
    let mut schedule = Schedule::new(alloc, loads as u16)?;
    manager.copy_since(&mut schedule);
    let group = Group {
        stations: Vec::new(alloc),
    };
    Ok(Worker { group, schedule })
}

/// Makes so many workers without tiles, whose schedules are the manager's.
pub fn hire_all(alloc: Global, manager: &Manager<'_>, count: u8) -> Result<Vec<Worker>, NoMemory>
    requires few { length manager.now.setup.loads < 2 ^ 16 }
    requires none { manager.now.history ≡ [] }
    ensures count { IfOk result (λ crew. vec_len crew ≡ count) }
    ensures blank { IfOk result (λ crew. All (IsBlank manager.now.setup) (map schedule_of crew.items)) }
    ensures free { IfOk result (λ crew. All (λ worker. hand worker ≡ []) crew.items) }
{
    let mut crew = Vec::new(alloc);
    for _ in 0..count {
        crew.push(hire(alloc, manager)?)?;
    }
    Ok(crew)
}

// Hands a station to the worker at a place.
fn hand_to(crew: &mut Vec<Worker>, place: usize, station: Station) -> Result<(), NoMemory>
    requires { place < vec_len crew.old }
    ensures handed { IfOk result (λ _. map hand crew.new.items ≡ slice_set (map hand crew.old.items) place
        (slice_index_or (map hand crew.old.items) place [] ++ station ∷ [])) }
    ensures schedules { map schedule_of crew.new.items ≡ map schedule_of crew.old.items }
    ensures count { vec_len crew.new ≡ vec_len crew.old }
{
    crew[place].group.stations.push(station)?;
    Ok(())
}

// Takes the last station of the worker at a place, if it has one.
fn take_from(crew: &mut Vec<Worker>, place: usize) -> Option<Station>
    requires { place < vec_len crew.old }
    ensures taken { option_to_list result ≡ last_of (slice_index_or (map hand crew.old.items) place []) }
    ensures left { map hand crew.new.items ≡ slice_set (map hand crew.old.items) place
        (but_last (slice_index_or (map hand crew.old.items) place [])) }
    ensures count { vec_len crew.new ≡ vec_len crew.old }
{
    crew[place].group.stations.pop()
}

// Deals the last station out.
fn deal_one(crew: &mut Vec<Worker>, stations: &mut Vec<Station>) -> Result<(), NoMemory>
    requires some { 0 < vec_len crew.old }
    requires left { 0 < vec_len stations.old }
    ensures dealt { IfOk result (λ _. IsDealtTo (vec_len stations.new % vec_len crew.old) stations.old.items stations.new.items
        (map hand crew.old.items) (map hand crew.new.items)) }
    ensures schedules { map schedule_of crew.new.items ≡ map schedule_of crew.old.items }
    ensures count { vec_len crew.new ≡ vec_len crew.old }
    ensures fewer { vec_len stations.new + 1 ≡ vec_len stations.old }
    ensures room { vec_capacity stations.new ≡ vec_capacity stations.old }
{
    let station = stations.pop().unwrap();
    let place = stations.len() % crew.len();
    hand_to(crew, place, station)
}

/// Deals stations out, from the last one on: that of each number goes to the worker whose place is the
/// remainder of the number by the count of workers.
pub fn deal(crew: &mut Vec<Worker>, stations: &mut Vec<Station>) -> Result<(), NoMemory>
    requires { 0 < vec_len crew.old }
    ensures dealt { IfOk result (λ _. gathered (vec_len crew.old) (vec_len stations.old) 0 [] (map hand crew.new.items) ≡ stations.old.items) }
    ensures first { IfOk result (λ _. (world : World) (loads : List LoadName) → All (IsFirst world loads) stations.old.items
        → All (All (IsFirst world loads)) (map hand crew.old.items)
        → All (All (IsFirst world loads)) (map hand crew.new.items)) }
    ensures schedules { map schedule_of crew.new.items ≡ map schedule_of crew.old.items }
    ensures count { vec_len crew.new ≡ vec_len crew.old }
    ensures empty { IfOk result (λ _. stations.new.items ≡ []) }
    ensures room { vec_capacity stations.new ≡ vec_capacity stations.old }
{
    for _ in 0..stations.len() {
        deal_one(crew, stations)?;
    }
    Ok(())
}

// Gathers the last station of the worker at a place, if it has one.
fn gather_one(crew: &mut Vec<Worker>, place: usize, stations: &mut Vec<Station>)
    requires place { place < vec_len crew.old }
    requires room { vec_len stations.old < vec_capacity stations.old }
    ensures taken { stations.new.items ≡ stations.old.items ++ last_of (slice_index_or (map hand crew.old.items) place []) }
    ensures left { map hand crew.new.items ≡ slice_set (map hand crew.old.items) place
        (but_last (slice_index_or (map hand crew.old.items) place [])) }
    ensures count { vec_len crew.new ≡ vec_len crew.old }
    ensures more { vec_len stations.new ≤ vec_len stations.old + 1 }
    ensures room { vec_capacity stations.new ≡ vec_capacity stations.old }
{
    if let Some(station) = take_from(crew, place) {
        stations.push_reserved(station);
    }
}

/// The workers of a run.
#[derive(Drop)]
pub struct Staff {
    /// The workers, with their tiles.
    pub crew: Vec<Worker>,
    /// An empty list with room for all stations.
    pub stations: Vec<Station>,
}

/// Makes the stations of a run and deals them out among so many workers, at most one for each tile.
pub fn deal_out(
    alloc: Global,
    setup: &Setup,
    manager: &Manager<'_>,
    workers: u8,
) -> Result<Staff, NoMemory>
    requires same { manager.now.setup ≡ setup.now }
    requires sound { IsSoundWorld setup.now.world setup.now.loads }
    requires none { manager.now.history ≡ [] }
    requires some { 0 < workers }
    ensures { IfOk result (λ staff. AreStaffed setup.now staff.crew.items staff.stations) }
{
    let mut stations = build(alloc, &setup.world, setup.loads.as_slice())?;
    let count = workers.min(setup.world.platform.tiles);
    let mut crew = hire_all(alloc, manager, count)?;
    deal(&mut crew, &mut stations)?;
    Ok(Staff { crew, stations })
}

/// Gathers so many stations from the workers, in the order of their numbers.
pub fn gather(crew: &mut Vec<Worker>, count: usize, stations: &mut Vec<Station>)
    requires some { 0 < vec_len crew.old }
    requires empty { stations.old.items ≡ [] }
    requires room { count ≤ vec_capacity stations.old }
    ensures { stations.new.items ≡ gathered (vec_len crew.old) count 0 [] (map hand crew.old.items) }
{
    for number in 0..count {
        gather_one(crew, number % crew.len(), stations);
    }
}
