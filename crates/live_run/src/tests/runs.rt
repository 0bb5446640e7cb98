//! Runs by threads. What is checked is what every legal history allows.

ghost use Rattle.vep_manager.specs.Setup.{IsSound};

use super::counting::{Counting, number};
use super::fixture::{Ask, Tiles, setup};
use super::holding::Holding;
use crate::live;
use serial_run::RunEnd;
use std::alloc::Global;
use std::process::Abort;
use std::test::Fail;
use tile_workers::Free;
use vep_manager::{Entry, Manager, Reply, Setup};

// Commits a session's next command. None also where there is no such session.
fn commit(manager: &mut Manager<'_>, session: u8) -> Option<Entry> {
    if session == 0 || usize::from(session) > manager.setup().scripts.len() {
        return None;
    }
    manager.commit(session)
}

// Commits in the order of a history, and checks that each entry is the same.
fn check_entries<A: Abort>(rt: &A, manager: &mut Manager<'_>, history: &[Entry]) {
    for entry in history {
        assert_eq!(rt; commit(manager, entry.session), Some(*entry));
    }
}

// Checks that nothing is left to commit.
fn check_used_up<A: Abort>(rt: &A, manager: &mut Manager<'_>) {
    for session in 1..=16 {
        assert_eq!(rt; commit(manager, session), None);
    }
}

// Checks that each tile has come to the end of the run.
fn check_stations<A: Abort>(rt: &A, setup: &Setup, end: &RunEnd) {
    for station in end.stations.as_slice() {
        assert_eq!(rt; station.tile.at(), setup.budget);
    }
}

/// Checks a run: a manager on one thread that commits in the order of its history makes the same history,
/// and then has nothing left; and all tiles have come to the end.
pub fn check_end<A: Abort>(rt: &A, alloc: Global, setup: &Setup, end: &RunEnd) -> Result<(), Fail>
    requires { IsSound setup.now }
{
    let mut manager = Manager::new(alloc, setup)?;
    check_entries(rt, &mut manager, end.history.as_slice());
    check_used_up(rt, &mut manager);
    assert_eq!(rt; end.stations.len(), usize::from(setup.world.platform.tiles));
    check_stations(rt, setup, end);
    Ok(())
}

// How many loads are granted.
fn granted(history: &[Entry]) -> usize {
    history
        .iter()
        .filter(|entry| matches!(entry.reply, Reply::Granted { .. }))
        .count()
}

// The place of a session's command in a history, if it stands there.
fn place(history: &[Entry], session: u8, index: u16) -> Option<usize> {
    history
        .iter()
        .position(|entry| entry.session == session && entry.index == index)
}

// How many commands a history has, and the sum of their numbers: what a gate counts to which each came once.
fn counted(history: &[Entry]) -> (u64, u64) {
    let mut sum = 0u64;
    for entry in history {
        sum = sum.wrapping_add(number(entry.session, entry.index));
    }
    (history.len() as u64, sum)
}

// The counts of workers that runs are tried with: of one tile there is one all the same.
const WORKERS: [u8; 3] = [1, 2, 255];

#[test]
fn commits_every_command_once(rt: HostRuntime) -> Result<(), Fail> {
    let alloc = rt.alloc();
    let table: [&[Ask]; 3] = [
        &[Ask::Load(0)],
        &[Ask::Until(16), Ask::Stop(0), Ask::Until(24)],
        &[Ask::Load(8), Ask::Until(80), Ask::Stop(160)],
    ];
    let setup = setup(alloc, Tiles::Joined, &table, 42)?;
    for workers in WORKERS {
        let gate = Counting::new();
        let end = live(&rt, alloc, &setup, workers, &gate)?;
        check_end(&rt, alloc, &setup, &end)?;
        assert_eq!(rt; end.history.len(), 7);
        assert_eq!(rt; gate.counted(), counted(end.history.as_slice()));
        // Whichever load comes first holds the partition slot; the other one is refused, or comes after the
        // stop.
        assert!(rt; granted(end.history.as_slice()) >= 1);
    }
    Ok(())
}

#[test]
fn a_session_that_is_held_comes_after_another(rt: HostRuntime) -> Result<(), Fail> {
    let alloc = rt.alloc();
    let table: [&[Ask]; 3] = [
        &[Ask::Until(8), Ask::Until(16)],
        &[Ask::Until(8)],
        &[Ask::Until(8), Ask::Until(24), Ask::Until(32)],
    ];
    let setup = setup(alloc, Tiles::One, &table, 42)?;
    let gate = Holding::new(1, 3, 3);
    let end = live(&rt, alloc, &setup, 1, &gate)?;
    check_end(&rt, alloc, &setup, &end)?;
    let history = end.history.as_slice();
    let other = place(history, 3, 3);
    let held = place(history, 1, 2);
    assert!(rt; !gate.gave_up());
    assert!(rt; other < held);
    Ok(())
}

#[test]
fn sixteen_sessions_make_one_history(rt: HostRuntime) -> Result<(), Fail> {
    let alloc = rt.alloc();
    let row = [Ask::Until(8); 16];
    let table = [row.as_slice(); 16];
    let setup = setup(alloc, Tiles::One, &table, 42)?;
    for workers in WORKERS {
        let end = live(&rt, alloc, &setup, workers, &Free)?;
        check_end(&rt, alloc, &setup, &end)?;
        assert_eq!(rt; end.history.len(), 256);
    }
    Ok(())
}

#[test]
fn an_empty_script_stands_beside_a_long_one(rt: HostRuntime) -> Result<(), Fail> {
    let alloc = rt.alloc();
    let row = [Ask::Until(8); 16];
    let table: [&[Ask]; 2] = [&[], &row];
    let setup = setup(alloc, Tiles::One, &table, 42)?;
    let end = live(&rt, alloc, &setup, 2, &Free)?;
    check_end(&rt, alloc, &setup, &end)?;
    assert_eq!(rt; end.history.len(), 16);
    Ok(())
}
