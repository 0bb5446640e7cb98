//! Runs whose workers are held up or watched.

ghost use Rattle.std.specs.Prelude.{◌<◌};

use super::fixture::{Ask, Tiles, setup};
use super::gates::{Lasts, Mutual, Slow};
use super::runs::check_end;
use crate::live;
use serial_run::RunEnd;
use soc_base::Label;
use std::process::Abort;
use std::test::Fail;
use tile_workers::Free;
use trace_log::{Kind, PartEnd, TraceRow};
use vep_manager::{Entry, Reply};

const LOAD: Label = Label {
    session: 1,
    load: 1,
};

// Checks the log of the only load, whose part is on tile 0: from cycle `served` on it runs, traces 7 in its
// sixth cycle and ends in the seventh.
fn check_log<A: Abort>(rt: &A, end: &RunEnd, served: u64)
    requires { served < 1048576 }
{
    let Some(station) = end.stations.get(0) else {
        panic!(rt; "no tile");
    };
    let Some(log) = station.tile.log(LOAD) else {
        panic!(rt; "no log");
    };
    let row = TraceRow {
        cycle: served + 5,
        value: 7,
        tile: 0,
        kind: Kind::Word,
    };
    let ended = PartEnd::Halt {
        code: 0,
        cycle: served + 6,
    };
    assert_eq!(rt; log.rows(), [row].as_slice());
    assert_eq!(rt; log.end(), ended);
    assert_eq!(rt; log.cut(), 0);
}

#[test]
fn a_tile_and_a_session_wait_for_each_other(rt: HostRuntime) -> Result<(), Fail> {
    let alloc = rt.alloc();
    let table: [&[Ask]; 1] = [&[Ask::Until(1024), Ask::Load(1024)]];
    let setup = setup(alloc, Tiles::One, &table, 256)?;
    let gate = Mutual::new();
    let end = live(&rt, alloc, &setup, 2, &gate)?;
    assert!(rt; !gate.gave_up());
    assert!(rt; gate.saw_command());
    assert!(rt; gate.saw_slot_4());
    assert!(rt; !gate.out_of_order());
    check_end(&rt, alloc, &setup, &end)?;
    let promised = Entry {
        session: 1,
        index: 1,
        reply: Reply::Horizon(128),
    };
    let granted = Entry {
        session: 1,
        index: 2,
        reply: Reply::Granted {
            label: LOAD,
            start: 128,
        },
    };
    assert_eq!(rt; end.history.as_slice(), [promised, granted].as_slice());
    // Cycle 1024 is the first of a round of all partition slots, which takes 256 cycles.
    check_log(&rt, &end, 1024 + 72);
    Ok(())
}

#[test]
fn both_workers_come_to_the_last_slot(rt: HostRuntime) -> Result<(), Fail> {
    let alloc = rt.alloc();
    let table: [&[Ask]; 1] = [&[]];
    let setup = setup(alloc, Tiles::Joined, &table, 256)?;
    let gate = Lasts::new(255);
    let end = live(&rt, alloc, &setup, 2, &gate)?;
    assert!(rt; gate.saw_both());
    check_end(&rt, alloc, &setup, &end)?;
    assert_eq!(rt; end.history.len(), 0);
    Ok(())
}

#[test]
fn workers_that_are_held_leave_the_same_logs(rt: HostRuntime) -> Result<(), Fail> {
    let alloc = rt.alloc();
    let table: [&[Ask]; 1] = [&[Ask::Load(0)]];
    let setup = setup(alloc, Tiles::Joined, &table, 42)?;
    for workers in 1..=2 {
        let end = live(&rt, alloc, &setup, workers, &Free)?;
        check_end(&rt, alloc, &setup, &end)?;
        check_log(&rt, &end, 72);
        let end = live(&rt, alloc, &setup, workers, &Slow { turns: 100_000 })?;
        check_end(&rt, alloc, &setup, &end)?;
        check_log(&rt, &end, 72);
    }
    Ok(())
}

// One session keeps the horizon low until its last command; a tile for each worker goes on between.
#[test]
fn thirty_two_workers_on_as_many_tiles(rt: HostRuntime) -> Result<(), Fail> {
    let alloc = rt.alloc();
    let table: [&[Ask]; 2] = [
        &[Ask::Load(0)],
        &[Ask::Until(8), Ask::Until(80), Ask::Until(160)],
    ];
    let setup = setup(alloc, Tiles::Ring, &table, 42)?;
    for workers in [1u8, 32] {
        let end = live(&rt, alloc, &setup, workers, &Free)?;
        check_end(&rt, alloc, &setup, &end)?;
        check_log(&rt, &end, 72);
    }
    Ok(())
}
