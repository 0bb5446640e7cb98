//! Comparing what tiles logged: with expected rows, with the tiles of another run, and with each application
//! alone.

ghost use Rattle.std.specs.Prelude.{◌<◌};
ghost use Rattle.vep_manager.specs.Setup.{IsSound};

use alone_model::{AppTrace, PartTrace, alone};
use bundle_model::Grant;
use event_core::{Core, Event};
use live_run::live;
use serial_run::{RunEnd, serial_all};
use soc_base::Label;
use std::alloc::Global;
use std::process::Abort;
use std::sync::Wait;
use std::test::Fail;
use std::thread::Threads;
use tile_core::Tile;
use tile_workers::Free;
use trace_log::{Kind, PartEnd, PartLog, TraceRow};
use vep_manager::{Setup, reply_grant};

/// The name of a session's load.
pub fn label(session: u8, load: u16) -> Label {
    Label { session, load }
}

/// A row of a trace.
pub fn row(cycle: u64, tile: u8, kind: Kind, value: u32) -> TraceRow {
    TraceRow {
        cycle,
        value,
        tile,
        kind,
    }
}

/// A part that ended by ECALL with 0.
pub fn halt(cycle: u64) -> PartEnd {
    PartEnd::Halt { code: 0, cycle }
}

/// Checks the log of a load's part on a tile, of which no row was cut.
pub fn check_log<A: Abort>(rt: &A, tile: &Tile, load: Label, rows: &[TraceRow], end: PartEnd) {
    let Some(log) = tile.log(load) else {
        panic!(rt; "no log of {load:?}");
    };
    assert_eq!(rt; log.rows(), rows, "of {load:?}");
    assert_eq!(rt; log.end(), end, "of {load:?}");
    assert_eq!(rt; log.cut(), 0, "of {load:?}");
}

/// Checks that two logs are the same.
pub fn check_same<A: Abort>(rt: &A, one: Option<&PartLog>, other: Option<&PartLog>) {
    match (one, other) {
        (Some(one), Some(other)) => {
            assert_eq!(rt; one.rows(), other.rows());
            assert_eq!(rt; one.end(), other.end());
            assert_eq!(rt; one.cut(), other.cut());
        }
        (None, None) => {}
        _ => panic!(rt; "a log on one of two tiles"),
    }
}

/// Checks that two tiles are at the end of a run, and have the same log of each of its loads.
pub fn check_tiles<A: Abort>(rt: &A, setup: &Setup, one: &Tile, other: &Tile) {
    assert_eq!(rt; one.at(), setup.budget);
    assert_eq!(rt; other.at(), setup.budget);
    for load in setup.loads.as_slice() {
        check_same(rt, one.log(load.label), other.log(load.label));
    }
}

/// Checks that the tiles of a core are at the end of its run, with the logs that the run on one thread has.
pub fn check_core<A: Abort>(rt: &A, setup: &Setup, core: &Core<'_>, end: &RunEnd) {
    for number in 0..setup.world.platform.tiles {
        assert!(rt; core.exists(Event::Slot(number)));
        check_tiles(rt, setup, core.tile(number), tile_of(rt, end, number));
    }
}

// Checks a part's log against what the trace of its application alone says of it.
fn check_part<A: Abort>(
    rt: &A,
    alloc: Global,
    trace: &AppTrace,
    part: &PartTrace,
    log: &PartLog,
) -> Result<(), Fail> {
    let mut rows = Vec::new(alloc);
    for row in trace.rows.as_slice() {
        if row.tile == part.tile {
            rows.push(*row)?;
        }
    }
    assert_eq!(rt; log.rows(), rows.as_slice());
    assert_eq!(rt; log.end(), part.end);
    assert_eq!(rt; log.cut(), part.cut);
    Ok(())
}

// Checks the logs of a grant's parts against the trace of its application alone.
fn check_trace<A: Abort>(
    rt: &A,
    alloc: Global,
    trace: &AppTrace,
    end: &RunEnd,
    load: Label,
) -> Result<(), Fail> {
    for part in trace.parts.as_slice() {
        let Some(log) = tile_of(rt, end, part.tile).log(load) else {
            panic!(rt; "no log of {load:?}");
        };
        check_part(rt, alloc, trace, part, log)?;
    }
    Ok(())
}

// The trace of a grant's application alone, up to its end or that of the run.
fn alone_trace<A: Abort>(
    rt: &A,
    alloc: Global,
    setup: &Setup,
    grant: &Grant,
) -> Result<AppTrace, Fail>
    requires { IsSound setup.now }
{
    let Some(bundle) = setup.world.bundle(grant.bundle) else {
        panic!(rt; "no bundle");
    };
    let end = match grant.end {
        Some(end) => end.min(setup.budget),
        None => setup.budget,
    };
    assert!(rt; grant.start <= end);
    let trace = alone(alloc, &setup.world.platform, bundle, grant.start, end)?;
    Ok(trace)
}

// Checks that each granted load has the logs of its application alone, and answers how many there are.
fn check_alone<A: Abort>(rt: &A, alloc: Global, setup: &Setup, end: &RunEnd) -> Result<u64, Fail>
    requires { IsSound setup.now }
{
    let history = end.history.as_slice();
    let mut count = 0u64;
    for entry in history {
        if let Some(grant) = reply_grant(setup, history, entry.reply) {
            let trace = alone_trace(rt, alloc, setup, &grant)?;
            check_trace(rt, alloc, &trace, end, grant.label)?;
            count = count.saturating_add(1);
        }
    }
    Ok(count)
}

/// Runs a setup on one thread, and checks that so many loads are granted, each with the logs of its
/// application alone.
pub fn checked_run<A: Abort>(
    rt: &A,
    alloc: Global,
    setup: &Setup,
    granted: u64,
) -> Result<RunEnd, Fail>
    requires { IsSound setup.now }
{
    let end = serial_all(alloc, setup)?;
    assert_eq!(rt; check_alone(rt, alloc, setup, &end)?, granted);
    Ok(end)
}

/// Runs a setup by threads, so many of them for the tiles, checks that each granted load has the logs of its
/// application alone, and answers how many there are.
pub fn checked_live<R: Abort + Threads + Wait + Sync>(
    rt: &R,
    alloc: Global,
    setup: &Setup,
    workers: u8,
) -> Result<u64, Fail>
    requires sound { IsSound setup.now }
    requires threads { 0 < workers }
{
    let end = live(rt, alloc, setup, workers, &Free)?;
    check_alone(rt, alloc, setup, &end)
}

/// A tile at the end of a run.
pub fn tile_of<'e, A: Abort>(rt: &A, end: &'e RunEnd, tile: u8) -> &'e Tile {
    let Some(station) = end.stations.get(usize::from(tile)) else {
        panic!(rt; "no tile {tile}");
    };
    &station.tile
}
