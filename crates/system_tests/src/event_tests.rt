//! Commands and slots in other orders than the program's: whatever the order, the history is legal, and the
//! logs are those of the run on one thread.

ghost use Rattle.std.specs.Prelude.{IfOk};
ghost use Rattle.vep_manager.specs.Setup.{IsSound};

use crate::checks::{check_core, check_log, checked_run, halt, label, row, tile_of};
use crate::setups::setup_of;
use crate::texts::{LATER, OVER, PIPE, SEVEN, THREE, TWO, small};
use event_core::{Core, Event, Step};
use serial_run::RunEnd;
use std::alloc::Global;
use std::process::Abort;
use std::test::Fail;
use trace_log::{Kind, PartEnd, TraceRow};
use vep_manager::Setup;

// The slot of a core's tile.
fn at<A: Abort>(rt: &A, core: &Core<'_>, tile: u8) -> u64 {
    assert!(rt; core.exists(Event::Slot(tile)));
    core.tile(tile).at()
}

#[test]
fn counts_what_links_carried(rt: HostRuntime) -> Result<(), Fail> {
    let alloc = rt.alloc();
    let platform = small(alloc, 2, TWO)?;
    let files = [("pipe.toml", PIPE)];
    let scripts = ["load pipe.toml at 0\n"];
    let setup = setup_of(&rt, alloc, platform.as_str(), &files, &scripts, 256)?;
    let end = checked_run(&rt, alloc, &setup, 1)?;
    // Two words there, and one credit back: that of the word which was received in cycle 200, slot 25. The
    // other word is received in cycle 216, slot 27, and its credit waits for slot 37.
    assert_eq!(rt; tile_of(&rt, &end, 0).carried(0), 2);
    assert_eq!(rt; tile_of(&rt, &end, 1).carried(0), 1);
    Ok(())
}

// Three tiles, an application whose word is on its way when it is stopped, and one that follows it at the
// next slot: four commands, and 64 slots.
fn stopped_under_way<A: Abort>(rt: &A, alloc: Global) -> Result<Setup, Fail>
    ensures { IfOk result IsSound }
{
    let platform = small(alloc, 3, THREE)?;
    let files = [("p.toml", OVER), ("q.toml", LATER)];
    let script = "load p.toml at 0\nstop 1 at 152\nload q.toml at 152\nload q.toml at 160\n";
    setup_of(rt, alloc, platform.as_str(), &files, &[script], 512)
}

// Checks the logs of that run.
fn check_under_way<A: Abort>(rt: &A, end: &RunEnd) {
    let sent = [row(76, 0, Kind::Send, 0x8000_0000)];
    let cases: [(u8, u16, &[TraceRow], PartEnd); 4] = [
        (0, 1, &sent, halt(77)),
        (2, 1, &[], PartEnd::Live),
        (1, 3, &[], halt(456)),
        (2, 3, &[], PartEnd::Live),
    ];
    for (tile, load, rows, ended) in cases {
        check_log(rt, tile_of(rt, end, tile), label(1, load), rows, ended);
    }
}

// So many times three events.
fn turns(alloc: Global, turn: [Event; 3], times: u8) -> Result<Vec<Event>, Fail> {
    let mut events = Vec::new(alloc);
    for _time in 0..times {
        events.push(turn[0])?;
        events.push(turn[1])?;
        events.push(turn[2])?;
    }
    Ok(events)
}

#[test]
fn tiles_ahead_of_others(rt: HostRuntime) -> Result<(), Fail> {
    let alloc = rt.alloc();
    let setup = stopped_under_way(&rt, alloc)?;
    let end = checked_run(&rt, alloc, &setup, 2)?;
    check_under_way(&rt, &end);
    let [load, a, b, c] = [
        Event::Command(1),
        Event::Slot(0),
        Event::Slot(1),
        Event::Slot(2),
    ];
    // What comes first, the slots of the tiles then, and a turn.
    let cases = [
        ([load, load, load, load, a, a, b, a], [2, 1, 0], [c, b, a]),
        ([load, load, load, load, c, c, b, c], [0, 1, 2], [a, b, c]),
        ([a, load, b, load, c, load, load, b], [0, 1, 0], [a, c, b]),
    ];
    for (begin, slots, turn) in cases {
        let mut core = Core::new(alloc, &setup)?;
        let mut count = core.run(&begin)?;
        for (tile, slot) in (0..3).zip(slots) {
            assert_eq!(rt; at(&rt, &core, tile), slot);
        }
        let rest = turns(alloc, turn, 65)?;
        count = count.saturating_add(core.run(rest.as_slice())?);
        // Each command and each slot was enabled once.
        assert_eq!(rt; count, 4 + 3 * 64);
        assert_eq!(rt; core.history(), end.history.as_slice());
        check_core(&rt, &setup, &core, &end);
    }
    Ok(())
}

// Does a slot of the first tile of least slot, so often or until no tile can go on.
fn go_on<A: Abort>(rt: &A, core: &mut Core<'_>, most: u64) -> Result<(), Fail> {
    for _slot in 0..most {
        let Some(tile) = core.least_ready() else {
            return Ok(());
        };
        let event = Event::Slot(tile);
        assert!(rt; core.exists(event));
        assert_eq!(rt; core.step(event)?, Step::Done);
    }
    Ok(())
}

// Commits commands of sessions in this order, each when no tile can go on without it, and answers the slots
// at which the two tiles wait for the last one.
fn commit_late<A: Abort>(rt: &A, core: &mut Core<'_>, order: &[u8]) -> Result<(u64, u64), Fail> {
    let mut waited = (0, 0);
    for session in order {
        go_on(rt, core, 1000)?;
        waited = (at(rt, core, 0), at(rt, core, 1));
        let event = Event::Command(*session);
        assert!(rt; core.exists(event));
        assert_eq!(rt; core.step(event)?, Step::Done);
    }
    go_on(rt, core, 1000)?;
    Ok(waited)
}

// Two tiles over 32 slots, and two sessions, of which the second has this script.
fn two_sessions<A: Abort>(rt: &A, alloc: Global, script: &str) -> Result<Setup, Fail>
    ensures { IfOk result IsSound }
{
    let platform = small(alloc, 2, TWO)?;
    let files = [("pipe.toml", PIPE), ("a2.toml", SEVEN)];
    let scripts = ["load pipe.toml at 0\n", script];
    setup_of(rt, alloc, platform.as_str(), &files, &scripts, 256)
}

#[test]
fn commands_at_the_last_moment(rt: HostRuntime) -> Result<(), Fail> {
    let alloc = rt.alloc();
    let traced = [row(205, 0, Kind::Word, 7)];
    let plain = "load a2.toml at 8\nstop 1 at 224\n";
    let until = "load a2.toml at 8\nuntil 200\nstop 1 at 224\n";
    // The second session's script, the order in which the sessions commit, and the slot at which both tiles
    // wait for the last command: a session with commands to come promises nothing, or what it said.
    let cases: [(&str, &[u8], u64); 5] = [
        (plain, &[1, 2, 2], 0),
        (plain, &[2, 2, 1], 0),
        (until, &[1, 2, 2, 2], 25),
        (until, &[2, 2, 1, 2], 25),
        (until, &[2, 2, 2, 1], 0),
    ];
    for (script, order, slot) in cases {
        let setup = two_sessions(&rt, alloc, script)?;
        let end = checked_run(&rt, alloc, &setup, 2)?;
        check_log(&rt, tile_of(&rt, &end, 0), label(2, 1), &traced, halt(206));
        let mut core = Core::new(alloc, &setup)?;
        let waited = commit_late(&rt, &mut core, order)?;
        assert_eq!(rt; waited, (slot, slot), "in order {order:?}");
        // Every command stands in the history, in the order in which they were committed.
        let mut sessions = Vec::new(alloc);
        for entry in core.history() {
            sessions.push(entry.session)?;
        }
        assert_eq!(rt; sessions.as_slice(), order);
        check_core(&rt, &setup, &core, &end);
    }
    Ok(())
}
