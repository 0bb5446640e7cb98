//! A small program followed alone, with cycles that were counted by hand. The plain platform serves its two
//! partition slots from cycles 72 and 200 on, and again 256 cycles later.

ghost use Rattle.std.specs.Prelude.{◌≤◌, ◌*◌};

/// A pair of parts on a line of tiles.
mod line;

use crate::{AppTrace, alone};
use bundle_model::{RawBundle, RawPart, check};
use platform_model::Platform;
use soc_base::{Items, LAST_CYCLE, Text};
use std::alloc::Global;
use std::process::Abort;
use std::test::Fail;
use trace_log::{Kind, PartEnd, TraceRow};

// A part that traces 7 and ends: its instructions take 1, 1, 4 and 1 cycles.
fn part(alloc: Global, slot: i64, entry: i64, trace: i64, kinds: &[&str]) -> Result<RawPart, Fail> {
    let image = vec![in alloc;
        0x0070_0293, // addi x5, x0, 7
        0x8000_0337, // lui x6, 0x80000
        0x0053_2023, // sw x5, 0(x6)
        0x0000_0073, // ecall
    ]?;
    let mut names = Items::new(alloc);
    for kind in kinds {
        names.push(Text::from_str(alloc, kind)?)?;
    }
    Ok(RawPart {
        tile: 0,
        slots: Items::from_vec(vec![in alloc; slot]?),
        base: 256,
        len: 512,
        image: Some(Items::from_vec(image)),
        entry,
        trace,
        kinds: names,
        ports: Items::new(alloc),
    })
}

// The trace of a part alone.
fn traced(
    alloc: Global,
    platform: &Platform,
    part: RawPart,
    start: u64,
    end: u64,
) -> Result<AppTrace, Fail>
    requires ordered { start ≤ end }
    requires bounded { end * platform.now.slot_cycles ≤ LAST_CYCLE }
{
    let raw = RawBundle {
        version: 1,
        parts: Items::from_vec(vec![in alloc; part]?),
        pairs: Items::new(alloc),
    };
    let bundle = check(alloc, &raw, platform)?;
    Ok(alone(alloc, platform, &bundle, start, end)?)
}

fn row(cycle: u64, kind: Kind, value: u32) -> TraceRow {
    TraceRow {
        cycle,
        value,
        tile: 0,
        kind,
    }
}

fn halted(cycle: u64) -> PartEnd {
    PartEnd::Halt { code: 0, cycle }
}

// Checks the trace of an application of one part.
fn check_trace<A: Abort>(rt: &A, trace: &AppTrace, rows: &[TraceRow], end: PartEnd, cut: u64) {
    assert_eq!(rt; trace.rows.as_slice(), rows);
    assert_eq!(rt; trace.parts.len(), 1);
    for part in trace.parts.as_slice() {
        assert_eq!(rt; part.tile, 0);
        assert_eq!(rt; part.end, end);
        assert_eq!(rt; part.cut, cut);
    }
}

#[test]
fn follows_a_program(rt: HostRuntime) -> Result<(), Fail> {
    let alloc = rt.alloc();
    let platform = Platform::plain(alloc)?;
    let trace = traced(alloc, &platform, part(alloc, 0, 0, 16, &["word"])?, 1, 48)?;
    check_trace(&rt, &trace, &[row(333, Kind::Word, 7)], halted(334), 0);
    let trace = traced(alloc, &platform, part(alloc, 0, 0, 16, &["word"])?, 0, 9)?;
    check_trace(&rt, &trace, &[], PartEnd::Live, 0);
    let trace = traced(alloc, &platform, part(alloc, 0, 0, 16, &["word"])?, 0, 48)?;
    check_trace(&rt, &trace, &[row(77, Kind::Word, 7)], halted(78), 0);
    Ok(())
}

#[test]
fn keeps_the_rows_that_are_named(rt: HostRuntime) -> Result<(), Fail> {
    let alloc = rt.alloc();
    let platform = Platform::plain(alloc)?;
    let rows = [
        row(72, Kind::Step, 0),
        row(73, Kind::Step, 4),
        row(77, Kind::Word, 7),
        row(77, Kind::Step, 8),
        row(78, Kind::Step, 12),
    ];
    let kinds = ["step", "word"];
    let trace = traced(alloc, &platform, part(alloc, 0, 0, 5, &kinds)?, 0, 48)?;
    check_trace(&rt, &trace, &rows, halted(78), 0);
    let trace = traced(alloc, &platform, part(alloc, 0, 0, 3, &kinds)?, 0, 48)?;
    check_trace(&rt, &trace, &rows[..3], halted(78), 2);
    let trace = traced(alloc, &platform, part(alloc, 0, 0, 5, &[])?, 0, 48)?;
    check_trace(&rt, &trace, &[], halted(78), 0);
    Ok(())
}

#[test]
fn runs_in_its_slots_from_its_entry(rt: HostRuntime) -> Result<(), Fail> {
    let alloc = rt.alloc();
    let platform = Platform::plain(alloc)?;
    let rows = [row(204, Kind::Word, 0)];
    let trace = traced(alloc, &platform, part(alloc, 1, 4, 16, &["word"])?, 16, 48)?;
    check_trace(&rt, &trace, &rows, halted(205), 0);
    let trace = traced(alloc, &platform, part(alloc, 1, 4, 16, &["word"])?, 17, 48)?;
    check_trace(&rt, &trace, &[], PartEnd::Live, 0);
    Ok(())
}
