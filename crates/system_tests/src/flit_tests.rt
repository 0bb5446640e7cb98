//! Places that are granted again while a word is on its way: it reaches nobody, and who comes after has the
//! logs that it has without it.

ghost use Rattle.std.specs.Prelude.{IfOk};
ghost use Rattle.vep_manager.specs.Setup.{IsSound};

use crate::checks::{check_log, check_tiles, checked_run, halt, label, row, tile_of};
use crate::setups::setup_of;
use crate::texts::{PairText, PartText, THREE, joined, small};
use serial_run::RunEnd;
use soc_base::Label;
use std::alloc::Global;
use std::process::Abort;
use std::test::Fail;
use trace_log::{Kind, PartEnd, TraceRow};
use vep_manager::Setup;

// One word from tile 0 over tile 1 to tile 2, by injection slot 2. All that it holds is the same whatever the
// sender's image.
fn crossing(alloc: Global, image: &str) -> Result<String, Fail> {
    let sender = PartText {
        tile: 0,
        slots: "0",
        base: 0,
        kinds: "\"send\"",
        ports: "0",
        image,
    };
    let receiver = PartText {
        tile: 2,
        kinds: "\"recv\"",
        image: "370300808322431073000000",
        ..sender
    };
    let channels = PairText {
        a: (0, 0),
        b: (2, 0),
        there: ("0, 1", "2"),
        back: ("2, 3", "6"),
    };
    Ok(joined(alloc, sender, receiver, channels)?)
}

// Three tiles over 64 slots: sessions with these scripts load `p.toml`, which sends 80000000, and `q.toml`,
// which sends 7.
fn again<A: Abort>(rt: &A, alloc: Global, scripts: &[&str]) -> Result<Setup, Fail>
    ensures { IfOk result IsSound }
{
    let platform = small(alloc, 3, THREE)?;
    let first = crossing(alloc, "370300802320631073000000")?;
    let second = crossing(alloc, "93027000370300802320531073000000")?;
    let files = [("p.toml", first.as_str()), ("q.toml", second.as_str())];
    setup_of(rt, alloc, platform.as_str(), &files, scripts, 512)
}

// Checks the logs of a load on tiles 0 and 2: what was sent and what was received, and how the parts ended.
fn check_ends<A: Abort>(
    rt: &A,
    end: &RunEnd,
    load: Label,
    sent: (TraceRow, PartEnd),
    received: (&[TraceRow], PartEnd),
) {
    check_log(rt, tile_of(rt, end, 0), load, &[sent.0], sent.1);
    check_log(rt, tile_of(rt, end, 2), load, received.0, received.1);
}

// Checks that all tiles have the same logs of the load of both runs.
fn check_ends_alike<A: Abort>(rt: &A, setup: &Setup, one: &RunEnd, other: &RunEnd) {
    for number in 0..3 {
        check_tiles(
            rt,
            setup,
            tile_of(rt, one, number),
            tile_of(rt, other, number),
        );
    }
}

#[test]
fn words_on_their_way_at_a_stop(rt: HostRuntime) -> Result<(), Fail> {
    let alloc = rt.alloc();
    let received = [row(104, 2, Kind::Recv, 0x8000_0000)];
    // The first application stores its word in slot 9, and injects it in slot 10: it is on link 0 in slot
    // 11 and on link 1 in slot 12, and is received in cycle 104, the first of slot 13. Cases: the slot of the
    // stop, the flits with words of both applications on links 0 and 1, and what the first one received.
    let cases: [(u8, (u64, u64), &[TraceRow], PartEnd); 5] = [
        (10, (1, 1), &[], PartEnd::Live),
        (11, (2, 1), &[], PartEnd::Live),
        (12, (2, 2), &[], PartEnd::Live),
        (13, (2, 2), &[], PartEnd::Live),
        (14, (2, 2), &received, halt(105)),
    ];
    for (slot, flits, rows, ended) in cases {
        let stop = u64::from(slot) * 8;
        let load = stop + 8;
        let script = format!(in alloc; "load p.toml at 0\nstop 1 at {stop}\n")?;
        let later = format!(in alloc; "until 0\nload q.toml at {load}\n")?;
        let scripts = [script.as_str(), later.as_str()];
        let setup = again(&rt, alloc, &scripts)?;
        let end = checked_run(&rt, alloc, &setup, 2)?;
        let carried = (
            tile_of(&rt, &end, 0).carried(0),
            tile_of(&rt, &end, 1).carried(0),
        );
        assert_eq!(rt; carried, flits, "of a stop in slot {slot}");
        let sent = (row(76, 0, Kind::Send, 0x8000_0000), halt(77));
        check_ends(&rt, &end, label(1, 1), sent, (rows, ended));
        // The second one runs in the instance from cycle 256 on. It injects in slot 42.
        let sent = (row(333, 0, Kind::Send, 7), halt(334));
        let came = [row(360, 2, Kind::Recv, 7)];
        check_ends(&rt, &end, label(2, 1), sent, (&came, halt(361)));
        let without = again(&rt, alloc, &["", later.as_str()])?;
        let other = checked_run(&rt, alloc, &without, 1)?;
        check_ends_alike(&rt, &without, &end, &other);
    }
    Ok(())
}
