//! Three sessions followed by hand.

ghost use Rattle.std.specs.Prelude.{◌≡◌, List, [], ◌∷◌, codes, Result, Ok, IfOk};
ghost use Rattle.bundle_model.specs.declared.bundle.Bundle.{Bundle};
ghost use Rattle.bundle_model.specs.declared.rules.BRule.{BRule};
ghost use Rattle.bundle_model.specs.World.{IsSoundCatalog};
ghost use Rattle.bundle_model.specs.WellFormed.{IsWellFormed};
ghost use Rattle.script_file.specs.declared.command.Command.{Command};
ghost use Rattle.vep_manager.specs.Setup.{IsSound};
ghost use Rattle.serial_run.specs.Run.{CanFinish};
ghost use Rattle.serial_run.specs.inner.Sample.{sample_file, sample_scripts};

use crate::serial::commit_all;
use crate::{RunEnd, finish, serial_all};
use bundle_model::{Bundle, LoadName, Named, RawBundle, RawPart, Resource, Schedule, World, check};
use platform_model::{Platform, RawLink, RawPlatform};
use script_file::{Command, Script};
use soc_base::{Items, Label, Text};
use std::alloc::Global;
use std::process::Abort;
use std::test::Fail;
use tile_core::{Station, build};
use trace_log::{Kind, PartEnd, TraceRow};
use vep_manager::{Entry, Manager, Reply, Setup};

// A bundle of one part in partition slot 0 that traces 7 and ends: its instructions take 1, 1, 4 and
// 1 cycles. On the plain platform the slot is served from cycle 72 on, and again 256 cycles later.
fn bundle(alloc: Global, platform: &Platform) -> Result<Bundle, Fail>
    ensures { IfOk result (IsWellFormed platform.now) }
{
    let image = vec![in alloc;
        0x0070_0293, // addi x5, x0, 7
        0x8000_0337, // lui x6, 0x80000
        0x0053_2023, // sw x5, 0(x6)
        0x0000_0073, // ecall
    ]?;
    let part = RawPart {
        tile: 0,
        slots: Items::from_vec(vec![in alloc; 0]?),
        base: 0,
        len: 64,
        image: Some(Items::from_vec(image)),
        entry: 0,
        trace: 16,
        kinds: Items::from_vec(vec![in alloc; Text::from_str(alloc, "word")?]?),
        ports: Items::new(alloc),
    };
    let raw = RawBundle {
        version: 1,
        parts: Items::from_vec(vec![in alloc; part]?),
        pairs: Items::new(alloc),
    };
    Ok(check(alloc, &raw, platform)?)
}

// A platform and one bundle file.
fn world(alloc: Global, platform: Platform) -> Result<World, Fail>
    ensures sound { IfOk result IsSoundCatalog }
    ensures one { IfOk result (λ world. (judged : Result Bundle BRule) × (world.catalog ≡ sample_file judged ∷ [])) }
{
    let named = Named {
        name: Text::from_str(alloc, "app")?,
        judged: Ok(bundle(alloc, &platform)?),
    };
    Ok(World {
        platform,
        catalog: Items::from_vec(vec![in alloc; named]?),
    })
}

fn load(alloc: Global, cycle: u64) -> Result<Command, Fail>
    ensures { IfOk result (λ command. command ≡ Command.Load (codes "app") cycle) }
{
    let name = Text::from_str(alloc, "app")?;
    Ok(Command::Load { name, cycle })
}

fn script(commands: Vec<Command>) -> Script
    ensures { result.commands ≡ commands.items }
{
    Script {
        commands: Items::from_vec(commands),
    }
}

// One session loads and has no more to say, one has nothing to stop, and one wants what is taken.
fn scripts(alloc: Global) -> Result<Items<Script>, Fail>
    ensures { IfOk result (λ scripts. scripts ≡ sample_scripts) }
{
    let first = script(vec![in alloc; load(alloc, 0)?]?);
    let stop = Command::Stop { load: 1, cycle: 0 };
    let second = script(vec![in alloc;
        Command::Until { cycle: 16 },
        stop,
        Command::Until { cycle: 24 },
    ]?);
    let third = script(vec![in alloc; load(alloc, 8)?, Command::Until { cycle: 80 }]?);
    Ok(Items::from_vec(vec![in alloc; first, second, third]?))
}

const FIRST: Label = Label {
    session: 1,
    load: 1,
};

const THIRD: Label = Label {
    session: 3,
    load: 1,
};

// The sessions over 42 slots, which are 336 cycles.
fn setup(alloc: Global, platform: Platform) -> Result<Setup, Fail>
    ensures { IfOk result IsSound }
{
    let world = world(alloc, platform)?;
    let scripts = scripts(alloc)?;
    let first = LoadName {
        label: FIRST,
        bundle: 0,
    };
    let third = LoadName {
        label: THIRD,
        bundle: 0,
    };
    let loads = Items::from_vec(vec![in alloc; first, third]?);
    Ok(Setup {
        world,
        budget: 42,
        scripts,
        loads,
    })
}

fn entry(session: u8, index: u16, reply: Reply) -> Entry {
    Entry {
        session,
        index,
        reply,
    }
}

// Checks the log of a load's part on tile 0, which is at the end of the run.
fn check_log<A: Abort>(rt: &A, end: &RunEnd, label: Label, rows: &[TraceRow], ended: PartEnd) {
    let Some(station) = end.stations.get(0) else {
        panic!(rt; "no tile");
    };
    assert_eq!(rt; station.tile.at(), 42);
    let Some(log) = station.tile.log(label) else {
        panic!(rt; "no log");
    };
    assert_eq!(rt; log.rows(), rows);
    assert_eq!(rt; log.end(), ended);
    assert_eq!(rt; log.cut(), 0);
}

#[test]
fn commits_in_rounds_and_then_runs(rt: HostRuntime) -> Result<(), Fail> {
    let alloc = rt.alloc();
    let setup = setup(alloc, Platform::plain(alloc)?)?;
    let end = serial_all(alloc, &setup)?;
    let taken = Reply::Taken {
        resource: Resource::Partition { tile: 0, slot: 0 },
        owner: FIRST,
        free_from: None,
    };
    let granted = Reply::Granted {
        label: FIRST,
        start: 0,
    };
    let history = [
        entry(1, 1, granted),
        // The third session has promised nothing yet.
        entry(2, 1, Reply::Horizon(0)),
        entry(3, 1, taken),
        entry(2, 2, Reply::NoLoad),
        // The third session's last command: the second has promised slot 2.
        entry(3, 2, Reply::Horizon(2)),
        entry(2, 3, Reply::Horizon(42)),
    ];
    assert_eq!(rt; end.history.as_slice(), history.as_slice());
    let row = TraceRow {
        cycle: 77,
        value: 7,
        tile: 0,
        kind: Kind::Word,
    };
    check_log(
        &rt,
        &end,
        FIRST,
        &[row],
        PartEnd::Halt { code: 0, cycle: 78 },
    );
    check_log(&rt, &end, THIRD, &[], PartEnd::Live);
    Ok(())
}

fn link(from: i64, out: i64, to: i64, input: i64) -> RawLink {
    RawLink {
        from,
        out,
        to,
        input,
    }
}

// The plain platform with three tiles: two are joined both ways, and the third is fed by both.
fn joined(alloc: Global) -> Result<Platform, Fail> {
    let links = vec![in alloc;
        link(0, 3, 1, 5),
        link(1, 0, 0, 6),
        link(1, 2, 2, 0),
        link(0, 1, 2, 4),
    ]?;
    let raw = RawPlatform {
        tiles: 3,
        links: Items::from_vec(links),
        ..RawPlatform::plain(alloc)
    };
    Ok(Platform::check(alloc, &raw)?)
}

// Tries a slot of a tile, if there is one of this number.
fn try_tile(stations: &mut [Station], world: &World, schedule: &Schedule, tile: usize)
    requires { CanFinish world.now schedule.now schedule.now.horizon stations.old }
    ensures { CanFinish world.now schedule.now schedule.now.horizon stations.new }
{
    if tile < stations.len() {
        let station = &mut stations[tile];
        station.try_slot(world, schedule);
    }
}

// The same of several tiles, one after the other.
fn try_tiles(stations: &mut [Station], world: &World, schedule: &Schedule, tiles: &[usize])
    requires { CanFinish world.now schedule.now schedule.now.horizon stations.old }
    ensures { CanFinish world.now schedule.now schedule.now.horizon stations.new }
{
    for tile in tiles {
        try_tile(stations, world, schedule, *tile);
    }
}

// The slots of three tiles.
fn slots(stations: &[Station]) -> [u64; 3] {
    let mut slots = [0; 3];
    for (slot, station) in slots.iter_mut().zip(stations.iter()) {
        *slot = station.tile.at();
    }
    slots
}

// Tries slots of tiles after the commands of a setup, checks where the tiles then are, and finishes.
fn finish_after<A: Abort>(
    rt: &A,
    alloc: Global,
    setup: &Setup,
    tiles: &[usize],
    then: [u64; 3],
) -> Result<RunEnd, Fail>
    requires { IsSound setup.now }
{
    let mut manager = Manager::new(alloc, setup)?;
    let mut schedule = Schedule::new(alloc, setup.loads.len() as u16)?;
    let mut stations = build(alloc, &setup.world, setup.loads.as_slice())?;
    commit_all(&mut manager, setup.scripts.len() as u8);
    manager.copy_since(&mut schedule);
    let all = stations.as_mut_slice();
    try_tiles(all, &setup.world, &schedule, tiles);
    assert_eq!(rt; slots(all), then);
    finish(all, &setup.world, &schedule, schedule.horizon);
    Ok(RunEnd {
        history: Items::from_vec(manager.into_history()),
        stations: Items::from_vec(stations),
    })
}

#[test]
fn finishes_from_different_slots(rt: HostRuntime) -> Result<(), Fail> {
    let alloc = rt.alloc();
    let setup = setup(alloc, joined(alloc)?)?;
    let whole = serial_all(alloc, &setup)?;
    // Tile 0 does slot 0 and lacks a flit of tile 1, which then does slots 0 and 1; tile 2 waits for tile 0.
    let end = finish_after(&rt, alloc, &setup, &[0, 0, 1, 1, 2, 2, 2], [1, 2, 2])?;
    for end in [&whole, &end] {
        assert_eq!(rt; slots(end.stations.as_slice()), [42, 42, 42]);
        let row = TraceRow {
            cycle: 77,
            value: 7,
            tile: 0,
            kind: Kind::Word,
        };
        let halt = PartEnd::Halt { code: 0, cycle: 78 };
        check_log(&rt, end, FIRST, &[row], halt);
    }
    Ok(())
}
