//! Cores followed by hand.

ghost use Rattle.std.specs.Prelude.{◌≡◌, [], ◌∷◌, codes, Result, IfOk};
ghost use Rattle.bundle_model.specs.declared.bundle.Bundle.{Bundle};
ghost use Rattle.bundle_model.specs.declared.rules.BRule.{BRule};
ghost use Rattle.bundle_model.specs.World.{IsSoundCatalog};
ghost use Rattle.bundle_model.specs.WellFormed.{IsWellFormed};
ghost use Rattle.vep_manager.specs.Setup.{IsSound};
ghost use Rattle.event_core.specs.inner.Sample.{sample_file, sample_scripts, silent_scripts};

use crate::{Core, Event, Step, Why};
use bundle_model::{Bundle, LoadName, Named, RawBundle, RawPart, World, check};
use platform_model::{Platform, RawLink, RawPlatform};
use script_file::{Command, Script};
use soc_base::{Items, Label, Text};
use std::alloc::Global;
use std::process::Abort;
use std::test::Fail;
use vep_manager::Setup;

// A bundle of one part in partition slot 0 that traces 7 and ends.
fn bundle(alloc: Global, platform: &Platform) -> Result<Bundle, Fail>
    ensures { IfOk result (IsWellFormed platform.now) }
{
    let image = vec![in alloc;
        0x0070_0293, // addi x5, x0, 7
        0x8000_0337, // lui x6, 0x80000
        0x0053_2023, // sw x5, 0(x6)
        0x0000_0073, // ecall
    ]?;
    let part = RawPart {
        tile: 0,
        slots: Items::from_vec(vec![in alloc; 0]?),
        base: 0,
        len: 64,
        image: Some(Items::from_vec(image)),
        entry: 0,
        trace: 16,
        kinds: Items::from_vec(vec![in alloc; Text::from_str(alloc, "word")?]?),
        ports: Items::new(alloc),
    };
    let raw = RawBundle {
        version: 1,
        parts: Items::from_vec(vec![in alloc; part]?),
        pairs: Items::new(alloc),
    };
    Ok(check(alloc, &raw, platform)?)
}

// The plain platform and one bundle file.
fn world(alloc: Global) -> Result<World, Fail>
    ensures sound { IfOk result IsSoundCatalog }
    ensures one { IfOk result (λ world. (judged : Result Bundle BRule) × (world.catalog ≡ sample_file judged ∷ [])) }
{
    let platform = Platform::plain(alloc)?;
    let named = Named {
        name: Text::from_str(alloc, "app")?,
        judged: Ok(bundle(alloc, &platform)?),
    };
    Ok(World {
        platform,
        catalog: Items::from_vec(vec![in alloc; named]?),
    })
}

// One session that loads from cycle 0 on.
fn scripts(alloc: Global) -> Result<Items<Script>, Fail>
    ensures { IfOk result (λ scripts. scripts ≡ sample_scripts) }
{
    let name = Text::from_str(alloc, "app")?;
    let commands = vec![in alloc; Command::Load { name, cycle: 0 }]?;
    let script = Script {
        commands: Items::from_vec(commands),
    };
    Ok(Items::from_vec(vec![in alloc; script]?))
}

// One tile and that session over 48 slots, which are 384 cycles.
fn one_tile(alloc: Global) -> Result<Setup, Fail>
    ensures { IfOk result IsSound }
{
    let world = world(alloc)?;
    let scripts = scripts(alloc)?;
    let load = LoadName {
        label: Label {
            session: 1,
            load: 1,
        },
        bundle: 0,
    };
    let loads = Items::from_vec(vec![in alloc; load]?);
    Ok(Setup {
        world,
        budget: 48,
        scripts,
        loads,
    })
}

// Two tiles that are joined both ways: link 0 from tile 0 to tile 1, link 1 from tile 1 to tile 0.
fn joined(alloc: Global) -> Result<Platform, Fail> {
    let there = RawLink {
        from: 0,
        out: 0,
        to: 1,
        input: 0,
    };
    let back = RawLink {
        from: 1,
        out: 0,
        to: 0,
        input: 0,
    };
    let raw = RawPlatform {
        tiles: 2,
        links: Items::from_vec(vec![in alloc; there, back]?),
        ..RawPlatform::plain(alloc)
    };
    Ok(Platform::check(alloc, &raw)?)
}

// One session that says nothing.
fn silence(alloc: Global) -> Result<Items<Script>, Fail>
    ensures { IfOk result (λ scripts. scripts ≡ silent_scripts) }
{
    let script = Script {
        commands: Items::new(alloc),
    };
    Ok(Items::from_vec(vec![in alloc; script]?))
}

// Those tiles and that session over 48 slots.
fn two_tiles(alloc: Global) -> Result<Setup, Fail>
    ensures { IfOk result IsSound }
{
    let world = World {
        platform: joined(alloc)?,
        catalog: Items::new(alloc),
    };
    let scripts = silence(alloc)?;
    Ok(Setup {
        world,
        budget: 48,
        scripts,
        loads: Items::new(alloc),
    })
}

// Does an event, and checks what it comes to.
fn check_step<A: Abort>(rt: &A, core: &mut Core<'_>, event: Event, step: Step) -> Result<(), Fail> {
    assert!(rt; core.exists(event));
    assert_eq!(rt; core.step(event)?, step);
    Ok(())
}

#[test]
fn a_slot_waits_for_the_horizon(rt: HostRuntime) -> Result<(), Fail> {
    let alloc = rt.alloc();
    let setup = one_tile(alloc)?;
    let mut core = Core::new(alloc, &setup)?;
    let fence = Step::Disabled(Why::Fence(0));
    check_step(&rt, &mut core, Event::Slot(0), fence)?;
    check_step(&rt, &mut core, Event::Command(1), Step::Done)?;
    check_step(&rt, &mut core, Event::Slot(0), Step::Done)?;
    let spent = Step::Disabled(Why::Spent);
    check_step(&rt, &mut core, Event::Command(1), spent)?;
    assert_eq!(rt; core.history().len(), 1);
    assert!(rt; core.exists(Event::Slot(0)));
    assert_eq!(rt; core.tile(0).at(), 1);
    Ok(())
}

#[test]
fn a_slot_waits_for_a_flit(rt: HostRuntime) -> Result<(), Fail> {
    let alloc = rt.alloc();
    let setup = two_tiles(alloc)?;
    let mut core = Core::new(alloc, &setup)?;
    check_step(&rt, &mut core, Event::Slot(0), Step::Done)?;
    let waits = Step::Disabled(Why::Waits(1));
    check_step(&rt, &mut core, Event::Slot(0), waits)?;
    assert_eq!(rt; core.least_ready(), Some(1));
    check_step(&rt, &mut core, Event::Slot(1), Step::Done)?;
    check_step(&rt, &mut core, Event::Slot(0), Step::Done)?;
    Ok(())
}

#[test]
fn what_does_not_exist_does_nothing(rt: HostRuntime) -> Result<(), Fail> {
    let alloc = rt.alloc();
    let setup = one_tile(alloc)?;
    let mut core = Core::new(alloc, &setup)?;
    let unknown = [Event::Command(0), Event::Command(2), Event::Slot(1)];
    assert_eq!(rt; core.run(&unknown)?, 0);
    assert_eq!(rt; core.history().len(), 0);
    let events = [
        Event::Slot(0),
        Event::Command(1),
        Event::Slot(1),
        Event::Slot(0),
    ];
    assert_eq!(rt; core.run(&events)?, 2);
    assert_eq!(rt; core.history().len(), 1);
    assert_eq!(rt; core.least_ready(), Some(0));
    Ok(())
}
