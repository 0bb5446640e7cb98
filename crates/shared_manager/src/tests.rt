//! Two passes by turns.

ghost use Rattle.std.specs.Prelude.{◌≡◌, ◌≤◌, List, [], ◌∷◌, codes, length, vec_capacity, Result, IfOk};
ghost use Rattle.bundle_model.specs.declared.bundle.Bundle.{Bundle};
ghost use Rattle.bundle_model.specs.declared.rules.BRule.{BRule};
ghost use Rattle.bundle_model.specs.World.{IsSoundCatalog};
ghost use Rattle.bundle_model.specs.WellFormed.{IsWellFormed};
ghost use Rattle.script_file.specs.declared.command.Command.{Command};
ghost use Rattle.script_file.specs.declared.command.Script.{Script};
ghost use Rattle.turn_lock.specs.Seen.{RestsAt};
ghost use Rattle.vep_manager.specs.Setup.{IsSound};

use crate::{Pass, SharedManager};
use bundle_model::{Bundle, LoadName, Named, RawBundle, RawPart, Schedule, World, check};
use platform_model::Platform;
use script_file::{Command, Script};
use soc_base::{Items, Label, Text};
use std::alloc::Global;
use std::process::Abort;
use std::sync::Wait;
use std::test::Fail;
use vep_manager::{Entry, Manager, Reply, Setup};

// A bundle of one part that ends at once.
fn bundle(alloc: Global, platform: &Platform) -> Result<Bundle, Fail>
    ensures { IfOk result (IsWellFormed platform.now) }
{
    let part = RawPart {
        tile: 0,
        slots: Items::from_vec(vec![in alloc; 0]?),
        base: 0,
        len: 64,
        image: Some(Items::from_vec(vec![in alloc; 0x0000_0073]?)),
        entry: 0,
        trace: 16,
        kinds: Items::new(alloc),
        ports: Items::new(alloc),
    };
    let raw = RawBundle {
        version: 1,
        parts: Items::from_vec(vec![in alloc; part]?),
        pairs: Items::new(alloc),
    };
    Ok(check(alloc, &raw, platform)?)
}

// The platform and one bundle file.
fn world(alloc: Global) -> Result<World, Fail>
    ensures sound { IfOk result IsSoundCatalog }
    ensures one { IfOk result (λ world. (judged : Result Bundle BRule)
        × (world.catalog ≡ record { name = codes "app"; judged = judged } ∷ [])) }
{
    let platform = Platform::plain(alloc)?;
    let named = Named {
        name: Text::from_str(alloc, "app")?,
        judged: Ok(bundle(alloc, &platform)?),
    };
    Ok(World {
        platform,
        catalog: Items::from_vec(vec![in alloc; named]?),
    })
}

fn script(commands: Vec<Command>) -> Script
    ensures { result.commands ≡ commands.items }
{
    Script {
        commands: Items::from_vec(commands),
    }
}

// One session loads, and one promises slot 2 and then has no more to say.
fn scripts(alloc: Global) -> Result<Items<Script>, Fail>
    ensures { IfOk result (λ scripts.
        scripts ≡ (record { commands = Command.Load (codes "app") 8 ∷ [] })
        ∷ (record { commands = Command.Until 16 ∷ Command.Until 24 ∷ [] }) ∷ []) }
{
    let name = Text::from_str(alloc, "app")?;
    let first = script(vec![in alloc; Command::Load { name, cycle: 8 }]?);
    let second = script(vec![in alloc;
        Command::Until { cycle: 16 },
        Command::Until { cycle: 24 },
    ]?);
    Ok(Items::from_vec(vec![in alloc; first, second]?))
}

const LOAD: Label = Label {
    session: 1,
    load: 1,
};

// The two sessions over 42 slots.
fn setup(alloc: Global) -> Result<Setup, Fail>
    ensures sound { IfOk result IsSound }
    ensures two { IfOk result (λ setup. length setup.scripts ≡ 2) }
    ensures one { IfOk result (λ setup. length setup.loads ≡ 1) }
{
    let world = world(alloc)?;
    let scripts = scripts(alloc)?;
    let load = LoadName {
        label: LOAD,
        bundle: 0,
    };
    let loads = Items::from_vec(vec![in alloc; load]?);
    Ok(Setup {
        world,
        budget: 42,
        scripts,
        loads,
    })
}

// The first session's entry.
fn granted() -> Entry {
    Entry {
        session: 1,
        index: 1,
        reply: Reply::Granted {
            label: LOAD,
            start: 1,
        },
    }
}

// The second session's first entry.
fn promised() -> Entry {
    Entry {
        session: 2,
        index: 1,
        reply: Reply::Horizon(2),
    }
}

// Commits by two passes, and has the first one refresh the schedule.
fn commit_by_two<'s, R: Abort + Wait>(
    rt: &R,
    shared: &SharedManager<'s>,
    first: &mut Pass<'s>,
    second: &mut Pass<'s>,
    schedule: &mut Schedule,
)
    requires rest { RestsAt shared.now first.old × RestsAt shared.now second.old }
    requires two { length shared.now.base.scripts ≡ 2 }
    requires room { length shared.now.base.loads ≤ vec_capacity schedule.old.grants }
    ensures rest { RestsAt shared.now first.new × RestsAt shared.now second.new }
    ensures first { first.new.share ≡ first.old.share }
    ensures second { second.new.share ≡ second.old.share }
{
    assert_eq!(rt; shared.commit(rt, first, 1), Some((0, granted())));
    assert_eq!(rt; shared.commit(rt, second, 2), Some((1, promised())));
    assert_eq!(rt; shared.commit(rt, second, 1), None);
    shared.refresh(rt, first, schedule);
}

// Checks that the schedule has the one grant, and ends where the second session promised.
fn check_schedule<A: Abort>(rt: &A, schedule: &Schedule) {
    assert_eq!(rt; schedule.horizon, 2);
    assert_eq!(rt; schedule.grants.len(), 1);
    for grant in schedule.grants.as_slice() {
        assert_eq!(rt; grant.label, LOAD);
        assert_eq!(rt; grant.start, 1);
    }
}

// Shares a manager between two passes, and gives it back.
fn share<'s, R: Abort + Wait>(
    rt: &R,
    alloc: Global,
    manager: Manager<'s>,
    schedule: &mut Schedule,
) -> Result<Manager<'s>, Fail>
    requires two { length manager.setup.scripts ≡ 2 }
    requires room { length manager.setup.loads ≤ vec_capacity schedule.old.grants }
{
    let Ok((shared, mut first)) = SharedManager::new(alloc, manager) else {
        return Err(Fail::new("no memory"));
    };
    let mut second = shared.split(&mut first)?;
    commit_by_two(rt, &shared, &mut first, &mut second, schedule);
    shared.join(&mut first, second);
    Ok(shared.close(first))
}

#[test]
fn commits_by_two_passes_in_one_history(rt: HostRuntime) -> Result<(), Fail> {
    let alloc = rt.alloc();
    let setup = setup(alloc)?;
    let mut schedule = Schedule::new(alloc, 1)?;
    let manager = Manager::new(alloc, &setup)?;
    let manager = share(&rt, alloc, manager, &mut schedule)?;
    check_schedule(&rt, &schedule);
    assert_eq!(&rt; manager.history(), [granted(), promised()].as_slice());
    Ok(())
}
