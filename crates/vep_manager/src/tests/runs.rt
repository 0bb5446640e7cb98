//! Runs of the commands of a table, and checks of their replies.

ghost use Rattle.std.specs.Prelude.{All, IfOk};
ghost use Rattle.vep_manager.specs.inner.Small.{IsSmallCommand, IsSmallScript};

use super::fixture::{setup, world};
use crate::{Manager, Reply};
use bundle_model::{Resource, Schedule};
use script_file::{Command, Script};
use soc_base::{Items, Label, Text};
use std::alloc::Global;
use std::process::Abort;
use std::test::Fail;

/// A command, with a name that is written out.
#[derive(Clone, Copy)]
pub enum Ask {
    /// The bundle file's name, and the cycle.
    Load(&'static str, u16),
    /// The load's number, and the cycle.
    Stop(u16, u16),
    /// The cycle.
    Until(u16),
}

/// A session, the next command of its script, and the reply.
pub type Step = (u8, Ask, Reply);

// The command that a table asks for.
fn command(alloc: Global, ask: Ask) -> Result<Command, Fail>
    ensures { IfOk result IsSmallCommand }
{
    match ask {
        Ask::Load(name, cycle) => {
            let name = Text::from_str(alloc, name)?;
            let cycle = u64::from(cycle);
            Ok(Command::Load { name, cycle })
        }
        Ask::Stop(load, cycle) => Ok(Command::Stop {
            load,
            cycle: u64::from(cycle),
        }),
        Ask::Until(cycle) => Ok(Command::Until {
            cycle: u64::from(cycle),
        }),
    }
}

/// The script that loads these bundle files at cycle 0, at most 16 of them.
pub fn load_script(alloc: Global, names: &[&'static str]) -> Result<Script, Fail>
    ensures { IfOk result IsSmallScript }
{
    let mut commands = Vec::new(alloc);
    for name in names {
        commands.push(command(alloc, Ask::Load(*name, 0))?)?;
    }
    if commands.len() > 16 {
        return Err(Fail::new("a script is too long"));
    }
    Ok(Script {
        commands: Items::from_vec(commands),
    })
}

// The commands of a session.
fn commands(alloc: Global, steps: &[Step], session: u8) -> Result<Vec<Command>, Fail>
    ensures { IfOk result (λ commands. All IsSmallCommand commands.items) }
{
    let mut commands = Vec::new(alloc);
    for (one, ask, _) in steps {
        if *one == session {
            commands.push(command(alloc, *ask)?)?;
        }
    }
    Ok(commands)
}

// The script of a session.
fn script(alloc: Global, steps: &[Step], session: u8) -> Result<Script, Fail>
    ensures { IfOk result IsSmallScript }
{
    let commands = commands(alloc, steps, session)?;
    if commands.len() > 16 {
        return Err(Fail::new("a script is too long"));
    }
    Ok(Script {
        commands: Items::from_vec(commands),
    })
}

// The scripts of sessions 1 to `sessions`.
fn scripts(alloc: Global, steps: &[Step], sessions: u8) -> Result<Vec<Script>, Fail>
    ensures { IfOk result (λ scripts. All IsSmallScript scripts.items) }
{
    let mut scripts = Vec::new(alloc);
    for session in 1..=sessions {
        scripts.push(script(alloc, steps, session)?)?;
    }
    Ok(scripts)
}

// Commits a session's next command, and answers its reply. None also where there is no such session.
fn reply(manager: &mut Manager<'_>, session: u8) -> Option<Reply> {
    if session == 0 || usize::from(session) > manager.setup().scripts.len() {
        return None;
    }
    match manager.commit(session) {
        Some(entry) => Some(entry.reply),
        None => None,
    }
}

// Commits the commands of a table, and checks the replies.
fn check_replies<A: Abort>(rt: &A, manager: &mut Manager<'_>, steps: &[Step]) {
    for (session, _, wanted) in steps {
        assert_eq!(rt; reply(manager, *session), Some(*wanted));
    }
}

// Checks that the scripts of sessions 1 to `sessions` are used up.
fn check_used_up<A: Abort>(rt: &A, manager: &mut Manager<'_>, sessions: u8) {
    for session in 1..=sessions {
        assert_eq!(rt; reply(manager, session), None);
    }
}

// The numbers of grants and of entries, and the horizon.
fn outcome(alloc: Global, manager: Manager<'_>) -> Result<(usize, usize, u64), Fail> {
    let loads = manager.setup().loads.len();
    if loads > 256 {
        return Err(Fail::new("there are too many loads"));
    }
    let mut schedule = Schedule::new(alloc, loads as u16)?;
    manager.copy_since(&mut schedule);
    let entries = manager.into_history().len();
    Ok((schedule.grants.len(), entries, schedule.horizon))
}

/// Runs the commands of a table with so many sessions. Checks the replies, that every script is used up
/// then, the number of grants, that each command has its entry, and that the horizon is the budget.
pub fn check_run<A: Abort>(
    rt: &A,
    alloc: Global,
    (sessions, budget): (u8, u64),
    steps: &[Step],
    grants: usize,
) -> Result<(), Fail> {
    let scripts = Items::from_vec(scripts(alloc, steps, sessions)?);
    let setup = setup(alloc, world(alloc)?, budget, scripts)?;
    let mut manager = Manager::new(alloc, &setup)?;
    check_replies(rt, &mut manager, steps);
    check_used_up(rt, &mut manager, sessions);
    assert_eq!(rt; outcome(alloc, manager)?, (grants, steps.len(), budget));
    Ok(())
}

/// The reply that this load is granted from this slot on.
pub fn granted(session: u8, load: u16, start: u64) -> Reply {
    Reply::Granted {
        label: Label { session, load },
        start,
    }
}

/// The reply that this load ends in this slot.
pub fn stopped(session: u8, load: u16, end: u64) -> Reply {
    Reply::Stopped {
        label: Label { session, load },
        end,
    }
}

/// The reply that this resource is taken by a load of session 1.
pub fn taken(resource: Resource, load: u16, free_from: Option<u64>) -> Reply {
    Reply::Taken {
        resource,
        owner: Label { session: 1, load },
        free_from,
    }
}

/// These bytes of the tile.
pub fn span(base: u32, len: u32) -> Resource {
    Resource::Span { tile: 0, base, len }
}

/// This partition slot of the tile.
pub fn slot(slot: u8) -> Resource {
    Resource::Partition { tile: 0, slot }
}
