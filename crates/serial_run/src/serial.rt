//! A run of all sessions.

ghost use Rattle.std.specs.Prelude.{◌≡◌, ℕ, ◌+◌, ◌≤◌, [], false, length, IfOk};
ghost use Rattle.bundle_model.specs.Grants.{IsApart};
ghost use Rattle.vep_manager.specs.Setup.{IsSound};
ghost use Rattle.vep_manager.specs.History.{IsSession, grants_of};
ghost use Rattle.vep_manager.specs.Legal.{IsRoundRobin};
ghost use Rattle.serial_run.specs.Run.{EndsInStep, RingsEndInStep};
ghost use Rattle.serial_run.specs.inner.Rounds.{TakesTurn, EndsRound};

use crate::end::RunEnd;
use crate::finishing::finish;
use bundle_model::Schedule;
use soc_base::{Items, MOST_COMMANDS, MOST_SCRIPTS, NoMemory};
use std::alloc::Global;
use tile_core::build;
use vep_manager::{Manager, Setup};

// Commits the next command of a session, if it has one, and answers whether it has.
fn turn(manager: &mut Manager<'_>, session: u8) -> bool
    requires { IsSession manager.old.setup session }
    ensures setup { manager.new.setup ≡ manager.old.setup }
    ensures turn { TakesTurn session manager.old manager.new }
    ensures idle { result ≡ false → manager.new.history ≡ manager.old.history }
{
    manager.commit(session).is_some()
}

// Gives each session a turn, and answers whether one had a command.
fn round(manager: &mut Manager<'_>, sessions: u8) -> bool
    requires sessions { sessions ≡ length manager.old.setup.scripts }
    requires few { sessions ≤ MOST_SCRIPTS }
    ensures setup { manager.new.setup ≡ manager.old.setup }
    ensures round { EndsRound manager.old manager.new }
    ensures idle { result ≡ false → manager.new.history ≡ manager.old.history }
{
    let mut busy = false;
    for session in 1..sessions + 1 {
        busy |= turn(manager, session);
    }
    busy
}

/// Commits all commands, in rounds.
pub(crate) fn commit_all(manager: &mut Manager<'_>, sessions: u8)
    requires sound { IsSound manager.old.setup }
    requires sessions { sessions ≡ length manager.old.setup.scripts }
    requires empty { manager.old.history ≡ [] }
    ensures setup { manager.new.setup ≡ manager.old.setup }
    ensures rounds { IsRoundRobin manager.new.setup manager.new.history }
    ensures apart { IsApart manager.new.setup.world (grants_of manager.new.setup manager.new.history) }
{
    // All sessions together have no more commands than that, so as many rounds are enough.
    for _round in 0..MOST_COMMANDS {
        if !round(manager, sessions) {
            return;
        }
    }
}

/// Runs a setup: commits the sessions' commands in turn, one of each session from session 1 on, round
/// after round, and then brings all tiles to the slot of the budget. Wants memory only before the
/// first command.
pub fn serial_all(alloc: Global, setup: &Setup) -> Result<RunEnd, NoMemory>
    requires { IsSound setup.now }
    ensures history { IfOk result (λ end. IsRoundRobin setup.now end.history) }
    ensures tiles { IfOk result (EndsInStep setup.now) }
    ensures rings { IfOk result (RingsEndInStep setup.now) }
{
    let mut manager = Manager::new(alloc, setup)?;
    let mut schedule = Schedule::new(alloc, setup.loads.len() as u16)?;
    let mut stations = build(alloc, &setup.world, setup.loads.as_slice())?;
    commit_all(&mut manager, setup.scripts.len() as u8);
    manager.copy_since(&mut schedule);
    let world = &setup.world;
    finish(stations.as_mut_slice(), world, &schedule, setup.budget);
    Ok(RunEnd {
        history: Items::from_vec(manager.into_history()),
        stations: Items::from_vec(stations),
    })
}
