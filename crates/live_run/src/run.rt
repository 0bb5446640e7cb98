//! A run whose sessions and tiles are taken on by threads.

ghost use Rattle.std.specs.Prelude.{◌≡◌, ◌<◌, ◌≤◌, ℕ, length, vec_len, All, IsTrue, IfOk};
ghost use Rattle.soc_base.specs.declared.limits.TheConstants.{MOST_TILES};
ghost use Rattle.vep_manager.specs.History.{IsSession, is_used_up};
ghost use Rattle.vep_manager.specs.Legal.{IsLegal, IsComplete};
ghost use Rattle.vep_manager.specs.Setup.{IsSound};
ghost use Rattle.serial_run.specs.Run.{EndsInStep, RingsEndInStep};
ghost use Rattle.live_run.specs.inner.Workers.{IsFresh, HaveWorked};

use crate::commits::commit_all;
use crate::crew::{Staff, deal_out, gather};
use crate::worker::Worker;
use crate::working::{Served, work_and_serve};
use bundle_model::Schedule;
use serial_run::{RunEnd, finish};
use shared_manager::SharedManager;
use soc_base::{Items, NoMemory};
use std::alloc::Global;
use std::sync::Wait;
use std::thread::Threads;
use tile_workers::Gate;
use vep_manager::{Manager, Setup};

// Has the workers take their tiles on while all commands are committed, those of each session in a thread of
// its own, and commits what these leave. Wants memory only before the first thread.
fn committed<'s, R: Threads + Wait + Sync, G: Gate + Sync>(
    rt: &R,
    alloc: Global,
    setup: &Setup,
    manager: Manager<'s>,
    crew: Vec<Worker>,
    gate: &G,
) -> Result<(Manager<'s>, Vec<Worker>), NoMemory>
    requires sound { IsSound setup.now }
    requires same { manager.setup ≡ setup.now }
    requires legal { IsLegal setup.now manager.history }
    requires fresh { All (IsFresh setup.now) crew.items }
    requires few { vec_len crew ≤ MOST_TILES }
    ensures setup { IfOk result (λ end. end.0.setup ≡ setup.now) }
    ensures used_up { IfOk result (λ end. (session : ℕ) → IsSession setup.now session
        → IsTrue (is_used_up setup.now end.0.history session)) }
    ensures worked { IfOk result (λ end. HaveWorked setup.now end.0.history crew.items end.1.items) }
{
    let sessions = setup.scripts.len() as u8;
    match SharedManager::new(alloc, manager) {
        Ok((shared, pass)) => {
            let served = work_and_serve(rt, gate, &shared, setup, pass, crew, sessions);
            let Served { mut pass, crew } = served;
            commit_all(&shared, rt, gate, &mut pass, sessions);
            Ok((shared.close(pass), crew))
        }
        Err(_) => Err(NoMemory),
    }
}

/// Runs a setup with a thread for each session and for each of so many workers, or of as many as the platform
/// has tiles: each session commits the commands of its script, in whatever order the threads come to the
/// manager's lock, while the workers take their tiles on by the grants that stand in the history, tile `i` the
/// one of number `i` modulo their count. The threads come to the gate after each command and each slot. The
/// caller commits what they leave, coming to the gate too, and then brings all tiles to the slot of the budget,
/// without it. The refusal is want of memory, which is taken before any thread is started.
pub fn live<R: Threads + Wait + Sync, G: Gate + Sync>(
    rt: &R,
    alloc: Global,
    setup: &Setup,
    workers: u8,
    gate: &G,
) -> Result<RunEnd, NoMemory>
    requires sound { IsSound setup.now }
    requires some { 0 < workers }
    ensures legal { IfOk result (λ end. IsLegal setup.now end.history) }
    ensures complete { IfOk result (λ end. IsComplete setup.now end.history) }
    ensures tiles { IfOk result (EndsInStep setup.now) }
    ensures rings { IfOk result (RingsEndInStep setup.now) }
{
    let fresh = Manager::new(alloc, setup)?;
    let mut schedule = Schedule::new(alloc, setup.loads.len() as u16)?;
    let Staff { crew, mut stations } = deal_out(alloc, setup, &fresh, workers)?;
    let (manager, mut crew) = committed(rt, alloc, setup, fresh, crew, gate)?;
    manager.copy_since(&mut schedule);
    let tiles = usize::from(setup.world.platform.tiles);
    gather(&mut crew, tiles, &mut stations);
    let history = manager.into_history();
    finish(
        stations.as_mut_slice(),
        &setup.world,
        &schedule,
        setup.budget,
    );
    Ok(RunEnd {
        history: Items::from_vec(history),
        stations: Items::from_vec(stations),
    })
}
