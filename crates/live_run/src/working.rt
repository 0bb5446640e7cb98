//! A thread for each worker.

ghost use Rattle.std.specs.Prelude.{◌≡◌, ◌<◌, ◌+◌, ◌++◌, [], ◌∷◌, length, vec_len, vec_capacity, All};
ghost use Rattle.std.specs.Thread.{IsSync};
ghost use Rattle.vep_manager.specs.Setup.{IsSound};
ghost use Rattle.vep_manager.specs.Legal.{IsLegal};
ghost use Rattle.live_run.specs.inner.Workers.{IsFresh, HasWorked, HaveWorked};

use crate::seat::Seat;
use crate::service::Service;
use crate::threads::serve_from;
use crate::worker::Worker;
use std::snapshot::Snapshot;
use std::sync::Wait;
use std::thread;
use std::thread::{Promise, Threads};
use tile_workers::{Gate, work};
use vep_manager::Setup;

/// What a worker gives back: its pass, and itself.
#[derive(Drop)]
pub struct Worked<P> {
    /// The pass.
    pub pass: P,
    /// The worker.
    pub worker: Worker,
}

/// Takes a worker's tiles to the end of the run, as far as they can go.
pub fn work_tiles<P: Drop, S: Service<P>, R: Wait, G: Gate>(
    rt: &R,
    gate: &G,
    service: &S,
    setup: &Setup,
    pass: P,
    worker: Worker,
) -> Worked<P>
    requires rests { S.rests service.now pass }
    requires setup { S.setup service.now ≡ setup.now }
    requires sound { IsSound setup.now }
    requires legal { IsLegal setup.now (S.seen pass) }
    requires fresh { IsFresh setup.now worker }
    ensures rests { S.rests service.now result.pass }
    ensures share { S.share result.pass ≡ S.share pass }
    ensures worked { HasWorked setup.now (S.seen result.pass) worker result.worker }
{
    let Worker {
        mut group,
        mut schedule,
    } = worker;
    let mut seat = Seat { service, rt, pass };
    work(
        &mut group,
        &setup.world,
        &mut schedule,
        &mut seat,
        gate,
        setup.budget,
    );
    let Seat {
        service: _,
        rt: _,
        pass,
    } = seat;
    Worked {
        pass,
        worker: Worker { group, schedule },
    }
}

/// The promise that a worker's thread has worked, and gives its pass back.
#[derive(Drop)]
pub struct WillWork<S, P> {
    /// What all threads share.
    pub service: Snapshot<S>,
    /// The setup of the run.
    pub setup: Snapshot<Setup>,
    /// The pass as it was given.
    pub pass: Snapshot<P>,
    /// The worker as it was given.
    pub worker: Snapshot<Worker>,
}

impl<P, S: Service<P>> Promise<Worked<P>> for WillWork<S, P> {
    ghost kept_by = { λ p r. S.rests p.service.value r.pass × (S.share r.pass ≡ S.share p.pass.value)
        × HasWorked p.setup.value (S.seen r.pass) p.worker.value r.worker };
}

// The promise of a worker's thread that is given these.
fn promised<P: Drop, S: Service<P>>(
    service: &S,
    setup: &Setup,
    pass: &P,
    worker: &Worker,
) -> WillWork<S, P>
    ensures shared { (result.service.value ≡ service.now) × (result.setup.value ≡ setup.now) }
    ensures own { (result.pass.value ≡ pass.now) × (result.worker.value ≡ worker.now) }
{
    WillWork {
        service: Snapshot::of(service),
        setup: Snapshot::of(setup),
        pass: Snapshot::of(pass),
        worker: Snapshot::of(worker),
    }
}

/// What the caller gets back: the pass with the whole share again, and the workers.
#[derive(Drop)]
pub struct Served<P> {
    /// The pass.
    pub pass: P,
    /// The workers, in their order.
    pub crew: Vec<Worker>,
}

/// Has each worker take its tiles on, and serves the sessions 1 to `sessions`, each in a thread of its own
/// and all at once. A worker whose thread can't be made does its work on the caller's, after the sessions
/// have ended. Each level of the recursion has one thread, so that no memory is wanted.
pub fn work_and_serve<
    P: Send + Drop,
    S: Service<P> + Sync,
    R: Threads + Wait + Sync,
    G: Gate + Sync,
>(
    rt: &R,
    gate: &G,
    service: &S,
    setup: &Setup,
    pass: P,
    crew: Vec<Worker>,
    sessions: u8,
) -> Served<P>
    requires rests { S.rests service.now pass }
    requires setup { S.setup service.now ≡ setup.now }
    requires sound { IsSound setup.now }
    requires legal { IsLegal setup.now (S.seen pass) }
    requires share { sessions + vec_len crew < S.share pass }
    requires sessions { sessions ≡ length setup.now.scripts }
    requires fresh { All (IsFresh setup.now) crew.items }
    ensures rests { S.rests service.now result.pass }
    ensures share { S.share result.pass ≡ S.share pass }
    ensures worked { HaveWorked setup.now (S.seen result.pass) crew.items result.crew.items }
    ensures capacity { vec_capacity result.crew ≡ vec_capacity crew }
{
    let mut crew = crew;
    let Some(worker) = crew.pop() else {
        let pass = serve_from(rt, gate, service, pass, 1, sessions);
        return Served { pass, crew };
    };
    let mut pass = pass;
    let part = service.split(&mut pass);
    thread::scope(
        thread::scope_env(),
        rt,
        move |scope| -> Served<P>
            requires { IsSync R.row × IsSync G.row
                × S.rests service.now pass × S.rests service.now part × (S.share part ≡ 1)
                × (S.setup service.now ≡ setup.now) × IsSound setup.now
                × IsLegal setup.now (S.seen pass) × IsLegal setup.now (S.seen part)
                × (sessions + vec_len crew < S.share pass) × (sessions ≡ length setup.now.scripts)
                × All (IsFresh setup.now) crew.items × IsFresh setup.now worker
                × (vec_len crew < vec_capacity crew) }
            ensures { S.rests service.entry.now result.pass × (S.share result.pass ≡ S.share pass + 1)
                × HaveWorked setup.entry.now (S.seen result.pass) (crew.items ++ worker ∷ []) result.crew.items
                × (vec_capacity result.crew ≡ vec_capacity crew) }
        {
            let promise = promised(service, setup, &part, &worker);
            let started = scope.spawn_with(promise, move || {
                work_tiles(rt, gate, service, setup, part, worker)
            });
            let Served { mut pass, mut crew } = work_and_serve(
                rt, gate, service, setup, pass, crew, sessions,
            );
            let Worked { pass: part, worker } = match started {
                Ok(child) => child.join(rt),
                Err(refused) => (refused.value)(),
            };
            service.join(&mut pass, part);
            crew.push_reserved(worker);
            Served { pass, crew }
        },
    )
}
