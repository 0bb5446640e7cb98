//! A thread for each session.

ghost use Rattle.std.specs.Prelude.{◌≡◌, ◌≤◌, ◌<◌, ◌+◌, ℕ};
ghost use Rattle.std.specs.Thread.{IsSync};
ghost use Rattle.vep_manager.specs.History.{IsSession};
ghost use Rattle.soc_base.specs.declared.limits.TheConstants.{MOST_SCRIPTS};

use crate::job::{Job, start, wait_for};
use crate::service::Service;
use std::sync::Wait;
use std::thread;
use std::thread::Threads;
use tile_workers::Gate;

/// What the thread of a session is given.
#[derive(Drop)]
pub struct Session<'a, S, P, R, G> {
    /// What all threads share.
    pub service: &'a S,
    /// The runtime.
    pub rt: &'a R,
    /// The gate that the thread comes to.
    pub gate: &'a G,
    /// The thread's own pass.
    pub pass: P,
    /// The session, counted from 1.
    pub session: u8,
}

impl<'a, P, S: Service<P>, R: Wait, G: Gate> Job<P> for Session<'a, S, P, R, G> {
    ghost can = { λ j. S.rests j.service.now j.pass × IsSession (S.setup j.service.now) j.session };

    ghost owes = { λ j p. S.rests j.service.now p × (S.share p ≡ S.share j.pass) };

    fn run(self) -> P {
        let Session {
            service,
            rt,
            gate,
            mut pass,
            session,
        } = self;
        service.serve(rt, gate, &mut pass, session);
        pass
    }
}

/// Serves the sessions from one on to the last, each in a thread of its own and all at once, and answers
/// the pass with the whole share again. A session whose thread can't be made is served by the caller. Each
/// level of the recursion has one thread, so that no memory is wanted.
pub fn serve_from<P: Send + Drop, S: Service<P> + Sync, R: Threads + Wait + Sync, G: Gate + Sync>(
    rt: &R,
    gate: &G,
    service: &S,
    pass: P,
    session: u8,
    last: u8,
) -> P
    requires rests { S.rests service.now pass }
    requires share { last + 1 < S.share pass + session }
    requires has { (one : ℕ) → session ≤ one → one ≤ last → IsSession (S.setup service.now) one }
    requires few { last ≤ MOST_SCRIPTS }
    ensures rests { S.rests service.now result }
    ensures share { S.share result ≡ S.share pass }
{
    if last < session {
        return pass;
    }
    let mut pass = pass;
    let part = service.split(&mut pass);
    thread::scope(
        thread::scope_env(),
        rt,
        move |scope| -> P
            requires { IsSync R.row × IsSync G.row
                × S.rests service.now pass × S.rests service.now part × (S.share part ≡ 1)
                × (last + 1 < S.share pass + session + 1) × (last ≤ MOST_SCRIPTS) × (session ≤ last)
                × ((one : ℕ) → session ≤ one → one ≤ last → IsSession (S.setup service.now) one) }
            ensures { S.rests service.entry.now result × (S.share result ≡ S.share pass + 1) }
        {
            let work = Session {
                service,
                rt,
                gate,
                pass: part,
                session,
            };
            let started = start(scope, work);
            let mut pass = serve_from(rt, gate, service, pass, session + 1, last);
            let part = wait_for(rt, started);
            service.join(&mut pass, part);
            pass
        },
    )
}
