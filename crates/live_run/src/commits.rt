//! Committing the commands of sessions.

ghost use mathlib.Core.List.{IsPrefix};
ghost use Rattle.std.specs.Prelude.{◌≡◌, ◌≤◌, ◌+◌, ℕ, length, IsTrue, false, OnErr};
ghost use Rattle.turn_lock.specs.Seen.{RestsAt};
ghost use Rattle.soc_base.specs.declared.limits.TheConstants.{MOST_SCRIPTS};
ghost use Rattle.vep_manager.specs.History.{IsSession, is_used_up};

use crate::service::Service;
use bundle_model::Schedule;
use shared_manager::{Pass, SharedManager};
use std::sync::Wait;
use tile_workers::{Gate, Who};

// Commits a session's next command in a turn of its own, comes to the gate after it, and answers whether
// there was one.
fn commit_one<'s, R: Wait, G: Gate>(
    shared: &SharedManager<'s>,
    rt: &R,
    gate: &G,
    pass: &mut Pass<'s>,
    session: u8,
) -> bool
    requires rests { RestsAt shared.now pass.old }
    requires session { IsSession shared.now.base session }
    ensures used_up { result ≡ false → IsTrue (is_used_up shared.now.base pass.new.seen session) }
    ensures begins { IsPrefix pass.old.seen pass.new.seen }
    ensures entered { pass.new.entered ≡ pass.old.entered + 1 }
    ensures share { pass.new.share ≡ pass.old.share }
    ensures rests { RestsAt shared.now pass.new }
{
    match shared.commit(rt, pass, session) {
        Some((_place, entry)) => {
            gate.pass(Who::Committed {
                session,
                index: entry.index,
            });
            true
        }
        None => false,
    }
}

// Commits all that is left of a session's script.
fn commit_session<'s, R: Wait, G: Gate>(
    shared: &SharedManager<'s>,
    rt: &R,
    gate: &G,
    pass: &mut Pass<'s>,
    session: u8,
)
    requires rests { RestsAt shared.now pass.old }
    requires session { IsSession shared.now.base session }
    ensures used_up { IsTrue (is_used_up shared.now.base pass.new.seen session) }
    ensures begins { IsPrefix pass.old.seen pass.new.seen }
    ensures share { pass.new.share ≡ pass.old.share }
    ensures rests { RestsAt shared.now pass.new }
{
    for _ in rt.forever() {
        if !commit_one(shared, rt, gate, pass, session) {
            return;
        }
    }
    unreachable!()
}

impl<'s> Service<Pass<'s>> for SharedManager<'s> {
    ghost use Rattle.std.proofs.Props.{props};

    ghost rests = { λ m p. RestsAt m p };

    ghost rests_prop = { λ m p. Prim.hlevel props };

    ghost share = { λ p. p.share };

    ghost setup = { λ m. m.base };

    ghost seen = { λ p. p.seen };

    ghost entered = { λ p. p.entered };

    fn serve<R: Wait, G: Gate>(&self, rt: &R, gate: &G, pass: &mut Pass<'s>, session: u8) {
        commit_session(self, rt, gate, pass, session);
    }

    fn refresh<R: Wait>(&self, rt: &R, pass: &mut Pass<'s>, into: &mut Schedule) {
        self.refresh(rt, pass, into);
    }

    fn split(&self, pass: &mut Pass<'s>) -> Pass<'s> {
        self.split(pass).unwrap()
    }

    fn join(&self, pass: &mut Pass<'s>, other: Pass<'s>) {
        self.join(pass, other);
    }
}

/// Commits all that is left of the scripts of sessions 1 to `sessions`.
#[tactic(auto, using(crate::proofs::UsedUp::used_up_more))]
pub fn commit_all<'s, R: Wait, G: Gate>(
    shared: &SharedManager<'s>,
    rt: &R,
    gate: &G,
    pass: &mut Pass<'s>,
    sessions: u8,
)
    requires rests { RestsAt shared.now pass.old }
    requires sessions { sessions ≡ length shared.now.base.scripts }
    requires few { sessions ≤ MOST_SCRIPTS }
    ensures used_up { (session : ℕ) → IsSession shared.now.base session
        → IsTrue (is_used_up shared.now.base pass.new.seen session) }
    ensures begins { IsPrefix pass.old.seen pass.new.seen }
    ensures share { pass.new.share ≡ pass.old.share }
    ensures rests { RestsAt shared.now pass.new }
{
    for session in 1..sessions + 1 {
        commit_session(shared, rt, gate, pass, session);
    }
}
