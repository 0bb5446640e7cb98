//! What threads share to serve sessions and tiles.

ghost use mathlib.Core.List.{IsPrefix};
ghost use Rattle.std.specs.Prelude.{◌≡◌, ◌≤◌, ◌+◌, ℕ, List, length, vec_capacity};
ghost use Rattle.vep_manager.specs.declared.setup.Setup.{Setup};
ghost use Rattle.vep_manager.specs.declared.reply.Entry.{Entry};
ghost use Rattle.vep_manager.specs.History.{IsSession, grants_of, horizon_of};
ghost use Rattle.vep_manager.specs.Legal.{IsLegal};

use bundle_model::Schedule;
use std::sync::Wait;
use tile_workers::Gate;

/// Something that threads share to serve sessions and tiles, each by a pass of its own.
pub trait Service<P> {
    /// The pass is of this service, and rests between two calls.
    ghost rests: { Self → P → Type 0 };

    /// It is one fact, however it was shown.
    ghost rests_prop: { (service : Self) (pass : P) → IsProp (rests service pass) };

    /// How many passes can be made of this one, itself counted.
    ghost share: { P → ℕ };

    /// The setup of the run.
    ghost setup: { Self → Setup };

    /// The entries of the history that the pass has seen.
    ghost seen: { P → List Entry };

    /// How many turns the pass has entered.
    ghost entered: { P → ℕ };

    /// Does all that is left of a session, and comes to the gate after each step.
    fn serve<R: Wait, G: Gate>(&self, rt: &R, gate: &G, pass: &mut P, session: u8)
        requires rests { rests self.now pass.old }
        requires session { IsSession (setup self.now) session }
        ensures rests { rests self.now pass.new }
        ensures share { share pass.new ≡ share pass.old };

    /// Makes a schedule, which has room for every load and keeps it, that of the whole history, which the
    /// pass has seen then.
    fn refresh<R: Wait>(&self, rt: &R, pass: &mut P, into: &mut Schedule)
        requires rests { rests self.now pass.old }
        requires room { length (setup self.now).loads ≤ vec_capacity into.old.grants }
        ensures rests { rests self.now pass.new }
        ensures share { share pass.new ≡ share pass.old }
        ensures entered { entered pass.new ≡ entered pass.old + 1 }
        ensures begins { IsPrefix (seen pass.old) (seen pass.new) }
        ensures legal { IsLegal (setup self.now) (seen pass.new) }
        ensures grants { into.new.grants.items ≡ grants_of (setup self.now) (seen pass.new) }
        ensures horizon { into.new.horizon ≡ horizon_of (setup self.now) (seen pass.new) }
        ensures room { vec_capacity into.new.grants ≡ vec_capacity into.old.grants };

    /// Splits a pass off, which has 1 of the share, and has seen the same.
    fn split(&self, pass: &mut P) -> P
        requires rests { rests self.now pass.old }
        requires share { 2 ≤ share pass.old }
        ensures rests { rests self.now pass.new }
        ensures part_rests { rests self.now result }
        ensures kept { share pass.new + 1 ≡ share pass.old }
        ensures part { share result ≡ 1 }
        ensures seen { seen pass.new ≡ seen pass.old }
        ensures part_seen { seen result ≡ seen pass.old };

    /// Joins another pass into one, which then has seen what both have.
    fn join(&self, pass: &mut P, other: P)
        requires rests { rests self.now pass.old }
        requires other_rests { rests self.now other }
        ensures rests { rests self.now pass.new }
        ensures share { share pass.new ≡ share pass.old + share other }
        ensures begins { IsPrefix (seen pass.old) (seen pass.new) }
        ensures other_begins { IsPrefix (seen other) (seen pass.new) };
}
