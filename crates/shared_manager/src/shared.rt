//! The manager behind the lock.

ghost use mathlib.Core.List.{IsPrefix};
ghost use Rattle.std.specs.Prelude.{◌≡◌, ◌<◌, ◌≤◌, ◌+◌, ℕ, length, vec_capacity, false, Ok, IfOk, IfErr, OnErr};
ghost use Rattle.std.specs.Option.{option_to_list};
ghost use Rattle.turn_lock.specs.Seen.{whole_share, RestsAt, first_pass, kept_part, split_part, joined_passes};
ghost use Rattle.vep_manager.specs.History.{IsSession, grants_of, horizon_of};
ghost use Rattle.vep_manager.specs.Legal.{IsLegal};
ghost use Rattle.shared_manager.specs.Commits.{Commits};

use crate::held::Held;
use bundle_model::Schedule;
use soc_base::NoMemory;
use std::alloc::Global;
use std::marker::Model;
use std::sync::Wait;
use turn_lock::Turns;
use vep_manager::{Entry, Manager};

/// What a thread knows of a shared manager: the entries of the history that it has seen, how many of them
/// it committed, how many turns it entered, and its share.
pub type Pass<'s> = turn_lock::Pass<Held<'s>>;

/// A manager behind a lock. Contracts see the lock's name, the setup, and how many entries the history had
/// when the lock was made.
#[derive(Drop)]
pub struct SharedManager<'s> {
    turns: Turns<Held<'s>>,
}

impl<'s> Model for SharedManager<'s> {
    ghost use Rattle.turn_lock.specs.Seen.{LockView};
    ghost use Rattle.vep_manager.specs.declared.setup.Setup.{Setup};

    ghost Value = { LockView Setup };

    ghost view = { λ m. m.turns };
}

impl<'s> SharedManager<'s> {
    /// Puts a manager behind a lock, and makes its first pass, which has the whole share of 1,048,576 and
    /// has seen the history so far. The refusal is want of memory, and hands the manager back.
    pub fn new(
        alloc: Global,
        manager: Manager<'s>,
    ) -> Result<(SharedManager<'s>, Pass<'s>), Manager<'s>>
        ensures setup { IfOk result (λ r. r.0.base ≡ manager.entry.setup) }
        ensures start { IfOk result (λ r. r.0.start ≡ length manager.entry.history) }
        ensures pass { IfOk result (λ r. r.1 ≡ first_pass r.0 manager.entry.history) }
        ensures refused { IfErr result (λ m. m ≡ manager.entry) }
    {
        match Turns::new(alloc, Held { manager }) {
            Ok((turns, pass)) => Ok((SharedManager { turns }, pass)),
            Err(held) => Err(held.manager),
        }
    }

    /// Waits for a turn, commits a session's next command, and answers its place in the history, counted
    /// from 0, and its entry, which is the last one that the pass has seen then. None exactly where the
    /// session's script is used up in the entries that the turn found. Takes no memory.
    #[tactic(auto, using(crate::proofs::Prefixes::prefix_more))]
    pub fn commit(&self, rt: &impl Wait, pass: &mut Pass<'s>, session: u8) -> Option<(u64, Entry)>
        requires rests { RestsAt self.now pass.old }
        requires session { IsSession self.now.base session }
        ensures commits { Commits self.now.base session pass.old.seen pass.new.seen result }
        ensures begins { IsPrefix pass.old.seen pass.new.seen }
        ensures legal { IsLegal self.now.base pass.new.seen }
        ensures mine { pass.new.mine ≡ pass.old.mine + length (option_to_list result) }
        ensures entered { pass.new.entered ≡ pass.old.entered + 1 }
        ensures share { pass.new.share ≡ pass.old.share }
        ensures rests { RestsAt self.now pass.new }
    {
        let mut held = self.turns.enter(rt, pass);
        let place = held.manager.history().len() as u64;
        let entry = held.manager.commit(session);
        self.turns.leave(pass, held);
        match entry {
            Some(entry) => Some((place, entry)),
            None => None,
        }
    }

    /// Waits for a turn, and makes a schedule, which has room for every load and keeps it, that of the whole
    /// history, which the pass has seen then. Takes no memory.
    pub fn refresh(&self, rt: &impl Wait, pass: &mut Pass<'s>, into: &mut Schedule)
        requires rests { RestsAt self.now pass.old }
        requires room { length self.now.base.loads ≤ vec_capacity into.old.grants }
        ensures begins { IsPrefix pass.old.seen pass.new.seen }
        ensures grants { into.new.grants.items ≡ grants_of self.now.base pass.new.seen }
        ensures horizon { into.new.horizon ≡ horizon_of self.now.base pass.new.seen }
        ensures room { vec_capacity into.new.grants ≡ vec_capacity into.old.grants }
        ensures legal { IsLegal self.now.base pass.new.seen }
        ensures mine { pass.new.mine ≡ pass.old.mine }
        ensures entered { pass.new.entered ≡ pass.old.entered + 1 }
        ensures share { pass.new.share ≡ pass.old.share }
        ensures rests { RestsAt self.now pass.new }
    {
        let held = self.turns.enter(rt, pass);
        held.manager.copy_since(into);
        self.turns.leave(pass, held);
    }

    /// Splits a pass off, which has seen the same, has committed nothing and entered no turn, and gets 1 of
    /// the share of at least 2. It never refuses.
    pub fn split(&self, pass: &mut Pass<'s>) -> Result<Pass<'s>, NoMemory>
        requires rests { RestsAt self.now pass.old }
        requires share { 2 ≤ pass.old.share }
        ensures part { result ≡ Ok (split_part pass.old) }
        ensures kept { pass.new ≡ kept_part pass.old }
        ensures refused { OnErr result (pass.new ≡ pass.old) }
    {
        self.turns.split(pass)
    }

    /// Joins another pass into one, which keeps the longer view, of which both are beginnings, and the sums
    /// of the entries committed, of the turns entered and of the shares. Takes no memory.
    pub fn join(&self, pass: &mut Pass<'s>, other: Pass<'s>)
        requires rests { RestsAt self.now pass.old }
        requires other_rests { RestsAt self.now other }
        ensures joined { pass.new ≡ joined_passes pass.old other.entry }
        ensures begins { IsPrefix pass.old.seen pass.new.seen }
        ensures other_begins { IsPrefix other.entry.seen pass.new.seen }
    {
        self.turns.join(pass, other);
    }

    /// Ends the lock, and gives the manager, whose history begins with all that the pass has seen, and has
    /// the entries at first and those that the passes committed. The pass has the whole share, so that every
    /// other pass was joined into it. Takes no memory.
    pub fn close(self, pass: Pass<'s>) -> Manager<'s>
        requires rests { RestsAt self pass }
        requires share { pass.share ≡ whole_share }
        ensures setup { result.setup ≡ self.entry.base }
        ensures begins { IsPrefix pass.entry.seen result.history }
        ensures count { length result.history ≡ self.entry.start + pass.entry.mine }
    {
        self.turns.close(pass).manager
    }
}
