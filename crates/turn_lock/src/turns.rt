//! The lock and its passes, as callers see them.

ghost use mathlib.Core.List.{IsPrefix};
ghost use Rattle.std.specs.Prelude.{◌≡◌, ◌<◌, ◌≤◌, ◌+◌, ℕ, length, true, false, Some, Ok, IfOk, IfErr, OnErr};
ghost use Rattle.turn_lock.specs.Seen.{whole_share, IsPassOf, RestsAt, first_pass, entered_with, left_with, IsAtMostOneMore, kept_part, split_part, joined_passes};

use crate::kept::Kept;
use crate::line::{Hand, Line};
use soc_base::NoMemory;
use std::alloc::Global;
use std::marker::Model;
use std::sync::Wait;

/// A lock, whose passes enter in the order in which they draw tickets. Contracts see its name, the base of
/// its value, and how many entries the value had when the lock was made.
#[derive(Drop)]
pub struct Turns<V: Kept> {
    line: Line<V>,
}

impl<V: Kept> Model for Turns<V> {
    ghost use Rattle.std.specs.Prelude.{length};
    ghost use Rattle.turn_lock.specs.Seen.{LockView};
    ghost use Rattle.turn_lock.specs.Hands.{IsBoard};

    ghost Value = { LockView V.Base };

    ghost view = { λ t. record {
      lock = t.line.table.shared.table_id;
      base = V.base t.line.table.shared.key.value;
      start = length (V.entries t.line.table.shared.key.value);
    } };

    ghost invariant = { λ t. IsBoard t.line.table.shared.table_id };
}

/// What a thread knows of a lock. Contracts see the entries that it has seen, how many it added, how many
/// turns it entered, its share, its lock with the base of the value, and whether it holds the turn.
#[derive(Drop)]
pub struct Pass<V: Kept> {
    hand: Hand<V>,
    /// How many entries the value had when the pass last entered; 0 before its first turn.
    count: u64,
}

impl<V: Kept> Model for Pass<V> {
    ghost use Rattle.std.specs.Prelude.{◌<◌};
    ghost use Rattle.turn_lock.specs.Seen.{PassView};
    ghost use Rattle.turn_lock.specs.Hands.{seen_of, IsBetween};

    ghost Value = { PassView V.Base V.Entry };

    ghost view = { λ p. seen_of p.hand.seat.table_id p.hand.seat.me.0 };

    ghost invariant = { λ p. (0 < p.hand.seat.me.0.share) × IsBetween p.count p.hand.seat.me.0.stage p.hand.seat.me };
}

impl<V: Kept + Send + Drop> Turns<V> {
    /// Makes a lock round a value, and its first pass, which has the whole share of 1,048,576 and has seen
    /// the value's entries. The refusal is want of memory, and hands the value back.
    pub fn new(alloc: Global, value: V) -> Result<(Turns<V>, Pass<V>), V>
        ensures base { IfOk result (λ r. r.0.base ≡ V.base value) }
        ensures start { IfOk result (λ r. r.0.start ≡ length (V.entries value)) }
        ensures pass { IfOk result (λ r. r.1 ≡ first_pass r.0 (V.entries value)) }
        ensures refused { IfErr result (λ x. x ≡ value) }
    {
        match Line::new(alloc, value) {
            Ok((line, hand)) => Ok((Turns { line }, Pass { hand, count: 0 })),
            Err(value) => Err(value),
        }
    }

    /// Waits for a turn, and takes the value, whose entries begin with all that the pass had seen; it has
    /// seen them all then. The pass holds no turn before. Takes no memory.
    pub fn enter(&self, rt: &impl Wait, pass: &mut Pass<V>) -> V
        requires rests { RestsAt self.now pass.old }
        ensures base { V.base result ≡ self.now.base }
        ensures begins { IsPrefix pass.old.seen (V.entries result) }
        ensures entered { pass.new ≡ entered_with (V.entries result) pass.old }
    {
        let value = self.line.enter(rt, &mut pass.hand);
        pass.count = value.count();
        value
    }

    /// Gives the value back, with the entries that it was taken with or one more, and ends the turn. The
    /// pass has seen these entries then, and has added one where there is one more. Takes no memory.
    pub fn leave(&self, pass: &mut Pass<V>, value: V)
        requires turn { IsPassOf self.now pass.old × (pass.old.in_turn ≡ true) }
        requires base { V.base value ≡ self.now.base }
        requires entries { IsAtMostOneMore pass.old.seen (V.entries value) }
        ensures left { pass.new ≡ left_with (V.entries value) pass.old }
    {
        let count = value.count();
        if count == pass.count {
            self.line.leave(&mut pass.hand, value);
        } else {
            self.line.leave_with_more(&mut pass.hand, value);
        }
    }

    /// Splits a pass off, which has seen the same, has added no entry and entered no turn, and gets 1 of the
    /// share of at least 2. The pass holds no turn. It never refuses.
    pub fn split(&self, pass: &mut Pass<V>) -> Result<Pass<V>, NoMemory>
        requires rests { RestsAt self.now pass.old }
        requires share { 2 ≤ pass.old.share }
        ensures part { result ≡ Ok (split_part pass.old) }
        ensures kept { pass.new ≡ kept_part pass.old }
        ensures refused { OnErr result (pass.new ≡ pass.old) }
    {
        let hand = self.line.split(&mut pass.hand);
        Ok(Pass { hand, count: 0 })
    }

    /// Joins another pass into one, which keeps the longer view, of which both are beginnings, and the sums
    /// of the entries added, of the turns entered and of the shares. Neither holds a turn. Takes no memory.
    pub fn join(&self, pass: &mut Pass<V>, other: Pass<V>)
        requires rests { RestsAt self.now pass.old }
        requires other_rests { RestsAt self.now other }
        ensures joined { pass.new ≡ joined_passes pass.old other }
        ensures begins { IsPrefix pass.old.seen pass.new.seen }
        ensures other_begins { IsPrefix other.seen pass.new.seen }
    {
        self.line.join(&mut pass.hand, other.hand);
    }

    /// Ends the lock, and gives the value, whose entries begin with all that the pass has seen, and are
    /// those at first and those that the passes added. The pass holds no turn and the whole share, so that
    /// every other pass was joined into it. Takes no memory.
    pub fn close(self, pass: Pass<V>) -> V
        requires rests { RestsAt self pass }
        requires share { pass.share ≡ whole_share }
        ensures base { V.base result ≡ self.base }
        ensures begins { IsPrefix pass.seen (V.entries result) }
        ensures count { length (V.entries result) ≡ self.start + pass.mine }
    {
        self.line.close(pass.hand)
    }
}
