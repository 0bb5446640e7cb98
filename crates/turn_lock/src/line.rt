//! The lock's words and its slot, step by step.

ghost use mathlib.Core.List.{IsPrefix};
ghost use Rattle.std.specs.Prelude.{◌≡◌, ℕ, ◌+◌, ◌<◌, ◌∷◌, ◌++◌, ◌≤◌, ◌^◌, Some, None, true, false, List, [], length, IfOk, IfErr};
ghost use Rattle.turn_lock.specs.Seen.{whole_share};
ghost use Rattle.turn_lock.specs.Rule.{first_view};
ghost use Rattle.turn_lock.specs.Steps.{Drew, Took, Learnt, Counted, kept_view, split_view, joined_view};
ghost use Rattle.turn_lock.specs.Hands.{IsAt, IsAway, IsWaiting, HasTaken, IsInTurn, CanCount, CanPassOn, taken_view, entered_view, left_view};

use crate::kept::Kept;
use crate::steps::{Board, Compares, Counts, Draws, Learns, Looks, Parts, PassesOn, Place};
use crate::view::Stage;
use atomic_table::Table;
use std::alloc::Global;
use std::snapshot::Snapshot;
use std::sync::Wait;
use std::thread;

/// The words and the slot.
#[derive(Drop)]
pub struct Line<V: Kept> {
    pub table: Board<V>,
}

/// A thread's place at a line.
#[derive(Drop)]
pub struct Hand<V: Kept> {
    pub seat: Place<V>,
}

impl<V: Kept + Drop> Line<V> {
    /// Makes a line round a value. The refusal is want of memory, and hands the value back.
    pub fn new(alloc: Global, value: V) -> Result<(Line<V>, Hand<V>), V>
        ensures board { IfOk result (λ r. IsAt r.0.table.shared.table_id r.1.seat.table_id) }
        ensures value { IfOk result (λ r. r.0.table.shared.key.value ≡ value) }
        ensures hand { IfOk result (λ r. r.1.seat.me ≡ (first_view (V.base value) (V.entries value), [])) }
        ensures refused { IfErr result (λ x. x ≡ value) }
    {
        let count = value.count();
        let about = Snapshot::of(&value);
        let Ok(mut slots) = Vec::with_capacity(alloc, 1) else {
            return Err(value);
        };
        slots.push_reserved(Some(value));
        match Table::new(alloc, &[0, 0, count], slots, &about) {
            Ok((table, seat)) => Ok((Line { table }, Hand { seat })),
            Err(mut refused) => {
                let Some(Some(value)) = refused.slots.pop() else {
                    unreachable!()
                };
                Err(value)
            }
        }
    }

    /// Draws a ticket.
    fn draw(&self, hand: &mut Hand<V>) -> u64
        requires at { IsAt self.now.table.shared.table_id hand.old.seat.table_id }
        requires away { IsAway hand.old.seat.me }
        ensures at { hand.new.seat.table_id ≡ hand.old.seat.table_id }
        ensures drew { Drew hand.old.seat.me result hand.new.seat.me }
    {
        self.table.shared.fetch_add::<Draws>(&mut hand.seat, 0, 1)
    }

    /// Looks whether the ticket is served, and takes the slot where it is.
    fn look(&self, hand: &mut Hand<V>, ticket: u64) -> bool
        requires at { IsAt self.now.table.shared.table_id hand.old.seat.table_id }
        requires waits { IsWaiting ticket hand.old.seat.me }
        ensures at { hand.new.seat.table_id ≡ hand.old.seat.table_id }
        ensures took { result ≡ true → Took V.base V.entries hand.old.seat.me ticket hand.new.seat.me }
        ensures waits { result ≡ false → hand.new.seat.me ≡ hand.old.seat.me }
    {
        let serving = self.table.shared.load::<Looks>(&mut hand.seat, 1);
        serving == ticket
    }

    /// Takes the value out of the slot that the hand holds.
    fn take(&self, hand: &mut Hand<V>) -> V
        requires at { IsAt self.now.table.shared.table_id hand.old.seat.table_id }
        requires full { (value : V) × (hand.old.seat.me.1 ≡ (0, Some value) ∷ []) }
        ensures at { hand.new.seat.table_id ≡ hand.old.seat.table_id }
        ensures value { hand.old.seat.me.1 ≡ (0, Some result) ∷ [] }
        ensures held { hand.new.seat.me ≡ (hand.old.seat.me.0, (0, None) ∷ []) }
    {
        match self.table.shared.exchange(&mut hand.seat, 0, None) {
            Some(value) => value,
            None => unreachable!(),
        }
    }

    /// Waits until the ticket is served, and takes the value.
    fn wait(&self, rt: &impl Wait, hand: &mut Hand<V>, ticket: u64) -> V
        requires at { IsAt self.now.table.shared.table_id hand.old.seat.table_id }
        requires waits { IsWaiting ticket hand.old.seat.me }
        ensures at { hand.new.seat.table_id ≡ hand.old.seat.table_id }
        ensures base { hand.old.seat.me.0.base ≡ Some (V.base result) }
        ensures begins { IsPrefix hand.old.seat.me.0.seen (V.entries result) }
        ensures view { hand.new.seat.me ≡ (taken_view ticket (V.entries result) hand.old.seat.me.0, (0, None) ∷ []) }
    {
        for _ in rt.forever() {
            if self.look(hand, ticket) {
                return self.take(hand);
            }
            thread::yield_now();
        }
        unreachable!()
    }

    /// Reads the count, and so knows that the value's entries are all there are.
    fn learn(&self, hand: &mut Hand<V>) -> u64
        requires at { IsAt self.now.table.shared.table_id hand.old.seat.table_id }
        requires taken { HasTaken hand.old.seat.me }
        ensures at { hand.new.seat.table_id ≡ hand.old.seat.table_id }
        ensures learnt { Learnt hand.old.seat.me result hand.new.seat.me }
    {
        self.table.shared.load::<Learns>(&mut hand.seat, 2)
    }

    /// Waits for a turn, and takes the value.
    pub fn enter(&self, rt: &impl Wait, hand: &mut Hand<V>) -> V
        requires at { IsAt self.now.table.shared.table_id hand.old.seat.table_id }
        requires away { IsAway hand.old.seat.me }
        ensures at { hand.new.seat.table_id ≡ hand.old.seat.table_id }
        ensures base { hand.old.seat.me.0.base ≡ Some (V.base result) }
        ensures begins { IsPrefix hand.old.seat.me.0.seen (V.entries result) }
        ensures held { hand.new.seat.me.1 ≡ (0, None) ∷ [] }
        ensures view { (ticket : ℕ) × (hand.new.seat.me.0 ≡ entered_view ticket (V.entries result) hand.old.seat.me.0) }
    {
        let ticket = self.draw(hand);
        let value = self.wait(rt, hand, ticket);
        self.learn(hand);
        value
    }

    /// Puts the value back into the slot that the hand holds.
    fn put_back(&self, hand: &mut Hand<V>, value: V)
        requires at { IsAt self.now.table.shared.table_id hand.old.seat.table_id }
        requires empty { hand.old.seat.me.1 ≡ (0, None) ∷ [] }
        ensures at { hand.new.seat.table_id ≡ hand.old.seat.table_id }
        ensures held { hand.new.seat.me ≡ (hand.old.seat.me.0, (0, Some value) ∷ []) }
    {
        let nothing = self.table.shared.exchange(&mut hand.seat, 0, Some(value));
        drop(nothing);
    }

    /// Counts the entry that the value in the slot has more.
    fn count_entry(&self, hand: &mut Hand<V>)
        requires at { IsAt self.now.table.shared.table_id hand.old.seat.table_id }
        requires more { CanCount V.base V.entries (V.base self.now.table.shared.key.value) hand.old.seat.me }
        ensures at { hand.new.seat.table_id ≡ hand.old.seat.table_id }
        ensures counted { (found : ℕ) × Counted V.base V.entries hand.old.seat.me found hand.new.seat.me }
    {
        self.table.shared.fetch_add::<Counts>(&mut hand.seat, 2, 1);
    }

    /// Gives the slot back, with the value in it, and passes the turn on.
    fn pass_on(&self, hand: &mut Hand<V>)
        requires at { IsAt self.now.table.shared.table_id hand.old.seat.table_id }
        requires same { CanPassOn V.base V.entries (V.base self.now.table.shared.key.value) hand.old.seat.me }
        ensures at { hand.new.seat.table_id ≡ hand.old.seat.table_id }
        ensures passed { hand.new.seat.me ≡ (record hand.old.seat.me.0 { stage = Stage.Away }, []) }
    {
        self.table
            .shared
            .fetch_add::<PassesOn>(&mut hand.seat, 1, 1);
    }

    /// Leaves the turn with the entries that the value was taken with.
    pub fn leave(&self, hand: &mut Hand<V>, value: V)
        requires at { IsAt self.now.table.shared.table_id hand.old.seat.table_id }
        requires held { hand.old.seat.me.1 ≡ (0, None) ∷ [] }
        requires turn { IsInTurn hand.old.seat.me }
        requires base { V.base value ≡ V.base self.now.table.shared.key.value }
        requires entries { V.entries value ≡ hand.old.seat.me.0.seen }
        ensures at { hand.new.seat.table_id ≡ hand.old.seat.table_id }
        ensures left { hand.new.seat.me ≡ (record hand.old.seat.me.0 { stage = Stage.Away }, []) }
    {
        self.put_back(hand, value);
        self.pass_on(hand);
    }

    /// Leaves the turn with one more entry.
    pub fn leave_with_more(&self, hand: &mut Hand<V>, value: V)
        requires at { IsAt self.now.table.shared.table_id hand.old.seat.table_id }
        requires held { hand.old.seat.me.1 ≡ (0, None) ∷ [] }
        requires turn { IsInTurn hand.old.seat.me }
        requires base { V.base value ≡ V.base self.now.table.shared.key.value }
        requires entries { (entry : V.Entry) × (V.entries value ≡ hand.old.seat.me.0.seen ++ entry ∷ []) }
        requires fits { length (V.entries value) < 2 ^ 64 }
        ensures at { hand.new.seat.table_id ≡ hand.old.seat.table_id }
        ensures left { hand.new.seat.me ≡ (left_view (V.entries value) hand.old.seat.me.0, []) }
    {
        self.put_back(hand, value);
        self.count_entry(hand);
        self.pass_on(hand);
    }

    /// Splits a hand off, which has seen the same.
    pub fn split(&self, hand: &mut Hand<V>) -> Hand<V>
        requires at { IsAt self.now.table.shared.table_id hand.old.seat.table_id }
        requires away { IsAway hand.old.seat.me }
        requires share { 2 ≤ hand.old.seat.me.0.share }
        ensures at { hand.new.seat.table_id ≡ hand.old.seat.table_id }
        ensures part_at { result.seat.table_id ≡ hand.old.seat.table_id }
        ensures kept { hand.new.seat.me ≡ (kept_view hand.old.seat.me.0, []) }
        ensures part { result.seat.me ≡ (split_view hand.old.seat.me.0, []) }
    {
        Hand {
            seat: self.table.shared.split_seat::<Parts>(&mut hand.seat),
        }
    }

    /// Joins another hand into one: the longer view, and the sums.
    pub fn join(&self, hand: &mut Hand<V>, other: Hand<V>)
        requires at { IsAt self.now.table.shared.table_id hand.old.seat.table_id }
        requires away { IsAway hand.old.seat.me }
        requires other_at { other.seat.table_id ≡ self.now.table.shared.table_id }
        requires other_away { IsAway other.seat.me }
        ensures at { hand.new.seat.table_id ≡ hand.old.seat.table_id }
        ensures joined { hand.new.seat.me ≡ (joined_view hand.old.seat.me.0 other.seat.me.0, hand.old.seat.me.1) }
        ensures first { IsPrefix hand.old.seat.me.0.seen hand.new.seat.me.0.seen }
        ensures second { IsPrefix other.seat.me.0.seen hand.new.seat.me.0.seen }
    {
        let Hand { seat } = other;
        self.table.shared.join_seat::<Parts>(&mut hand.seat, seat);
        self.table.shared.load::<Compares>(&mut hand.seat, 1);
    }

    /// Ends the line, and gives the value.
    pub fn close(self, hand: Hand<V>) -> V
        requires at { IsAt self.table.shared.table_id hand.seat.table_id }
        requires away { IsAway hand.seat.me }
        requires share { hand.seat.me.0.share ≡ whole_share }
        ensures base { V.base result ≡ V.base self.table.shared.key.value }
        ensures begins { IsPrefix hand.seat.me.0.seen (V.entries result) }
        ensures count { length (V.entries result) ≡ length (V.entries self.table.shared.key.value) + hand.seat.me.0.mine }
    {
        let Line { table } = self;
        let Hand { seat } = hand;
        let mut closed = table.close_with(seat);
        let slot = closed.take(0);
        closed.free();
        match slot {
            Some(value) => value,
            None => unreachable!(),
        }
    }
}
