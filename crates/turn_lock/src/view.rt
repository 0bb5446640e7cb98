//! What a thread knows of the lock. No value of these types is made: contracts and the rule speak of them.

use std::collections::LinkedList;

/// Where a thread stands in line.
pub enum Stage<E> {
    /// It holds no ticket.
    Away,
    /// It holds this ticket.
    Waits(u64),
    /// It knows that the ticket which it holds is served. It has taken the value, which then had these
    /// entries, and it may have read the count since.
    Holds(u64, LinkedList<E>, bool),
}

/// What a thread knows.
pub struct View<B, E> {
    /// The base of the lock's value. None where the view is spent, since it was joined into another.
    pub base: Option<B>,
    /// How many entries the value had when the lock was made.
    pub start: u64,
    /// The entries that were seen.
    pub seen: LinkedList<E>,
    /// The shorter list of the last join; at first the entries of the value.
    pub met: LinkedList<E>,
    /// How many entries were added.
    pub mine: u64,
    /// How many turns were entered.
    pub entered: u64,
    /// The share; 0 where the view is spent.
    pub share: u64,
    /// Where the thread stands in line.
    pub stage: Stage<E>,
}
