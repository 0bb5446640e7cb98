//! Each kind of step on the lock's words: `ticket` (word 0), `serving` (word 1) and `count` (word 2). The
//! value lies in slot 0, which is empty while a thread holds the value.

ghost use Rattle.turn_lock.specs.Steps.{Drew, Looked, Learnt, Counted, PassedOn, Compared, kept_view, split_view, joined_view, spent_view};

use crate::kept::Kept;
use crate::view::View;
use atomic_table::{Join, Play, Seat, Split, Table, TableRule};
use std::alloc::Global;
use std::snapshot::Snapshot;

/// The rule that holds between any two steps of any threads.
pub struct InTurn;

impl<V: Kept> TableRule<Option<V>, View<V::Base, V::Entry>, Snapshot<V>> for InTurn {
    ghost use Rattle.std.specs.Prelude.{length};
    ghost use Rattle.turn_lock.specs.Rule.{Ordered, first_view};

    ghost holds = { λ key. Ordered V.base V.entries (V.base key.value) (length (V.entries key.value)) };

    ghost first = { λ key. first_view (V.base key.value) (V.entries key.value) };
}

/// The words and the slot of a lock.
pub type Board<V> = Table<
    Option<V>,
    View<<V as Kept>::Base, <V as Kept>::Entry>,
    Snapshot<V>,
    InTurn,
    Global,
>;

/// A thread's place at a board.
pub type Place<V> = Seat<Option<V>, View<<V as Kept>::Base, <V as Kept>::Entry>>;

/// A ticket is drawn: `ticket` goes up by 1.
pub struct Draws;

impl<V: Kept> Play<Option<V>, View<V::Base, V::Entry>> for Draws {
    ghost then = { λ s v found w. Drew v found w };
}

/// `serving` is read.
pub struct Looks;

impl<V: Kept> Play<Option<V>, View<V::Base, V::Entry>> for Looks {
    ghost then = { λ s v found w. Looked V.base V.entries v found w };
}

/// `count` is read.
pub struct Learns;

impl<V: Kept> Play<Option<V>, View<V::Base, V::Entry>> for Learns {
    ghost then = { λ s v found w. Learnt v found w };
}

/// An entry is counted: `count` goes up by 1.
pub struct Counts;

impl<V: Kept> Play<Option<V>, View<V::Base, V::Entry>> for Counts {
    ghost then = { λ s v found w. Counted V.base V.entries v found w };
}

/// The turn is passed on: `serving` goes up by 1.
pub struct PassesOn;

impl<V: Kept> Play<Option<V>, View<V::Base, V::Entry>> for PassesOn {
    ghost then = { λ s v found w. PassedOn v found w };
}

/// The lists of a join are compared.
pub struct Compares;

impl<V: Kept> Play<Option<V>, View<V::Base, V::Entry>> for Compares {
    ghost then = { λ s v found w. Compared v found w };
}

/// A view is split in two, or two views are joined.
pub struct Parts;

impl<B, E> Split<View<B, E>> for Parts {
    ghost left = { kept_view };

    ghost right = { split_view };
}

impl<B, E> Join<View<B, E>> for Parts {
    ghost both = { joined_view };

    ghost spent = { spent_view };
}
