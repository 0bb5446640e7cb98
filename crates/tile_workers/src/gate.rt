//! Where a thread of a run may be held up.

/// Who has come to a gate, and after what.
#[derive(Clone, Copy, Debug, PartialEq, Eq)]
pub enum Who {
    /// A session, once its command stands in the history.
    Committed {
        /// The session, counted from 1.
        session: u8,
        /// The command's number in the session's script, counted from 1.
        index: u16,
    },
    /// A tile, once it has done a slot.
    Advanced {
        /// The tile, counted from 0.
        tile: u8,
        /// The slot, counted from 0.
        slot: u64,
    },
}

/// A gate that all threads of a run share and come to between two steps of theirs. It may hold a thread
/// up, and so decides which of the possible orders comes about. It answers nothing and changes no result.
/// Where a run starts threads it asks for `G: Gate + Sync`.
pub trait Gate {
    /// Returns when this thread may go on.
    fn pass(&self, who: Who);
}

/// A gate that holds nobody up.
#[derive(Clone, Copy, Debug)]
pub struct Free;

impl Gate for Free {
    fn pass(&self, _who: Who) {}
}
