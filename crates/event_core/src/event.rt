//! Events of the core, and what they come to.

/// One event: a session's next command is committed, or a tile takes its next slot.
#[derive(Clone, Copy, Debug, PartialEq, Eq)]
pub enum Event {
    /// The next command of this session, numbered from 1.
    Command(u8),
    /// The next slot of this tile, numbered from 0.
    Slot(u8),
}

/// Why an event isn't enabled.
#[derive(Clone, Copy, Debug, PartialEq, Eq)]
pub enum Why {
    /// The session's script is used up.
    Spent,
    /// The horizon, in slots, is at or below the tile's slot.
    Fence(u64),
    /// This link, by its place in the platform file, holds no flit for the tile.
    Waits(u8),
}

/// What an event came to.
#[derive(Clone, Copy, Debug, PartialEq, Eq)]
pub enum Step {
    /// It was done.
    Done,
    /// It isn't enabled, and changed nothing.
    Disabled(Why),
}
