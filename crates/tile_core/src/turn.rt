//! What a try of a slot comes to.

/// What a station lacks for its next slot, in the order in which it is judged.
#[derive(Clone, Copy, Debug, PartialEq, Eq)]
pub enum Lack {
    /// The slot lies at or above the horizon.
    Fence,
    /// The ring of this link, of those that leave the tile, handed back the flit that was offered.
    Out(u8),
    /// The ring of this link, of those that enter the tile, gave no flit.
    In(u8),
}

/// What a try of a slot came to.
#[derive(Clone, Copy, Debug, PartialEq, Eq)]
pub enum Turn {
    /// The tile did its slot.
    Moved,
    /// The tile stays as it was.
    NotYet(Lack),
}
