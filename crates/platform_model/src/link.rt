//! Links between tiles.

/// A link from one tile's router to another's.
#[derive(Clone, Copy, Debug)]
pub struct Link {
    /// The tile that it leaves, counted from 0.
    pub from: u8,
    /// The port of that tile's router, below `ROUTER_PORTS`.
    pub out: u8,
    /// The tile that it enters, counted from 0.
    pub to: u8,
    /// The port of that tile's router, below `ROUTER_PORTS`.
    pub input: u8,
}
