//! A part of a tile's memory, and the widths in which it is read and written.

/// A range of a tile's memory. A part sees it at the addresses 0 to `len - 1`.
#[derive(Clone, Copy, Debug, PartialEq, Eq)]
pub struct Region {
    /// The first byte's place in the tile's memory.
    pub base: u32,
    /// The number of bytes.
    pub len: u32,
}

/// How much a load or a store moves.
#[derive(Clone, Copy, Debug, PartialEq, Eq)]
pub enum Width {
    /// One byte.
    Byte,
    /// Two bytes.
    Half,
    /// Four bytes.
    Word,
}
