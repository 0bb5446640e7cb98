//! The values of a bundle file as they stand there, before any rule has judged them.

use soc_base::{Items, Text};

/// The values of one channel, as they stand in a file.
#[derive(Debug, Drop)]
pub struct RawChannel {
    /// The links that it passes.
    pub path: Items<i64>,
    /// The slots in which it injects.
    pub slots: Items<i64>,
}

/// The values of one channel pair, as they stand in a file.
#[derive(Debug, Drop)]
pub struct RawPair {
    /// One end: a tile and a port.
    pub a: Items<i64>,
    /// The other end: a tile and a port.
    pub b: Items<i64>,
    /// The channel from `a` to `b`.
    pub there: RawChannel,
    /// The channel from `b` to `a`.
    pub back: RawChannel,
}

/// The values of one part, as they stand in a file.
#[derive(Debug, Drop)]
pub struct RawPart {
    /// The tile.
    pub tile: i64,
    /// The partition slots.
    pub slots: Items<i64>,
    /// The first byte of its region.
    pub base: i64,
    /// The number of bytes of its region.
    pub len: i64,
    /// The words of its image: none where the text isn't hexadecimal text of whole words.
    pub image: Option<Items<u32>>,
    /// The address at which it begins.
    pub entry: i64,
    /// How many rows its trace keeps.
    pub trace: i64,
    /// The names of what is traced.
    pub kinds: Items<Text>,
    /// The ports that it holds.
    pub ports: Items<i64>,
}

/// The values of a bundle file, as they stand there.
#[derive(Debug, Drop)]
pub struct RawBundle {
    /// The version of the form.
    pub version: i64,
    /// The parts, in the order of the file.
    pub parts: Items<RawPart>,
    /// The channel pairs, in the order of the file.
    pub pairs: Items<RawPair>,
}
