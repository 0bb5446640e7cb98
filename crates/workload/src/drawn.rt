//! What one load of a session is drawn as.

/// The numbers that one load of a session is drawn as: a bundle of two parts, of which the first sends words
/// to the second.
#[derive(Clone, Copy, Debug, PartialEq, Eq)]
pub struct Drawn {
    /// The tile of the first part, from 0 to 15.
    pub tile: u8,
    /// How many links there are from it to the tile of the second part, from 1 to 3.
    pub hops: u8,
    /// The partition slot and the port of both parts, from 0 to 3.
    pub slot: u8,
    /// The injection slot of the channel to the second part, from 0 to 7.
    pub there: u8,
    /// The injection slot of the channel back, from 0 to 7.
    pub back: u8,
    /// How many words are sent, from 4 to 63.
    pub words: u8,
    /// By how many cycles the load comes after the beginning of its stretch, from 0 to 4095.
    pub offset: u16,
}
