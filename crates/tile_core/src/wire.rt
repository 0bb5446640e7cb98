//! The ends of a tile's links.

ghost use Rattle.std.specs.Prelude.{◌<◌};

/// One end of a link, at a tile.
#[derive(Drop)]
pub struct Wire<E> {
    /// The link's place in the platform's list.
    pub link: u8,
    /// The output or input of the tile's router that the link leaves from or enters, from 0 to 6.
    pub place: u8,
    /// The end.
    pub end: E,
    pub ghost place_in_range: { place < 7 },
}
