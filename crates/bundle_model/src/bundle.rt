//! The parts and channels of an application.

ghost use Rattle.std.specs.Prelude.{◌≡◌, ◌<◌, ◌==◌};
ghost use Rattle.std.specs.Int.{bit_at};
ghost use Rattle.soc_base.specs.Time.{is_among};
ghost use Rattle.soc_base.specs.Slots.{slots_of};

use soc_base::{Items, Region, has_slot};

/// One end of a channel pair.
#[derive(Clone, Copy, Debug)]
pub struct End {
    /// The tile, counted from 0.
    pub tile: u8,
    /// The port of the tile's network interface, counted from 0.
    pub port: u8,
}

/// A channel through the network (CompSOC: its words travel by time-division multiplexing, in
/// slots of its own).
#[derive(Debug, Drop)]
pub struct Channel {
    /// The links that it passes, in their order, as places in the platform's list.
    pub path: Items<u8>,
    /// The slots in which it injects, ascending.
    pub slots: Items<u8>,
}

/// Two channels between two ports, one in each direction.
#[derive(Debug, Drop)]
pub struct Pair {
    /// One end.
    pub a: End,
    /// The other end.
    pub b: End,
    /// The channel from `a` to `b`.
    pub there: Channel,
    /// The channel from `b` to `a`.
    pub back: Channel,
}

/// The part of an application on one tile.
#[derive(Debug, Drop)]
pub struct Part {
    /// The tile, counted from 0.
    pub tile: u8,
    /// Its partition slots, as a set: bit k is slot k.
    pub slots: u16,
    /// Its region of the tile's memory.
    pub region: Region,
    /// The words that stand at the region's beginning when it is granted.
    pub image: Items<u32>,
    /// The address in the region at which it begins.
    pub entry: u32,
    /// How many rows its trace keeps.
    pub trace: u32,
    /// What is traced, as a set: bit 0 is `word`, bit 1 `send`, bit 2 `recv` and bit 3 `step`.
    pub kinds: u8,
    /// The ports that it holds, in the order of the file.
    pub ports: Items<u8>,
}

impl Part {
    /// Answers whether the part has a partition slot, counted from 0 to 15.
    pub fn has_slot(&self, slot: u8) -> bool
        requires { slot < 16 }
        ensures among { result ≡ is_among slot (slots_of self.now.slots) }
        ensures bit { result ≡ (bit_at self.now.slots slot == 1) }
    {
        has_slot(self.slots, slot)
    }
}

/// An application: its parts, on different tiles, and its channel pairs.
#[derive(Debug, Drop)]
pub struct Bundle {
    /// The parts, in the order of the file.
    pub parts: Items<Part>,
    /// The channel pairs, in the order of the file.
    pub pairs: Items<Pair>,
}
