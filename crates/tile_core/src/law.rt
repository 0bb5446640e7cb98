//! The law of one tile.

ghost use Rattle.tile_core.specs.Law.{TilesBegin, TilesGoOn, HoldsFirst, HoldsPorts, HoldsNext};
ghost use Rattle.tile_core.specs.Paced.{TilesArePaced};

/// Law: a tile is of its world and loads, and what is installed on it, parts and entries of the slot tables
/// alike, are the grants that stand, before its first slot and after every slot by any grants that are apart.
pub fn tile_fits()
    ensures first { TilesBegin }
    ensures next { TilesGoOn }
{}

/// Law: a tile holds the parts of its loads, each as it is by itself, before its first slot, and slot
/// after slot by any grants that are apart.
pub fn tile_holds()
    ensures first { HoldsFirst }
    ensures ports { HoldsPorts }
    ensures next { HoldsNext }
{}

/// Law: a tile looks in a slot at no grant that begins later and at no end that comes later.
pub fn tiles_are_paced()
    ensures { TilesArePaced }
{}
