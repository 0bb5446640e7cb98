//! Finding the loads of a tile and their parts.

ghost use Rattle.std.specs.Prelude.{◌≡◌, position};
ghost use Rattle.std.specs.Option.{option_copied};
ghost use Rattle.bundle_model.specs.World.{same_label};
ghost use Rattle.tile_core.specs.Tile.{load_place, load_part};

use super::Tile;
use bundle_model::{LoadName, Part, World};
use soc_base::Label;

fn same_label(one: Label, other: Label) -> bool
    ensures { result ≡ same_label one other }
{
    one.session == other.session && one.load == other.load
}

// The place of a load, if it is among those.
fn place_of(loads: &[LoadName], label: Label) -> Option<usize>
    ensures { result ≡ position (λ load. same_label load.label label) loads.now }
{
    loads.iter().position(|load| same_label(load.label, label))
}

impl Tile {
    // The place of a load among those of the tile, if it has a part on it.
    pub(super) fn load_place(&self, label: Label) -> Option<usize>
        ensures { result ≡ load_place self.now label }
    {
        place_of(self.names.as_slice(), label)
    }

    // The part, on the tile, of the load at a place.
    pub(super) fn load_part<'w>(&self, world: &'w World, place: usize) -> Option<&'w Part>
        ensures { option_copied result ≡ load_part world.entry.now self.now place }
    {
        match self.names.as_slice().get(place) {
            Some(load) => world.part_on(self.number, load.bundle),
            None => None,
        }
    }
}
