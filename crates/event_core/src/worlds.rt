//! The laws of a core after any events, and of two cores.

ghost use Rattle.vep_manager.specs.Setup.{IsSound};
ghost use Rattle.event_core.specs.Worlds.{CoresAreInStep, CoresFit, CoresStand, CoreLinksFollow, TwoWorlds};

use vep_manager::Setup;

/// Law: after any events the history is legal, each tile is at or below the horizon and is that of all tiles
/// in step at its own slot, each link holds the flits between its two tiles, and what is installed on a tile
/// is what stands at its slot.
pub fn cores_are_in_step(_setup: &Setup)
    requires { IsSound _setup.now }
    ensures step { CoresAreInStep _setup.now }
    ensures fits { CoresFit _setup.now }
{}

/// Law: after any events every grant stands on every tile, each tile at its own slot, as its application
/// would alone, and each link holds what the application has there alone, and is idle where none has it.
pub fn cores_stand(_setup: &Setup)
    requires { IsSound _setup.now }
    ensures grants { CoresStand _setup.now }
    ensures links { CoreLinksFollow _setup.now }
{}

/// Law: the logs of two grants with one bundle, start and stop, on tiles of one number of one platform, are
/// one, whatever else was asked for in the two worlds and whatever events came.
pub fn two_worlds()
    ensures { TwoWorlds }
{}
