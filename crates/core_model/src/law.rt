//! The laws.

ghost use Rattle.vep_manager.specs.Setup.{IsSound};
ghost use Rattle.core_model.specs.Law.{HistoriesStay, HistoryRunsStay, CoresAreInOrder, LeastMayGo, NoneIsReady};

use vep_manager::Setup;

/// Law: what was done below a horizon is the same after any further entries, for all tiles in step and for
/// one tile by itself.
pub fn histories_stay<Tile, Flit>(_setup: &Setup)
    requires { IsSound _setup.now }
    ensures machine { HistoriesStay Tile Flit _setup.now }
    ensures tile { HistoryRunsStay Tile Flit _setup.now }
{}

/// Law: after any events the history is legal, every tile is that of the machine in step at its own slot,
/// and every link holds the flits between its two tiles.
pub fn cores_are_in_order<Tile, Flit>(_setup: &Setup)
    requires { IsSound _setup.now }
    ensures { CoresAreInOrder Tile Flit _setup.now }
{}

/// Law: the tile of least slot may take its next slot, and there is none exactly at the horizon.
pub fn least_may_go<Tile, Flit>(_setup: &Setup)
    requires { IsSound _setup.now }
    ensures enabled { LeastMayGo Tile Flit _setup.now }
    ensures none { NoneIsReady Tile Flit _setup.now }
{}
