//! Laws of setups and of legal histories. Each is a function that does nothing and whose contract is the
//! law.

ghost use Rattle.std.specs.Prelude.{◌≡◌, []};
ghost use Rattle.bundle_model.specs.World.{IsSoundWorld};
ghost use Rattle.vep_manager.specs.Setup.{IsSound};
ghost use Rattle.vep_manager.specs.History.{grants_of};
ghost use Rattle.vep_manager.specs.Legal.{IsLegal, CompleteIsSettled};
ghost use Rattle.vep_manager.specs.Granted.{GrantsStayApart, GrantsAreEarly};
ghost use Rattle.vep_manager.specs.Extended.{LegalHistoriesGoOn, HorizonsAreWithin};

use crate::setup::Setup;

/// The catalog and the loads of a sound setup are sound: no two loads have one label, and each names a
/// bundle file of the catalog.
#[tactic(auto, using(crate::proofs::SetupLemmas::sound_world))]
pub fn loads_are_sound(_setup: &Setup)
    requires { IsSound _setup.now }
    ensures { IsSoundWorld _setup.now.world _setup.now.loads }
{}

/// The grants of a legal history of a sound setup can all be kept. Each is of one of the loads, there are
/// no more than loads, and they begin and end less than a slot above the greatest stated cycle.
pub fn legal_grants_are_apart(_setup: &Setup)
    requires { IsSound _setup.now }
    ensures apart { GrantsStayApart _setup.now }
    ensures granted { GrantsAreEarly _setup.now }
{}

/// The empty history is legal and grants nothing.
#[tactic(auto, using(crate::proofs::Standing::legal_none, crate::proofs::Settled::grants_none))]
pub fn empty_history_is_legal(_setup: &Setup)
    ensures legal { IsLegal _setup.now [] }
    ensures no_grants { grants_of _setup.now [] ≡ [] }
{}

/// The horizon of a complete history is the budget.
#[tactic(auto, using(crate::proofs::Settled::horizon_complete))]
pub fn complete_histories_are_settled(_setup: &Setup)
    ensures { CompleteIsSettled _setup.now }
{}

/// A legal history of a sound setup keeps what each history that it begins with settled. That history is
/// legal too, and its horizon is no higher. Its grants keep their places, labels, bundles, starts and
/// ends, but that an open one may end at its horizon or later, and all further grants begin there or
/// later.
pub fn longer_histories_keep_grants(_setup: &Setup)
    requires { IsSound _setup.now }
    ensures { LegalHistoriesGoOn _setup.now }
{}

/// The horizon of every history is at most the budget.
#[tactic(auto, using(crate::proofs::Horizons::horizon_within))]
pub fn horizons_are_within_the_budget(_setup: &Setup)
    ensures { HorizonsAreWithin _setup.now }
{}
