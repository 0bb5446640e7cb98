//! The laws.

ghost use Rattle.event_core.specs.Stands.{GrantsStand, LogsAreAlone};
ghost use Rattle.event_core.specs.Links.{LinksFollow, HopsAreDelay, NothingElseArrives};

/// Law: where all tiles are in step, every grant stands on every tile as its application would alone.
/// The world is sound, and the grants are apart and of its loads.
pub fn grants_stand()
    ensures { GrantsStand }
{}

/// Law: where all tiles are in step, each link carries what the application of the grant that claims it has
/// there alone, and is idle where none claims it.
pub fn links_follow()
    ensures { LinksFollow }
{}

/// Law: where all tiles are in step, a flit is delivered as many slots after its injection as its path has
/// links, at the port where its channel ends, and nothing else is delivered.
pub fn hops_are_delay()
    ensures arrives { HopsAreDelay }
    ensures alone { NothingElseArrives }
{}

/// Law: where all tiles are in step at the end of a run, the log of every grant on every tile is that
/// of its application alone.
pub fn logs_are_alone()
    ensures { LogsAreAlone }
{}
