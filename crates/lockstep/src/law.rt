//! The laws.

ghost use Rattle.lockstep.specs.Seen.{GrantsAreSeenAlike};
ghost use Rattle.lockstep.specs.Solution.{TilesRunAlone, OneSolution, OnePassage, RingTilesAgree, RingFlitsAgree};
ghost use Rattle.lockstep.specs.Stays.{DoneStays, RunsStay};

/// Law: a tile of the machine in step is that tile by itself over the flits of its links.
pub fn tiles_run_alone<Tile, Flit>()
    ensures { TilesRunAlone Tile Flit }
{}

/// Law: tiles that were run one by one, over flits that their writers put, are the tiles of the machine in
/// step, and so is what they put on their links.
pub fn one_solution<Tile, Flit>()
    ensures tile { OneSolution Tile Flit }
    ensures link { OnePassage Tile Flit }
{}

/// Law: the same where the flits stand in rings.
pub fn rings_agree<Tile, Flit>()
    ensures tile { RingTilesAgree Tile Flit }
    ensures link { RingFlitsAgree Tile Flit }
{}

/// Law: grants that go on from others, each as it was but for an end in a slot or later, and more that begin
/// in that slot or later, are known as those are in every slot below it.
pub fn grants_are_seen_alike()
    ensures { GrantsAreSeenAlike }
{}

/// Law: the machine in step, and one tile by itself, depend in a slot on no grant that begins later and on
/// no end that comes later.
pub fn done_stays<Tile, Flit>()
    ensures machine { DoneStays Tile Flit }
    ensures tile { RunsStay Tile Flit }
{}
