//! The laws of slot tables under grants.

ghost use Rattle.grant_tables.specs.Law.{TablesBegin, TablesGoOn, InjectsAreRead, OutputsAreRead, DeliveriesAreRead};

/// Law: the tables of a tile hold the entries of the grants that stand, and no other, before the first slot,
/// and slot after slot by any grants that are apart.
pub fn tables_follow()
    ensures first { TablesBegin }
    ensures next { TablesGoOn }
{}

/// Law: what is looked up in such tables is what the channels of the standing grants claim: the port that
/// injects, what the links that leave the tile carry in the slot after, and what is delivered.
pub fn tables_are_read()
    ensures injects { InjectsAreRead }
    ensures outputs { OutputsAreRead }
    ensures deliveries { DeliveriesAreRead }
{}
