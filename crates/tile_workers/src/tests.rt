//! Groups of one and of two tiles, worked on to the end.

/// The setup of a run of two tiles.
mod fixture;
/// The work, turn by turn as it was counted by hand.
mod groups;
/// A feed and a gate that count.
mod watched;
