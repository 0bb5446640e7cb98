//! Bundles (what an application brings: its parts and its channels), the rules by which their raw
//! values are judged for a platform, the resources that they hold, and what grants are.
//!
//! `specs/` has the meanings: `Sets` (bit sets as lists), `Rules` (the rules B4 to B14 and the
//! least that is broken), `Bundle` (the bundle that raw values mean), `WellFormed` (what a bundle
//! is that breaks no rule), `Resources` (what a bundle holds, and which resources meet),
//! `Grants` (grants that conflict, and grants that are apart) and `World` (a catalog of bundles, and
//! the loads that name them).
#![tactic(auto)]

/// Whether raw values break a rule.
mod broken;
/// The parts and channels of an application.
mod bundle;
/// What channel pairs claim of the network.
mod claims;
/// Whether a list of resources breaks a rule.
mod doubled;
/// Whether ports and channel pairs fit together.
mod joined;
/// Judging the raw values of a bundle file.
mod judge;
/// Making channel pairs of raw values.
mod pair;
/// Making parts of raw values.
mod part;
/// Whether channels lead along links.
mod path;
/// The values of a bundle file, before they are judged.
mod raw;
/// What an application holds of a platform.
mod resource;
/// The rules of bundle files.
mod rules;
/// Tests of what bundles hold.
#[cfg(test)]
mod claim_tests;
/// Tests of the rules of ports and pairs.
#[cfg(test)]
mod pair_tests;
/// Tests of the rules of parts.
#[cfg(test)]
mod part_tests;
/// Parts and pairs as rows of tables, for tests.
#[cfg(test)]
mod test_rows;
/// Tests of which resources meet, and of schedules.
#[cfg(test)]
mod tests;
/// What a run knows beforehand, and what is granted in it.
mod world;

pub use bundle::{Bundle, Channel, End, Pair, Part};
pub use judge::check;
pub use raw::{RawBundle, RawChannel, RawPair, RawPart};
pub use resource::{Resource, meets, resources};
pub use rules::{BRule, BundleFault};
pub use world::{Grant, LoadName, Named, Schedule, World};
