//! The platform that is emulated: its tiles, its network and what an instruction costs, and the
//! rules by which the numbers of a platform file are judged.
//!
//! `specs/` has the meanings: `Limits` (tests of raw numbers), `Links` (what is asked of links),
//! `Rules` (the rules P4 to P12 and the least that is broken), `Words` (the words of the rules),
//! `Platform` (a platform's raw numbers, and the times of its frame) and `Plain` (the platform from
//! which tests begin).
#![tactic(auto)]

/// Whether raw numbers break a rule.
mod broken;
/// Judging the raw numbers of a platform file.
mod check;
/// What instructions cost.
mod costs;
/// Links between tiles.
mod link;
/// The platform.
mod platform;
/// Tests of raw numbers.
mod range;
/// The numbers of a platform file, before they are judged.
mod raw;
/// The rules of platform files.
mod rules;

pub use costs::Costs;
pub use link::Link;
pub use platform::Platform;
pub use range::{divides, is_between};
pub use raw::{DEFAULT_COSTS, RawCosts, RawLink, RawPlatform};
pub use rules::{PRule, PlatformFault};
