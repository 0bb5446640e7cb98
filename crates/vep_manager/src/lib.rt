//! The manager of virtual execution platforms: sessions' commands, the replies that they get, and the
//! history that they make.
//!
//! `specs/Loads` names the load commands of a run, `specs/Setup` says what a sound setup is,
//! `specs/History` what a history means (grants and horizon), `specs/Replies` what each command is
//! answered, `specs/Legal` which histories are legal, complete and in rounds, `specs/Granted` what is true of
//! the grants of a legal history, `specs/Extended` what a longer history keeps of a shorter one, `specs/Manager`
//! what contracts see of a manager and `specs/Owners` what they see of its index of owners. `specs/inner` has
//! what only clauses of private functions cite.
#![tactic(auto)]

/// What each bundle of a catalog holds.
mod claims;
/// Whether a load's resources are held.
mod conflict;
/// The loads by name, and their grants.
mod granting;
/// How far the sessions have come.
mod horizon;
/// The load commands of a run.
mod loads;
/// Laws of setups and histories.
mod theorems;
/// Committing commands, one at a time.
mod manager;
/// Which of the grants hold a resource.
mod owners;
/// What a command is answered.
mod reply;
/// What a run knows beforehand.
mod setup;

/// Histories worked out by hand.
#[cfg(test)]
mod tests;

pub use granting::reply_grant;
pub use loads::named_loads;
pub use manager::Manager;
pub use owners::OwnerIndex;
pub use reply::{Entry, Reply};
pub use setup::Setup;
pub use theorems::{
    complete_histories_are_settled, empty_history_is_legal, horizons_are_within_the_budget,
    legal_grants_are_apart, loads_are_sound, longer_histories_keep_grants,
};
