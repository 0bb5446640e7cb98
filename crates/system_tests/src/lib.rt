//! Tests over whole setups: the texts of a platform, of bundles and of scripts are read and judged as the
//! program does it, and then run on one thread (`serial_run`), by threads (`live_run`) or event by event
//! (`event_core`).
//!
//! There is nothing here but tests: what a run does is proved in the crates below. `setups` reads a setup,
//! `texts` and `meshes` have platforms and bundles, and `checks` compares logs. What the other files expect
//! was worked out by hand from the cycles of the frame and of the slot tables.
#![tactic(auto)]

/// Platforms at the limits.
#[cfg(test)]
mod breadth_tests;
/// Comparing what tiles logged.
#[cfg(test)]
mod checks;
/// Commands and slots in other orders than the program's.
#[cfg(test)]
mod event_tests;
/// Places that are granted again while a word is on its way.
#[cfg(test)]
mod flit_tests;
/// Larger platforms, and bundles over them, as texts.
#[cfg(test)]
mod meshes;
/// Reading the setup of a run from texts.
#[cfg(test)]
mod setups;
/// Applications that are stopped while the microkernel switches.
#[cfg(test)]
mod switch_tests;
/// Platforms and bundles as texts.
#[cfg(test)]
mod texts;
/// A workload by threads.
#[cfg(test)]
mod workload_tests;
