//! The manager as a value that a lock keeps.

ghost use Rattle.std.specs.Prelude.{◌≡◌, length};

use turn_lock::Kept;
use vep_manager::{Entry, Manager, Setup};

/// A manager that a lock keeps: its setup never changes, and its history only grows.
#[derive(Drop)]
pub struct Held<'s> {
    pub(crate) manager: Manager<'s>,
}

impl<'s> Kept for Held<'s> {
    type Base = Setup;

    type Entry = Entry;

    ghost base = { λ h. h.manager.setup };

    ghost entries = { λ h. h.manager.history };

    fn count(&self) -> u64 {
        self.manager.history().len() as u64
    }
}
