//! A feed and a gate that count.

ghost use Rattle.std.specs.Prelude.{ℕ};

use crate::feed::Feed;
use crate::gate::{Gate, Who};
use bundle_model::Schedule;
use std::cell::Cell;
use vep_manager::Manager;

/// A feed that copies what a manager has committed, and counts how often it is asked.
#[derive(Drop)]
pub struct Watched<'m, 's> {
    /// The manager.
    pub manager: &'m Manager<'s>,
    /// How often the feed was asked, up to the greatest u64.
    pub asked: u64,
}

impl Feed for Watched<'_, '_> {
    ghost setup = { λ feed. feed.manager.now.setup };

    ghost seen = { λ feed. feed.manager.now.history };

    ghost Kept = { ℕ };

    ghost kept = { λ feed. 0 };

    ghost turns = { λ feed. feed.asked };

    fn refresh(&mut self, into: &mut Schedule) {
        self.manager.copy_since(into);
        self.asked = self.asked.saturating_add(1);
    }
}

/// A gate that holds nobody up, and counts the slots that were done.
#[derive(Drop)]
pub struct Counted {
    slots: Cell<u64>,
}

impl Counted {
    /// Makes a gate that nobody has come to.
    pub fn new() -> Counted {
        Counted {
            slots: Cell::new(0),
        }
    }

    /// Answers how many slots were done, up to the greatest u64.
    pub fn slots(&self) -> u64 {
        self.slots.get()
    }
}

impl Gate for Counted {
    fn pass(&self, who: Who) {
        if let Who::Advanced { .. } = who {
            self.slots.set(self.slots.get().saturating_add(1));
        }
    }
}
