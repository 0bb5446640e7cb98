//! A gate that counts the commands that come to it.

use std::sync::atomic::{AtomicU64, Ordering};
use tile_workers::{Gate, Who};

/// A number for a session's command: different commands of a run have different ones.
pub fn number(session: u8, index: u16) -> u64 {
    u64::from(session) * 65_536 + u64::from(index)
}

/// A gate that holds nobody up, and counts the commands that come to it, with the sum of their numbers.
#[derive(Drop)]
pub struct Counting {
    commands: AtomicU64,
    sum: AtomicU64,
}

impl Counting {
    /// Makes a gate that nobody has come to.
    pub fn new() -> Counting {
        Counting {
            commands: AtomicU64::new(0),
            sum: AtomicU64::new(0),
        }
    }

    /// Answers how many commands came, and the sum of their numbers.
    pub fn counted(&self) -> (u64, u64) {
        (
            self.commands.load(Ordering::SeqCst),
            self.sum.load(Ordering::SeqCst),
        )
    }
}

impl Gate for Counting {
    fn pass(&self, who: Who) {
        if let Who::Committed { session, index } = who {
            self.commands.fetch_add(1, Ordering::SeqCst);
            self.sum.fetch_add(number(session, index), Ordering::SeqCst);
        }
    }
}
