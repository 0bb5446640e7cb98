//! A gate that holds a session back.

use super::waiting::wait_for;
use std::sync::atomic::{AtomicBool, Ordering};
use tile_workers::{Gate, Who};

/// A gate at which one session waits, after its first command, until another has committed its last.
#[derive(Drop)]
pub struct Holding {
    // The session that is held, and the one that it is held for, with the number of its last command.
    held: u8,
    other: u8,
    last: u16,
    ended: AtomicBool,
    gave_up: AtomicBool,
}

impl Holding {
    /// Holds one session until another has committed this command.
    pub fn new(held: u8, other: u8, last: u16) -> Holding {
        Holding {
            held,
            other,
            last,
            ended: AtomicBool::new(false),
            gave_up: AtomicBool::new(false),
        }
    }

    // Waits for the end of the other session.
    fn wait(&self) {
        if !wait_for(&self.ended) {
            self.gave_up.store(true, Ordering::SeqCst);
        }
    }

    /// Answers whether the session went on before the other had ended.
    pub fn gave_up(&self) -> bool {
        self.gave_up.load(Ordering::SeqCst)
    }
}

impl Gate for Holding {
    fn pass(&self, who: Who) {
        match who {
            Who::Committed { session, index } => {
                if session == self.other && index == self.last {
                    self.ended.store(true, Ordering::SeqCst);
                }
                if session == self.held && index == 1 {
                    self.wait();
                }
            }
            Who::Advanced { .. } => {}
        }
    }
}
