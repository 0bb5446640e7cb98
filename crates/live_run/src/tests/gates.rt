//! Gates that hold workers up, or see how far they come.

use super::waiting::{wait_for, wait_turns};
use std::sync::atomic::{AtomicBool, Ordering};
use tile_workers::{Gate, Who};

/// A gate at which session 1 waits after its first command until tile 0 has done slot 4, and tile 0 waits after
/// slot 0 until session 1 has come to the gate with that command.
#[derive(Drop)]
pub struct Mutual {
    entered: AtomicBool,
    did_slot_0: AtomicBool,
    did_slot_4: AtomicBool,
    out_of_order: AtomicBool,
    gave_up: AtomicBool,
}

impl Mutual {
    /// A gate that nobody has come to.
    pub fn new() -> Mutual {
        Mutual {
            entered: AtomicBool::new(false),
            did_slot_0: AtomicBool::new(false),
            did_slot_4: AtomicBool::new(false),
            out_of_order: AtomicBool::new(false),
            gave_up: AtomicBool::new(false),
        }
    }

    fn hold(&self, until: &AtomicBool) {
        if !wait_for(until) {
            self.gave_up.store(true, Ordering::SeqCst);
        }
    }

    fn advanced(&self, slot: u64) {
        if slot == 0 {
            self.did_slot_0.store(true, Ordering::SeqCst);
            self.hold(&self.entered);
        }
        if slot == 4 {
            if !self.did_slot_0.load(Ordering::SeqCst) {
                self.out_of_order.store(true, Ordering::SeqCst);
            }
            self.did_slot_4.store(true, Ordering::SeqCst);
        }
    }

    /// Answers whether session 1 came to the gate with its first command.
    pub fn saw_command(&self) -> bool {
        self.entered.load(Ordering::SeqCst)
    }

    /// Answers whether tile 0 came to the gate with slot 4.
    pub fn saw_slot_4(&self) -> bool {
        self.did_slot_4.load(Ordering::SeqCst)
    }

    /// Answers whether it came with slot 4 and had not come with slot 0 before.
    pub fn out_of_order(&self) -> bool {
        self.out_of_order.load(Ordering::SeqCst)
    }

    /// Answers whether one of them went on before the other had come so far.
    pub fn gave_up(&self) -> bool {
        self.gave_up.load(Ordering::SeqCst)
    }
}

impl Gate for Mutual {
    fn pass(&self, who: Who) {
        match who {
            Who::Committed { session, index } => {
                if session == 1 && index == 1 {
                    self.entered.store(true, Ordering::SeqCst);
                    self.hold(&self.did_slot_4);
                }
            }
            Who::Advanced { tile, slot } => {
                if tile == 0 {
                    self.advanced(slot);
                }
            }
        }
    }
}

/// A gate that sees whether tiles 0 and 1 have done a slot.
#[derive(Drop)]
pub struct Lasts {
    slot: u64,
    first: AtomicBool,
    second: AtomicBool,
}

impl Lasts {
    /// A gate for this slot.
    pub fn new(slot: u64) -> Lasts {
        Lasts {
            slot,
            first: AtomicBool::new(false),
            second: AtomicBool::new(false),
        }
    }

    /// Answers whether both have come with the slot.
    pub fn saw_both(&self) -> bool {
        self.first.load(Ordering::SeqCst) && self.second.load(Ordering::SeqCst)
    }
}

impl Gate for Lasts {
    fn pass(&self, who: Who) {
        match who {
            Who::Committed { .. } => {}
            Who::Advanced { tile, slot } => {
                if slot == self.slot && tile == 0 {
                    self.first.store(true, Ordering::SeqCst);
                }
                if slot == self.slot && tile == 1 {
                    self.second.store(true, Ordering::SeqCst);
                }
            }
        }
    }
}

/// A gate at which every tile waits so many turns after its first slot.
#[derive(Drop)]
pub struct Slow {
    /// The turns.
    pub turns: u32,
}

impl Gate for Slow {
    fn pass(&self, who: Who) {
        match who {
            Who::Committed { .. } => {}
            Who::Advanced { tile: _, slot } => {
                if slot == 0 {
                    wait_turns(self.turns);
                }
            }
        }
    }
}
