//! Waiting for another thread, but not for ever.

use crossbeam_utils::Backoff;
use std::sync::atomic::{AtomicBool, Ordering};

// How many turns a thread that is held waits at most.
const MOST_TURNS: u32 = 16_777_216;

/// Waits until a flag is set, for 16,777,216 turns at most. Answers whether it was set.
pub fn wait_for(flag: &AtomicBool) -> bool {
    let backoff = Backoff::new();
    for _turn in 0..MOST_TURNS {
        if flag.load(Ordering::SeqCst) {
            return true;
        }
        backoff.snooze();
    }
    false
}

/// Waits so many turns.
pub fn wait_turns(turns: u32) {
    let backoff = Backoff::new();
    for _turn in 0..turns {
        backoff.snooze();
    }
}
