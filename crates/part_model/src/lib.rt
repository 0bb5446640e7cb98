//! One part of an application: a running cycle of its core on any bus, what its own bus answers, and
//! the log that a cycle leaves.
//!
//! `specs/Running` is the cycle (fetch, cost, effect), `specs/Answers` the memory and device registers
//! of a part, and `specs/Part` the part as a whole. The application alone and the physical tile are
//! both made of these.
#![tactic(auto)]

/// The device registers.
mod device;
/// What a cycle leaves in the log.
mod record;
/// The cycle of a running core.
mod running;

pub use cycle_table::DEVICE_BASE;
pub use device::{CYCLE, CYCLEH, FILL, PORT_BYTES, RECV, ROOM, SEND, TRACE};
pub use record::{Place, record_outcome, trace};
pub use running::{cost_at, effect, instr_at, left_after};
