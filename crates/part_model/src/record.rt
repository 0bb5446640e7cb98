//! What a cycle leaves in the log.

ghost use Rattle.std.specs.Prelude.{◌≡◌};
ghost use Rattle.part_model.specs.Answers.{traced};
ghost use Rattle.part_model.specs.Part.{log_after};

use rv_core::Outcome;
use trace_log::{Kind, PartEnd, PartLog, TraceRow};

/// What stays of a part while it runs: its tile, and the kinds of rows that it names, one bit a phase.
#[derive(Clone, Copy, Debug)]
pub struct Place {
    /// The tile, counted from 0.
    pub tile: u8,
    /// The set of kinds.
    pub kinds: u8,
}

/// Writes into a part's log what a cycle came to: a row of kind `step` for an instruction that was
/// completed, where the part names that kind, and the end of a part that ended. `pc` is the address of
/// the instruction. Takes no memory.
pub fn record_outcome(
    log: &mut PartLog,
    place: Place,
    cycle: u64,
    pc: u32,
    outcome: Option<Outcome>,
)
    ensures { log.new ≡ log_after place cycle pc outcome log.old }
{
    match outcome {
        None | Some(Outcome::Stall) => {}
        Some(Outcome::Next) => trace(log, place, cycle, Kind::Step, pc),
        Some(Outcome::Halt(code)) => {
            trace(log, place, cycle, Kind::Step, pc);
            log.finish(PartEnd::Halt { code, cycle });
        }
        Some(Outcome::Fault(cause)) => log.finish(PartEnd::Fault { cause, cycle }),
    }
}

/// Writes a row into a part's log, where the part names its kind. Takes no memory.
pub fn trace(log: &mut PartLog, place: Place, cycle: u64, kind: Kind, value: u32)
    ensures { log.new ≡ traced place cycle kind value log.old }
{
    if kind.is_in(place.kinds) {
        log.push(TraceRow {
            cycle,
            value,
            tile: place.tile,
            kind,
        });
    }
}
