//! The log of one part.

ghost use Rattle.std.specs.Prelude.{◌≡◌, IfOk};

use crate::row::{PartEnd, TraceRow};
use soc_base::NoMemory;
use std::alloc::Global;
use std::marker::Model;

/// The log of one part: its first rows, up to a capacity that is fixed when the log is made, how many
/// more rows there were, and how the part ended.
#[derive(Debug, Drop)]
pub struct PartLog {
    rows: Vec<TraceRow>,
    capacity: u32,
    cut: u64,
    end: PartEnd,
}

impl Model for PartLog {
    ghost use Rattle.std.specs.Prelude.{◌≤◌, vec_len, vec_capacity};
    ghost use Rattle.trace_log.specs.Log.{Log};

    ghost Value = { Log };

    ghost view = { λ l. record { rows = l.rows.items; room = l.capacity; cut = l.cut; end = l.end } };

    ghost invariant = { λ l. (vec_len l.rows ≤ l.capacity) × (l.capacity ≤ vec_capacity l.rows) };
}

impl PartLog {
    ghost use Rattle.trace_log.specs.Log.{new_log, logged, finished};

    /// Makes an empty log of a live part, with room for `capacity` rows.
    pub fn new(alloc: Global, capacity: u32) -> Result<PartLog, NoMemory>
        ensures { IfOk result (λ l. l ≡ new_log capacity) }
    {
        let rows = Vec::with_capacity(alloc, capacity as usize)?;
        Ok(PartLog {
            rows,
            capacity,
            cut: 0,
            end: PartEnd::Live,
        })
    }

    /// Appends a row, or at capacity counts it as cut. The count stays at the greatest u64 once there.
    /// Takes no memory.
    #[tactic(auto, unfolding(crate::specs::Log::logged))]
    pub fn push(&mut self, row: TraceRow)
        ensures { self.new ≡ logged row self.old }
    {
        if self.rows.len() < self.capacity as usize {
            self.rows.push_reserved(row);
        } else {
            self.cut = self.cut.saturating_add(1);
        }
    }

    /// Sets how the part ended. Takes no memory.
    pub fn finish(&mut self, end: PartEnd)
        ensures { self.new ≡ finished end self.old }
    {
        self.end = end;
    }

    /// Answers the rows that were kept, the oldest first.
    pub fn rows(&self) -> &[TraceRow]
        ensures { result.now ≡ self.now.rows }
    {
        self.rows.as_slice()
    }

    /// Answers how many rows were cut.
    pub fn cut(&self) -> u64
        ensures { result ≡ self.now.cut }
    {
        self.cut
    }

    /// Answers how the part ended, or that it is live.
    pub fn end(&self) -> PartEnd
        ensures { result ≡ self.now.end }
    {
        self.end
    }
}
