//! A sink that is written.

use thiserror::Error;

/// Why bytes were not all written.
#[derive(Clone, Copy, Debug, PartialEq, Eq, Error)]
pub enum SinkFault {
    /// The write failed, for a reason outside the program.
    #[error("the write failed")]
    Failed,
}

/// A sink that is written.
///
/// `written` is what was written so far, where that is told. `faults` is a count that never falls,
/// and rises where a write fails.
pub trait Sink {
    ghost use Rattle.std.specs.Prelude.{ℕ, ◌≤◌, List, Option};
    ghost use Rattle.soc_io.specs.Writing.{Writes};

    ghost written: { Self → Option (List ℕ) };

    ghost faults: { Self → ℕ };

    /// Appends bytes. After a failure a front of them was appended, maybe none, and the sink may be
    /// written again.
    fn write(&mut self, bytes: &[u8]) -> Result<(), SinkFault>
        ensures answer { Writes bytes.now (written self.old) (faults self.old)
            (written self.new) (faults self.new) result }
        ensures counted { faults self.old ≤ faults self.new };
}
