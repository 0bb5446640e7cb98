//! Files that are read whole, by name.

use std::alloc::Global;
use thiserror::Error;

/// Why a file was not read.
#[derive(Clone, Copy, Debug, PartialEq, Eq, Error)]
pub enum FilesFault {
    /// There is no file of the name.
    #[error("there is no such file")]
    Absent,
    /// The file has more than `MOST_FILE_BYTES` bytes.
    #[error("the file is too long")]
    TooLong,
    /// The file was not read, for a reason outside the program.
    #[error("the file was not read")]
    Failed,
    /// There was no memory for the file.
    #[error("there is no memory")]
    NoMemory,
}

/// Files that are read whole, by name.
///
/// `holds` is what is told of them: a list of names with their bytes, or nothing. `faults` is a count
/// that never falls, and rises where a read fails for a reason outside the program.
pub trait Files {
    ghost use Rattle.std.specs.Prelude.{◌≡◌, ℕ, ◌≤◌, [], length, Option, OnErr};
    ghost use Rattle.soc_io.specs.Reading.{Held, Reads};
    ghost use Rattle.soc_base.specs.declared.limits.TheConstants.{MOST_FILE_BYTES};

    ghost holds: { Self → Option Held };

    ghost faults: { Self → ℕ };

    /// Reads a file of at most `MOST_FILE_BYTES` bytes into `into`, in place of what stood there. After
    /// any refusal `into` is empty.
    fn read(&mut self, alloc: Global, name: &str, into: &mut Vec<u8>) -> Result<(), FilesFault>
        ensures answer { Reads (holds self.old) name.now (faults self.old) (faults self.new) into.new.items result }
        ensures size { length into.new.items ≤ MOST_FILE_BYTES }
        ensures refused { OnErr result (into.new.items ≡ []) }
        ensures same { holds self.new ≡ holds self.old }
        ensures counted { faults self.old ≤ faults self.new };
}
