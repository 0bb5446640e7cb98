//! How a request ends.

ghost use Rattle.std.specs.Prelude.{◌≡◌, ◌≤◌};
ghost use Rattle.soc_top.specs.Exchange.{SaysText};
ghost use Rattle.soc_top.specs.Faults.{fault_line, ending_status};

use crate::fault::{TopFault, status, write_fault};
use soc_io::Sink;

/// How a request ends.
#[derive(Debug, Drop)]
pub enum Ending {
    /// Its text was written.
    Done,
    /// A write of its text failed.
    Unwritten,
    /// It was refused.
    Refused(TopFault),
}

/// Ends a request by a fault, of which the line is written.
pub fn refuse<S: Sink>(fault: TopFault, sink: &mut S) -> Ending
    ensures refused { result ≡ Ending.Refused fault }
    ensures counted { S.faults sink.old ≤ S.faults sink.new }
    ensures line { SaysText S.written S.faults sink.old sink.new (fault_line fault) }
{
    write_fault(&fault, sink);
    Ending::Refused(fault)
}

/// Answers the status that a request ends with.
pub fn code(ending: &Ending) -> u8
    ensures { result ≡ ending_status ending.now }
{
    match ending {
        Ending::Done => 0,
        Ending::Unwritten => 6,
        Ending::Refused(fault) => status(fault),
    }
}
